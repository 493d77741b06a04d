// What judging comes to: recording, installing, settling, closing.
ghost use Rattle.std.specs.Prelude.{◌≡◌};
ghost use Rattle.manager.specs.Effects.{closed, raised, component_page, component_row, spare_page, spare_row, installing, settling, carried_out, posts_of, recording, recorded_message, next_of, next_component, member_entry, newcomer_entry, entry_of, judged, judged_again};

use super::answer::Answer;
use super::terms::Terms;
use super::verdict::Verdict;
use quorum::{QuorumRule, Replica, ReplicaSet};
use rounds::Outcome;
use rows::{
    Applied, Body, Confirmed, Entered, Gathered, Message, Part, Posts, Recorders, Row, Stage,
};
use stores::{Head, Mode, Number, Page, Recorded, View};

// The head closes: idle, with nothing lost or heard.
pub(crate) fn close(row: &mut Row)
    ensures { row.new ≡ closed row.old }
{
    row.lost = ReplicaSet::EMPTY;
    row.stage = Stage::Idle;
}

// The mark raised to a number.
fn raise(mark: Option<Number>, number: Number) -> Number
    ensures { result ≡ raised mark number.0 }
{
    mark.map_or(number, |mark| mark.max(number))
}

// A view becomes the component view, its set the survivors, and the head closes.
fn hold(page: &mut Page, row: &mut Row, view: View)
    ensures page { page.new ≡ component_page page.old page.old.mark view }
    ensures row { row.new ≡ component_row row.old view }
{
    page.mode = Mode::Normal;
    page.component = Some(view);
    page.recorded = None;
    close(row);
    row.survivors = view.set;
}

// The replica becomes a spare: waiting, with neither view, the mark kept. Beside `hold`: one function for both would be given an
// absent view and ask for it twice, which is no plainer.
pub(crate) fn spare(page: &mut Page, row: &mut Row)
    ensures page { page.new ≡ spare_page page.old }
    ensures row { row.new ≡ spare_row row.old }
{
    page.mode = Mode::Waiting;
    page.component = None;
    page.recorded = None;
    close(row);
    row.survivors = ReplicaSet::EMPTY;
}

// The recorded view becomes the component view.
fn install(page: &mut Page, row: &mut Row)
    ensures page { page.new ≡ (installing page.old row.old Posts.Nothing page.old.recorded).page }
    ensures row { row.new ≡ (installing page.old row.old Posts.Nothing page.old.recorded).row }
{
    let Some(recorded) = page.recorded else {
        close(row);
        return;
    };
    hold(page, row, recorded.view);
}

// A round ends: with no view, on one that holds the replica, or on one that leaves it out.
fn settle(replica: Replica, page: &mut Page, row: &mut Row, settled: Option<View>)
    ensures page { page.new ≡ (settling replica page.old row.old Posts.Nothing Outcome.Spare settled).page }
    ensures row { row.new ≡ (settling replica page.old row.old Posts.Nothing Outcome.Spare settled).row }
{
    let Some(view) = settled else {
        close(row);
        return;
    };
    if view.set.contains(replica.number()) {
        page.mark = Some(raise(page.mark, view.number));
        hold(page, row, view);
    } else {
        spare(page, row);
    }
}

// Carries a verdict out; recording is carried out before.
pub(crate) fn carry_out(
    replica: Replica,
    page: &mut Page,
    row: &mut Row,
    posts: Posts,
    verdict: Verdict,
) -> Answer
    ensures answer { result ≡ (carried_out replica page.old row.old posts verdict).answer }
    ensures page { page.new ≡ (carried_out replica page.old row.old posts verdict).page }
    ensures row { row.new ≡ (carried_out replica page.old row.old posts verdict).row }
{
    let mut ended = None;
    match verdict {
        Verdict::Stays | Verdict::Records => {}
        Verdict::Installs => install(page, row),
        Verdict::Reconfigures => {
            page.mode = Mode::Reconfiguration;
            close(row);
        }
        Verdict::Closes => close(row),
        Verdict::Forgets => {
            page.mode = Mode::Waiting;
            page.recorded = None;
            close(row);
        }
        Verdict::Ends(outcome, settled) => {
            settle(replica, page, row, settled);
            ended = Some((outcome, settled));
        }
    }
    Answer { posts, ended }
}

// The messages, one after another.
pub(crate) fn posts_of(first: Option<Message>, second: Option<Message>) -> Posts
    ensures { result ≡ posts_of first second }
{
    match (first, second) {
        (None, None) => Posts::Nothing,
        (None, Some(message)) => Posts::One(message),
        (Some(message), None) => Posts::One(message),
        (Some(first), Some(second)) => Posts::Two(first, second),
    }
}

// What a replica tells under its head.
pub(crate) fn message(replica: Replica, head: Head, body: Body) -> Message
    ensures { result ≡ record { sender = replica; head = head; body = body } }
{
    Message {
        sender: replica.number(),
        head,
        body,
    }
}

// Sets the recorded view, raises the mark to it, and gives the message that tells of it.
fn write_entry(replica: Replica, page: &mut Page, head: Head, number: Number, part: Part) -> Message
    ensures message { result ≡ recorded_message replica head number.0 part }
    ensures page { page.new ≡ recording page.old.mode page.old head number.0 }
{
    page.mark = Some(raise(page.mark, number));
    page.recorded = Some(Recorded {
        view: View {
            number,
            set: head.set,
        },
        stamp: head.stamp,
    });
    message(replica, head, Body::Recorded(number, part))
}

// The number after one; the highest has none.
fn next_number(number: Number) -> Option<Number>
    ensures { result ≡ next_of number }
{
    if number < Number::HIGHEST {
        Some(Number(number.0 + 1))
    } else {
        None
    }
}

// A member records the head with its component view's number plus one. Its own Recorded counts as heard. An absent view goes by
// `else`: a rule of the project.
fn record_member(
    replica: Replica,
    page: &mut Page,
    row: &mut Row,
    head: Head,
    gathered: Gathered,
) -> Option<Message>
    ensures message { result ≡ (member_entry replica page.old row.old head gathered (next_component page.old.component)).message }
    ensures page { page.new ≡ (member_entry replica page.old row.old head gathered (next_component page.old.component)).page }
    ensures row { row.new ≡ (member_entry replica page.old row.old head gathered (next_component page.old.component)).row }
{
    let Some(component) = page.component else {
        return None;
    };
    let Some(number) = next_number(component.number) else {
        return None;
    };
    let confirmed = Confirmed {
        recorders: gathered.recorders.with(replica.number(), Part::Member),
        answered: gathered.answered,
    };
    row.stage = Stage::Confirming(head, confirmed);
    Some(write_entry(replica, page, head, number, Part::Member))
}

// A newcomer records the head with the reference's number plus one, and joins. An absent reference goes by `else`, as above.
fn record_newcomer(
    replica: Replica,
    page: &mut Page,
    row: &mut Row,
    head: Head,
    applied: Applied,
) -> Option<Message>
    ensures message { result ≡ (newcomer_entry replica page.old row.old head applied.reference).message }
    ensures page { page.new ≡ (newcomer_entry replica page.old row.old head applied.reference).page }
    ensures row { row.new ≡ (newcomer_entry replica page.old row.old head applied.reference).row }
{
    let Some(reference) = applied.reference else {
        return None;
    };
    let Some(number) = next_number(reference.component.number) else {
        return None;
    };
    let entered = Entered {
        reference,
        recorders: Recorders::NOBODY.with(replica.number(), Part::Newcomer),
    };
    row.stage = Stage::Entering(head, entered);
    page.mode = Mode::Joining;
    Some(write_entry(replica, page, head, number, Part::Newcomer))
}

// The head is recorded.
#[tactic(auto, unfolding(crate::specs::Effects::entry_of))]
pub(crate) fn record(replica: Replica, page: &mut Page, row: &mut Row) -> Option<Message>
    ensures message { result ≡ (entry_of replica page.old row.old).message }
    ensures page { page.new ≡ (entry_of replica page.old row.old).page }
    ensures row { row.new ≡ (entry_of replica page.old row.old).row }
{
    match row.stage {
        Stage::Gathering(head, gathered) => record_member(replica, page, row, head, gathered),
        Stage::Applying(head, applied) => record_newcomer(replica, page, row, head, applied),
        _ => None,
    }
}

impl<R: QuorumRule> Terms<'_, R> {
    // The head is recorded, and judged.
    pub(crate) fn record_and_judge(
        &self,
        page: &mut Page,
        row: &mut Row,
        first: Option<Message>,
    ) -> Answer
        ensures answer { result ≡ (judged_again (R.carries self.now.rule.now) self.now.need self.now.replica first (entry_of self.now.replica page.old row.old)).answer }
        ensures page { page.new ≡ (judged_again (R.carries self.now.rule.now) self.now.need self.now.replica first (entry_of self.now.replica page.old row.old)).page }
        ensures row { row.new ≡ (judged_again (R.carries self.now.rule.now) self.now.need self.now.replica first (entry_of self.now.replica page.old row.old)).row }
    {
        let second = record(self.replica, page, row);
        let verdict = self.judge(page, row);
        carry_out(self.replica, page, row, posts_of(first, second), verdict)
    }

    // The head is judged, and again after a recording; `first` is a message that the call posts before.
    pub(crate) fn judge_head(
        &self,
        page: &mut Page,
        row: &mut Row,
        first: Option<Message>,
    ) -> Answer
        ensures answer { result ≡ (judged (R.carries self.now.rule.now) self.now.need self.now.replica page.old row.old first).answer }
        ensures page { page.new ≡ (judged (R.carries self.now.rule.now) self.now.need self.now.replica page.old row.old first).page }
        ensures row { row.new ≡ (judged (R.carries self.now.rule.now) self.now.need self.now.replica page.old row.old first).row }
    {
        let verdict = self.judge(page, row);
        let Verdict::Records = verdict else {
            return carry_out(self.replica, page, row, posts_of(first, None), verdict);
        };
        self.record_and_judge(page, row, first)
    }
}

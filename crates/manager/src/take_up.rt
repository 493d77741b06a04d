// Taking up a view.
ghost use Rattle.std.specs.Prelude.{◌≡◌, None};
ghost use Rattle.manager.specs.Calls.{report_message, own_reports, beginning, thinned, gathering_row, applying_row, member_takes_up, normal_takes_up, taking_up};

use super::answer::Answer;
use super::effect::{carry_out, message, posts_of};
use super::terms::Terms;
use quorum::{QuorumRule, Replica, ReplicaSet};
use rounds::Report;
use rows::{Applied, Body, Gathered, Message, Recorders, Row, Stage};
use stores::{Head, Mode, Page, View};

// The replica's own report under a head.
pub(crate) fn report_message(replica: Replica, head: Head, page: &Page) -> Message
    ensures { result ≡ report_message replica head page.now }
{
    message(replica, head, Body::Report(Report::from(page)))
}

// The reports of a round that begins: the replica's own.
fn own_reports(replica: Replica, page: &Page) -> [Option<Report>; 16]
    ensures { result ≡ own_reports replica page.now }
{
    let mut reports = [None; 16];
    reports[replica.index()] = Some(Report::from(page));
    reports
}

fn gather(replica: Replica, row: &mut Row, head: Head)
    ensures { row.new ≡ gathering_row replica row.old head }
{
    let gathered = Gathered {
        states: ReplicaSet::of(replica.number()),
        recorders: Recorders::NOBODY,
        answered: false,
    };
    row.stage = Stage::Gathering(head, gathered);
}

fn apply(row: &mut Row, head: Head)
    ensures { row.new ≡ applying_row row.old head }
{
    let applied = Applied {
        joins: ReplicaSet::EMPTY,
        states: ReplicaSet::EMPTY,
        reference: None,
    };
    row.stage = Stage::Applying(head, applied);
}

// Survivors keep only the view's members.
fn thin(row: &mut Row, head: Head)
    ensures { row.new ≡ thinned row.old head }
{
    row.survivors = row.survivors.intersection(head.set);
}

impl<R: QuorumRule> Terms<'_, R> {
    // A round begins with the replica's Report, after `first`.
    fn begin_round(
        &self,
        page: &mut Page,
        row: &mut Row,
        head: Head,
        first: Option<Message>,
    ) -> Answer
        ensures answer { result ≡ (beginning (R.carries self.now.rule.now) self.now.need self.now.replica page.old row.old head first).answer }
        ensures page { page.new ≡ (beginning (R.carries self.now.rule.now) self.now.need self.now.replica page.old row.old head first).page }
        ensures row { row.new ≡ (beginning (R.carries self.now.rule.now) self.now.need self.now.replica page.old row.old head first).row }
    {
        row.stage = Stage::Round(head, own_reports(self.replica, page));
        let posts = posts_of(first, Some(report_message(self.replica, head, page)));
        let verdict = self.judge(page, row);
        carry_out(self.replica, page, row, posts, verdict)
    }

    // A member takes up a view.
    fn member_takes_up(&self, page: &mut Page, row: &mut Row, head: Head, component: View) -> Answer
        ensures answer { result ≡ (member_takes_up (R.carries self.now.rule.now) self.now.need self.now.replica page.old row.old head component).answer }
        ensures page { page.new ≡ (member_takes_up (R.carries self.now.rule.now) self.now.need self.now.replica page.old row.old head component).page }
        ensures row { row.new ≡ (member_takes_up (R.carries self.now.rule.now) self.now.need self.now.replica page.old row.old head component).row }
    {
        if !self.rule.carries(row.survivors, component.set) {
            page.mode = Mode::Reconfiguration;
            let abort = message(self.replica, head, Body::Abort);
            return self.begin_round(page, row, head, Some(abort));
        }
        gather(self.replica, row, head);
        if head.set.is_subset(row.survivors) {
            return self.record_and_judge(page, row, None);
        }
        let state = message(self.replica, head, Body::State(component, row.survivors));
        self.judge_head(page, row, Some(state))
    }

    fn normal_takes_up(&self, page: &mut Page, row: &mut Row, head: Head) -> Answer
        ensures answer { result ≡ (normal_takes_up (R.carries self.now.rule.now) self.now.need self.now.replica page.old row.old head page.old.component).answer }
        ensures page { page.new ≡ (normal_takes_up (R.carries self.now.rule.now) self.now.need self.now.replica page.old row.old head page.old.component).page }
        ensures row { row.new ≡ (normal_takes_up (R.carries self.now.rule.now) self.now.need self.now.replica page.old row.old head page.old.component).row }
    {
        let Some(component) = page.component else {
            return Answer::quiet();
        };
        thin(row, head);
        self.member_takes_up(page, row, head, component)
    }

    // The top stamp becomes the view's stamp, and the view becomes the head.
    pub(crate) fn take_up(&self, page: &mut Page, row: &mut Row, head: Head) -> Answer
        ensures answer { result ≡ (taking_up (R.carries self.now.rule.now) self.now.need self.now.replica page.old row.old head).answer }
        ensures page { page.new ≡ (taking_up (R.carries self.now.rule.now) self.now.need self.now.replica page.old row.old head).page }
        ensures row { row.new ≡ (taking_up (R.carries self.now.rule.now) self.now.need self.now.replica page.old row.old head).row }
    {
        page.top = head.stamp;
        match page.mode {
            Mode::Waiting => {
                apply(row, head);
                let join = message(self.replica, head, Body::Join);
                self.judge_head(page, row, Some(join))
            }
            Mode::Joining => Answer::quiet(),
            Mode::Normal => self.normal_takes_up(page, row, head),
            Mode::Reconfiguration => self.begin_round(page, row, head, None),
        }
    }
}

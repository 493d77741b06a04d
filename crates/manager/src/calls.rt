// The calls of a host, each on one page and one row. Any argument is allowed: a call does its work or is refused, and
// then page and row are as they were. Rule, need and replica come one by one, since a host's calls keep their parameters; within,
// they are one value (`Terms`).
ghost use Rattle.std.specs.Prelude.{◌≡◌};
ghost use Rattle.manager.specs.Calls.{following, heard_or_not, losing, started, viewed, delivered, lost_at, stopped_at, started_at, answer_of, page_left, row_left};
ghost use Rattle.manager.specs.Effects.{in_mode};
ghost use Rattle.manager.specs.Hearing.{hears};

use super::answer::Answer;
use super::effect::{close, spare};
use super::hear::hear;
use super::hearing::Hearing;
use super::need::Need;
use super::refuse::{check_call, check_delivery, check_loss, check_start, check_view};
use super::take_up::report_message;
use super::terms::Terms;
use quorum::{Fault, Layer, QuorumRule, Replica};
use rounds::Outcome;
use rows::{Message, Posts, Row};
use stores::{Head, Mode, Page};

// The replica takes up a view, announced under a stamp.
#[tactic(auto, unfolding(crate::specs::Calls::viewed))]
pub fn view<R: QuorumRule>(
    rule: &R,
    need: Need,
    replica: u8,
    page: &mut Page,
    row: &mut Row,
    head: Head,
) -> Result<Answer, Fault>
    ensures answer { result ≡ answer_of (viewed (R.carries rule.now) need replica page.old row.old head) }
    ensures page { page.new ≡ page_left page.old (viewed (R.carries rule.now) need replica page.old row.old head) }
    ensures row { row.new ≡ row_left row.old (viewed (R.carries rule.now) need replica page.old row.old head) }
{
    let replica = check_view(replica, page, row, head)?;
    let terms = Terms {
        rule,
        need,
        replica,
    };
    Ok(terms.take_up(page, row, head))
}

impl<R: QuorumRule> Terms<'_, R> {
    // What follows from a message that was heard under the head.
    fn follow(&self, page: &mut Page, row: &mut Row, head: Head, hearing: Hearing) -> Answer
        ensures answer { result ≡ (following (R.carries self.now.rule.now) self.now.need self.now.replica page.old row.old head hearing).answer }
        ensures page { page.new ≡ (following (R.carries self.now.rule.now) self.now.need self.now.replica page.old row.old head hearing).page }
        ensures row { row.new ≡ (following (R.carries self.now.rule.now) self.now.need self.now.replica page.old row.old head hearing).row }
    {
        match hearing {
            Hearing::Heard => self.judge_head(page, row, None),
            Hearing::Answered => {
                let report = report_message(self.replica, head, page);
                self.judge_head(page, row, Some(report))
            }
            Hearing::Outdone => {
                spare(page, row);
                Answer {
                    posts: Posts::Nothing,
                    ended: Some((Outcome::Spare, None)),
                }
            }
            Hearing::Aborted => {
                close(row);
                Answer::quiet()
            }
        }
    }

    fn hear_and_follow(
        &self,
        page: &mut Page,
        row: &mut Row,
        sender: Replica,
        message: &Message,
    ) -> Result<Answer, Fault>
        ensures answer { result ≡ answer_of (heard_or_not (R.carries self.now.rule.now) self.now.need self.now.replica page.old row.old message.now.head (hears page.old row.old sender message.now.body)) }
        ensures page { page.new ≡ page_left page.old (heard_or_not (R.carries self.now.rule.now) self.now.need self.now.replica page.old row.old message.now.head (hears page.old row.old sender message.now.body)) }
        ensures row { row.new ≡ row_left row.old (heard_or_not (R.carries self.now.rule.now) self.now.need self.now.replica page.old row.old message.now.head (hears page.old row.old sender message.now.body)) }
    {
        let replica = self.replica.number();
        let hearing = hear(page, row, sender, message).map_err(|reason| reason.at(
            replica,
            Layer::Manager,
        ))?;
        Ok(self.follow(page, row, message.head, hearing))
    }
}

// A message is delivered to the replica.
#[tactic(auto, unfolding(crate::specs::Calls::delivered))]
pub fn deliver<R: QuorumRule>(
    rule: &R,
    need: Need,
    replica: u8,
    page: &mut Page,
    row: &mut Row,
    message: &Message,
) -> Result<Answer, Fault>
    ensures answer { result ≡ answer_of (delivered (R.carries rule.now) need replica page.old row.old message.now) }
    ensures page { page.new ≡ page_left page.old (delivered (R.carries rule.now) need replica page.old row.old message.now) }
    ensures row { row.new ≡ row_left row.old (delivered (R.carries rule.now) need replica page.old row.old message.now) }
{
    let (replica, sender) = check_delivery(replica, page, row, message)?;
    let terms = Terms {
        rule,
        need,
        replica,
    };
    terms.hear_and_follow(page, row, sender, message)
}

#[inline(always)]
fn mark_lost(row: &mut Row, lost: u8)
    ensures { row.new ≡ losing row.old lost }
{
    row.lost = row.lost.with(lost);
}

// A replica of the head is lost to this one.
#[inline(always)]
#[tactic(auto, unfolding(crate::specs::Calls::lost_at))]
pub fn lose<R: QuorumRule>(
    rule: &R,
    need: Need,
    replica: u8,
    page: &mut Page,
    row: &mut Row,
    lost: u8,
) -> Result<Answer, Fault>
    ensures answer { result ≡ answer_of (lost_at (R.carries rule.now) need replica page.old row.old lost) }
    ensures page { page.new ≡ page_left page.old (lost_at (R.carries rule.now) need replica page.old row.old lost) }
    ensures row { row.new ≡ row_left row.old (lost_at (R.carries rule.now) need replica page.old row.old lost) }
{
    let replica = check_loss(replica, page, row, lost)?;
    let terms = Terms {
        rule,
        need,
        replica,
    };
    mark_lost(row, lost);
    Ok(terms.judge_head(page, row, None))
}

// The replica stops: its row is down and empty, its page as it was.
#[inline(always)]
#[tactic(auto, unfolding(crate::specs::Calls::stopped_at))]
pub fn stop(replica: u8, page: &Page, row: &mut Row) -> Result<Answer, Fault>
    ensures answer { result ≡ answer_of (stopped_at replica page.now row.old) }
    ensures page { page.now ≡ page_left page.now (stopped_at replica page.now row.old) }
    ensures row { row.new ≡ row_left row.old (stopped_at replica page.now row.old) }
{
    check_call(replica, page, row)?;
    *row = Row::empty(false);
    Ok(Answer::quiet())
}

// A start turns normal and joining into reconfiguration.
#[inline(always)]
fn turn_mode(page: &mut Page)
    ensures { page.new ≡ in_mode (started page.old.mode) page.old }
{
    page.mode = match page.mode {
        Mode::Waiting => Mode::Waiting,
        Mode::Joining | Mode::Normal | Mode::Reconfiguration => Mode::Reconfiguration,
    };
}

// The replica starts: its row is up and empty.
#[inline(always)]
#[tactic(auto, unfolding(crate::specs::Calls::started_at))]
pub fn start(replica: u8, page: &mut Page, row: &mut Row) -> Result<Answer, Fault>
    ensures answer { result ≡ answer_of (started_at replica page.old row.old) }
    ensures page { page.new ≡ page_left page.old (started_at replica page.old row.old) }
    ensures row { row.new ≡ row_left row.old (started_at replica page.old row.old) }
{
    check_start(replica, page, row)?;
    turn_mode(page);
    *row = Row::empty(true);
    Ok(Answer::quiet())
}

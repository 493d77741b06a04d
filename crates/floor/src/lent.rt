// The manager's work on one row, which the table lends.
ghost use Rattle.std.specs.Prelude.{◌≡◌, slice_set};
ghost use Rattle.manager.specs.Calls.{answer_of, page_left, row_left};
ghost use Rattle.runs.specs.Founding.{row_at};
ghost use Rattle.floor.specs.Tasks.{managed, lent};

use super::floor::Floor;
use super::task::Task;
use manager::{Answer, Need};
use quorum::{Fault, QuorumRule, Replica};
use rows::Row;
use stores::{Breakable, Page};

// The manager does a task on a page and a row. Rule, need and replica come one by one, as the host's calls take them.
#[inline(always)]
fn manage<R: QuorumRule>(
    rule: &R,
    need: Need,
    replica: u8,
    page: &mut Page,
    row: &mut Row,
    task: Task,
) -> Result<Answer, Fault>
    ensures answer { result ≡ answer_of (managed (R.carries rule.now) need replica page.old row.old task) }
    ensures page { page.new ≡ page_left page.old (managed (R.carries rule.now) need replica page.old row.old task) }
    ensures row { row.new ≡ row_left row.old (managed (R.carries rule.now) need replica page.old row.old task) }
{
    match task {
        Task::View(head) => manager::view(rule, need, replica, page, row, head),
        Task::Deliver(message) => manager::deliver(rule, need, replica, page, row, &message),
        Task::Loss(lost) => manager::lose(rule, need, replica, page, row, lost),
        Task::Start => manager::start(replica, page, row),
        Task::Stop => manager::stop(replica, page, row),
    }
}

impl<R: QuorumRule + Copy, S: Breakable> Floor<R, S> {
    // The rule is copied out, and the table lends one row to the manager.
    #[inline(always)]
    pub(crate) fn lend(
        &mut self,
        replica: Replica,
        page: &mut Page,
        task: Task,
    ) -> Result<Answer, Fault>
        ensures answer { result ≡ answer_of
            (lent (R.QuorumRule.carries self.old.rule) self.old.need self.old.table.rows replica page.old task) }
        ensures page { page.new ≡ page_left page.old
            (lent (R.QuorumRule.carries self.old.rule) self.old.need self.old.table.rows replica page.old task) }
        ensures floor { self.new ≡ record self.old {
          table = record {
            rows = slice_set self.old.table.rows replica
                (row_left (row_at self.old.table.rows replica)
                (lent (R.QuorumRule.carries self.old.rule) self.old.need self.old.table.rows replica page.old task));
          };
        } }
    {
        let rule = self.rule;
        let need = self.need;
        let row = self.table.row_mut(replica);
        manage(&rule, need, replica.number(), page, row, task)
    }
}

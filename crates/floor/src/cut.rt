// A call that is cut off in its page's write, and a stop.
ghost use Rattle.std.specs.Prelude.{◌≡◌, List, OnOk, OnErr};
ghost use Rattle.rows.specs.declared.message.Message.{Message};
ghost use Rattle.runs.specs.Steps.{CutOff, Stopped};
ghost use Rattle.runs.specs.World.{Broken, Same};
ghost use Rattle.floor.specs.Cuts.{TornAt, LeftAt};
ghost use Rattle.floor.specs.Parts.{as_failure, PutBack, Tested, Torn};
ghost use Rattle.floor.specs.Worlds.{world};

use super::accepted::Accepted;
use super::floor::Floor;
use super::task::Task;
use manager::Answer;
use quorum::{Failure, Fault, QuorumRule};
use rows::{Message, Row};
use runs::Work;
use stores::{Breakable, Store};

impl<R: QuorumRule + Copy, S: Breakable> Floor<R, S> {
    // The page's write is broken off; refused as the write would be.
    #[inline(always)]
    fn cut_page(&mut self, post: &[Message], accepted: &Accepted, n: u64) -> Result<(), Fault>
        ensures test { Tested
            (world S.Store.pages S.Store.places self.old post.now) accepted.now (as_failure result) }
        ensures torn { OnOk result (Torn
            (world S.Store.pages S.Store.places self.old post.now) accepted.now
            (world S.Store.pages S.Store.places self.new post.now)) }
        ensures left { OnOk result (TornAt (S.Breakable.leaves self.old.store) n
            (world S.Store.pages S.Store.places self.old post.now) accepted.now
            (world S.Store.pages S.Store.places self.new post.now)) }
        ensures refused { OnErr result (Same
            (world S.Store.pages S.Store.places self.old post.now)
            (world S.Store.pages S.Store.places self.new post.now)) }
        ensures rule { self.new.rule ≡ self.old.rule }
    {
        accepted.check_room(post)?;
        self.store.cut(accepted.kept, n)
    }

    // The row is stopped, or refused put back as it was before.
    #[inline(always)]
    fn break_off(
        &mut self,
        post: &[Message],
        accepted: &Accepted,
        before: &Row,
        n: u64,
    ) -> Result<(), Fault>
        ensures test { Tested
            (world S.Store.pages S.Store.places self.old post.now) accepted.now (as_failure result) }
        ensures broken { OnOk result (Broken
            (world S.Store.pages S.Store.places self.old post.now)
            (world S.Store.pages S.Store.places self.new post.now)
            accepted.now.kept.replica accepted.now.kept.page) }
        ensures left { OnOk result (TornAt (S.Breakable.leaves self.old.store) n
            (world S.Store.pages S.Store.places self.old post.now) accepted.now
            (world S.Store.pages S.Store.places self.new post.now)) }
        ensures refused { OnErr result (PutBack
            (world S.Store.pages S.Store.places self.old post.now) accepted.now before.now
            (world S.Store.pages S.Store.places self.new post.now)) }
        ensures rule { self.new.rule ≡ self.old.rule }
    {
        match self.cut_page(post, accepted, n) {
            Ok(()) => {
                self.put_back(accepted.kept.replica, Row::empty(false));
                Ok(())
            }
            Err(fault) => {
                self.put_back(accepted.kept.replica, *before);
                Err(fault)
            }
        }
    }

    // The call is refused as it would be whole; accepted, nothing is posted and the row is stopped.
    #[inline(always)]
    pub(crate) fn cut_off(
        &mut self,
        post: &[Message],
        work: Work,
        n: u64,
    ) -> Result<Answer, Failure>
        ensures cut { CutOff (R.QuorumRule.carries self.old.rule)
            (world S.Store.pages S.Store.places self.old post.now) work result
            (world S.Store.pages S.Store.places self.new post.now) }
        ensures left { OnOk result (LeftAt (S.Breakable.leaves self.old.store) (R.QuorumRule.carries self.old.rule) n
            (world S.Store.pages S.Store.places self.old post.now) work
            (world S.Store.pages S.Store.places self.new post.now)) }
        ensures rule { self.new.rule ≡ self.old.rule }
    {
        let before = self.row_before(work);
        let accepted = self.accept(post, work)?;
        self.break_off(post, &accepted, &before, n)?;
        Ok(Answer::quiet())
    }

    // A stop leaves the row down and empty; it writes no page.
    #[inline(always)]
    pub(crate) fn halt(&mut self, replica: u8) -> Result<Answer, Failure>
        ensures stopped { (post : List Message) → Stopped (R.QuorumRule.carries self.old.rule)
            (world S.Store.pages S.Store.places self.old post) replica result
            (world S.Store.pages S.Store.places self.new post) }
        ensures rule { self.new.rule ≡ self.old.rule }
    {
        let replica = self.check_up(replica)?;
        let mut page = self.store.read(replica);
        let answer = self.lend(replica, &mut page, Task::Stop)?;
        Ok(answer)
    }
}

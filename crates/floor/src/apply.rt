// One call of any kind, with any arguments: the floor's public call, which carries the findings.
// The functions through which a call's page, row and answer pass are inlined: these are large, and pass through memory where one
// function hands them to another.
ghost use Rattle.std.specs.Prelude.{◌≡◌, ◌+◌, ◌<◌, ◌≤◌, List, [], ◌∷◌, ◌++◌, Err, vec_len, vec_capacity};
ghost use Rattle.quorum.specs.declared.fault.Failure.TheVariants.{NoMemory};
ghost use Rattle.runs.specs.Findings.{Findings};
ghost use Rattle.runs.specs.Runs.{Taken, Run, end_of, Founded};
ghost use Rattle.runs.specs.Steps.{Step};
ghost use Rattle.runs.specs.World.{World};
ghost use Rattle.stores.specs.declared.view.View.{View};
ghost use Rattle.floor.specs.Cuts.{CutLeaves};
ghost use Rattle.floor.specs.Memory.{LacksRoom};
ghost use Rattle.floor.specs.Worlds.{world};

use super::floor::Floor;
use manager::Answer;
use quorum::{Failure, QuorumRule};
use rows::Message;
use runs::Call;
use stores::Breakable;

impl<R: QuorumRule + Copy, S: Breakable> Floor<R, S> {
    // Makes one call; an accepted cut leaves of its page what the store says of its cuts. No memory is
    // found only where the post's capacity lacks room for what the call posts. Whatever run led here from
    // an accepted founding, its calls and this one have the three findings.
    #[inline(always)]
    pub fn apply(&mut self, post: &mut Vec<Message>, call: Call) -> Result<Answer, Failure>
        ensures step { Step (R.QuorumRule.carries self.old.rule)
            (world S.Store.pages S.Store.places self.old post.old.items) call result
            (world S.Store.pages S.Store.places self.new post.new.items) }
        ensures cut { CutLeaves (S.Breakable.leaves self.old.store) (R.QuorumRule.carries self.old.rule)
            (world S.Store.pages S.Store.places self.old post.old.items) call result
            (world S.Store.pages S.Store.places self.new post.new.items) }
        ensures lacking { result ≡ Err NoMemory → LacksRoom (R.QuorumRule.carries self.old.rule)
            (world S.Store.pages S.Store.places self.old post.old.items) call (vec_capacity post.old) }
        ensures memory { result ≡ Err NoMemory → vec_capacity post.old < vec_len post.old + 2 }
        ensures rule { self.new.rule ≡ self.old.rule }
        ensures capacity { vec_capacity post.old ≤ vec_capacity post.new }
        ensures findings { (first : View) (w : World) (before : List Taken)
            → Founded first w → Run (R.QuorumRule.carries self.old.rule) w before
            → end_of w before ≡ world S.Store.pages S.Store.places self.old post.old.items
            → Findings (R.QuorumRule.carries self.old.rule) first w
            (before ++ (record {
              call = call;
              answer = result;
              world = world S.Store.pages S.Store.places self.new post.new.items;
            }) ∷ []) }
    {
        self.step(post, call)
    }

    #[inline(always)]
    pub(crate) fn step(&mut self, post: &mut Vec<Message>, call: Call) -> Result<Answer, Failure>
        ensures step { Step (R.QuorumRule.carries self.old.rule)
            (world S.Store.pages S.Store.places self.old post.old.items) call result
            (world S.Store.pages S.Store.places self.new post.new.items) }
        ensures cut { CutLeaves (S.Breakable.leaves self.old.store) (R.QuorumRule.carries self.old.rule)
            (world S.Store.pages S.Store.places self.old post.old.items) call result
            (world S.Store.pages S.Store.places self.new post.new.items) }
        ensures lacking { result ≡ Err NoMemory → LacksRoom (R.QuorumRule.carries self.old.rule)
            (world S.Store.pages S.Store.places self.old post.old.items) call (vec_capacity post.old) }
        ensures rule { self.new.rule ≡ self.old.rule }
        ensures capacity { vec_capacity post.old ≤ vec_capacity post.new }
    {
        match call {
            Call::Whole(work) => self.carry_out(post, work),
            Call::Cut(work, n) => self.cut_off(post, work, n),
            Call::Stop(replica) => self.halt(replica),
        }
    }
}

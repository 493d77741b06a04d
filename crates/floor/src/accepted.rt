// A call that the manager accepted: what is still to be done for it.
ghost use Rattle.std.specs.Prelude.{◌≡◌, ◌<◌, IfOk};
ghost use Rattle.quorum.specs.Faults.{refused_if, allowed};
ghost use Rattle.quorum.specs.declared.fault.Reason.TheVariants.{PostFull};
ghost use Rattle.runs.specs.Founding.{row_at};
ghost use Rattle.runs.specs.World.{floor_refusal, replica_of};
ghost use Rattle.floor.specs.Parts.{crowded, Asked};
ghost use Rattle.floor.specs.Tasks.{wants_room};
ghost use Rattle.floor.specs.Worlds.{world};

use super::floor::Floor;
use manager::Answer;
use quorum::{Fault, Layer, QuorumRule, Reason, Replica, refuse_if};
use rows::{Message, Row};
use runs::Work;
use stores::{Breakable, KeptPage, Store};

#[derive(Clone, Copy)]
pub struct Accepted {
    // The page, not written yet.
    pub kept: KeptPage,
    // It wants room in the post.
    pub limited: bool,
    pub answer: Answer,
}

// A view or delivery wants room in the post.
#[inline(always)]
fn wants_room(work: Work) -> bool
    ensures { result ≡ wants_room work }
{
    matches!(work, Work::View(_, _) | Work::Deliver(_, _))
}

impl Accepted {
    // Where it wants room, two places are free in the post of 65,536.
    #[inline(always)]
    pub(crate) fn check_room(&self, post: &[Message]) -> Result<(), Fault>
        ensures { result ≡ allowed
            (refused_if (crowded self.now post.now) (floor_refusal PostFull self.now.kept.replica)) }
    {
        let crowded = self.limited && post.len() >= 65_535;
        let replica = self.kept.replica.number();
        refuse_if(crowded, Reason::PostFull.at(replica, Layer::Floor))
    }
}

impl<R: QuorumRule + Copy, S: Breakable> Floor<R, S> {
    // The row at which a call is made, as it is before the call; where there is no such replica any row, since the call will be
    // refused. Kept beside `Accepted`: a row holds a round's sixteen reports, and would be copied with it.
    #[inline(always)]
    pub(crate) fn row_before(&self, work: Work) -> Row
        ensures { replica_of work < 16 → result ≡ row_at self.now.table.rows (replica_of work) }
    {
        let replica = Replica::new(work.replica()).unwrap_or(Replica::all()[0]);
        *self.table.row(replica)
    }

    // The manager's work, by which the row is changed already; refused, nothing is.
    #[inline(always)]
    pub(crate) fn accept(&mut self, post: &[Message], work: Work) -> Result<Accepted, Fault>
        ensures asked { Asked (R.QuorumRule.carries self.old.rule)
            (world S.Store.pages S.Store.places self.old post.now) work result
            (world S.Store.pages S.Store.places self.new post.now) }
        ensures within { IfOk result (λ accepted. accepted.kept.replica < 16) }
        ensures rule { self.new.rule ≡ self.old.rule }
        ensures store { self.new.store ≡ self.old.store }
    {
        let (replica, task) = self.task(post, work)?;
        let mut page = self.store.read(replica);
        let answer = self.lend(replica, &mut page, task)?;
        Ok(Accepted {
            kept: KeptPage { replica, page },
            limited: wants_room(work),
            answer,
        })
    }
}

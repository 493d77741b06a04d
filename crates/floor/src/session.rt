// A floor with its post from an accepted founding on, whatever calls were made since.
ghost use Rattle.std.specs.Prelude.{◌≡◌, ◌≢◌, ◌+◌, ◌<◌, ◌≤◌, None, Some, Err};
ghost use Rattle.std.specs.Prelude.{IfErr, IfOk, MatchResult, OnErr, OnOk, vec_len, vec_capacity};
ghost use Rattle.quorum.specs.Faults.{allowed};
ghost use Rattle.quorum.specs.Members.{size};
ghost use Rattle.quorum.specs.declared.fault.Failure.TheVariants.{NoMemory};
ghost use Rattle.runs.specs.Founding.{founding_refusal, Founding};
ghost use Rattle.runs.specs.Steps.{Step};
ghost use Rattle.stores.specs.Writings.{SpentBy};
ghost use Rattle.floor.specs.Cuts.{CutLeaves};
ghost use Rattle.floor.specs.Led.{LedTo, CallWithFindings};
ghost use Rattle.floor.specs.Memory.{LacksRoom};
ghost use Rattle.floor.specs.Worlds.{world};

use super::floor::Floor;
use manager::{Answer, Need};
use quorum::{Failure, Fault, QuorumRule};
use rows::Message;
use runs::Call;
use stores::{Breakable, View};

#[derive(Drop)]
pub struct Session<R: QuorumRule + Copy, S: Breakable> {
    floor: Floor<R, S>,
    post: Vec<Message>,
    // Only an accepted founding and the calls after it lead here. Which run that was is no data of the
    // program: some run is.
    ghost led: { ∥ LedTo (R.QuorumRule.carries floor.rule)
        (world S.Store.pages S.Store.places floor post.items) ∥₁ },
}

// A floor and its post as they were before a founding that was refused, and why it was.
#[derive(Drop)]
pub struct Unfounded<R, S> {
    pub floor: Floor<R, S>,
    pub post: Vec<Message>,
    pub fault: Fault,
}

impl<R: QuorumRule + Copy, S: Breakable> Session<R, S> {
    // The founding by which a session begins. Refused, nothing is lost: floor and post come back as
    // they were.
    pub fn found(
        floor: Floor<R, S>,
        post: Vec<Message>,
        view: View,
        need: Need,
    ) -> Result<Session<R, S>, Unfounded<R, S>>
        ensures answer { MatchResult result
            (λ _. founding_refusal view
            (S.Store.pages floor.store) (S.Store.places floor.store) ≡ None)
            (λ unfounded. founding_refusal view
            (S.Store.pages floor.store) (S.Store.places floor.store) ≡ Some unfounded.fault) }
        ensures founded { IfOk result (λ session. Founding view need
            (S.Store.pages session.floor.store) session.floor.table.rows session.floor.need
            session.post.items) }
        ensures rule { IfOk result (λ session. session.floor.rule ≡ floor.rule) }
        ensures places { IfOk result (λ session. SpentBy (size view.set.0)
            (S.Store.places floor.store) (S.Store.places session.floor.store)) }
        ensures capacity { IfOk result
            (λ session. vec_capacity session.post ≡ vec_capacity post) }
        ensures kept { IfErr result
            (λ unfounded. (unfounded.floor ≡ floor) × (unfounded.post ≡ post)) }
    {
        let mut floor = floor;
        let mut post = post;
        match floor.found(&mut post, view, need) {
            Ok(()) => Ok(Session { floor, post }),
            Err(fault) => Err(Unfounded { floor, post, fault }),
        }
    }

    // Founds once more: refused as a floor's founding is, and accepted the beginning of another run.
    pub fn found_again(&mut self, view: View, need: Need) -> Result<(), Fault>
        ensures answer { result ≡ allowed (founding_refusal view
            (S.Store.pages self.old.floor.store) (S.Store.places self.old.floor.store)) }
        ensures founded { OnOk result (Founding view need
            (S.Store.pages self.new.floor.store) self.new.floor.table.rows self.new.floor.need
            self.new.post.items) }
        ensures rule { self.new.floor.rule ≡ self.old.floor.rule }
        ensures places { OnOk result (SpentBy (size view.set.0)
            (S.Store.places self.old.floor.store) (S.Store.places self.new.floor.store)) }
        ensures capacity { vec_capacity self.new.post ≡ vec_capacity self.old.post }
        ensures kept { OnErr result
            ((self.new.floor ≡ self.old.floor) × (self.new.post ≡ self.old.post)) }
    {
        self.floor.found(&mut self.post, view, need)
    }

    // Makes one call of any kind, with any arguments. Some run from an accepted founding led here, and
    // with this call it has the three findings, and its worlds are in order. With room for 65,536
    // messages no call finds no memory.
    #[inline(always)]
    pub fn call(&mut self, call: Call) -> Result<Answer, Failure>
        ensures step { Step (R.QuorumRule.carries self.old.floor.rule)
            (world S.Store.pages S.Store.places self.old.floor self.old.post.items) call result
            (world S.Store.pages S.Store.places self.new.floor self.new.post.items) }
        ensures cut { CutLeaves (S.Breakable.leaves self.old.floor.store)
            (R.QuorumRule.carries self.old.floor.rule)
            (world S.Store.pages S.Store.places self.old.floor self.old.post.items) call result
            (world S.Store.pages S.Store.places self.new.floor self.new.post.items) }
        ensures lacking { result ≡ Err NoMemory
            → LacksRoom (R.QuorumRule.carries self.old.floor.rule)
            (world S.Store.pages S.Store.places self.old.floor self.old.post.items) call
            (vec_capacity self.old.post) }
        ensures memory { result ≡ Err NoMemory
            → vec_capacity self.old.post < vec_len self.old.post + 2 }
        ensures room { 65536 ≤ vec_capacity self.old.post → result ≢ Err NoMemory }
        ensures rule { self.new.floor.rule ≡ self.old.floor.rule }
        ensures capacity { vec_capacity self.old.post ≤ vec_capacity self.new.post }
        ensures findings { ∥ CallWithFindings (R.QuorumRule.carries self.old.floor.rule)
            (world S.Store.pages S.Store.places self.old.floor self.old.post.items) call result
            (world S.Store.pages S.Store.places self.new.floor self.new.post.items) ∥₁ }
    {
        self.floor.apply(&mut self.post, call)
    }

    pub fn floor(&self) -> &Floor<R, S>
        ensures { result.now ≡ self.now.floor }
    {
        &self.floor
    }

    pub fn post(&self) -> &[Message]
        ensures { result.now ≡ self.now.post.items }
    {
        self.post.as_slice()
    }
}

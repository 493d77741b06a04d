// What calls are made on: a floor with its post until an accepted founding, a session from then on.
ghost use Rattle.std.specs.Prelude.{◌≡◌, [], replicate, true, false, Err, OnErr, OnOk};
ghost use Rattle.quorum.specs.Faults.{allowed};
ghost use Rattle.quorum.specs.Choices.{chosen};
ghost use Rattle.quorum.specs.declared.fault.Failure.TheVariants.{NoMemory};
ghost use Rattle.rows.specs.Rows.{empty_row};
ghost use Rattle.runs.specs.Founding.{founding_refusal, Founding};
ghost use Rattle.runs.specs.Steps.{Step};
ghost use Rattle.stores.specs.Kept.{fresh, held_page};
ghost use Rattle.floor.specs.Cuts.{CutLeaves};
ghost use Rattle.floor.specs.Memory.{LacksRoom};
ghost use Rattle.board.specs.Plays.{floor_of, messages_of, capacity_of, is_founded, world_of};
ghost use Rattle.board.specs.Plays.{CarriesFindings};

use floor::{Floor, Session, Unfounded};
use manager::{Answer, Need};
use quorum::{ChosenRule, Failure, Fault};
use rows::Message;
use runs::Call;
use std::alloc::Global;
use stores::{HeldPages, View};

#[derive(Drop)]
pub enum Play {
    Before(Floor<ChosenRule, HeldPages>, Vec<Message>),
    Founded(Session<ChosenRule, HeldPages>),
}

impl Play {
    // A new floor with fresh pages, and an empty post.
    pub fn new(rule: ChosenRule, alloc: Global) -> Play
        ensures before { is_founded result ≡ false }
        ensures rule { (floor_of result).rule ≡ rule }
        ensures pages { (floor_of result).store.pages ≡ replicate 16 fresh }
        ensures rows { (floor_of result).table.rows ≡ replicate 16 (empty_row false) }
        ensures need { (floor_of result).need ≡ Need.One }
        ensures post { messages_of result ≡ [] }
    {
        Play::Before(Floor::new(rule, HeldPages::new()), Vec::new(alloc))
    }

    pub fn floor(&self) -> &Floor<ChosenRule, HeldPages>
        ensures { result.now ≡ floor_of self.now }
    {
        match self {
            Play::Before(floor, _) => floor,
            Play::Founded(session) => session.floor(),
        }
    }

    pub fn post(&self) -> &[Message]
        ensures { result.now ≡ messages_of self.now }
    {
        match self {
            Play::Before(_, post) => post.as_slice(),
            Play::Founded(session) => session.post(),
        }
    }

    // Founds. Refused, floor and post are as they were.
    pub fn found(self, view: View, need: Need) -> (Play, Result<(), Fault>)
        ensures answer { result.1 ≡ allowed
            (founding_refusal view (floor_of self).store.pages 65535) }
        ensures session { OnOk result.1 (is_founded result.0 ≡ true) }
        ensures founded { OnOk result.1 (Founding view need (floor_of result.0).store.pages
            (floor_of result.0).table.rows (floor_of result.0).need (messages_of result.0)) }
        ensures rule { (floor_of result.0).rule ≡ (floor_of self).rule }
        ensures kept { OnErr result.1
            ((floor_of result.0 ≡ floor_of self) × (messages_of result.0 ≡ messages_of self)) }
        ensures stays { OnErr result.1 (is_founded result.0 ≡ is_founded self) }
    {
        match self {
            Play::Before(floor, post) => match Session::found(floor, post, view, need) {
                Ok(session) => (Play::Founded(session), Ok(())),
                Err(Unfounded { floor, post, fault }) => (Play::Before(floor, post), Err(fault)),
            },
            Play::Founded(session) => {
                let mut session = session;
                let founded = session.found_again(view, need);
                (Play::Founded(session), founded)
            }
        }
    }

    // Makes a call. In a session the run that led here goes on by it, and has the three findings.
    #[inline(always)]
    pub fn call(&mut self, call: Call) -> Result<Answer, Failure>
        ensures step { Step (chosen (floor_of self.old).rule)
            (world_of self.old) call result (world_of self.new) }
        ensures cut { CutLeaves held_page (chosen (floor_of self.old).rule)
            (world_of self.old) call result (world_of self.new) }
        ensures lacking { result ≡ Err NoMemory → LacksRoom (chosen (floor_of self.old).rule)
            (world_of self.old) call (capacity_of self.old) }
        ensures findings { CarriesFindings self.old call result self.new }
        ensures rule { (floor_of self.new).rule ≡ (floor_of self.old).rule }
        ensures stays { is_founded self.new ≡ is_founded self.old }
    {
        match self {
            Play::Before(floor, post) => floor.apply(post, call),
            Play::Founded(session) => session.call(call),
        }
    }
}

// What a replica is doing: its row.
ghost use Rattle.std.specs.Prelude.{◌≡◌};
ghost use Rattle.rows.specs.Recorders.{all_recorders, recorders_within, recorders_with};
ghost use Rattle.rows.specs.Rows.{empty_row};

use super::message::Part;
use quorum::ReplicaSet;
use rounds::Report;
use stores::{Head, View};

// Who recorded, as a member and as a newcomer.
#[derive(Clone, Copy)]
pub struct Recorders {
    pub members: ReplicaSet,
    pub newcomers: ReplicaSet,
}

impl Recorders {
    pub const NOBODY: Recorders = Recorders {
        members: ReplicaSet::EMPTY,
        newcomers: ReplicaSet::EMPTY,
    };

    // Whoever recorded, in either part.
    pub fn all(self) -> ReplicaSet
        ensures { result.0 ≡ all_recorders self }
    {
        self.members.union(self.newcomers)
    }

    pub fn is_within(self, set: ReplicaSet) -> bool
        ensures { result ≡ recorders_within self set.0 }
    {
        self.members.is_subset(set) && self.newcomers.is_subset(set)
    }

    // With one more, that recorded in this part.
    pub fn with(self, replica: u8, part: Part) -> Recorders
        ensures { result ≡ recorders_with self replica part }
    {
        match part {
            Part::Member => Recorders {
                members: self.members.with(replica),
                ..self
            },
            Part::Newcomer => Recorders {
                newcomers: self.newcomers.with(replica),
                ..self
            },
        }
    }
}

// What a newcomer goes by: the component view and the survivors of the first State it heard.
#[derive(Clone, Copy)]
pub struct Reference {
    pub component: View,
    pub survivors: ReplicaSet,
}

// What was heard while gathering: from whom a State, who recorded, and whether a Report was answered.
#[derive(Clone, Copy)]
pub struct Gathered {
    pub states: ReplicaSet,
    pub recorders: Recorders,
    pub answered: bool,
}

// What was heard while confirming.
#[derive(Clone, Copy)]
pub struct Confirmed {
    pub recorders: Recorders,
    pub answered: bool,
}

// What was heard while applying: from whom a Join and a State came, and the reference.
#[derive(Clone, Copy)]
pub struct Applied {
    pub joins: ReplicaSet,
    pub states: ReplicaSet,
    pub reference: Option<Reference>,
}

// What was heard while entering.
#[derive(Clone, Copy)]
pub struct Entered {
    pub reference: Reference,
    pub recorders: Recorders,
}

// How far a replica has got under its head, with what it heard there. Idle has no head.
#[derive(Clone, Copy)]
pub enum Stage {
    Idle,
    Gathering(Head, Gathered),
    Confirming(Head, Confirmed),
    Applying(Head, Applied),
    Entering(Head, Entered),
    // The reports heard, by replica.
    Round(Head, [Option<Report>; 16]),
}

#[derive(Clone, Copy)]
pub struct Row {
    pub up: bool,
    // Replicas of the head that are lost.
    pub lost: ReplicaSet,
    // Members of the component view that every view since has held.
    pub survivors: ReplicaSet,
    pub stage: Stage,
}

impl Row {
    // A row that is up, or down, and empty.
    #[inline(always)]
    pub fn empty(up: bool) -> Row
        ensures { result ≡ empty_row up }
    {
        Row {
            up,
            lost: ReplicaSet::EMPTY,
            survivors: ReplicaSet::EMPTY,
            stage: Stage::Idle,
        }
    }
}

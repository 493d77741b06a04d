// Views, their numbers, and the stamps of the view maker's announcements.
ghost use Rattle.std.specs.Prelude.{◌≡◌, ◌+◌};

use quorum::ReplicaSet;

// Names one announcement of the view maker. A struct of its own beside `Number`: the two are never compared or added together.
#[derive(Clone, Copy, PartialEq, Eq, PartialOrd, Ord, Debug)]
pub struct Stamp(pub u32);

// A view's number. The highest is 1,000,000,000.
#[derive(Clone, Copy, PartialEq, Eq, PartialOrd, Ord, Debug)]
pub struct Number(pub u32);

// A numbered set of replicas.
#[derive(Clone, Copy, PartialEq, Eq, Debug)]
pub struct View {
    pub number: Number,
    pub set: ReplicaSet,
}

// A view that was recorded, with the stamp of the head that it was recorded under.
#[derive(Clone, Copy, PartialEq, Eq, Debug)]
pub struct Recorded {
    pub view: View,
    pub stamp: Stamp,
}

// What a replica works on: a set of replicas as announced under a stamp.
#[derive(Clone, Copy, PartialEq, Eq, Debug)]
pub struct Head {
    pub stamp: Stamp,
    pub set: ReplicaSet,
}

impl Number {
    pub const HIGHEST: Number = Number(1_000_000_000);

    // The number after it, in 64 bits, since a message may tell any number.
    pub fn next(self) -> u64
        ensures { result ≡ self.0 + 1 }
    {
        u64::from(self.0) + 1
    }
}

// Sets of replicas. Replicas are 0 to 15; bit r of a set stands for replica r.
ghost use Rattle.std.specs.Prelude.{◌≡◌, ℕ, ◌<◌, ◌≤◌, true, false, not, ◌&&◌, ◌||◌, IsTrue, ◌↔◌, ◌==◌, nat_lt};
ghost use Rattle.quorum.specs.Below.{within, lowest as lowest_of};
ghost use Rattle.quorum.specs.Members.{has, size};
ghost use Rattle.quorum.specs.Sets.{either, both, less, single};

use super::replica::Replica;

#[derive(Clone, Copy, PartialEq, Eq, Debug)]
pub struct ReplicaSet(pub u16);

impl ReplicaSet {
    pub const EMPTY: ReplicaSet = ReplicaSet(0);

    // The replica alone; nobody where the number is above 15.
    pub fn of(replica: u8) -> ReplicaSet
        ensures bits { result.0 ≡ single replica }
        ensures members { (k : ℕ) → has result.0 k ≡ (k == replica && nat_lt k 16) }
    {
        if replica < 16 {
            ReplicaSet(1 << replica)
        } else {
            ReplicaSet::EMPTY
        }
    }

    // Any number may be asked for: a replica above 15 is in no set.
    pub fn contains(self, replica: u8) -> bool
        ensures test { result ≡ has self.0 replica }
        ensures within { result ≡ true → replica < 16 }
    {
        replica < 16 && (self.0 >> replica) & 1 == 1
    }

    pub fn with(self, replica: u8) -> ReplicaSet
        ensures bits { result.0 ≡ either self.0 (single replica) }
        ensures members { (k : ℕ) → has result.0 k ≡ (has self.0 k || (k == replica && nat_lt k 16)) }
    {
        self.union(ReplicaSet::of(replica))
    }

    pub fn without(self, replica: u8) -> ReplicaSet
        ensures bits { result.0 ≡ less self.0 (single replica) }
        ensures members { (k : ℕ) → has result.0 k ≡ (has self.0 k && not (k == replica)) }
        ensures smaller { has self.0 replica ≡ true → size result.0 < size self.0 }
    {
        self.difference(ReplicaSet::of(replica))
    }

    pub fn union(self, other: ReplicaSet) -> ReplicaSet
        ensures bits { result.0 ≡ either self.0 other.0 }
        ensures members { (k : ℕ) → has result.0 k ≡ (has self.0 k || has other.0 k) }
    {
        ReplicaSet(self.0 | other.0)
    }

    pub fn intersection(self, other: ReplicaSet) -> ReplicaSet
        ensures bits { result.0 ≡ both self.0 other.0 }
        ensures members { (k : ℕ) → has result.0 k ≡ (has self.0 k && has other.0 k) }
    {
        ReplicaSet(self.0 & other.0)
    }

    pub fn difference(self, other: ReplicaSet) -> ReplicaSet
        ensures bits { result.0 ≡ less self.0 other.0 }
        ensures members { (k : ℕ) → has result.0 k ≡ (has self.0 k && not (has other.0 k)) }
    {
        ReplicaSet(self.0 & !other.0)
    }

    pub fn is_subset(self, other: ReplicaSet) -> bool
        ensures test { result ≡ within self.0 other.0 }
        ensures members { IsTrue result ↔ ((k : ℕ) → has self.0 k ≡ true → has other.0 k ≡ true) }
    {
        self.intersection(other) == self
    }

    pub fn is_empty(self) -> bool
        ensures test { result ≡ (self.0 == 0) }
        ensures members { IsTrue result ↔ ((k : ℕ) → has self.0 k ≡ false) }
    {
        self.0 == 0
    }

    // How many members there are.
    pub fn len(self) -> u32
        ensures members { result ≡ size self.0 }
        ensures bound { result ≤ 16 }
    {
        self.0.count_ones()
    }

    // A `for`: with `find` over the sixteen (tried) the proof did not close.
    pub fn lowest(self) -> Option<Replica>
        ensures { result ≡ lowest_of self.0 }
    {
        for replica in Replica::all() {
            if self.contains(replica.number()) {
                return Some(replica);
            }
        }
        None
    }
}

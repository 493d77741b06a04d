// The members of a set, lowest first.
ghost use Rattle.std.specs.Prelude.{◌≡◌, MatchOption};
ghost use Rattle.quorum.specs.Below.{lowest as lowest_of};
ghost use Rattle.quorum.specs.Members.{size};
ghost use Rattle.quorum.specs.Sets.{less, single};
ghost use Rattle.std.specs.Iterator.{at_most};

use super::replica::Replica;
use super::set::ReplicaSet;

#[derive(Drop)]
pub struct Members {
    rest: ReplicaSet,
}

impl ReplicaSet {
    pub fn members(self) -> Members
        ensures { result.rest ≡ self }
    {
        Members { rest: self }
    }
}

impl Iterator for Members {
    type Item = Replica;

    // Each call gives the lowest of the rest and takes it away.
    ghost next_gives = { λ s r t. (r ≡ lowest_of s.rest.0) × MatchOption r (t.rest ≡ s.rest) (λ m. t.rest.0 ≡ less s.rest.0 (single m)) };

    ghost remaining = { λ s. at_most (size s.rest.0) };

    fn next(&mut self) -> Option<Replica> {
        let first = self.rest.lowest()?;
        self.rest = self.rest.without(first.number());
        Some(first)
    }
}

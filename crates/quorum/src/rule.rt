// The quorum rule: whether a part carries a set. A fixed relation with four laws; asked, it answers and never refuses.
ghost use Rattle.std.specs.Prelude.{◌≡◌, ℕ, Bool};
ghost use Rattle.quorum.specs.Laws.{Local, Whole, Grows, Meets};

use super::set::ReplicaSet;

pub trait QuorumRule {
    // The relation: `carries x p s` says whether, by the rule x, the part of the bits p carries the set of the bits s.
    ghost carries: { Self → ℕ → ℕ → Bool };

    fn carries(&self, part: ReplicaSet, set: ReplicaSet) -> bool
        ensures { result ≡ carries self.now part.0 set.0 };

    ghost local: { (x : Self) → Local (carries x) };

    ghost whole: { (x : Self) → Whole (carries x) };

    ghost grows: { (x : Self) → Grows (carries x) };

    ghost meets: { (x : Self) → Meets (carries x) };
}

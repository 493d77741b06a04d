// The count rule: more than half of the set's members.
ghost use Rattle.quorum.specs.Members.{one, majority};
ghost use Rattle.quorum.specs.Majority.{one_positive, majority_local, majority_whole, majority_grows, majority_meets};

use super::rule::QuorumRule;
use super::set::ReplicaSet;

// A type of its own beside weights of 1: that both sets' ones are counted is a rule of the project.
#[derive(Clone, Copy)]
pub struct CountRule;

impl QuorumRule for CountRule {
    ghost carries = { λ _. majority one };

    ghost local = { λ _. majority_local one };

    ghost whole = { λ _. majority_whole one one_positive };

    ghost grows = { λ _. majority_grows one };

    ghost meets = { λ _. majority_meets one };

    fn carries(&self, part: ReplicaSet, set: ReplicaSet) -> bool {
        2 * part.intersection(set).len() > set.len()
    }
}

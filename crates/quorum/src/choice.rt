// A rule chosen while a program runs.
ghost use Rattle.quorum.specs.Choices.{chosen};
ghost use Rattle.quorum.specs.declared.choice.ChosenRule.TheVariants.{Count, Weight};
ghost use Rattle.quorum.specs.Members.{one, listed};
ghost use Rattle.quorum.specs.Majority.{one_positive, majority_local, majority_whole, majority_grows, majority_meets};

use super::count::CountRule;
use super::rule::QuorumRule;
use super::set::ReplicaSet;
use super::weights::WeightRule;

// An enum and no `Option<WeightRule>`, in which `None` would not say which rule it is; and no `dyn`, which a floor cannot copy out.
#[derive(Clone, Copy)]
pub enum ChosenRule {
    Count,
    Weight(WeightRule),
}

impl QuorumRule for ChosenRule {
    ghost carries = { chosen };

    ghost local = { elim [ Count ↦ majority_local one | Weight w ↦ majority_local (listed w.weights) ] };

    ghost whole = { elim [
      | Count ↦ majority_whole one one_positive
      | Weight w ↦ majority_whole (listed w.weights) w.positive
    ] };

    ghost grows = { elim [ Count ↦ majority_grows one | Weight w ↦ majority_grows (listed w.weights) ] };

    ghost meets = { elim [ Count ↦ majority_meets one | Weight w ↦ majority_meets (listed w.weights) ] };

    fn carries(&self, part: ReplicaSet, set: ReplicaSet) -> bool {
        match self {
            ChosenRule::Count => CountRule.carries(part, set),
            ChosenRule::Weight(rule) => rule.carries(part, set),
        }
    }
}

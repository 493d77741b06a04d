// The weight rule: more than half of the set's weight.
ghost use Rattle.std.specs.Prelude.{◌≡◌, ℕ, ◌<◌, ◌≤◌, is_err, MatchResult, nat_eq, slice_index};
ghost use Rattle.quorum.specs.declared.fault.Layer.TheVariants.{Rule};
ghost use Rattle.quorum.specs.declared.fault.Reason.TheVariants.{ZeroWeight};
ghost use Rattle.quorum.specs.Below.{any};
ghost use Rattle.quorum.specs.Faults.{refused_by};
ghost use Rattle.quorum.specs.Members.{weight, listed, majority};
ghost use Rattle.quorum.specs.Majority.{majority_local, majority_whole, majority_grows, majority_meets};

use super::fault::{Fault, Layer, Reason, refuse_if};
use super::rule::QuorumRule;
use super::set::ReplicaSet;

// Sixteen weights of 1 to 255, one for each replica.
#[derive(Clone, Copy)]
pub struct WeightRule {
    weights: [u8; 16],
    ghost positive: { (r : ℕ) → r < 16 → 0 < slice_index weights r },
}

impl WeightRule {
    // Refused where a weight is zero, and only there.
    pub fn new(weights: [u8; 16]) -> Result<WeightRule, Fault>
        ensures kept { MatchResult result (λ x. x.weights ≡ weights) (λ e. e ≡ refused_by Rule ZeroWeight) }
        ensures refused { is_err result ≡ any (λ k. nat_eq (slice_index weights k) 0) 16 }
    {
        refuse_if(weights.contains(&0), Reason::ZeroWeight.by(Layer::Rule))?;
        Ok(WeightRule { weights })
    }

    // What the set weighs: its members' weights together.
    pub fn weight_of(&self, set: ReplicaSet) -> u32
        ensures sum { result ≡ weight (listed self.now.weights) set.0 }
        ensures bound { result ≤ 4080 }
    {
        let mut total = 0;
        for (replica, weight) in self.weights.iter().enumerate() {
            if set.contains(replica as u8) {
                total += u32::from(*weight);
            }
        }
        total
    }
}

impl QuorumRule for WeightRule {
    ghost carries = { λ x. majority (listed x.weights) };

    ghost local = { λ x. majority_local (listed x.weights) };

    ghost whole = { λ x. majority_whole (listed x.weights) x.positive };

    ghost grows = { λ x. majority_grows (listed x.weights) };

    ghost meets = { λ x. majority_meets (listed x.weights) };

    fn carries(&self, part: ReplicaSet, set: ReplicaSet) -> bool {
        2 * self.weight_of(part.intersection(set)) > self.weight_of(set)
    }
}

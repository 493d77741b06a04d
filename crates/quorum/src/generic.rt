// Code over any rule, proved from the laws alone.
ghost use Rattle.std.specs.Prelude.{◌≡◌, ◌&&◌, is_some, if◌then◌else◌, None};
ghost use Rattle.quorum.specs.Below.{lowest as lowest_of};
ghost use Rattle.quorum.specs.Sets.{both};

use super::replica::Replica;
use super::rule::QuorumRule;
use super::set::ReplicaSet;

// Where both parts carry the set, the lowest member of the set that is in both: by the laws of the rule there is one.
pub fn meeting<R: QuorumRule>(
    rule: &R,
    one: ReplicaSet,
    other: ReplicaSet,
    set: ReplicaSet,
) -> Option<Replica>
    ensures value { result ≡ (if R.carries rule.now one.0 set.0 && R.carries rule.now other.0 set.0 then lowest_of (both (both one.0 other.0) set.0) else None) }
    ensures meets { is_some result ≡ (R.carries rule.now one.0 set.0 && R.carries rule.now other.0 set.0) }
{
    if rule.carries(one, set) && rule.carries(other, set) {
        one.intersection(other).intersection(set).lowest()
    } else {
        None
    }
}

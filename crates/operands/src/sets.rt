// Sets as a script writes them: {} or {1,2,3}.
ghost use Rattle.std.specs.Prelude.{◌≡◌};
ghost use Rattle.operands.specs.Numerals.{reads};
ghost use Rattle.operands.specs.Sets.{with_replica, listed, set_of};

use super::numerals::number8;
use quorum::{Replica, ReplicaSet};

// A set with the replica that a word names, 0 to 15.
fn with_replica(set: ReplicaSet, word: &[u8]) -> Option<ReplicaSet>
    ensures { result ≡ with_replica set (reads word.now) }
{
    let replica = Replica::new(number8(word)?)?;
    Some(set.with(replica.number()))
}

// The set of the replicas that stand between the commas of a text; nobody where the text is empty.
fn listed(text: &[u8]) -> Option<ReplicaSet>
    ensures { result ≡ listed text.now }
{
    let mut set = ReplicaSet::EMPTY;
    if text.is_empty() {
        return Some(set);
    }
    for word in text.split(|byte| *byte == b',') {
        set = with_replica(set, word)?;
    }
    Some(set)
}

// The set that a word names: members 0 to 15, in any order.
pub fn members(word: &[u8]) -> Option<ReplicaSet>
    ensures { result ≡ set_of word.now }
{
    let [b'{', inner @ .., b'}'] = word else {
        return None;
    };
    listed(inner)
}

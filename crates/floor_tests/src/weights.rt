// A floor with the weight rule.
use floor::Floor;
use manager::Need;
use quorum::{Failure, Layer, Reason, Replica, ReplicaSet, WeightRule};
use runs::{Call, Work};
use std::process::Abort;
use std::test::Fail;
use stores::{Head, HeldPages, Number, Stamp, View};

// Replica 2 weighs 5, each other 1.
const HEAVY: [u8; 16] = [1, 1, 5, 1, 1, 1, 1, 1, 1, 1, 1, 1, 1, 1, 1, 1];

fn weighted(weights: [u8; 16]) -> Result<Floor<WeightRule, HeldPages>, Failure> {
    Ok(Floor::weighted(weights, HeldPages::new())?)
}

// The rule refuses a weight of zero, of whichever replica, and the floor tells it as the rule's refusal.
#[test]
fn a_weight_of_zero_is_refused_by_the_rule(rt: HostRuntime) {
    for replica in Replica::all() {
        let mut weights = HEAVY;
        weights[replica.index()] = 0;
        let refused = Failure::Refused(Reason::ZeroWeight.by(Layer::Rule));
        assert_eq!(rt; weighted(weights).err(), Some(refused));
    }
}

// Of {1,2,3} replica 2 has five of seven: it goes on without the others, which by count would not do.
#[test]
fn one_that_weighs_more_than_half_goes_on_alone(rt: HostRuntime) -> Result<(), Fail> {
    let mut floor = weighted(HEAVY)?;
    let mut post = Vec::new(rt.alloc());
    let first = View {
        number: Number(0),
        set: ReplicaSet(0b1110),
    };
    floor.found(&mut post, first, Need::One)?;
    let head = Head {
        stamp: Stamp(1),
        set: ReplicaSet(0b100),
    };
    floor.apply(&mut post, Call::Whole(Work::View(2, head)))?;
    let component = floor.page(2).and_then(|page| page.component);
    let alone = View {
        number: Number(1),
        set: head.set,
    };
    assert_eq!(rt; component, Some(alone));
    Ok(())
}

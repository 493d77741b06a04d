// Who carries what, and how sets and faults are written.
use quorum::{
    CountRule, Failure, Layer, QuorumRule, Reason, Replica, ReplicaSet, WeightRule, meeting,
};
use std::test::Fail;

// Bit r stands for replica r.
const CASES: [(u16, u16, bool); 8] = [
    // Three of five, two of five.
    (0b00_1110, 0b11_1110, true),
    (0b00_0110, 0b11_1110, false),
    // Exactly half is not enough.
    (0b0110, 0b1_1110, false),
    // A set carries itself; nobody carries nobody.
    (0b0010, 0b0010, true),
    (0, 0, false),
    // Outsiders neither help nor hurt.
    (0b1111_0000_0000_0010, 0b1110, false),
    (0b1111_0000_0000_0110, 0b1110, true),
    (0xffff, 0xffff, true),
];

#[test]
fn count(rt: HostRuntime) {
    for (part, set, carries) in &CASES {
        assert_eq!(rt;
            CountRule.carries(ReplicaSet(*part), ReplicaSet(*set)),
            *carries
        );
    }
}

// Replica 1 weighs 5 and all others 1, so that alone it carries {1,2,3}, which 2 and 3 do not.
#[test]
fn weight(rt: HostRuntime) -> Result<(), Fail> {
    let set = ReplicaSet(0b1110);
    let Ok(rule) = WeightRule::new([1, 5, 1, 1, 1, 1, 1, 1, 1, 1, 1, 1, 1, 1, 1, 1]) else {
        return Err(Fail::new("no weight is zero"));
    };
    assert_eq!(rt; rule.weight_of(set), 7);
    assert!(rt; rule.carries(ReplicaSet(0b0010), set));
    assert!(rt; !rule.carries(ReplicaSet(0b1100), set));
    assert_eq!(rt;
        meeting(&rule, ReplicaSet(0b0110), ReplicaSet(0b1010), set).map(Replica::number),
        Some(1)
    );
    let Err(fault) = WeightRule::new([1, 5, 1, 1, 1, 1, 1, 1, 1, 1, 1, 1, 1, 1, 1, 0]) else {
        return Err(Fail::new("a weight is zero"));
    };
    let text = format!(in rt.alloc(); "{fault}")?;
    assert_eq!(rt; text.as_str(), "refused 17 by rule");
    Ok(())
}

#[test]
fn texts(rt: HostRuntime) -> Result<(), Fail> {
    let refused = Failure::Refused(Reason::StampNotAbove.at(1, Layer::Manager));
    let no_memory = Failure::NoMemory;
    let nobody = ReplicaSet::EMPTY;
    let some = ReplicaSet(0b1000_0000_0000_0101);
    let text = format!(in rt.alloc(); "{refused}; {no_memory}; {nobody}; {some}")?;
    assert_eq!(rt;
        text.as_str(),
        "refused 5 at replica 1 by manager; no memory; {}; {0,2,15}"
    );
    Ok(())
}

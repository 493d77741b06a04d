// Lines: which command each one says.
use manager::Need;
use quorum::ReplicaSet;
use runs::{Call, Work};
use script::{Command, NotUnderstood, parse};
use std::process::Abort;
use stores::{Head, Number, Stamp, View};

fn check(rt: &impl Abort, line: &str, expected: Result<Option<Command>, NotUnderstood>) {
    assert_eq!(rt; parse(line.as_bytes()), expected, "{}", line);
}

fn check_command(rt: &impl Abort, line: &str, expected: Command) {
    check(rt, line, Ok(Some(expected)));
}

fn check_call(rt: &impl Abort, line: &str, expected: Call) {
    check_command(rt, line, Command::Call(expected));
}

fn check_work(rt: &impl Abort, line: &str, expected: Work) {
    check_call(rt, line, Call::Whole(expected));
}

#[test]
fn blank(rt: HostRuntime) {
    for line in &["", "\n", " \t \r\n", "# floor count\n", "  # # floor\n"] {
        check(&rt, line, Ok(None));
    }
}

#[test]
fn understood(rt: HostRuntime) {
    check_command(&rt, "floor count\n", Command::FloorCount);
    check_command(&rt, "floor count", Command::FloorCount);
    check_command(&rt, "\tfloor\t count \r\n", Command::FloorCount);
    check_command(
        &rt,
        "floor count# the rest is a comment\n",
        Command::FloorCount,
    );
    check_command(
        &rt,
        "floor weight 1 2 3 4 5 6 7 8 9 10 11 12 13 14 15 255\n",
        Command::FloorWeight([1, 2, 3, 4, 5, 6, 7, 8, 9, 10, 11, 12, 13, 14, 15, 255]),
    );
    check_command(
        &rt,
        "floor weight 0 0 0 0 0 0 0 0 0 0 0 0 0 0 0 0\n",
        Command::FloorWeight([0; 16]),
    );
    check_command(
        &rt,
        "carries {1} {1,2}\n",
        Command::Carries(ReplicaSet(0b10), ReplicaSet(0b110)),
    );
    check_command(&rt, "account\n", Command::Account);
}

#[test]
fn not_understood(rt: HostRuntime) {
    for line in &[
        "floor\n",
        "Floor count\n",
        "floorcount\n",
        "floor count now\n",
        "floor weight 1 2 3 4 5 6 7 8 9 10 11 12 13 14 15\n",
        "floor weight 1 2 3 4 5 6 7 8 9 10 11 12 13 14 15 16 17\n",
        "floor weight 1 2 3 4 5 6 7 8 9 10 11 12 13 14 15 256\n",
        "carries {1}\n",
        "carries {1} {2} {3}\n",
        "carries {1, 2} {1}\n",
        "account now\n",
    ] {
        check(&rt, line, Err(NotUnderstood));
    }
    assert_eq!(rt; parse(&[0, 255, 10]), Err(NotUnderstood));
}

fn check_founding(rt: &impl Abort, line: &str, number: u32, set: ReplicaSet, need: Need) {
    let view = View {
        number: Number(number),
        set,
    };
    check_command(rt, line, Command::Found(view, need));
}

#[test]
fn founding(rt: HostRuntime) {
    check_founding(
        &rt,
        "found {1,2,3} 7 one\n",
        7,
        ReplicaSet(0b1110),
        Need::One,
    );
    check_founding(
        &rt,
        "found {1,2} 7 half\n",
        7,
        ReplicaSet(0b110),
        Need::MoreThanHalf,
    );
    check_founding(
        &rt,
        "found {} 4294967295 half # too high, but a number\n",
        u32::MAX,
        ReplicaSet::EMPTY,
        Need::MoreThanHalf,
    );
}

#[test]
fn no_foundings(rt: HostRuntime) {
    for line in &[
        "found {1,2,3} 4294967296 one\n",
        "found {1,2,3} one\n",
        "found {1,2,3} 7\n",
        "found {1,2,3} 7 two\n",
        "found 7 {1,2,3} one\n",
        "found {1,2,3} 7 one half\n",
    ] {
        check(&rt, line, Err(NotUnderstood));
    }
}

// Stamp 40 and the set {1,2,6}.
const FORTY: Head = Head {
    stamp: Stamp(40),
    set: ReplicaSet(0b100_0110),
};

const HIGHEST_OF_NOBODY: Head = Head {
    stamp: Stamp(u32::MAX),
    set: ReplicaSet::EMPTY,
};

#[test]
fn calls(rt: HostRuntime) {
    check_work(&rt, "view 1 40 {1,2,6}\n", Work::View(1, FORTY));
    check_work(
        &rt,
        "view 255 4294967295 {}\n",
        Work::View(255, HIGHEST_OF_NOBODY),
    );
    check_work(
        &rt,
        "deliver 1 18446744073709551615\n",
        Work::Deliver(1, u64::MAX),
    );
    check_work(
        &rt,
        "deliver 2 18446744073709551615\n",
        Work::Deliver(2, u64::MAX),
    );
    check_work(&rt, "loss 1 255\n", Work::Loss(1, 255));
    check_work(&rt, "loss 3 255\n", Work::Loss(3, 255));
    check_work(&rt, "start 0001\n", Work::Start(1));
    check_work(&rt, "start 4\n", Work::Start(4));
    check_call(&rt, "stop 1\n", Call::Stop(1));
    check_call(&rt, "stop 6\n", Call::Stop(6));
}

#[test]
fn cuts(rt: HostRuntime) {
    check_call(
        &rt,
        "cut 0 view 1 40 {1,2,6}\n",
        Call::Cut(Work::View(1, FORTY), 0),
    );
    check_call(
        &rt,
        "cut 18446744073709551615 deliver 1 0\n",
        Call::Cut(Work::Deliver(1, 0), u64::MAX),
    );
    check_call(&rt, "cut 3 loss 1 2\n", Call::Cut(Work::Loss(1, 2), 3));
    check_call(&rt, "cut 9 loss 3 5\n", Call::Cut(Work::Loss(3, 5), 9));
    check_call(&rt, "cut 3 start 1\n", Call::Cut(Work::Start(1), 3));
}

// A number that does not fit, too few operands, or too many.
#[test]
fn no_calls(rt: HostRuntime) {
    for line in &[
        "view 256 40 {1,2,6}\n",
        "view 1 4294967296 {1,2,6}\n",
        "view 1 40 {16}\n",
        "view 1 40\n",
        "view 1 40 {1,2,6} 7\n",
        "view x 40 {1}\n",
        "deliver 1 18446744073709551616\n",
        "deliver 256 0\n",
        "deliver 1\n",
        "deliver 1 2 3\n",
        "loss 1 256\n",
        "loss 1\n",
        "loss 1 2 3\n",
        "stop\n",
        "stop 256\n",
        "stop 1 2\n",
        "start -1\n",
        "start 1 2\n",
    ] {
        check(&rt, line, Err(NotUnderstood));
    }
}

// A cut names a view, delivery, loss or start, with the operands of these.
#[test]
fn no_cuts(rt: HostRuntime) {
    for line in &[
        "cut\n",
        "cut 1\n",
        "cut start 1\n",
        "cut 18446744073709551616 start 1\n",
        "cut 1 stop 1\n",
        "cut 1 cut 1 start 1\n",
        "cut 1 found {1} 1 one\n",
        "cut 1 floor count\n",
        "cut 1 start\n",
        "cut 1 start 1 1\n",
        "cut 1 view 1 40\n",
    ] {
        check(&rt, line, Err(NotUnderstood));
    }
}

// Calls that are made as one list, whatever each answers: what is held and posted in the end.
use floor::Floor;
use manager::Need;
use quorum::{CountRule, ReplicaSet};
use rows::Message;
use runs::{Call, Work};
use std::process::Abort;
use std::test::Fail;
use stores::{Head, HeldPages, Mode, Number, Page, Stamp, View};

const ONE_TO_THREE: View = View {
    number: Number(0),
    set: ReplicaSet(0b1110),
};

const ONE_TWO: View = View {
    number: Number(1),
    set: ReplicaSet(0b110),
};

// The set of the second view, under stamp 1.
const FIRST: Head = Head {
    stamp: Stamp(1),
    set: ReplicaSet(0b110),
};

// Replica 3 alone, under stamp 2.
const ALONE: Head = Head {
    stamp: Stamp(2),
    set: ReplicaSet(0b1000),
};

// 3 crashes; 1 and 2 record the view without it, hear of one another and install it. The post has two messages, so the last call is
// refused and changes nothing.
const EVENING: [Call; 6] = [
    Call::Stop(3),
    Call::Whole(Work::View(1, FIRST)),
    Call::Whole(Work::View(2, FIRST)),
    Call::Whole(Work::Deliver(1, 1)),
    Call::Whole(Work::Deliver(2, 0)),
    Call::Whole(Work::Deliver(1, 2)),
];

// 3 comes back and is alone, so its round is given up as soon as it begins. It has posted its report.
const LATER: [Call; 2] = [
    Call::Whole(Work::Start(3)),
    Call::Whole(Work::View(3, ALONE)),
];

fn page(mode: Mode, top: u32, view: View) -> Option<Page> {
    Some(Page {
        mode,
        top: Stamp(top),
        mark: Some(view.number),
        component: Some(view),
        recorded: None,
    })
}

fn check(
    rt: &impl Abort,
    floor: &Floor<CountRule, HeldPages>,
    third: Option<Page>,
    post: &[Message],
    posted: usize,
) {
    assert_eq!(rt; floor.page(0), Some(Page::fresh()));
    assert_eq!(rt; floor.page(1), page(Mode::Normal, 1, ONE_TWO));
    assert_eq!(rt; floor.page(2), page(Mode::Normal, 1, ONE_TWO));
    assert_eq!(rt; floor.page(3), third);
    assert_eq!(rt; post.len(), posted);
}

#[test]
fn an_evening_and_calls_after_it(rt: HostRuntime) -> Result<(), Fail> {
    let mut floor = Floor::new(CountRule, HeldPages::new());
    let mut post = Vec::new(rt.alloc());
    floor.evening(&mut post, ONE_TO_THREE, Need::One, &EVENING)?;
    let left_out = page(Mode::Normal, 0, ONE_TO_THREE);
    check(&rt, &floor, left_out, post.as_slice(), 2);
    floor.run(&mut post, &LATER);
    let given_up = page(Mode::Reconfiguration, 2, ONE_TO_THREE);
    check(&rt, &floor, given_up, post.as_slice(), 3);
    Ok(())
}

// Pages, messages and ends of rounds as the program prints them.
use quorum::ReplicaSet;
use rounds::{End, Outcome, Report};
use rows::{Body, Message, Part};
use std::process::Abort;
use std::test::*;
use stores::{Head, Mode, Number, Page, Recorded, Stamp, View};

// Replica 1 was in view 7 of {1,2,3} and recorded view 8 of {1,2,6} under stamp 40.
#[test]
fn page_of_a_member(rt: HostRuntime) -> Result<(), Fail> {
    let component = View {
        number: Number(7),
        set: ReplicaSet(0b1110),
    };
    let next = View {
        number: Number(8),
        set: ReplicaSet(0b100_0110),
    };
    let page = Page {
        mode: Mode::Reconfiguration,
        top: Stamp(41),
        mark: Some(Number(8)),
        component: Some(component),
        recorded: Some(Recorded {
            view: next,
            stamp: Stamp(40),
        }),
    };
    let text = format!(in rt.alloc(); "{}: {page}", page.mode)?;
    assert_eq!(rt;
        text.as_str(),
        "reconfiguration: top 41, mark 8, component 7 {1,2,3}, recorded 8 {1,2,6} stamp 40"
    );
    Ok(())
}

fn view_seven() -> View {
    View {
        number: Number(7),
        set: ReplicaSet(0b1110),
    }
}

fn check_message<R: Abort + AllocGlobal>(
    rt: &R,
    sender: u8,
    body: Body,
    expected: &str,
) -> Result<(), Fail> {
    let head = Head {
        stamp: Stamp(40),
        set: ReplicaSet(0b100_0110),
    };
    let message = Message { sender, head, body };
    let text = format!(in rt.alloc(); "{message}")?;
    assert_eq!(rt; text.as_str(), expected);
    Ok(())
}

#[test]
fn state(rt: HostRuntime) -> Result<(), Fail> {
    check_message(
        &rt,
        1,
        Body::State(view_seven(), ReplicaSet(0b110)),
        "State from 1 under 40 {1,2,6}, component 7 {1,2,3}, survivors {1,2}",
    )
}

#[test]
fn abort(rt: HostRuntime) -> Result<(), Fail> {
    check_message(&rt, 1, Body::Abort, "Abort from 1 under 40 {1,2,6}")
}

#[test]
fn join(rt: HostRuntime) -> Result<(), Fail> {
    check_message(&rt, 6, Body::Join, "Join from 6 under 40 {1,2,6}")
}

#[test]
fn recorded_as_newcomer(rt: HostRuntime) -> Result<(), Fail> {
    check_message(
        &rt,
        6,
        Body::Recorded(Number(8), Part::Newcomer),
        "Recorded from 6 under 40 {1,2,6}, view 8 as newcomer",
    )
}

#[test]
fn recorded_as_member(rt: HostRuntime) -> Result<(), Fail> {
    check_message(
        &rt,
        1,
        Body::Recorded(Number(8), Part::Member),
        "Recorded from 1 under 40 {1,2,6}, view 8 as member",
    )
}

#[test]
fn report(rt: HostRuntime) -> Result<(), Fail> {
    let next = View {
        number: Number(8),
        set: ReplicaSet(0b100_0110),
    };
    let report = Report {
        mode: Mode::Reconfiguration,
        mark: Some(Number(8)),
        component: Some(view_seven()),
        recorded: Some(Recorded {
            view: next,
            stamp: Stamp(39),
        }),
    };
    check_message(
        &rt,
        1,
        Body::Report(report),
        "Report from 1 under 40 {1,2,6}, reconfiguration, mark 8, component 7 {1,2,3}, recorded 8 {1,2,6} stamp 39",
    )
}

#[test]
fn report_of_little(rt: HostRuntime) -> Result<(), Fail> {
    let report = Report {
        mode: Mode::Normal,
        mark: None,
        component: None,
        recorded: None,
    };
    check_message(
        &rt,
        2,
        Body::Report(report),
        "Report from 2 under 40 {1,2,6}, normal, mark none, component none, recorded none",
    )
}

#[test]
fn settled(rt: HostRuntime) -> Result<(), Fail> {
    let end = End(Outcome::SettledByClear, Some(view_seven()));
    let text = format!(in rt.alloc(); "{end}")?;
    assert_eq!(rt; text.as_str(), "outcome 2 on view 7 {1,2,3}");
    Ok(())
}

#[test]
fn given_up(rt: HostRuntime) -> Result<(), Fail> {
    let end = End(Outcome::LostMember, None);
    let text = format!(in rt.alloc(); "{end}")?;
    assert_eq!(rt; text.as_str(), "outcome 4");
    Ok(())
}

// Four examples of what becomes of the group when it fails, or part of it, at some step of its history.
use super::actions::Action;
use super::history::play_to;
use super::play::{Kind, need_name};
use anyhow::Result;
use manager::Need;
use std::alloc::Global;
use std::io::Write;

// What is done after this step of the history.
struct Example {
    name: &'static str,
    step: usize,
    title: &'static str,
    actions: &'static [Action],
}

// The last view that 1 and 2 know is {1,2,3}, of which they are more than half. But both have recorded {1,2,3,6,7} after it, of which
// they are not: it may be installed elsewhere, and it is, so the round is given up with outcome 8.
const NOT_DOUBLED: &[Action] = &[Action::Recover(&[1, 2]), Action::ShowRound(4, &[1, 2])];

// All of {1,2,3} have recorded {1,2,3,6,7} and nobody has installed it. 1 and 2 are more than half of the first, and 1, 2 and 6 of
// the second, so they settle on the second; 4 is not in it and becomes a spare. Those that are connected become the next view, with
// 4 as a newcomer. The end of the round has closed their heads, and a stamp is taken up once, so they are announced anew.
const ON_WHAT_WAS_RECORDED: &[Action] = &[
    Action::CrashAll,
    Action::Recover(&[1, 2, 4, 6]),
    Action::ShowRound(3, &[1, 2, 4, 6]),
    Action::ShowRefusals(3, &[1, 2, 4, 6], &[1, 2, 4, 6]),
    Action::Say("announced under stamp 4: {1,2,4,6}; 4 joins, and all record it"),
    Action::Admit(4, &[1, 2, 4, 6], &[1, 2, 6], &[4], 5),
    Action::ShowHeld,
    Action::Say("all hear that all have recorded it, and install it"),
    Action::Tell(Kind::Recorded, &[1, 2, 6], &[1, 2, 4, 6]),
    Action::ShowHeld,
];

// Nobody has recorded a second view, and any three of the five are more than half: they take up the first view again, and then
// install themselves as the next.
//
// 1 and 2 come back and are connected to the three. For 1 and 2 a round begins; for the three this is a view with two newcomers,
// from whom they await a Recorded and hear a Report. Each answers with its own, once, whoever asked, and the answer is for all.
// From it 1 and 2 learn that the group has gone on without them, and become spares with outcome 9.
//
// They join as newcomers. Before, one of them is lost to the three: their heads, under which nobody can record any more, close.
// More than half of the three are two: a member installs as soon as it hears of one other.
const ON_THE_FIRST_VIEW: &[Action] = &[
    Action::CrashAll,
    Action::Recover(&[3, 4, 5]),
    Action::ShowRound(1, &[3, 4, 5]),
    Action::Say(
        "announced under stamp 2: {3,4,5}; all record it, hear of one another and install it",
    ),
    Action::TakeUp(2, &[3, 4, 5], &[3, 4, 5]),
    Action::Tell(Kind::Recorded, &[3, 4, 5], &[3, 4, 5]),
    Action::ShowHeld,
    Action::Say("1 and 2 come back; connected under stamp 3: {1,2,3,4,5}"),
    Action::Recover(&[1, 2]),
    Action::TakeUp(3, &[1, 2, 3, 4, 5], &[1, 2, 3, 4, 5]),
    Action::ShowReports(&[1, 2]),
    Action::Tell(Kind::State, &[3, 4, 5], &[3, 4, 5]),
    Action::ShowHearing(3, 1),
    Action::ShowReports(&[3]),
    Action::ShowHearing(4, 1),
    Action::ShowReports(&[4]),
    Action::ShowHearing(5, 1),
    Action::ShowReports(&[5]),
    Action::ShowHearing(1, 3),
    Action::ShowHearing(2, 3),
    Action::Say("held afterwards"),
    Action::ShowHeld,
    Action::ShowRefusals(3, &[1, 2, 3, 4, 5], &[1, 2]),
    Action::Say(
        "1 is lost to 3, 4 and 5; announced under stamp 4: {1,2,3,4,5}; 1 and 2 join, and all record it",
    ),
    Action::Lose(&[3, 4, 5], 1),
    Action::Admit(4, &[1, 2, 3, 4, 5], &[3, 4, 5], &[1, 2], 3),
    Action::ShowHeld,
    Action::Say("all hear that enough have recorded it, and install it"),
    Action::Tell(Kind::Recorded, &[4], &[3]),
    Action::Tell(Kind::Recorded, &[3], &[4, 5]),
    Action::Tell(Kind::Recorded, &[3, 4, 5], &[1, 2]),
    Action::Tell(Kind::Recorded, &[1, 2], &[1, 2]),
    Action::ShowHeld,
];

// 1 and 2 have recorded {1,2,3}, and 4 and 5 have not. Two of five are not more than half, either way. What 3 holds decides, so the
// round is given up with outcome 8.
const WITHOUT_THE_ONE_THAT_DECIDES: &[Action] = &[
    Action::CrashAll,
    Action::Recover(&[1, 2, 4, 5]),
    Action::ShowRound(2, &[1, 2, 4, 5]),
];

const EXAMPLES: [Example; 4] = [
    Example {
        name: "example 0",
        step: 9,
        title: "1 and 2 come back and are connected to nobody else",
        actions: NOT_DOUBLED,
    },
    Example {
        name: "example 1",
        step: 6,
        title: "the whole group fails; 1, 2, 4 and 6 come back",
        actions: ON_WHAT_WAS_RECORDED,
    },
    Example {
        name: "example 2",
        step: 1,
        title: "the whole group fails; 3, 4 and 5 come back",
        actions: ON_THE_FIRST_VIEW,
    },
    Example {
        name: "example 3",
        step: 2,
        title: "the whole group fails; 1, 2, 4 and 5 come back, and 3 does not",
        actions: WITHOUT_THE_ONE_THAT_DECIDES,
    },
];

pub fn show<W: Write>(heap: Global, out: &mut W) -> Result<()> {
    let need = Need::MoreThanHalf;
    for example in &EXAMPLES {
        writeln!(
            out,
            "\n{}, need {}, after step {}: {}",
            example.name,
            need_name(need),
            example.step,
            example.title
        )?;
        let mut play = play_to(heap, need, example.step, out)?;
        play.perform_all(example.name, example.actions, out)?;
    }
    Ok(())
}

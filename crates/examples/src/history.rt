// A history of a group. Replicas 1 to 5 found it, 4 and 5 crash and are left out, the spares 6 and 7 join, and 1 and 2 crash
// and are left out in turn.
use super::actions::Action;
use super::play::{Kind, Play, need_name, view};
use anyhow::Result;
use manager::Need;
use std::alloc::Global;
use std::io::Write;

pub struct Step {
    name: &'static str,
    title: &'static str,
    actions: &'static [Action],
}

const FIVE: &[u8] = &[1, 2, 3, 4, 5];

const STEPS: [Step; 9] = [
    Step {
        name: "step 1",
        title: "1 to 5 found the group; 6 and 7 are spares",
        actions: &[],
    },
    // 1 and 2 hear of one another that they recorded. Two do not carry the view of five, so they cannot install the next one.
    Step {
        name: "step 2",
        title: "4 and 5 crash; 1 and 2 record the view without them",
        actions: &[
            Action::Crash(&[4, 5]),
            Action::TakeUp(1, &[1, 2, 3], &[1, 2]),
            Action::Tell(Kind::Recorded, &[1, 2], &[1, 2]),
        ],
    },
    Step {
        name: "step 3",
        title: "3 is slow, and records it after them",
        actions: &[Action::TakeUp(1, &[1, 2, 3], &[3])],
    },
    Step {
        name: "step 4",
        title: "1 and 2 install it",
        actions: &[Action::Tell(Kind::Recorded, &[3], &[1, 2])],
    },
    Step {
        name: "step 5",
        title: "3 installs it",
        actions: &[Action::Tell(Kind::Recorded, &[1, 2], &[3])],
    },
    Step {
        name: "step 6",
        title: "6 and 7 join; all that are up record the view with them",
        actions: &[Action::Admit(2, &[1, 2, 3, 6, 7], &[1, 2, 3], &[6, 7], 3)],
    },
    // Those that install know that members of {1,2,3} have recorded the view. More than half of these are enough: so 3 installs as
    // soon as it hears of 1, and would hear nothing more. A newcomer has to hear of all newcomers too; that comes last, so that
    // 6 and 7 know it of all three.
    Step {
        name: "step 7",
        title: "3, 6 and 7 install it",
        actions: &[
            Action::Tell(Kind::Recorded, &[1], &[3]),
            Action::Tell(Kind::Recorded, &[1, 2, 3], &[6, 7]),
            Action::Tell(Kind::Recorded, &[6, 7], &[6, 7]),
        ],
    },
    Step {
        name: "step 8",
        title: "1 and 2 crash before they install it; 3, 6 and 7 record the view without them",
        actions: &[
            Action::Crash(&[1, 2]),
            Action::TakeUp(3, &[3, 6, 7], &[3, 6, 7]),
        ],
    },
    Step {
        name: "step 9",
        title: "3, 6 and 7 install the view without 1 and 2",
        actions: &[Action::Tell(Kind::Recorded, &[3, 6, 7], &[3, 6, 7])],
    },
];

// The history up to this step, counted from 1. Its actions print nothing.
pub fn play_to<W: Write>(heap: Global, need: Need, last: usize, out: &mut W) -> Result<Play> {
    let mut play = Play::found(heap, view(0, FIVE), need)?;
    for step in STEPS.iter().take(last) {
        play.perform_all(step.name, step.actions, out)?;
    }
    Ok(play)
}

// How many States a newcomer wants is left open by the history. It is shown with one; the examples play it with more than half.
pub fn show<W: Write>(heap: Global, out: &mut W) -> Result<()> {
    let need = Need::One;
    writeln!(
        out,
        "the history: by the count rule, need {}",
        need_name(need)
    )?;
    let mut play = Play::found(heap, view(0, FIVE), need)?;
    for step in &STEPS {
        writeln!(out, "{}: {}", step.name, step.title)?;
        play.perform_all(step.name, step.actions, out)?;
        play.show_held(out)?;
    }
    Ok(())
}

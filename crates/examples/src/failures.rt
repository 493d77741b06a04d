// The whole group fails after any step of its history, and these come back and are connected.
use super::history::play_to;
use super::play::{Ended, Kind, Play, announced, group, need_name};
use anyhow::{Result, bail};
use manager::Need;
use quorum::ReplicaSet;
use rounds::End;
use std::alloc::Global;
use std::io::Write;
use stores::View;

const FIVE: &[u8] = &[1, 2, 3, 4, 5];

const SEVEN: &[u8] = &[1, 2, 3, 4, 5, 6, 7];

// Any three of the five are more than half. After each step come all that were members up to then.
const FAILURES: [(usize, &[u8]); 19] = [
    (1, &[1, 2, 3]),
    (1, &[1, 2, 4]),
    (1, &[1, 2, 5]),
    (1, &[1, 3, 4]),
    (1, &[1, 3, 5]),
    (1, &[1, 4, 5]),
    (1, &[2, 3, 4]),
    (1, &[2, 3, 5]),
    (1, &[2, 4, 5]),
    (1, &[3, 4, 5]),
    (1, FIVE),
    (2, FIVE),
    (3, FIVE),
    (4, FIVE),
    (5, FIVE),
    (6, SEVEN),
    (7, SEVEN),
    (8, SEVEN),
    (9, SEVEN),
];

// The replica hears the others' reports.
fn hear_reports(play: &mut Play, replica: u8, members: &[u8]) -> Result<Ended> {
    let mut ended = None;
    for sender in members {
        if *sender != replica {
            ended = play.hear(replica, Kind::Report, *sender)?;
        }
    }
    Ok(ended)
}

// How the round ends at each, if alike.
fn common_end(play: &mut Play, members: &[u8]) -> Result<Ended> {
    play.take_up(announced(4, members), members)?;
    let mut common = None;
    for replica in members {
        let ended = hear_reports(play, *replica, members)?;
        if ended.is_none() || (common.is_some() && common != ended) {
            bail!("the round at {replica} has not ended, or otherwise than that before it");
        }
        common = ended;
    }
    Ok(common)
}

// Those of the members with this component view, or with none, and with no recorded view.
fn members_with(play: &Play, members: &[u8], component: Option<View>) -> ReplicaSet {
    let mut found = ReplicaSet::EMPTY;
    for replica in members {
        if let Some((_, page)) = play.holds(*replica)
            && page.component == component
            && page.recorded.is_none()
        {
            found = found.with(*replica);
        }
    }
    found
}

fn show_failure<W: Write>(heap: Global, step: usize, members: &[u8], out: &mut W) -> Result<()> {
    let mut play = play_to(heap, Need::One, step, out)?;
    play.enter("the whole group fails");
    play.crash_all()?;
    play.recover(members)?;
    if let Some((outcome, settled)) = common_end(&mut play, members)? {
        writeln!(
            out,
            "  after step {step}, {}: {}, installed at {}, spares {}",
            group(members),
            End(outcome, settled),
            members_with(&play, members, settled),
            members_with(&play, members, None)
        )?;
    }
    Ok(())
}

pub fn show<W: Write>(heap: Global, out: &mut W) -> Result<()> {
    writeln!(
        out,
        "\nthe whole group fails, need {}: who comes back, how the round ends at each of them, and what they then are",
        need_name(Need::One)
    )?;
    for (step, members) in &FAILURES {
        show_failure(heap, *step, members, out)?;
    }
    Ok(())
}

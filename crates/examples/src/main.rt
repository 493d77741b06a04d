// Plays a history of a group and what becomes of it after failures, and prints what a reader compares with what is known of them;
// beside it the worked examples of rules and rounds.
#![tactic(auto)]

mod actions;
mod examples;
mod failures;
mod history;
mod play;
mod show;
mod table;

use anyhow::Result;
use std::io::{BufWriter, Write};

fn main(rt: HostRuntime) -> Result<()> {
    let mut output = BufWriter::new(rt.alloc(), rt.stdout())?;
    history::show(rt.alloc(), &mut output)?;
    examples::show(rt.alloc(), &mut output)?;
    failures::show(rt.alloc(), &mut output)?;
    table::show(&mut output)?;
    output.flush()?;
    Ok(())
}

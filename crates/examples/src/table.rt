// The worked examples of rules and rounds, asked of the code, as one table.
use anyhow::{Result, bail};
use quorum::{CountRule, QuorumRule, ReplicaSet, WeightRule};
use rounds::End;
use starred::{Example, HEAVY, Round, starred};
use std::io::Write;

fn show_carried<W: Write>(
    part: ReplicaSet,
    set: ReplicaSet,
    carried: bool,
    out: &mut W,
) -> Result<()> {
    let verb = if carried { "carries" } else { "does not carry" };
    writeln!(out, " | {part} of {set} | {verb} it")?;
    Ok(())
}

fn show_weighed<W: Write>(part: ReplicaSet, set: ReplicaSet, out: &mut W) -> Result<()> {
    write!(out, "  weights")?;
    for weight in &HEAVY {
        write!(out, " {weight}")?;
    }
    match WeightRule::new(HEAVY) {
        Ok(rule) => show_carried(part, set, rule.carries(part, set), out),
        Err(fault) => bail!("the weights: {fault}"),
    }
}

// Who recorded the round's recorded view under a stamp.
fn show_recorded<W: Write>(round: &Round, by: ReplicaSet, stamp: u32, out: &mut W) -> Result<()> {
    if !by.is_empty() {
        write!(out, "; {by} recorded {} stamp {stamp}", round.recorded)?;
    }
    Ok(())
}

fn show_round<W: Write>(round: &Round, out: &mut W) -> Result<()> {
    write!(
        out,
        "  round of {} | component {}",
        round.members, round.view
    )?;
    if !round.bare.is_empty() {
        write!(out, " but for {}", round.bare)?;
    }
    if round.early.is_empty() && round.late.is_empty() {
        write!(out, "; nothing recorded")?;
    }
    show_recorded(round, round.early, 40, out)?;
    show_recorded(round, round.late, 41, out)?;
    let (outcome, settled) = round.end();
    writeln!(out, " | {}", End(outcome, settled))?;
    Ok(())
}

pub fn show<W: Write>(out: &mut W) -> Result<()> {
    writeln!(out)?;
    writeln!(
        out,
        "worked examples: the rule or round | who holds what | what carries, or how the round ends"
    )?;
    for example in &starred() {
        match example {
            Example::Count(part, set, _) => {
                write!(out, "  count rule")?;
                show_carried(*part, *set, CountRule.carries(*part, *set), out)?;
            }
            Example::Weight(part, set, _) => show_weighed(*part, *set, out)?,
            Example::Ends(round, _, _) => show_round(round, out)?,
        }
    }
    Ok(())
}

// Calls of a floor, runs of them, and what holds of every run. There is nothing to run here; each function carries a theorem.
#![tactic(auto)]

ghost use Rattle.runs.specs.Findings.{RunsSafe, SafeRuns};
ghost use Rattle.runs.specs.Orderly.{RunsOrderly};

mod work;

use quorum::QuorumRule;
pub use work::{Call, Work};

// The three findings hold of every run of a floor, from every founding, by every relation that keeps the four laws of quorum rules.
pub fn runs_stand()
    ensures { RunsSafe }
{}

// The three findings hold of every run of a floor by this rule, from its laws.
pub fn runs_stand_for<R: QuorumRule>(rule: &R)
    ensures { SafeRuns (R.carries rule.now) }
{}

// Of every run of a floor, from every founding, by every relation: every page, row and message keeps its rules, no row
// stands to be recorded, losses, starts, stops and cuts post nothing, and the post never exceeds 65,536 messages.
pub fn runs_are_orderly()
    ensures { RunsOrderly }
{}

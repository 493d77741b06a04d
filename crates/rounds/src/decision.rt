// The round's decision, once all replicas of the head have reported.
ghost use Rattle.std.specs.Prelude.{◌≡◌};
ghost use Rattle.rounds.specs.Decision.{barred, clear_or_all, decided};
ghost use Rattle.rounds.specs.Grounds.{Grounds, Only};

use super::members::{any_marked_past, backed, clear_members, level_members};
use super::outcome::Outcome;
use super::presumed::presumed;
use super::report::Report;
use quorum::QuorumRule;
use stores::{Head, View};

// Rule, head and reports go through four functions: a struct would be made in the public one for three, which is no plainer.

// Why nothing can be settled from the presumed view, if so.
fn barred<R: QuorumRule>(
    rule: &R,
    head: Head,
    reports: &[Option<Report>; 16],
    view: View,
) -> Option<Outcome>
    ensures { result ≡ barred (R.carries rule.now) head reports.now view }
{
    if !rule.carries(head.set, view.set) {
        return Some(Outcome::NotCarried);
    }
    if any_marked_past(reports, view.number) {
        return Some(Outcome::MarkedPast);
    }
    None
}

// Where no holders carry the view.
fn clear_or_all<R: QuorumRule>(
    rule: &R,
    head: Head,
    reports: &[Option<Report>; 16],
    view: View,
) -> (Outcome, Option<View>)
    ensures { result ≡ clear_or_all (R.carries rule.now) head reports.now view }
{
    if rule.carries(clear_members(reports, view), view.set) {
        return (Outcome::SettledByClear, Some(view));
    }
    if view.set.is_subset(head.set) && view.set.is_subset(level_members(reports, view)) {
        return (Outcome::SettledByAll, Some(view));
    }
    (Outcome::Undecided, None)
}

// The first that applies. Each way out returns where it is met, an absent presumed view too: a rule of the project.
fn first_that_applies<R: QuorumRule>(
    rule: &R,
    head: Head,
    reports: &[Option<Report>; 16],
) -> (Outcome, Option<View>)
    ensures { result ≡ decided (R.carries rule.now) head reports.now }
{
    let Some(view) = presumed(reports) else {
        return (Outcome::NoComponent, None);
    };
    if let Some(outcome) = barred(rule, head, reports, view) {
        return (outcome, None);
    }
    if let Some(recorded) = backed(rule, reports, view) {
        if rule.carries(head.set, recorded.view.set) {
            return (Outcome::SettledByHolders, Some(recorded.view));
        }
        return (Outcome::Undecided, None);
    }
    clear_or_all(rule, head, reports, view)
}

// Outcome and settled view together, a pair that its caller takes apart (a rule of the project), with what they rest on.
pub fn decide<R: QuorumRule>(
    rule: &R,
    head: Head,
    reports: &[Option<Report>; 16],
) -> (Outcome, Option<View>)
    ensures first { result ≡ decided (R.carries rule.now) head reports.now }
    ensures grounds { Grounds (R.carries rule.now) head reports.now result.0 result.1 }
    ensures only { Only (R.carries rule.now) head reports.now result }
{
    first_that_applies(rule, head, reports)
}

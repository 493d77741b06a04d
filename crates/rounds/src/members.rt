// Members of a view by what they reported.
ghost use Rattle.std.specs.Prelude.{◌≡◌, ◌+◌, Bool};
ghost use Rattle.rounds.specs.declared.report.Report.{Report};
ghost use Rattle.rounds.specs.Members.{members_that, holders, clear_members, level_members, any_mark_above, backed};

use super::report::Report;
use quorum::{QuorumRule, ReplicaSet};
use stores::{Number, Recorded, View};

// Reports and view go together through the functions here: a struct of the two would be made in one place, and each clause would take
// it apart again, which is no plainer.

// The members of the view whose reports say so. The manager gathers whoever reported in a loop like this: one function for both
// would be public and take a closure, so it would ask something of its callers, which no public function may, by a rule of the project;
// and its contract, which speaks of the closure, is longer than the loop.
fn members_that<F: Fn(&Report) -> bool>(
    says: F,
    reports: &[Option<Report>; 16],
    view: View,
) -> ReplicaSet
    requires { F.IsAlwaysCallable says }
    ensures { (p : Report → Bool) → ((r : _) (b : Bool) → F.post says r b → b ≡ p r.now) → result.0 ≡ members_that p reports.now view }
{
    let mut found = ReplicaSet::EMPTY;
    for (replica, report) in reports.iter().enumerate() {
        let replica = replica as u8;
        if let Some(report) = report
            && view.set.contains(replica)
            && says(report)
        {
            found = found.with(replica);
        }
    }
    found
}

// Those at the view with this recorded.
pub(crate) fn holders(reports: &[Option<Report>; 16], view: View, recorded: Recorded) -> ReplicaSet
    ensures { result.0 ≡ holders reports.now view recorded }
{
    members_that(|report| report.holds(view, recorded), reports, view)
}

// Those that are clear of what comes after the view.
pub(crate) fn clear_members(reports: &[Option<Report>; 16], view: View) -> ReplicaSet
    ensures { result.0 ≡ clear_members reports.now view }
{
    members_that(|report| report.is_clear(view), reports, view)
}

// Those at the view or clear.
pub(crate) fn level_members(reports: &[Option<Report>; 16], view: View) -> ReplicaSet
    ensures { result.0 ≡ level_members reports.now view }
{
    members_that(|report| report.is_level(view), reports, view)
}

// Somebody's mark exceeds the number after this one.
pub(crate) fn any_marked_past(reports: &[Option<Report>; 16], number: Number) -> bool
    ensures { result ≡ any_mark_above reports.now (number.0 + 1) }
{
    reports
        .iter()
        .flatten()
        .any(|report| report.is_marked_past(number))
}

// What was recorded by so many members of the view that they carry it.
pub(crate) fn backed<R: QuorumRule>(
    rule: &R,
    reports: &[Option<Report>; 16],
    view: View,
) -> Option<Recorded>
    ensures { result ≡ backed (R.carries rule.now) reports.now view }
{
    reports
        .iter()
        .flatten()
        .filter_map(|report| report.recorded)
        .find(|recorded| rule.carries(holders(reports, view, *recorded), view.set))
}

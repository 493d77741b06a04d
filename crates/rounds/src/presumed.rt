// The view that a round presumes to be the last one installed.
ghost use Rattle.std.specs.Prelude.{◌≡◌};
ghost use Rattle.rounds.specs.Presumed.{presumed, Highest};

use super::report::Report;
use stores::View;

// The highest component view; where its number comes with several sets, the lowest sender's.
pub(crate) fn presumed(reports: &[Option<Report>; 16]) -> Option<View>
    ensures is { result ≡ presumed reports.now }
    ensures highest { Highest reports.now 16 result }
{
    reports
        .iter()
        .flatten()
        .filter_map(|report| report.component)
        .reduce(|best, view| if best.number < view.number {
            view
        } else {
            best
        })
}

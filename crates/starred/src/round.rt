// A round in short: who reports what.
ghost use Rattle.std.specs.Prelude.{◌≡◌};
ghost use Rattle.starred.specs.Examples.{recorded_by, report_of, reports_of, end_of};

use quorum::{CountRule, ReplicaSet};
use rounds::{Outcome, Report, decide};
use std::array;
use stores::{Head, Mode, Recorded, Stamp, View};

// The round of `members` by the count rule. Those of `early` hold `recorded` under stamp 40, those of `late` under stamp 41, each
// marked with its number; the others recorded nothing and are marked with the number of `view`. It is the component view of all
// but those of `bare`, who have none.
#[derive(Clone, Copy)]
pub struct Round {
    pub view: View,
    pub members: ReplicaSet,
    pub recorded: View,
    pub early: ReplicaSet,
    pub late: ReplicaSet,
    pub bare: ReplicaSet,
}

impl Round {
    fn recorded_by(&self, replica: u8) -> Option<Recorded>
        ensures { result ≡ recorded_by self.now replica }
    {
        let stamp = if self.early.contains(replica) {
            Stamp(40)
        } else if self.late.contains(replica) {
            Stamp(41)
        } else {
            return None;
        };
        Some(Recorded {
            view: self.recorded,
            stamp,
        })
    }

    fn report(&self, replica: u8) -> Option<Report>
        ensures { result ≡ report_of self.now replica }
    {
        if !self.members.contains(replica) {
            return None;
        }
        let recorded = self.recorded_by(replica);
        let mark = if recorded.is_some() {
            self.recorded.number
        } else {
            self.view.number
        };
        let component = if self.bare.contains(replica) {
            None
        } else {
            Some(self.view)
        };
        Some(Report {
            mode: Mode::Reconfiguration,
            mark: Some(mark),
            component,
            recorded,
        })
    }

    fn reports(&self) -> [Option<Report>; 16]
        ensures { result ≡ reports_of self.now }
    {
        array::from_fn(|replica| self.report(replica as u8))
    }

    // What the round's decision is.
    pub fn end(&self) -> (Outcome, Option<View>)
        ensures { result ≡ end_of self.now }
    {
        let head = Head {
            stamp: Stamp(50),
            set: self.members,
        };
        decide(&CountRule, head, &self.reports())
    }
}

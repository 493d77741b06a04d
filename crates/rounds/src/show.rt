// Reports and the ends of rounds as people read them.
use super::outcome::Outcome;
use super::report::Report;
use std::fmt;
use stores::{OrNone, View};

impl fmt::Display for Report {
    fn fmt<W: fmt::Write>(&self, f: &mut fmt::Formatter<W>) -> fmt::Result {
        write!(
            f,
            "{}, mark {}, component {}, recorded {}",
            self.mode,
            OrNone(self.mark),
            OrNone(self.component),
            OrNone(self.recorded)
        )
    }
}

// How a round ended, and the view that it settled on, as in outcome 2 on view 7 {1,2,3}. It is the pair that a round's
// decision answers, as it stands: that the two are one answer is a rule of the project.
#[derive(Clone, Copy)]
pub struct End(pub Outcome, pub Option<View>);

impl fmt::Display for End {
    fn fmt<W: fmt::Write>(&self, f: &mut fmt::Formatter<W>) -> fmt::Result {
        let End(outcome, settled) = self;
        let number = outcome.number();
        match settled {
            Some(view) => write!(f, "outcome {number} on view {view}"),
            None => write!(f, "outcome {number}"),
        }
    }
}

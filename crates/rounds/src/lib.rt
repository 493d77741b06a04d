// The end of a round: from the head and what its replicas reported to an outcome and the view that is settled on.
#![tactic(auto)]

mod decision;
mod members;
mod outcome;
mod presumed;
mod report;
mod show;

pub use decision::decide;
pub use outcome::Outcome;
pub use report::Report;
pub use show::End;

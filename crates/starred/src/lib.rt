// Worked examples of the quorum rules and of the round's decision, as one table. The contract of `starred` says that each line is
// as the rules say; a test of `tables` runs each line through the code.
#![tactic(auto)]

mod round;
mod table;

pub use round::Round;
pub use table::{Example, HEAVY, starred};

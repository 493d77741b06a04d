// The configuration manager of one replica: one page, one row, one message.
#![tactic(auto)]

mod answer;
mod calls;
mod effect;
mod hear;
mod hearing;
mod judge;
mod need;
mod refuse;
mod take_up;
mod terms;
mod verdict;

pub use answer::Answer;
pub use calls::{deliver, lose, start, stop, view};
pub use hearing::Hearing;
pub use need::Need;
pub use refuse::check_message;
pub use verdict::Verdict;

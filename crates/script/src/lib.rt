// The script of a hall: lines of words, and the calls that they name.
#![tactic(auto)]

mod calls;
mod commands;
mod words;

pub use commands::{Command, NotUnderstood, parse};
pub use operands::{members, number, number8, number32};

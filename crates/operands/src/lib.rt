// The operands of a script's lines: numbers and sets.
#![tactic(auto)]

mod numerals;
mod sets;

pub use numerals::{number, number8, number32};
pub use sets::members;

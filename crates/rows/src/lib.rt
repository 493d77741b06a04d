// What a replica does and what it tells: rows, messages, and the rules that they keep.
#![tactic(auto)]

mod message;
mod row;
mod rules;
mod show;

pub use message::{Body, Message, Part, Posts};
pub use row::{Applied, Confirmed, Entered, Gathered, Recorders, Reference, Row, Stage};

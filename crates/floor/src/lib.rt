// The floor: sixteen replicas over one store.
#![tactic(auto)]

mod accepted;
mod apply;
mod calls;
mod cut;
mod finish;
mod floor;
mod founding;
mod lent;
mod run;
mod session;
mod task;

pub use floor::Floor;
pub use session::{Session, Unfounded};

// Sets of at most sixteen replicas, the rules by which a part carries a set, and the fault that all layers share.
#![tactic(auto)]

mod choice;
mod count;
mod fault;
mod generic;
mod iter;
mod replica;
mod rule;
mod set;
mod show;
mod weights;

pub use choice::ChosenRule;
pub use count::CountRule;
pub use fault::{Failure, Fault, Layer, Reason, refuse_if};
pub use generic::meeting;
pub use iter::Members;
pub use replica::Replica;
pub use rule::QuorumRule;
pub use set::ReplicaSet;
pub use weights::WeightRule;

// What replicas tell each other.
use quorum::ReplicaSet;
use rounds::Report;
use stores::{Head, Number, View};

// In what part the sender of Recorded recorded: as a member, with a component view, or as a newcomer.
#[derive(Clone, Copy)]
pub enum Part {
    Member,
    Newcomer,
}

// The five kinds of messages, with what each adds.
#[derive(Clone, Copy)]
pub enum Body {
    // The sender's component view and survivors.
    State(View, ReplicaSet),
    Abort,
    Join,
    // The number that was recorded.
    Recorded(Number, Part),
    Report(Report),
}

#[derive(Clone, Copy)]
pub struct Message {
    pub sender: u8,
    // The sender's head.
    pub head: Head,
    pub body: Body,
}

// The messages to be posted by a call, in order. An enum: no call uses memory, and two `Option`s could be a second without a first.
#[derive(Clone, Copy)]
pub enum Posts {
    Nothing,
    One(Message),
    Two(Message, Message),
}

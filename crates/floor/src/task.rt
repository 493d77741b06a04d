// What the manager is asked to do at one replica.
use rows::Message;
use stores::Head;

// A value and no closure (tried): a closure's contract is over five references where a task has an equation, `managed`,
// and that the page which the manager leaves keeps the rules would be proved for each call anew.
#[derive(Clone, Copy)]
pub enum Task {
    View(Head),
    Deliver(Message),
    Loss(u8),
    Start,
    Stop,
}

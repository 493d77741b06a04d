// What follows from a message that is heard: a value and no closure, since the definitions of the calls speak of it.
#[derive(Clone, Copy)]
pub enum Hearing {
    // The head is judged.
    Heard,
    // The replica's own Report is posted, and the head is judged.
    Answered,
    // The replica becomes a spare.
    Outdone,
    // The head closes.
    Aborted,
}

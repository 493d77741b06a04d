// What a replica keeps.
use super::view::{Number, Recorded, Stamp, View};

#[derive(Clone, Copy, PartialEq, Eq, Debug)]
pub enum Mode {
    Waiting = 1,
    Joining = 2,
    Normal = 3,
    Reconfiguration = 4,
}

// The page of a replica. An absent view or mark is `None`, never number 0.
#[derive(Clone, Copy, PartialEq, Eq, Debug)]
pub struct Page {
    pub mode: Mode,
    // The highest stamp taken up.
    pub top: Stamp,
    // The highest number ever recorded or installed.
    pub mark: Option<Number>,
    // The view that is installed here.
    pub component: Option<View>,
    // The next view, recorded and not yet installed.
    pub recorded: Option<Recorded>,
}

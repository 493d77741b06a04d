// The calls of a floor.
ghost use Rattle.std.specs.Prelude.{◌≡◌};
ghost use Rattle.runs.specs.World.{replica_of, replica_of_call};

use stores::Head;

// Calls that write a page, and so may be cut off.
#[derive(Clone, Copy, PartialEq, Eq, Debug)]
pub enum Work {
    // The replica takes up a view.
    View(u8, Head),
    // The message at an index of the post is delivered to the replica.
    Deliver(u8, u64),
    // The second is lost to the first.
    Loss(u8, u8),
    Start(u8),
}

#[derive(Clone, Copy, PartialEq, Eq, Debug)]
pub enum Call {
    Whole(Work),
    // The page's write is broken off after so many byte-writes.
    Cut(Work, u64),
    Stop(u8),
}

impl Work {
    // The replica at which the call is made.
    pub fn replica(self) -> u8
        ensures { result ≡ replica_of self }
    {
        match self {
            Work::View(replica, _)
            | Work::Deliver(replica, _)
            | Work::Loss(replica, _)
            | Work::Start(replica) => replica,
        }
    }
}

impl Call {
    // The replica at which the call is made.
    pub fn replica(self) -> u8
        ensures { result ≡ replica_of_call self }
    {
        match self {
            Call::Whole(work) | Call::Cut(work, _) => work.replica(),
            Call::Stop(replica) => replica,
        }
    }
}

// Why a call is refused: the fault that all layers share.
ghost use Rattle.std.specs.Prelude.{◌≡◌};
ghost use Rattle.quorum.specs.Faults.{reason_number, refused_at, refused_by, refused_if, allowed};
ghost use Rattle.quorum.specs.declared.fault.Failure.TheVariants.{Refused, NoMemory};

use std::alloc::AllocError;
use std::fmt;

// The layer in which a fault arose. It is kept on the way up.
#[derive(Clone, Copy, PartialEq, Eq, Debug)]
pub enum Layer {
    Store,
    Rule,
    Manager,
    Floor,
}

// One case for each numbered refusal.
#[derive(Clone, Copy, PartialEq, Eq, Debug)]
pub enum Reason {
    // A replica is above 15.
    NoSuchReplica = 1,
    // The replica is down, or at a start up.
    WrongPower = 2,
    // The view lacks the replica.
    ViewWithoutReplica = 3,
    // A view finds a head open.
    HeadOpen = 4,
    // A view's stamp is not above the top stamp.
    StampNotAbove = 5,
    // A view finds normal mode at the highest number.
    NumbersExhausted = 6,
    // A delivery's index is not in the post.
    NoSuchMessage = 7,
    // A delivery or loss finds no head.
    NoHead = 8,
    // The message's head differs in stamp or set.
    OtherHead = 9,
    // The sender is the replica itself or lost, or the loss names itself, a stranger or one lost already.
    WrongParty = 10,
    // No rule hears this message in this stage.
    NotHeard = 11,
    // That kind from that sender was heard, or a Report was answered.
    HeardAlready = 12,
    // A view or delivery finds under two free places in the post.
    PostFull = 13,
    // The store has no place.
    NoPlace = 14,
    // The founding set is empty or the first number above the highest.
    BadFounding = 15,
    // Founding finds fewer than sixteen places or a page that is not fresh.
    NotFresh = 16,
    // A weight is zero.
    ZeroWeight = 17,
    // A page, row or message is against the rules.
    AgainstRules = 18,
}

impl Reason {
    // The refusal's number.
    pub fn number(self) -> u8
        ensures { result ≡ reason_number self }
    {
        self as u8
    }

    // This layer's refusal of a call at a replica, of whatever number.
    pub fn at(self, replica: u8, layer: Layer) -> Fault
        ensures { result ≡ refused_at layer self replica }
    {
        Fault {
            reason: self,
            replica: Some(replica),
            layer,
        }
    }

    // This layer's refusal, which names no replica.
    pub fn by(self, layer: Layer) -> Fault
        ensures { result ≡ refused_by layer self }
    {
        Fault {
            reason: self,
            replica: None,
            layer,
        }
    }
}

// A refusal. It changes nothing.
#[derive(Clone, Copy, PartialEq, Eq, Debug)]
pub struct Fault {
    pub reason: Reason,
    pub replica: Option<u8>,
    pub layer: Layer,
}

// Refused with this fault, where the condition holds.
pub fn refuse_if(condition: bool, fault: Fault) -> Result<(), Fault>
    ensures { result ≡ allowed (refused_if condition fault) }
{
    if condition { Err(fault) } else { Ok(()) }
}

// Why a call did not do its work: a refusal, or want of memory, which changes nothing either.
#[derive(Clone, Copy, PartialEq, Eq, Debug)]
pub enum Failure {
    Refused(Fault),
    NoMemory,
}

// A refusal of a lower layer comes up as it is, with its layer.
impl From<Fault> for Failure {
    ghost from_gives = { λ e r. r ≡ Refused e };

    fn from(fault: Fault) -> Failure {
        Failure::Refused(fault)
    }
}

// Want of memory comes up as such.
impl From<AllocError> for Failure {
    ghost from_gives = { λ _ r. r ≡ NoMemory };

    fn from(_: AllocError) -> Failure {
        Failure::NoMemory
    }
}

impl fmt::Display for Layer {
    fn fmt<W: fmt::Write>(&self, f: &mut fmt::Formatter<W>) -> fmt::Result {
        f.write_str(match self {
            Layer::Store => "store",
            Layer::Rule => "rule",
            Layer::Manager => "manager",
            Layer::Floor => "floor",
        })
    }
}

impl fmt::Display for Fault {
    fn fmt<W: fmt::Write>(&self, f: &mut fmt::Formatter<W>) -> fmt::Result {
        let number = self.reason.number();
        let layer = self.layer;
        match self.replica {
            Some(replica) => write!(f, "refused {number} at replica {replica} by {layer}"),
            None => write!(f, "refused {number} by {layer}"),
        }
    }
}

impl fmt::Display for Failure {
    fn fmt<W: fmt::Write>(&self, f: &mut fmt::Formatter<W>) -> fmt::Result {
        match self {
            Failure::Refused(fault) => write!(f, "{fault}"),
            Failure::NoMemory => f.write_str("no memory"),
        }
    }
}

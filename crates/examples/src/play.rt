// A floor on which replicas 1 to 7 play. A call that is refused where the history wants it accepted, and a round that ends where none
// should, are errors, which end the program.
use anyhow::{Result, bail};
use floor::Floor;
use manager::Need;
use quorum::{CountRule, Failure, Replica, ReplicaSet};
use rounds::{End, Outcome};
use rows::{Body, Message};
use runs::{Call, Work};
use std::alloc::Global;
use stores::{Head, HeldPages, Number, Page, Stamp, View};

pub fn group(members: &[u8]) -> ReplicaSet {
    let mut set = ReplicaSet::EMPTY;
    for member in members {
        set = set.with(*member);
    }
    set
}

pub fn view(number: u32, members: &[u8]) -> View {
    View {
        number: Number(number),
        set: group(members),
    }
}

// A set as the view maker announces it under a stamp.
pub fn announced(stamp: u32, members: &[u8]) -> Head {
    Head {
        stamp: Stamp(stamp),
        set: group(members),
    }
}

pub fn need_name(need: Need) -> &'static str {
    match need {
        Need::One => "one",
        Need::MoreThanHalf => "more than half",
    }
}

// What a message is looked up by: the kind of its body, without what the body tells.
#[derive(Clone, Copy, Debug)]
pub enum Kind {
    State,
    Join,
    Recorded,
    Report,
}

impl Kind {
    fn fits(self, body: Body) -> bool {
        matches!(
            (self, body),
            (Kind::State, Body::State(_, _))
                | (Kind::Join, Body::Join)
                | (Kind::Recorded, Body::Recorded(_, _))
                | (Kind::Report, Body::Report(_))
        )
    }
}

// How a round ended in a call, if one did.
pub type Ended = Option<(Outcome, Option<View>)>;

#[derive(Drop)]
pub struct Play {
    floor: Floor<CountRule, HeldPages>,
    post: Vec<Message>,
    // The name of what is played, which an error tells.
    scene: &'static str,
}

impl Play {
    pub fn found(heap: Global, first: View, need: Need) -> Result<Play> {
        let mut floor = Floor::new(CountRule, HeldPages::new());
        let mut post = Vec::new(heap);
        if let Err(fault) = floor.found(&mut post, first, need) {
            bail!("the founding: {fault}");
        }
        Ok(Play {
            floor,
            post,
            scene: "the founding",
        })
    }

    pub fn enter(&mut self, scene: &'static str) {
        self.scene = scene;
    }

    fn make(&mut self, call: Call) -> Result<Ended> {
        match self.floor.apply(&mut self.post, call) {
            Ok(answer) => Ok(answer.ended),
            Err(failure) => bail!("{}: {call:?}: {failure}", self.scene),
        }
    }

    fn check_no_end(&self, ended: Ended) -> Result<()> {
        if let Some((outcome, settled)) = ended {
            bail!(
                "{}: a round ended with {}",
                self.scene,
                End(outcome, settled)
            );
        }
        Ok(())
    }

    // An accepted call in which no round ends.
    fn make_quietly(&mut self, call: Call) -> Result<()> {
        let ended = self.make(call)?;
        self.check_no_end(ended)
    }

    pub fn crash(&mut self, replicas: &[u8]) -> Result<()> {
        for replica in replicas {
            self.make_quietly(Call::Stop(*replica))?;
        }
        Ok(())
    }

    pub fn recover(&mut self, replicas: &[u8]) -> Result<()> {
        for replica in replicas {
            self.make_quietly(Call::Whole(Work::Start(*replica)))?;
        }
        Ok(())
    }

    fn is_up(&self, replica: u8) -> bool {
        match self.floor.row(replica) {
            Some(row) => row.up,
            None => false,
        }
    }

    // The whole group fails: whoever is up crashes.
    pub fn crash_all(&mut self) -> Result<()> {
        for replica in Replica::all() {
            if self.is_up(replica.number()) {
                self.crash(&[replica.number()])?;
            }
        }
        Ok(())
    }

    // These take up the view; to its other members it comes later or never.
    pub fn take_up(&mut self, head: Head, replicas: &[u8]) -> Result<()> {
        for replica in replicas {
            self.make_quietly(Call::Whole(Work::View(*replica, head)))?;
        }
        Ok(())
    }

    // To each of these, the other is lost.
    pub fn lose(&mut self, replicas: &[u8], lost: u8) -> Result<()> {
        for replica in replicas {
            self.make_quietly(Call::Whole(Work::Loss(*replica, lost)))?;
        }
        Ok(())
    }

    // The latest message of this kind from the sender, with its index in the post.
    pub fn latest(&self, kind: Kind, sender: u8) -> Result<(u64, Message)> {
        let index = self.post.iter().rposition(|message| message.sender == sender
            && kind.fits(message.body));
        if let Some(index) = index
            && let Some(message) = self.post.get(index)
        {
            return Ok((index as u64, *message));
        }
        bail!("{}: {sender} has posted no {kind:?}", self.scene)
    }

    // That message is delivered to the replica.
    pub fn hear(&mut self, replica: u8, kind: Kind, sender: u8) -> Result<Ended> {
        let (index, _) = self.latest(kind, sender)?;
        self.make(Call::Whole(Work::Deliver(replica, index)))
    }

    // Each receiver hears the senders but itself, in their order, and no round ends.
    pub fn tell(&mut self, kind: Kind, senders: &[u8], receivers: &[u8]) -> Result<()> {
        for receiver in receivers {
            for sender in senders {
                if sender != receiver {
                    let ended = self.hear(*receiver, kind, *sender)?;
                    self.check_no_end(ended)?;
                }
            }
        }
        Ok(())
    }

    // Members and newcomers are announced together and take up the view, until all have recorded it. The members hear one
    // another's States, and the newcomers as many as they want, the members' view being of this size. So the newcomers
    // record; the members hear of all of them, and record too.
    pub fn admit(&mut self, head: Head, members: &[u8], newcomers: &[u8], size: u32) -> Result<()> {
        self.take_up(head, members)?;
        self.take_up(head, newcomers)?;
        self.tell(Kind::State, members, members)?;
        self.tell(Kind::Join, newcomers, newcomers)?;
        for member in members.iter().take(self.floor.need().of(size) as usize) {
            self.tell(Kind::State, &[*member], newcomers)?;
        }
        self.tell(Kind::Recorded, newcomers, members)
    }

    // Whether the replica is up, and its page.
    pub fn holds(&self, replica: u8) -> Option<(bool, Page)> {
        let page = self.floor.page(replica)?;
        Some((self.is_up(replica), page))
    }

    // A view that is to be refused: with what.
    pub fn refusal(&mut self, replica: u8, head: Head) -> Result<Failure> {
        let call = Call::Whole(Work::View(replica, head));
        match self.floor.apply(&mut self.post, call) {
            Ok(_) => bail!("{}: {call:?}: not refused", self.scene),
            Err(failure) => Ok(failure),
        }
    }
}

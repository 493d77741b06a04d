// The state of a program: the floor with its post, the views installed on it, and how many calls were
// accepted and refused.
ghost use Rattle.std.specs.Prelude.{◌≡◌, ◌<◌, [], false, replicate, true, MatchResult, OnErr, OnOk};
ghost use Rattle.std.specs.Prelude.{vec_len, vec_capacity};
ghost use Rattle.quorum.specs.Faults.{allowed};
ghost use Rattle.runs.specs.Founding.{founding_refusal, Founding};
ghost use Rattle.stores.specs.Kept.{fresh};
ghost use Rattle.board.specs.Plays.{floor_of, messages_of, is_founded};

use super::play::Play;
use manager::{Answer, Need};
use quorum::{ChosenRule, Failure, Fault, QuorumRule, Replica, WeightRule};
use rounds::End;
use rows::{Message, Posts};
use runs::Call;
use script::{Command, parse};
use std::alloc::Global;
use std::fmt::Display;
use std::io::Write;
use std::{io, mem};
use stores::View;

#[derive(Drop)]
pub struct Hall {
    alloc: Global,
    rule: ChosenRule,
    play: Play,
    // Distinct views, in the order in which they were first installed on this floor.
    installed: Vec<View>,
    accepted: u64,
    refused: u64,
}

impl Hall {
    // A program begins with a floor of the count rule.
    pub fn new(rt: HostRuntime) -> Hall {
        Hall {
            alloc: rt.alloc(),
            rule: ChosenRule::Count,
            play: Play::new(ChosenRule::Count, rt.alloc()),
            installed: Vec::new(rt.alloc()),
            accepted: 0,
            refused: 0,
        }
    }

    // Carries out a line and prints what came of it, under the line's number.
    pub fn hear<W: Write>(&mut self, number: u64, line: &[u8], out: &mut W) -> io::Result<()> {
        let reply = Reply { number, out };
        match parse(line) {
            Ok(None) => Ok(()),
            Ok(Some(command)) => self.carry_out(command, reply),
            Err(error) => reply.say(error),
        }
    }

    fn carry_out<W: Write>(&mut self, command: Command, reply: Reply<W>) -> io::Result<()> {
        match command {
            Command::FloorCount => {
                self.open(ChosenRule::Count);
                self.tell(Ok(()), reply)
            }
            Command::FloorWeight(weights) => {
                let made = self.weigh(weights);
                self.tell(made, reply)
            }
            Command::Found(view, need) => {
                let founded = self.found(view, need);
                self.tell(founded, reply)
            }
            Command::Call(call) => self.make_and_tell(call, reply),
            Command::Carries(part, set) => {
                if self.rule.carries(part, set) {
                    reply.say("carries")
                } else {
                    reply.say("does not carry")
                }
            }
            Command::Account => self.account(reply.out),
        }
    }

    // A new floor has fresh pages, an empty post and no installed view.
    fn open(&mut self, rule: ChosenRule)
        ensures rule { self.new.rule ≡ rule }
        ensures before { is_founded self.new.play ≡ false }
        ensures pages { (floor_of self.new.play).store.pages ≡ replicate 16 fresh }
        ensures post { messages_of self.new.play ≡ [] }
        ensures installed { self.new.installed.items ≡ [] }
    {
        self.rule = rule;
        self.play = Play::new(rule, self.alloc);
        self.installed.clear();
    }

    // A new floor with the weight rule; the old floor stays where a weight is zero.
    fn weigh(&mut self, weights: [u8; 16]) -> Result<(), Failure>
        ensures { MatchResult result
            (λ _. (floor_of self.new.play).store.pages ≡ replicate 16 fresh) (λ _. self.new ≡ self.old) }
    {
        self.open(ChosenRule::Weight(WeightRule::new(weights)?));
        Ok(())
    }

    // The first view is installed by founding. Refused, floor and post are as they were.
    fn found(&mut self, view: View, need: Need) -> Result<(), Failure>
        ensures session { OnOk result (is_founded self.new.play ≡ true) }
        ensures founded { OnOk result (Founding view need (floor_of self.new.play).store.pages
            (floor_of self.new.play).table.rows (floor_of self.new.play).need (messages_of self.new.play)) }
        ensures kept { OnErr result ((floor_of self.new.play ≡ floor_of self.old.play)
            × (messages_of self.new.play ≡ messages_of self.old.play)) }
    {
        self.make_room()?;
        self.play.floor().check_founding(view)?;
        self.begin(view, need)?;
        self.note_installed(view);
        Ok(())
    }

    // A floor is large and is moved into its session: a function by itself, so that a refused founding moves none.
    #[inline(never)]
    fn begin(&mut self, view: View, need: Need) -> Result<(), Fault>
        ensures installed { self.new.installed ≡ self.old.installed }
        ensures answer { result ≡ allowed
            (founding_refusal view (floor_of self.old.play).store.pages 65535) }
        ensures session { OnOk result (is_founded self.new.play ≡ true) }
        ensures founded { OnOk result (Founding view need (floor_of self.new.play).store.pages
            (floor_of self.new.play).table.rows (floor_of self.new.play).need (messages_of self.new.play)) }
        ensures kept { OnErr result ((floor_of self.new.play ≡ floor_of self.old.play)
            × (messages_of self.new.play ≡ messages_of self.old.play)) }
    {
        let new = Play::new(self.rule, self.alloc);
        let (play, founded) = mem::replace(&mut self.play, new).found(view, need);
        self.play = play;
        founded
    }

    // Room for one more installed view.
    fn make_room(&mut self) -> Result<(), Failure>
        ensures room { OnOk result (vec_len self.new.installed < vec_capacity self.new.installed) }
        ensures play { self.new.play ≡ self.old.play }
    {
        self.installed.reserve(1)?;
        Ok(())
    }

    fn component(&self, replica: u8) -> Option<View> {
        self.play.floor().page(replica)?.component
    }

    // A view was installed at the call's replica if its page has come to hold another one.
    fn make(&mut self, call: Call) -> Result<Answer, Failure> {
        self.make_room()?;
        let replica = call.replica();
        let before = self.component(replica);
        let answer = self.play.call(call)?;
        if let Some(view) = self.component(replica)
            && before != Some(view)
        {
            self.note_installed(view);
        }
        Ok(answer)
    }

    // The view is in the list. A view is installed only after the one numbered below it, so the numbers rise along the
    // list, and the search goes back no further than to a lower number.
    fn was_installed(&self, view: View) -> bool {
        self.installed
            .iter()
            .rev()
            .take_while(|earlier| earlier.number >= view.number)
            .any(|earlier| *earlier == view)
    }

    // There is room for it.
    fn note_installed(&mut self, view: View)
        requires { vec_len self.old.installed < vec_capacity self.old.installed }
        ensures { self.new.play ≡ self.old.play }
    {
        if !self.was_installed(view) {
            self.installed.push_reserved(view);
        }
    }

    fn make_and_tell<W: Write>(&mut self, call: Call, reply: Reply<W>) -> io::Result<()> {
        let first = self.play.post().len();
        match self.make(call) {
            Ok(answer) => {
                self.accepted = self.accepted.saturating_add(1);
                reply.accept(first, answer)
            }
            Err(failure) => self.tell(Err(failure), reply),
        }
    }

    fn tell<W: Write>(&mut self, answer: Result<(), Failure>, reply: Reply<W>) -> io::Result<()> {
        match answer {
            Ok(()) => {
                self.accepted = self.accepted.saturating_add(1);
                reply.say("accepted")
            }
            Err(failure) => {
                self.refused = self.refused.saturating_add(1);
                reply.say(failure)
            }
        }
    }

    // The sixteen replicas, the installed views, the post and the calls.
    pub fn account<W: Write>(&self, out: &mut W) -> io::Result<()> {
        writeln!(out, "account")?;
        for replica in Replica::all() {
            self.account_of(replica.number(), out)?;
        }
        self.account_of_installed(out)?;
        writeln!(
            out,
            "  post {}, calls {}, accepted {}, refused {}",
            self.play.post().len(),
            self.accepted.saturating_add(self.refused),
            self.accepted,
            self.refused
        )
    }

    // A replica's row and page.
    fn account_of<W: Write>(&self, replica: u8, out: &mut W) -> io::Result<()> {
        if let Some(row) = self.play.floor().row(replica)
            && let Some(page) = self.play.floor().page(replica)
        {
            let power = if row.up { "up" } else { "down" };
            writeln!(
                out,
                "  {replica}: {power} {} {}, {page}",
                page.mode, row.stage
            )?;
        }
        Ok(())
    }

    fn account_of_installed<W: Write>(&self, out: &mut W) -> io::Result<()> {
        let Some((first, others)) = self.installed.split_first() else {
            return writeln!(out, "  installed none");
        };
        write!(out, "  installed {first}")?;
        for view in others {
            write!(out, "; {view}")?;
        }
        writeln!(out)
    }
}

// The reply to a line, which is printed under the line's number.
#[derive(Drop)]
struct Reply<'a, W> {
    number: u64,
    out: &'a mut W,
}

impl<W: Write> Reply<'_, W> {
    fn say(self, text: impl Display + Drop) -> io::Result<()> {
        let Reply { number, out } = self;
        writeln!(out, "{number}: {text}")
    }

    // An accepted call: how a round ended, if one did, and what was posted, from this index of the post on.
    fn accept(self, first: usize, answer: Answer) -> io::Result<()> {
        let Reply { number, out } = self;
        match answer.ended {
            Some((outcome, settled)) => {
                let end = End(outcome, settled);
                writeln!(out, "{number}: accepted, round ended with {end}")?;
            }
            None => writeln!(out, "{number}: accepted")?,
        }
        match answer.posts {
            Posts::Nothing => Ok(()),
            Posts::One(message) => tell_posted(first, message, out),
            Posts::Two(message, other) => {
                tell_posted(first, message, out)?;
                tell_posted(first.saturating_add(1), other, out)
            }
        }
    }
}

fn tell_posted<W: Write>(index: usize, message: Message, out: &mut W) -> io::Result<()> {
    writeln!(out, "  posted {index}: {message}")
}

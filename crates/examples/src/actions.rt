// What is done in a play, and what is printed of it, one after another.
use super::play::{Kind, Play, announced};
use anyhow::Result;
use std::io::Write;

// A value and no function: steps and examples are tables of actions.
#[derive(Clone, Copy)]
pub enum Action {
    Crash(&'static [u8]),
    CrashAll,
    Recover(&'static [u8]),
    // The set is announced under the stamp, and these of its members take up the view.
    TakeUp(u32, &'static [u8], &'static [u8]),
    // To each of these, the other is lost.
    Lose(&'static [u8], u8),
    // The latest message of this kind from each of the first is delivered to each of the others.
    Tell(Kind, &'static [u8], &'static [u8]),
    // Members and newcomers are announced together under the stamp, until all have recorded the view; the members' view is of this
    // size.
    Admit(u32, &'static [u8], &'static [u8], &'static [u8], u32),
    // Of what follows, a line is printed, or more.
    Say(&'static str),
    ShowHeld,
    ShowReports(&'static [u8]),
    // The report of the second is delivered to the first.
    ShowHearing(u8, u8),
    // The set is announced under the stamp; its members report, and each hears the others.
    ShowRound(u32, &'static [u8]),
    // The set is announced under the stamp; these of its members refuse it.
    ShowRefusals(u32, &'static [u8], &'static [u8]),
}

impl Play {
    fn perform<W: Write>(&mut self, action: Action, out: &mut W) -> Result<()> {
        match action {
            Action::Crash(replicas) => self.crash(replicas),
            Action::CrashAll => self.crash_all(),
            Action::Recover(replicas) => self.recover(replicas),
            Action::TakeUp(stamp, set, replicas) => self.take_up(announced(stamp, set), replicas),
            Action::Lose(replicas, lost) => self.lose(replicas, lost),
            Action::Tell(kind, senders, receivers) => self.tell(kind, senders, receivers),
            Action::Admit(stamp, set, members, newcomers, size) => {
                self.admit(announced(stamp, set), members, newcomers, size)
            }
            Action::Say(text) => Ok(writeln!(out, "{text}")?),
            Action::ShowHeld => self.show_held(out),
            Action::ShowReports(replicas) => self.show_reports(replicas, out),
            Action::ShowHearing(replica, sender) => self.show_hearing(replica, sender, out),
            Action::ShowRound(stamp, set) => self.show_round(announced(stamp, set), set, out),
            Action::ShowRefusals(stamp, set, replicas) => {
                self.show_refusals(announced(stamp, set), replicas, out)
            }
        }
    }

    // An error tells the name.
    pub fn perform_all<W: Write>(
        &mut self,
        name: &'static str,
        actions: &[Action],
        out: &mut W,
    ) -> Result<()> {
        self.enter(name);
        for action in actions {
            self.perform(*action, out)?;
        }
        Ok(())
    }
}

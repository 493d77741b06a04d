// What is printed of a play.
use super::play::{Ended, Kind, Play};
use anyhow::Result;
use rounds::End;
use std::io::Write;
use stores::{Head, OrNone};

// How a round ended at a replica, if one did.
fn show_end<W: Write>(replica: u8, ended: Ended, out: &mut W) -> Result<()> {
    if let Some((outcome, settled)) = ended {
        writeln!(out, "  {replica} ends its round: {}", End(outcome, settled))?;
    }
    Ok(())
}

impl Play {
    // What each of the seven holds.
    pub fn show_held<W: Write>(&self, out: &mut W) -> Result<()> {
        for replica in 1..8u8 {
            if let Some((up, page)) = self.holds(replica) {
                let power = if up { "up" } else { "down" };
                let component = OrNone(page.component);
                let recorded = OrNone(page.recorded);
                writeln!(
                    out,
                    "  {replica}: {power} {}, component {component}, recorded {recorded}",
                    page.mode
                )?;
            }
        }
        Ok(())
    }

    pub fn show_reports<W: Write>(&self, replicas: &[u8], out: &mut W) -> Result<()> {
        for replica in replicas {
            let (_, message) = self.latest(Kind::Report, *replica)?;
            writeln!(out, "  {replica} posts {message}")?;
        }
        Ok(())
    }

    // The replica hears the sender's report.
    pub fn show_hearing<W: Write>(&mut self, replica: u8, sender: u8, out: &mut W) -> Result<()> {
        let (_, message) = self.latest(Kind::Report, sender)?;
        writeln!(out, "  {replica} hears {message}")?;
        let ended = self.hear(replica, Kind::Report, sender)?;
        show_end(replica, ended, out)
    }

    // After a failure these are connected. Each takes up the view of them all and hears the others' reports.
    pub fn show_round<W: Write>(&mut self, head: Head, members: &[u8], out: &mut W) -> Result<()> {
        writeln!(out, "connected under stamp {}: {}", head.stamp, head.set)?;
        self.take_up(head, members)?;
        for replica in members {
            self.show_reports(&[*replica], out)?;
            for sender in members {
                if sender != replica {
                    self.show_hearing(*replica, *sender, out)?;
                }
            }
        }
        writeln!(out, "held afterwards")?;
        self.show_held(out)
    }

    // What was taken up under a stamp is refused under that stamp from then on, so the view maker has to announce it anew.
    pub fn show_refusals<W: Write>(
        &mut self,
        head: Head,
        replicas: &[u8],
        out: &mut W,
    ) -> Result<()> {
        writeln!(out, "once more under stamp {}: {}", head.stamp, head.set)?;
        for replica in replicas {
            let failure = self.refusal(*replica, head)?;
            writeln!(out, "  {replica} takes it up: {failure}")?;
        }
        Ok(())
    }
}

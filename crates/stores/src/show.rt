// Views, pages and what stands on them, as people read them.
use super::page::{Mode, Page};
use super::view::{Head, Number, Recorded, Stamp, View};
use std::fmt;

// What may be absent: `none`, where it is.
#[derive(Clone, Copy)]
pub struct OrNone<T>(pub Option<T>);

impl<T: fmt::Display> fmt::Display for OrNone<T> {
    fn fmt<W: fmt::Write>(&self, f: &mut fmt::Formatter<W>) -> fmt::Result {
        match &self.0 {
            Some(value) => write!(f, "{value}"),
            None => f.write_str("none"),
        }
    }
}

impl fmt::Display for Mode {
    fn fmt<W: fmt::Write>(&self, f: &mut fmt::Formatter<W>) -> fmt::Result {
        f.write_str(match self {
            Mode::Waiting => "waiting",
            Mode::Joining => "joining",
            Mode::Normal => "normal",
            Mode::Reconfiguration => "reconfiguration",
        })
    }
}

impl fmt::Display for Stamp {
    fn fmt<W: fmt::Write>(&self, f: &mut fmt::Formatter<W>) -> fmt::Result {
        write!(f, "{}", self.0)
    }
}

impl fmt::Display for Number {
    fn fmt<W: fmt::Write>(&self, f: &mut fmt::Formatter<W>) -> fmt::Result {
        write!(f, "{}", self.0)
    }
}

// A view: its number and its set, as in 7 {1,2,3}.
impl fmt::Display for View {
    fn fmt<W: fmt::Write>(&self, f: &mut fmt::Formatter<W>) -> fmt::Result {
        write!(f, "{} {}", self.number, self.set)
    }
}

// A recorded view: the view and its stamp, as in 8 {1,2,6} stamp 40.
impl fmt::Display for Recorded {
    fn fmt<W: fmt::Write>(&self, f: &mut fmt::Formatter<W>) -> fmt::Result {
        write!(f, "{} stamp {}", self.view, self.stamp)
    }
}

// A head: its stamp and its set, as in 40 {1,2,6}.
impl fmt::Display for Head {
    fn fmt<W: fmt::Write>(&self, f: &mut fmt::Formatter<W>) -> fmt::Result {
        write!(f, "{} {}", self.stamp, self.set)
    }
}

// What stands on a page beside its mode.
impl fmt::Display for Page {
    fn fmt<W: fmt::Write>(&self, f: &mut fmt::Formatter<W>) -> fmt::Result {
        write!(
            f,
            "top {}, mark {}, component {}, recorded {}",
            self.top,
            OrNone(self.mark),
            OrNone(self.component),
            OrNone(self.recorded)
        )
    }
}

// Messages and stages as people read them.
use super::message::{Body, Message, Part};
use super::row::Stage;
use std::fmt;

impl fmt::Display for Part {
    fn fmt<W: fmt::Write>(&self, f: &mut fmt::Formatter<W>) -> fmt::Result {
        f.write_str(match self {
            Part::Member => "member",
            Part::Newcomer => "newcomer",
        })
    }
}

// The kind of a message.
fn kind(body: Body) -> &'static str {
    match body {
        Body::State(_, _) => "State",
        Body::Abort => "Abort",
        Body::Join => "Join",
        Body::Recorded(_, _) => "Recorded",
        Body::Report(_) => "Report",
    }
}

// A message, as in Join from 6 under 40 {1,2,6}; some kinds add to this.
impl fmt::Display for Message {
    fn fmt<W: fmt::Write>(&self, f: &mut fmt::Formatter<W>) -> fmt::Result {
        let kind = kind(self.body);
        write!(f, "{kind} from {} under {}", self.sender, self.head)?;
        match self.body {
            Body::State(component, survivors) => {
                write!(f, ", component {component}, survivors {survivors}")
            }
            Body::Abort | Body::Join => Ok(()),
            Body::Recorded(number, part) => write!(f, ", view {number} as {part}"),
            Body::Report(report) => write!(f, ", {report}"),
        }
    }
}

// A stage's name.
impl fmt::Display for Stage {
    fn fmt<W: fmt::Write>(&self, f: &mut fmt::Formatter<W>) -> fmt::Result {
        f.write_str(match self {
            Stage::Idle => "idle",
            Stage::Gathering(_, _) => "gathering",
            Stage::Confirming(_, _) => "confirming",
            Stage::Applying(_, _) => "applying",
            Stage::Entering(_, _) => "entering",
            Stage::Round(_, _) => "round",
        })
    }
}

// What a replica reports to a round.
ghost use Rattle.std.specs.Prelude.{◌≡◌, ◌+◌};
ghost use Rattle.rounds.specs.Reports.{report_of, at_view, holds, clear, level, marked_above};

use stores::{Mode, Number, Page, Recorded, View};

// The replica's page, but for the top stamp. An absent view or mark is `None`, never number 0.
#[derive(Clone, Copy, PartialEq, Eq, Debug)]
pub struct Report {
    pub mode: Mode,
    pub mark: Option<Number>,
    pub component: Option<View>,
    pub recorded: Option<Recorded>,
}

// What a replica reports of its page.
impl From<&Page> for Report {
    ghost from_gives = { λ p r. r ≡ report_of p.now };

    fn from(page: &Page) -> Report {
        Report {
            mode: page.mode,
            mark: page.mark,
            component: page.component,
            recorded: page.recorded,
        }
    }
}

impl Report {
    // Its component view is this one.
    fn is_at(&self, view: View) -> bool
        ensures { result ≡ at_view view self.now }
    {
        self.component == Some(view)
    }

    // At the view, with this recorded: number, set and stamp alike.
    pub(crate) fn holds(&self, view: View, recorded: Recorded) -> bool
        ensures { result ≡ holds view recorded self.now }
    {
        self.is_at(view) && self.recorded == Some(recorded)
    }

    // At the view with nothing recorded, or with a mark that is absent or at most the view's number.
    pub(crate) fn is_clear(&self, view: View) -> bool
        ensures { result ≡ clear view self.now }
    {
        self.is_at(view) && self.recorded.is_none() || !self.is_marked_above(view.number)
    }

    // At the view, or clear of it.
    pub(crate) fn is_level(&self, view: View) -> bool
        ensures { result ≡ level view self.now }
    {
        self.is_at(view) || self.is_clear(view)
    }

    // Its mark exceeds this number.
    fn is_marked_above(&self, number: Number) -> bool
        ensures { result ≡ marked_above number.0 self.now }
    {
        self.mark.is_some_and(|mark| number < mark)
    }

    // Its mark exceeds the number after this one.
    pub(crate) fn is_marked_past(&self, number: Number) -> bool
        ensures { result ≡ marked_above (number.0 + 1) self.now }
    {
        self.mark
            .is_some_and(|mark| number.next() < u64::from(mark.0))
    }
}

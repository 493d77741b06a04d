// The rules that every page keeps.
ghost use Rattle.std.specs.Prelude.{◌≡◌, ◌↔◌, IsTrue};
ghost use Rattle.stores.specs.Facts.{PageRules};
ghost use Rattle.stores.specs.Kept.{fresh};
ghost use Rattle.stores.specs.Rules.{mode_fits, marked, mark_fits, component_fits, recorded_fits, numbers_follow, keeps_rules};

use super::page::{Mode, Page};
use super::view::{Number, Recorded, Stamp, View};

impl Mode {
    // Whether a page of this mode has these views.
    fn fits(self, component: bool, recorded: bool) -> bool
        ensures { result ≡ mode_fits self component recorded }
    {
        match self {
            Mode::Waiting => !component && !recorded,
            Mode::Joining => !component && recorded,
            Mode::Normal => component,
            Mode::Reconfiguration => component || recorded,
        }
    }
}

// The mark is present and not below the number.
fn is_marked(mark: Option<Number>, number: Number) -> bool
    ensures { result ≡ marked mark number.0 }
{
    mark.is_some_and(|mark| number <= mark)
}

fn mark_fits(mark: Option<Number>) -> bool
    ensures { result ≡ mark_fits mark }
{
    mark.is_none_or(|mark| mark <= Number::HIGHEST)
}

fn component_fits(replica: u8, mark: Option<Number>, component: Option<View>) -> bool
    ensures { result ≡ component_fits replica mark component }
{
    component.is_none_or(|view| view.set.contains(replica) && is_marked(mark, view.number))
}

fn recorded_fits(replica: u8, top: Stamp, mark: Option<Number>, recorded: Option<Recorded>) -> bool
    ensures { result ≡ recorded_fits replica top.0 mark recorded }
{
    recorded.is_none_or(|Recorded { view, stamp }| {
        view.set.contains(replica)
            && view.number >= Number(1)
            && is_marked(mark, view.number)
            && stamp <= top
    })
}

fn numbers_follow(component: Option<View>, recorded: Option<Recorded>) -> bool
    ensures { result ≡ numbers_follow component recorded }
{
    component.zip(recorded).is_none_or(|(view, recorded)| u64::from(recorded.view.number.0)
        == view.number.next())
}

impl Page {
    // The page of a replica that has done nothing yet.
    pub fn fresh() -> Page
        ensures { result ≡ fresh }
    {
        Page {
            mode: Mode::Waiting,
            top: Stamp(0),
            mark: None,
            component: None,
            recorded: None,
        }
    }

    // Whether this may be the page of the replica.
    #[tactic(auto, unfolding(crate::specs::Rules::keeps_rules))]
    pub fn keeps_rules(&self, replica: u8) -> bool
        ensures test { result ≡ keeps_rules replica self.now }
        ensures rules { IsTrue result ↔ PageRules replica self.now }
    {
        self.mode
            .fits(self.component.is_some(), self.recorded.is_some())
            && mark_fits(self.mark)
            && component_fits(replica, self.mark, self.component)
            && recorded_fits(replica, self.top, self.mark, self.recorded)
            && numbers_follow(self.component, self.recorded)
    }
}

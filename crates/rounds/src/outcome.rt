// How a round ends.
ghost use Rattle.std.specs.Prelude.{◌≡◌};
ghost use Rattle.rounds.specs.Outcomes.{outcome_number};

#[derive(Clone, Copy, PartialEq, Eq, Debug)]
pub enum Outcome {
    // Settled on what was recorded, since its holders carry the presumed view.
    SettledByHolders = 1,
    // Settled on the presumed view, since its clear members carry it.
    SettledByClear = 2,
    // Settled on the presumed view, since all its members are at it or clear.
    SettledByAll = 3,
    // A member of the round was lost.
    LostMember = 4,
    // Nobody reports a component view.
    NoComponent = 5,
    // The presumed view is not carried by those of its members that are in the round.
    NotCarried = 6,
    // Somebody's mark exceeds the number after the presumed view's.
    MarkedPast = 7,
    // All have reported, and none of the others applies.
    Undecided = 8,
    // The replica is behind and becomes a spare.
    Spare = 9,
}

impl Outcome {
    // The outcome's number.
    pub fn number(self) -> u8
        ensures { result ≡ outcome_number self }
    {
        self as u8
    }
}

// The table.
ghost use Rattle.std.specs.Prelude.{◌≡◌, IsTrue};
ghost use Rattle.std.specs.List.{list_all};
ghost use Rattle.quorum.specs.Members.{listed, majority};
ghost use Rattle.starred.specs.Examples.{heavy, shows};
ghost use Rattle.starred.specs.Table.{table};

use super::round::Round;
use quorum::{CountRule, QuorumRule, ReplicaSet, WeightRule};
use rounds::Outcome;
use stores::{Number, View};

#[derive(Clone, Copy)]
pub enum Example {
    // By the count rule, whether the part carries the set.
    Count(ReplicaSet, ReplicaSet, bool),
    // The same where replica 1 weighs 5 and each other 1. A case for each rule: with the rule as a value the table could hold none of
    // weights, which may be refused where it is made.
    Weight(ReplicaSet, ReplicaSet, bool),
    // How the round ends, and the view that it settles on.
    Ends(Round, Outcome, Option<View>),
}

impl Example {
    // The rules and the decision, asked, say what the example says.
    pub fn is_shown(&self) -> bool
        ensures { result ≡ shows self.now }
    {
        match self {
            Example::Count(part, set, carried) => CountRule.carries(*part, *set) == *carried,
            Example::Weight(part, set, carried) => heavy_carries(*part, *set) == *carried,
            Example::Ends(round, outcome, settled) => round.end() == (*outcome, *settled),
        }
    }
}

// Replica 1 weighs 5, each other 1.
pub const HEAVY: [u8; 16] = [1, 5, 1, 1, 1, 1, 1, 1, 1, 1, 1, 1, 1, 1, 1, 1];

// No weight is zero, so the rule is not refused.
#[tactic(auto, unfolding(quorum::specs::Below::any))]
fn heavy_carries(part: ReplicaSet, set: ReplicaSet) -> bool
    ensures { result ≡ majority (listed heavy) part.0 set.0 }
{
    WeightRule::new(HEAVY).is_ok_and(|rule| rule.carries(part, set))
}

// Bit r of a set stands for replica r.
const ONE: ReplicaSet = ReplicaSet(0b10);

const ONE_TWO: ReplicaSet = ReplicaSet(0b110);

const ONE_THREE: ReplicaSet = ReplicaSet(0b1010);

const TWO_FOUR: ReplicaSet = ReplicaSet(0b1_0100);

const ONE_TO_THREE: ReplicaSet = ReplicaSet(0b1110);

const ONE_TO_FOUR: ReplicaSet = ReplicaSet(0b1_1110);

const ONE_TO_FIVE: ReplicaSet = ReplicaSet(0b11_1110);

const SIX: ReplicaSet = ReplicaSet(0b100_0000);

const ONE_TO_THREE_SIX: ReplicaSet = ReplicaSet(0b100_1110);

const ONE_TO_THREE_SIX_TO_NINE: ReplicaSet = ReplicaSet(0b11_1100_1110);

const SEVEN: View = View {
    number: Number(7),
    set: ONE_TO_FIVE,
};

const NARROW_SEVEN: View = View {
    number: Number(7),
    set: ONE_TO_THREE,
};

const EIGHT: View = View {
    number: Number(8),
    set: ONE_TO_THREE,
};

const EIGHT_OF_FOUR: View = View {
    number: Number(8),
    set: ONE_TO_FOUR,
};

const WIDE_EIGHT: View = View {
    number: Number(8),
    set: ONE_TO_THREE_SIX_TO_NINE,
};

// Three of the five, all clear.
const CLEAR: Round = Round {
    view: SEVEN,
    members: ONE_TO_THREE,
    recorded: EIGHT,
    early: ReplicaSet::EMPTY,
    late: ReplicaSet::EMPTY,
    bare: ReplicaSet::EMPTY,
};
// Four of the five: 1 and 2 hold, 3 and 4 are clear.
const TWO_AND_TWO: Round = Round {
    members: ONE_TO_FOUR,
    early: ONE_TWO,
    ..CLEAR
};
// All five: 1 and 2 hold, the others are clear.
const TWO_AND_THREE: Round = Round {
    members: ONE_TO_FIVE,
    ..TWO_AND_TWO
};
// All three hold a view of seven members, of whom the round has three.
const WITHOUT_SIX: Round = Round {
    view: NARROW_SEVEN,
    members: ONE_TO_THREE,
    recorded: WIDE_EIGHT,
    early: ONE_TO_THREE,
    late: ReplicaSet::EMPTY,
    bare: ReplicaSet::EMPTY,
};
// The same with 6, which holds it too and lacks a component view: four of the seven.
const WITH_SIX: Round = Round {
    members: ONE_TO_THREE_SIX,
    early: ONE_TO_THREE_SIX,
    bare: SIX,
    ..WITHOUT_SIX
};
// All five: the same view was recorded under two stamps by two each, and 5 is clear.
const TWO_STAMPS: Round = Round {
    view: SEVEN,
    members: ONE_TO_FIVE,
    recorded: EIGHT_OF_FOUR,
    early: ONE_THREE,
    late: TWO_FOUR,
    bare: ReplicaSet::EMPTY,
};

fn lines() -> [Example; 9]
    ensures { result ≡ table }
{
    [
        Example::Count(ONE_TO_THREE, ONE_TO_FIVE, true),
        Example::Count(ONE_TWO, ONE_TO_FOUR, false),
        Example::Weight(ONE, ONE_TO_THREE, true),
        Example::Ends(CLEAR, Outcome::SettledByClear, Some(SEVEN)),
        Example::Ends(TWO_AND_TWO, Outcome::Undecided, None),
        Example::Ends(TWO_AND_THREE, Outcome::SettledByClear, Some(SEVEN)),
        Example::Ends(WITHOUT_SIX, Outcome::Undecided, None),
        Example::Ends(WITH_SIX, Outcome::SettledByHolders, Some(WIDE_EIGHT)),
        Example::Ends(TWO_STAMPS, Outcome::SettledByAll, Some(SEVEN)),
    ]
}

// The table, with its theorem: each line is as the rules say.
pub fn starred() -> [Example; 9]
    ensures is { result ≡ table }
    ensures shown { IsTrue (list_all shows result) }
{
    lines()
}

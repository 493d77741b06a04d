// What judging a head comes to: a value and no closure, since the definitions of the calls speak of it.
use rounds::Outcome;
use stores::View;

#[derive(Clone, Copy)]
pub enum Verdict {
    // The head stays open.
    Stays,
    // The head is recorded.
    Records,
    // The recorded view is installed.
    Installs,
    // The mode becomes reconfiguration, and the head closes.
    Reconfigures,
    // The head closes.
    Closes,
    // The recorded view goes, the replica waits again, and the head closes.
    Forgets,
    // The round ends, with the pair that its decision gives: a rule of the project.
    Ends(Outcome, Option<View>),
}

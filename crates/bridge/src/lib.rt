// From the manager's rules to the moves: there is nothing to run here; the function carries the theorem.
#![tactic(auto)]

ghost use Rattle.bridge.specs.Refines.{Refines};

// Every accepted call of the manager, by every relation that grows and meets, is a chain of moves.
pub fn moves_stand()
    ensures { Refines }
{}

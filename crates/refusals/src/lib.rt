// When the manager's calls are refused, and that nothing is heard twice under a head. There is nothing to run here;
// each function carries a theorem about the calls as they are defined.
#![tactic(auto)]

ghost use Rattle.refusals.specs.Order.{RefusalsInOrder, AcceptedOtherwise};
ghost use Rattle.refusals.specs.Once.{DeliveriesNoted, HeardStays, HeardIsRefused, ReportsAnswered, OnceUnderHead};

// A call is refused with a number exactly where that number's condition holds and that of no earlier one in the
// call's order.
pub fn refusals_come_in_order()
    ensures { RefusalsInOrder }
{}

// A call is accepted exactly where none of these conditions holds.
pub fn nothing_else_refuses()
    ensures { AcceptedOtherwise }
{}

// An accepted delivery leaves its kind heard from its sender.
pub fn deliveries_are_noted()
    ensures { DeliveriesNoted }
{}

// What is heard stays heard while the head is open.
pub fn heard_stays_heard()
    ensures { HeardStays }
{}

// What is heard is not accepted again.
pub fn heard_is_refused()
    ensures { HeardIsRefused }
{}

// A Report is answered with the replica's own, and nothing else is.
pub fn reports_are_answered()
    ensures { ReportsAnswered }
{}

// Under a head no kind is heard twice from a sender, and no two calls post a Report.
pub fn once_under_a_head()
    ensures { OnceUnderHead }
{}

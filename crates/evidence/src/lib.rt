// What the manager's calls rest on, for every rule, need, page, row and request. There is nothing to run here; each function carries a
// theorem about the calls as they are defined.
#![tactic(auto)]

ghost use Rattle.evidence.specs.Views.{ComponentsFollow, RecordingsRest, OneReference};
ghost use Rattle.evidence.specs.Heads.{ClosingsRest, EndingsRest};

// The component view changes only by installing or settling, or goes with a spare; it is installed only where recording members carry.
pub fn components_change_only_by_installing_or_settling()
    ensures { ComponentsFollow }
{}

// The recorded view changes only by recording, or goes; a Recorded is posted only on its grounds.
pub fn recording_rests_on_what_is_known()
    ensures { RecordingsRest }
{}

// While applying, States of one component view are heard.
pub fn newcomers_hear_of_one_view()
    ensures { OneReference }
{}

// A head closes only on its evidence, with nobody lost.
pub fn heads_close_on_evidence()
    ensures { ClosingsRest }
{}

// The end of a round is told exactly where one ended, on its grounds.
pub fn rounds_end_on_evidence()
    ensures { EndingsRest }
{}

// The laws of the manager's calls, for every rule, need, page, row and request. There is nothing to run here; each function carries a
// theorem about the calls as they are defined.
#![tactic(auto)]

ghost use Rattle.laws.specs.Laws.{CallsKeep, CallsAdvance, PostsOwn, RefusalsLeave};
ghost use Rattle.laws.specs.Standing.{NoneLeftStanding};

// An accepted call leaves a page and row that keep the rules, and posts only messages that keep them.
pub fn calls_keep_rules()
    ensures { CallsKeep }
{}

// The top stamp and the mark never fall.
pub fn stamps_and_marks_never_fall()
    ensures { CallsAdvance }
{}

// A call posts the replica's own word, under the head of the call.
pub fn replicas_post_their_own_word()
    ensures { PostsOwn }
{}

// A refusal leaves page and row as they were, and is answered.
pub fn refusals_change_nothing()
    ensures { RefusalsLeave }
{}

// No accepted call leaves a row that stands to be recorded.
pub fn no_row_stands_to_be_recorded()
    ensures { NoneLeftStanding }
{}

// What each stage hears: the row is changed in place.
ghost use Rattle.std.specs.Prelude.{◌≡◌};
ghost use Rattle.manager.specs.Effects.{in_stage};
ghost use Rattle.manager.specs.Hearing.{one_above, as_recorded, as_component, reaches_mark, as_reference, fixed, hears_recorded, hears_reconfiguring, hears_from, hears_report, hears_reference, hears_join, base_of, outdoes, may_hear, hears, hearing_of, left_of};

use super::hearing::Hearing;
use quorum::{Reason, Replica, ReplicaSet};
use rounds::Report;
use rows::{Applied, Body, Message, Part, Recorders, Reference, Row, Stage};
use stores::{Mode, Number, Page, Recorded, View};

// One above the component view's number.
fn is_one_above(component: Option<View>, number: Number) -> bool
    ensures { result ≡ one_above component number }
{
    component.is_some_and(|component| u64::from(number.0) == component.number.next())
}

// The recorded view's number.
fn is_recorded(recorded: Option<Recorded>, number: Number) -> bool
    ensures { result ≡ as_recorded recorded number }
{
    recorded.is_some_and(|recorded| number == recorded.view.number)
}

fn is_component(component: Option<View>, view: View) -> bool
    ensures { result ≡ as_component component view }
{
    component == Some(view)
}

// The number after it is not below the mark.
fn reaches_mark(mark: Option<Number>, number: Number) -> bool
    ensures { result ≡ reaches_mark mark number }
{
    mark.is_none_or(|mark| u64::from(mark.0) <= number.next())
}

fn is_reference(reference: Option<Reference>, view: View) -> bool
    ensures { result ≡ as_reference reference view }
{
    reference.is_none_or(|reference| reference.component == view)
}

// The first State fixes the reference.
fn fix(reference: Option<Reference>, component: View, survivors: ReplicaSet) -> Reference
    ensures { result ≡ fixed reference component survivors }
{
    reference.unwrap_or(Reference {
        component,
        survivors,
    })
}

// The number that a round starts from. The views that may be absent are met one by one, each with its `else`: a rule of the project.
fn base(page: &Page) -> Option<Number>
    ensures { result ≡ base_of page.now.component page.now.recorded }
{
    let Some(component) = page.component else {
        let Some(recorded) = page.recorded else {
            return None;
        };
        return Some(Number(recorded.view.number.0.saturating_sub(1)));
    };
    Some(component.number)
}

// A report of mode normal with a component view above the base: the board has gone on without this replica. As in `base`, what may
// be absent is met one by one.
fn is_outdone(page: &Page, report: &Report) -> bool
    ensures { result ≡ outdoes page.now report.now }
{
    let Mode::Normal = report.mode else {
        return false;
    };
    let Some(number) = base(page) else {
        return false;
    };
    let Some(component) = report.component else {
        return false;
    };
    number < component.number
}

// Whether a rule hears the message is asked first, then whether it was heard before.
fn may_hear(hears: bool, already: bool) -> Result<(), Reason>
    ensures { result ≡ may_hear hears already }
{
    if !hears {
        return Err(Reason::NotHeard);
    }
    if already {
        return Err(Reason::HeardAlready);
    }
    Ok(())
}

// A Recorded is heard once from a sender, in whichever part.
fn hear_recorded(
    recorders: &mut Recorders,
    hears: bool,
    sender: Replica,
    part: Part,
) -> Result<Hearing, Reason>
    ensures answer { result ≡ hearing_of (hears_recorded hears recorders.old sender part) }
    ensures recorders { recorders.new ≡ left_of recorders.old (hears_recorded hears recorders.old sender part) }
{
    may_hear(hears, recorders.all().contains(sender.number()))?;
    *recorders = recorders.with(sender.number(), part);
    Ok(Hearing::Heard)
}

// A Report of mode reconfiguration is answered once.
fn hear_reconfiguring(answered: &mut bool, report: &Report) -> Result<Hearing, Reason>
    ensures answer { result ≡ hearing_of (hears_reconfiguring answered.old report.now) }
    ensures answered { answered.new ≡ left_of answered.old (hears_reconfiguring answered.old report.now) }
{
    may_hear(report.mode == Mode::Reconfiguration, *answered)?;
    *answered = true;
    Ok(Hearing::Answered)
}

// A report is heard once from a sender. One of a replica that went on without this one makes it a spare.
fn hear_report(
    page: &Page,
    reports: &mut [Option<Report>; 16],
    sender: Replica,
    report: &Report,
) -> Result<Hearing, Reason>
    ensures answer { result ≡ hearing_of (hears_report page.now reports.old sender report.now) }
    ensures reports { reports.new ≡ left_of reports.old (hears_report page.now reports.old sender report.now) }
{
    may_hear(true, reports[sender.index()].is_some())?;
    reports[sender.index()] = Some(*report);
    if is_outdone(page, report) {
        Ok(Hearing::Outdone)
    } else {
        Ok(Hearing::Heard)
    }
}

// A State is heard once from a sender.
fn hear_state(states: &mut ReplicaSet, hears: bool, sender: Replica) -> Result<Hearing, Reason>
    ensures answer { result ≡ hearing_of (hears_from hears states.old sender) }
    ensures states { states.new ≡ left_of states.old (hears_from hears states.old sender) }
{
    may_hear(hears, states.contains(sender.number()))?;
    *states = states.with(sender.number());
    Ok(Hearing::Heard)
}

// A State that a newcomer hears fixes its reference, or fits it.
fn hear_reference(
    page: &Page,
    applied: &mut Applied,
    sender: Replica,
    component: View,
    survivors: ReplicaSet,
) -> Result<Hearing, Reason>
    ensures answer { result ≡ hearing_of (hears_reference page.now applied.old sender component survivors) }
    ensures applied { applied.new ≡ left_of applied.old (hears_reference page.now applied.old sender component survivors) }
{
    let hears = reaches_mark(page.mark, component.number)
        && is_reference(applied.reference, component);
    may_hear(hears, applied.states.contains(sender.number()))?;
    applied.states = applied.states.with(sender.number());
    applied.reference = Some(fix(applied.reference, component, survivors));
    Ok(Hearing::Heard)
}

// Before a reference a Join is heard once from a sender.
fn hear_join(applied: &mut Applied, sender: Replica) -> Result<Hearing, Reason>
    ensures answer { result ≡ hearing_of (hears_join applied.old sender) }
    ensures applied { applied.new ≡ left_of applied.old (hears_join applied.old sender) }
{
    may_hear(
        applied.reference.is_none(),
        applied.joins.contains(sender.number()),
    )?;
    applied.joins = applied.joins.with(sender.number());
    Ok(Hearing::Heard)
}

// Hears the message, or says why not: the table of what each stage hears, in one match that changes the row in place.
#[tactic(auto, using(crate::proofs::Turns::turned_answers, crate::proofs::Turns::turned_leaves, crate::proofs::Turns::heard_answers), unfolding(crate::specs::Hearing::hears))]
pub(crate) fn hear(
    page: &Page,
    row: &mut Row,
    sender: Replica,
    message: &Message,
) -> Result<Hearing, Reason>
    ensures answer { result ≡ hearing_of (hears page.now row.old sender message.now.body) }
    ensures row { row.new ≡ in_stage (left_of row.old.stage (hears page.now row.old sender message.now.body)) row.old }
{
    let survivors = row.survivors;
    match (&mut row.stage, &message.body) {
        (Stage::Gathering(_, gathered), Body::State(component, _)) => {
            let survives = survivors.contains(sender.number());
            let hears = survives && is_component(page.component, *component);
            hear_state(&mut gathered.states, hears, sender)
        }
        (Stage::Gathering(_, gathered), Body::Recorded(number, part)) => {
            let hears = is_one_above(page.component, *number);
            hear_recorded(&mut gathered.recorders, hears, sender, *part)
        }
        (Stage::Gathering(_, gathered), Body::Report(report)) => {
            hear_reconfiguring(&mut gathered.answered, report)
        }
        (Stage::Confirming(_, confirmed), Body::Recorded(number, part)) => {
            let hears = is_recorded(page.recorded, *number);
            hear_recorded(&mut confirmed.recorders, hears, sender, *part)
        }
        (Stage::Confirming(_, confirmed), Body::Report(report)) => {
            hear_reconfiguring(&mut confirmed.answered, report)
        }
        (Stage::Applying(_, applied), Body::State(component, theirs)) => {
            hear_reference(page, applied, sender, *component, *theirs)
        }
        (Stage::Applying(_, applied), Body::Join) => hear_join(applied, sender),
        (Stage::Applying(_, _), Body::Abort) => Ok(Hearing::Aborted),
        (Stage::Entering(_, entered), Body::Recorded(number, part)) => {
            let hears = is_recorded(page.recorded, *number);
            hear_recorded(&mut entered.recorders, hears, sender, *part)
        }
        (Stage::Round(_, reports), Body::Report(report)) => {
            hear_report(page, reports, sender, report)
        }
        _ => Err(Reason::NotHeard),
    }
}

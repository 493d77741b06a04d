// Judging a head, stage by stage.
ghost use Rattle.std.specs.Prelude.{◌≡◌, ◌<◌};
ghost use Rattle.manager.specs.Verdicts.{gathering_verdict, carrying_verdict, confirming_verdict, sources_of, possible_senders, asked, need_met, applying_verdict, entering_verdict, unheard, heard_of, round_end, round_verdict, verdict_of};

use super::need::Need;
use super::terms::Terms;
use super::verdict::Verdict;
use quorum::{QuorumRule, Replica, ReplicaSet};
use rounds::{Outcome, Report, decide};
use rows::{Applied, Confirmed, Entered, Gathered, Recorders, Reference, Row, Stage};
use stores::{Head, Page, View};

// Lost and head go one by one through the functions here, as parts of a row that is judged: a struct of the two would be made in one place, and
// each clause would take it apart again, which is no plainer.

// Newcomers, members of the head outside the survivors, whose Recorded was not heard.
fn unheard(head: Head, survivors: ReplicaSet, recorders: Recorders) -> ReplicaSet
    ensures { result.0 ≡ unheard head survivors.0 recorders }
{
    head.set.difference(survivors).difference(recorders.all())
}

// The sources of a newcomer before a reference, which are not kept: the head without itself and without those whose Join it heard.
fn sources(replica: Replica, head: Head, applied: &Applied) -> ReplicaSet
    ensures { result.0 ≡ sources_of replica head applied.now }
{
    head.set.without(replica.number()).difference(applied.joins)
}

// Who may still send a State: the sources or, with a reference, its members in the head; never itself or the lost.
fn possible_senders(replica: Replica, lost: ReplicaSet, head: Head, applied: &Applied) -> ReplicaSet
    ensures { result.0 ≡ possible_senders replica lost.0 head applied.now applied.now.reference }
{
    let senders = applied
        .reference
        .map_or(sources(replica, head, applied), |reference| {
            reference.component.set.intersection(head.set)
        });
    senders.difference(lost.with(replica.number()))
}

// Out of how many States are asked.
fn asked(replica: Replica, head: Head, applied: &Applied) -> u32
    ensures value { result ≡ asked replica head applied.now applied.now.reference }
    ensures bound { result < 17 }
{
    applied
        .reference
        .map_or(
            sources(replica, head, applied),
            |reference| reference.component.set,
        )
        .len()
}

fn is_need_met(need: Need, applied: &Applied) -> bool
    ensures { result ≡ need_met need applied.now applied.now.reference }
{
    applied.reference.is_some_and(|reference| {
        applied.states.len() >= need.of(reference.component.set.len())
    })
}

// The replicas whose reports were heard. The members of a view by what they report are gathered in a loop like this in `rounds`, where
// it stands why the two are not one.
fn heard_of(reports: &[Option<Report>; 16]) -> ReplicaSet
    ensures { result.0 ≡ heard_of reports.now }
{
    let mut heard = ReplicaSet::EMPTY;
    for (replica, report) in reports.iter().enumerate() {
        if report.is_some() {
            heard = heard.with(replica as u8);
        }
    }
    heard
}

impl<R: QuorumRule> Terms<'_, R> {
    fn judge_gathering(
        &self,
        row: &Row,
        head: Head,
        gathered: &Gathered,
        component: View,
    ) -> Verdict
        ensures { result ≡ gathering_verdict self.now.need row.now.survivors.0 row.now.lost.0 head gathered.now component }
    {
        let needed = self.need.of(component.set.len());
        let possible = gathered.states.union(row.survivors.difference(row.lost));
        if possible.len() < needed {
            return Verdict::Reconfigures;
        }
        if gathered.states.len() < needed {
            return Verdict::Stays;
        }
        let missing = unheard(head, row.survivors, gathered.recorders);
        if missing.is_empty() {
            return Verdict::Records;
        }
        if missing.intersection(row.lost).is_empty() {
            return Verdict::Stays;
        }
        Verdict::Closes
    }

    // Of those heard and those who may still be, who carries the set? The survivors are the row's or, entering, the reference's.
    fn judge_carrying(
        &self,
        heard: ReplicaSet,
        survivors: ReplicaSet,
        lost: ReplicaSet,
        set: ReplicaSet,
    ) -> Verdict
        ensures { result ≡ carrying_verdict (R.carries self.now.rule.now) heard.0 survivors.0 lost.0 set.0 }
    {
        if self.rule.carries(heard, set) {
            return Verdict::Installs;
        }
        if self
            .rule
            .carries(heard.union(survivors.difference(lost)), set)
        {
            return Verdict::Stays;
        }
        Verdict::Reconfigures
    }

    fn judge_confirming(&self, row: &Row, confirmed: &Confirmed, component: View) -> Verdict
        ensures { result ≡ confirming_verdict (R.carries self.now.rule.now) row.now.survivors.0 row.now.lost.0 confirmed.now component }
    {
        let heard = confirmed.recorders.members.intersection(row.survivors);
        self.judge_carrying(heard, row.survivors, row.lost, component.set)
    }

    fn judge_applying(&self, lost: ReplicaSet, head: Head, applied: &Applied) -> Verdict
        ensures { result ≡ applying_verdict self.now.need self.now.replica lost.0 head applied.now }
    {
        if is_need_met(self.need, applied) {
            return Verdict::Records;
        }
        if sources(self.replica, head, applied).is_empty() {
            return Verdict::Closes;
        }
        let senders = possible_senders(self.replica, lost, head, applied);
        let asked = asked(self.replica, head, applied);
        if applied.states.union(senders).len() < self.need.of(asked) {
            return Verdict::Closes;
        }
        Verdict::Stays
    }

    fn judge_entering(&self, lost: ReplicaSet, head: Head, entered: &Entered) -> Verdict
        ensures { result ≡ entering_verdict (R.carries self.now.rule.now) lost.0 head entered.now }
    {
        let Reference {
            component,
            survivors,
        } = entered.reference;
        let missing = unheard(head, survivors, entered.recorders);
        if missing.is_empty() {
            let heard = entered.recorders.members.intersection(survivors);
            return self.judge_carrying(heard, survivors, lost, component.set);
        }
        if missing.intersection(lost).is_empty() {
            return Verdict::Stays;
        }
        Verdict::Forgets
    }

    // The round's decision, taken apart.
    #[tactic(auto, unfolding(crate::specs::Verdicts::round_end))]
    fn judge_reports(&self, head: Head, reports: &[Option<Report>; 16]) -> Verdict
        ensures { result ≡ Verdict.Ends (round_end (R.carries self.now.rule.now) head reports.now).0 (round_end (R.carries self.now.rule.now) head reports.now).1 }
    {
        let (outcome, settled) = decide(self.rule, head, reports);
        Verdict::Ends(outcome, settled)
    }

    fn judge_round(&self, lost: ReplicaSet, head: Head, reports: &[Option<Report>; 16]) -> Verdict
        ensures { result ≡ round_verdict (R.carries self.now.rule.now) lost.0 head reports.now }
    {
        if !lost.intersection(head.set).is_empty() {
            return Verdict::Ends(Outcome::LostMember, None);
        }
        if !head.set.is_subset(heard_of(reports)) {
            return Verdict::Stays;
        }
        self.judge_reports(head, reports)
    }

    // What the open head of a page and row comes to.
    #[tactic(auto, unfolding(crate::specs::Verdicts::verdict_of))]
    pub(crate) fn judge(&self, page: &Page, row: &Row) -> Verdict
        ensures { result ≡ verdict_of (R.carries self.now.rule.now) self.now.need self.now.replica page.now row.now }
    {
        match (&row.stage, page.component) {
            (Stage::Gathering(head, gathered), Some(component)) => {
                self.judge_gathering(row, *head, gathered, component)
            }
            (Stage::Confirming(_, confirmed), Some(component)) => {
                self.judge_confirming(row, confirmed, component)
            }
            (Stage::Applying(head, applied), _) => self.judge_applying(row.lost, *head, applied),
            (Stage::Entering(head, entered), _) => self.judge_entering(row.lost, *head, entered),
            (Stage::Round(head, reports), _) => self.judge_round(row.lost, *head, reports),
            _ => Verdict::Stays,
        }
    }
}

// The rules that messages and rows keep.
ghost use Rattle.std.specs.Prelude.{◌≡◌, ◌↔◌, ◌<◌, true, IsTrue};
ghost use Rattle.rounds.specs.Reports.{reported};
ghost use Rattle.rows.specs.Facts.{MessageRules, RowRules};
ghost use Rattle.rows.specs.Messages.{reporting_mode, lowest_top, reported_page, report_keeps, body_keeps, message_keeps};
ghost use Rattle.rows.specs.Rows.{head_keeps, survivors_keep, has_next, reference_keeps, under_head, report_breaks, gathering_keeps, confirming_keeps, applying_keeps, entering_keeps, round_keeps, idle_keeps, stage_keeps, row_keeps};
ghost use Rattle.quorum.specs.Below.{any};

use super::message::{Body, Message};
use super::row::{Applied, Confirmed, Entered, Gathered, Reference, Row, Stage};
use quorum::{Replica, ReplicaSet};
use rounds::Report;
use stores::{Head, Mode, Number, Page, Recorded, Stamp, View};

// A report may tell mode normal or reconfiguration.
fn is_reporting(mode: Mode) -> bool
    ensures { result ≡ reporting_mode mode }
{
    matches!(mode, Mode::Normal | Mode::Reconfiguration)
}

// The lowest top stamp that the recorded view's stamp allows.
fn lowest_top(recorded: Option<Recorded>) -> Stamp
    ensures { result ≡ lowest_top recorded }
{
    recorded.map_or(Stamp(0), |recorded| recorded.stamp)
}

// A report tells no top stamp, so the rule that bounds the recorded view's stamp by it binds nothing: the page is taken with
// the lowest top stamp that it allows.
fn reported_page(report: &Report) -> Page
    ensures { result ≡ reported_page report.now }
{
    Page {
        mode: report.mode,
        top: lowest_top(report.recorded),
        mark: report.mark,
        component: report.component,
        recorded: report.recorded,
    }
}

fn report_keeps_rules(sender: u8, report: &Report) -> bool
    ensures { result ≡ report_keeps sender report.now }
{
    is_reporting(report.mode) && reported_page(report).keeps_rules(sender)
}

fn body_keeps_rules(sender: u8, head: Head, body: &Body) -> bool
    ensures { result ≡ body_keeps sender head body.now }
{
    match body {
        Body::State(component, survivors) => {
            component.number < Number::HIGHEST
                && survivors.is_subset(component.set)
                && survivors.is_subset(head.set)
        }
        Body::Abort => true,
        Body::Join => true,
        Body::Recorded(number, _) => Number(1) <= *number && *number <= Number::HIGHEST,
        Body::Report(report) => report_keeps_rules(sender, report),
    }
}

impl Message {
    // The sender is a number, as a host gives it; one that passes is one of the sixteen.
    #[tactic(auto, unfolding(crate::specs::Messages::message_keeps))]
    pub fn keeps_rules(&self) -> bool
        ensures test { result ≡ message_keeps self.now }
        ensures rules { IsTrue result ↔ MessageRules self.now }
        ensures sender { result ≡ true → self.now.sender < 16 }
    {
        self.head.set.contains(self.sender) && body_keeps_rules(self.sender, self.head, &self.body)
    }
}

// Replica, page and head stand side by side, here and at each stage: a struct of the three would be made in five arms of one
// match, and each clause would take it apart again, which is no plainer.
fn head_keeps_rules(replica: u8, page: &Page, head: Head) -> bool
    ensures { result ≡ head_keeps replica page.now head }
{
    head.set.contains(replica) && head.stamp <= page.top
}

fn survivors_keep_rules(survivors: ReplicaSet, component: Option<View>) -> bool
    ensures { result ≡ survivors_keep survivors component }
{
    component.map_or(survivors.is_empty(), |component| {
        survivors.is_subset(component.set)
    })
}

fn has_next(component: Option<View>) -> bool
    ensures { result ≡ has_next component }
{
    component.is_some_and(|component| component.number < Number::HIGHEST)
}

fn reference_keeps_rules(reference: Option<Reference>) -> bool
    ensures { result ≡ reference_keeps reference }
{
    reference.is_none_or(|reference| reference.component.number < Number::HIGHEST)
}

fn is_under(head: Head, recorded: Option<Recorded>) -> bool
    ensures { result ≡ under_head head recorded }
{
    recorded.is_some_and(|recorded| {
        recorded.stamp == head.stamp && recorded.view.set == head.set
    })
}

fn gathering_keeps_rules(replica: u8, page: &Page, head: Head, gathered: &Gathered) -> bool
    ensures { result ≡ gathering_keeps replica page.now head gathered.now }
{
    page.mode == Mode::Normal
        && head_keeps_rules(replica, page, head)
        && has_next(page.component)
        && gathered.states.is_subset(head.set)
        && gathered.recorders.is_within(head.set)
}

fn confirming_keeps_rules(replica: u8, page: &Page, head: Head, confirmed: &Confirmed) -> bool
    ensures { result ≡ confirming_keeps replica page.now head confirmed.now }
{
    page.mode == Mode::Normal
        && head_keeps_rules(replica, page, head)
        && is_under(head, page.recorded)
        && confirmed.recorders.is_within(head.set)
}

fn applying_keeps_rules(replica: u8, page: &Page, head: Head, applied: &Applied) -> bool
    ensures { result ≡ applying_keeps replica page.now head applied.now }
{
    page.mode == Mode::Waiting
        && head_keeps_rules(replica, page, head)
        && reference_keeps_rules(applied.reference)
        && applied.joins.is_subset(head.set)
        && applied.states.is_subset(head.set)
}

fn entering_keeps_rules(replica: u8, page: &Page, head: Head, entered: &Entered) -> bool
    ensures { result ≡ entering_keeps replica page.now head entered.now }
{
    page.mode == Mode::Joining
        && head_keeps_rules(replica, page, head)
        && is_under(head, page.recorded)
        && reference_keeps_rules(Some(entered.reference))
        && entered.recorders.is_within(head.set)
}

// A report against the rules, or of a replica outside the head.
fn breaks_rules(head: Head, sender: Replica, report: Option<Report>) -> bool
    ensures { result ≡ report_breaks head sender report }
{
    let sender = sender.number();
    report.is_some_and(|report| {
        !(head.set.contains(sender) && report_keeps_rules(sender, &report))
    })
}

fn any_breaks_rules(head: Head, reports: &[Option<Report>; 16]) -> bool
    ensures { result ≡ any (λ q. report_breaks head q (reported reports.now q)) 16 }
{
    Replica::all()
        .iter()
        .zip(reports.iter())
        .any(|(sender, report)| breaks_rules(head, *sender, *report))
}

fn round_keeps_rules(replica: u8, page: &Page, head: Head, reports: &[Option<Report>; 16]) -> bool
    ensures { result ≡ round_keeps replica page.now head reports.now }
{
    page.mode == Mode::Reconfiguration
        && head_keeps_rules(replica, page, head)
        && !any_breaks_rules(head, reports)
}

fn idle_keeps_rules(up: bool, lost: ReplicaSet, mode: Mode) -> bool
    ensures { result ≡ idle_keeps up lost mode }
{
    lost.is_empty() && !(up && mode == Mode::Joining)
}

fn stage_keeps_rules(replica: u8, page: &Page, row: &Row) -> bool
    ensures { result ≡ stage_keeps replica page.now row.now.up row.now.lost row.now.stage }
{
    match &row.stage {
        Stage::Idle => idle_keeps_rules(row.up, row.lost, page.mode),
        Stage::Gathering(head, gathered) => gathering_keeps_rules(replica, page, *head, gathered),
        Stage::Confirming(head, confirmed) => confirming_keeps_rules(
            replica, page, *head, confirmed,
        ),
        Stage::Applying(head, applied) => applying_keeps_rules(replica, page, *head, applied),
        Stage::Entering(head, entered) => entering_keeps_rules(replica, page, *head, entered),
        Stage::Round(head, reports) => round_keeps_rules(replica, page, *head, reports),
    }
}

impl Row {
    // Whether this may be the row of the replica, beside its page.
    #[tactic(auto, unfolding(crate::specs::Rows::row_keeps))]
    pub fn keeps_rules(&self, replica: u8, page: &Page) -> bool
        ensures test { result ≡ row_keeps replica page.now self.now }
        ensures rules { IsTrue result ↔ RowRules replica page.now self.now }
    {
        survivors_keep_rules(self.survivors, page.component)
            && stage_keeps_rules(replica, page, self)
    }
}

// Why a call is turned down: the earliest that applies is given.
ghost use Rattle.std.specs.Prelude.{◌≡◌, ◌<◌, OnOk};
ghost use Rattle.manager.specs.Calls.{offer_refusal, call_refusal, head_of, at_highest, announcement_refusal, view_refusal, message_refusal, opened, head_refusal, delivery_refusal, party_refusal, lost_refusal, loss_refusal, start_refusal};
ghost use Rattle.quorum.specs.Faults.{allowed, given};

use quorum::{Fault, Layer, Reason, Replica, refuse_if};
use rows::{Message, Row, Stage};
use stores::{Head, Mode, Number, Page, View};

// Page and row keep the rules, and the replica is one of the sixteen. Replica, page and row stand side by side in the checks, as
// in a host's calls: a struct of them would be made in each call for its check alone, which is no plainer.
pub(crate) fn check_offer(replica: u8, page: &Page, row: &Row) -> Result<Replica, Fault>
    ensures { result ≡ given (offer_refusal replica page.now row.now) replica }
{
    let kept = page.keeps_rules(replica) && row.keeps_rules(replica, page);
    refuse_if(!kept, Reason::AgainstRules.at(replica, Layer::Manager))?;
    Replica::new(replica).ok_or(Reason::NoSuchReplica.at(replica, Layer::Manager))
}

pub(crate) fn check_call(replica: u8, page: &Page, row: &Row) -> Result<Replica, Fault>
    ensures { result ≡ given (call_refusal replica page.now row.now) replica }
{
    let found = check_offer(replica, page, row)?;
    refuse_if(!row.up, Reason::WrongPower.at(replica, Layer::Manager))?;
    Ok(found)
}

// The head of a row; idle has none.
pub(crate) fn head_of(stage: &Stage) -> Option<Head>
    ensures { result ≡ head_of stage.now }
{
    match stage {
        Stage::Idle => None,
        Stage::Gathering(head, _)
        | Stage::Confirming(head, _)
        | Stage::Applying(head, _)
        | Stage::Entering(head, _)
        | Stage::Round(head, _) => Some(*head),
    }
}

fn open_head(replica: u8, row: &Row) -> Result<Head, Fault>
    ensures { result ≡ opened replica (head_of row.now.stage) }
{
    head_of(&row.stage).ok_or(Reason::NoHead.at(replica, Layer::Manager))
}

// Beside `has_next` of a row's rules, whose negation it is not: both are no of an absent view.
fn is_at_highest(component: Option<View>) -> bool
    ensures { result ≡ at_highest component }
{
    component.is_some_and(|component| component.number >= Number::HIGHEST)
}

fn check_announcement(replica: u8, page: &Page, row: &Row, head: Head) -> Result<(), Fault>
    ensures { result ≡ allowed (announcement_refusal replica page.now row.now head) }
{
    refuse_if(
        !head.set.contains(replica),
        Reason::ViewWithoutReplica.at(replica, Layer::Manager),
    )?;
    refuse_if(
        head_of(&row.stage).is_some(),
        Reason::HeadOpen.at(replica, Layer::Manager),
    )?;
    refuse_if(
        head.stamp <= page.top,
        Reason::StampNotAbove.at(replica, Layer::Manager),
    )?;
    let exhausted = page.mode == Mode::Normal && is_at_highest(page.component);
    refuse_if(
        exhausted,
        Reason::NumbersExhausted.at(replica, Layer::Manager),
    )
}

#[tactic(auto, unfolding(crate::specs::Calls::view_refusal))]
pub(crate) fn check_view(replica: u8, page: &Page, row: &Row, head: Head) -> Result<Replica, Fault>
    ensures { result ≡ given (view_refusal replica page.now row.now head) replica }
{
    let found = check_call(replica, page, row)?;
    check_announcement(replica, page, row, head)?;
    Ok(found)
}

// A message against the rules; it comes before everything else.
pub fn check_message(replica: u8, message: &Message) -> Result<(), Fault>
    ensures test { result ≡ allowed (message_refusal replica message.now) }
    ensures sender { OnOk result (message.now.sender < 16) }
{
    refuse_if(
        !message.keeps_rules(),
        Reason::AgainstRules.at(replica, Layer::Manager),
    )
}

fn check_head(replica: u8, row: &Row, message: &Message) -> Result<(), Fault>
    ensures { result ≡ allowed (head_refusal replica row.now message.now (head_of row.now.stage)) }
{
    let head = open_head(replica, row)?;
    refuse_if(
        message.head != head,
        Reason::OtherHead.at(replica, Layer::Manager),
    )?;
    let wrong = message.sender == replica || row.lost.contains(message.sender);
    refuse_if(wrong, Reason::WrongParty.at(replica, Layer::Manager))
}

// Gives the replica and the sender.
#[tactic(auto, unfolding(crate::specs::Calls::delivery_refusal))]
pub(crate) fn check_delivery(
    replica: u8,
    page: &Page,
    row: &Row,
    message: &Message,
) -> Result<(Replica, Replica), Fault>
    ensures { result ≡ given (delivery_refusal replica page.now row.now message.now) (replica, message.now.sender) }
{
    check_message(replica, message)?;
    let found = check_call(replica, page, row)?;
    check_head(replica, row, message)?;
    // A message that keeps the rules has one of the sixteen as its sender.
    Ok((found, Replica::new(message.sender).unwrap()))
}

fn check_party(replica: u8, row: &Row, lost: u8) -> Result<(), Fault>
    ensures { result ≡ allowed (party_refusal replica row.now lost (head_of row.now.stage)) }
{
    let head = open_head(replica, row)?;
    let wrong = lost == replica || !head.set.contains(lost) || row.lost.contains(lost);
    refuse_if(wrong, Reason::WrongParty.at(replica, Layer::Manager))
}

fn check_lost(replica: u8, row: &Row, lost: u8) -> Result<(), Fault>
    ensures { result ≡ allowed (lost_refusal replica row.now lost) }
{
    Replica::new(lost).ok_or(Reason::NoSuchReplica.at(lost, Layer::Manager))?;
    refuse_if(!row.up, Reason::WrongPower.at(replica, Layer::Manager))?;
    check_party(replica, row, lost)
}

#[tactic(auto, unfolding(crate::specs::Calls::loss_refusal))]
pub(crate) fn check_loss(replica: u8, page: &Page, row: &Row, lost: u8) -> Result<Replica, Fault>
    ensures { result ≡ given (loss_refusal replica page.now row.now lost) replica }
{
    let found = check_offer(replica, page, row)?;
    check_lost(replica, row, lost)?;
    Ok(found)
}

// As `check_call`, of a replica that is to be down: a flag for it at each call would be no plainer.
#[tactic(auto, unfolding(crate::specs::Calls::start_refusal))]
pub(crate) fn check_start(replica: u8, page: &Page, row: &Row) -> Result<(), Fault>
    ensures { result ≡ allowed (start_refusal replica page.now row.now) }
{
    check_offer(replica, page, row)?;
    refuse_if(row.up, Reason::WrongPower.at(replica, Layer::Manager))
}

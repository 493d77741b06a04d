// Founding: the first view, on a store of fresh pages.
ghost use Rattle.std.specs.Prelude.{◌≡◌, ◌≤◌, true, not, length, Ok, slice_set};
ghost use Rattle.quorum.specs.Below.{any};
ghost use Rattle.quorum.specs.Members.{has, size};
ghost use Rattle.stores.specs.Kept.{page_at, Written};
ghost use Rattle.stores.specs.Writings.{SpentBy};
ghost use Rattle.runs.specs.Founding.{is_fresh, founding_page, founding_row, FoundedPages, FoundedRows};

use lend::Table;
use quorum::{Fault, Replica, ReplicaSet};
use rows::Row;
use stores::{KeptPage, Mode, Page, Stamp, Store, View};

// The page of a replica that has done nothing yet.
fn is_fresh(page: Page) -> bool
    ensures { result ≡ is_fresh page }
{
    page == Page::fresh()
}

// Some page is not fresh.
pub(crate) fn any_used<S: Store>(store: &S) -> bool
    ensures { result ≡ any (λ r. not (is_fresh (page_at (S.pages store.now) r))) 16 }
{
    Replica::all()
        .iter()
        .any(|replica| !is_fresh(store.read(*replica)))
}

// A member's page: normal, with the first view and its number as the mark.
fn founding_page(view: View) -> Page
    ensures { result ≡ founding_page view }
{
    Page {
        mode: Mode::Normal,
        top: Stamp(0),
        mark: Some(view.number),
        component: Some(view),
        recorded: None,
    }
}

// A founded replica is up and idle, a member with the set as its survivors.
fn founding_row(view: View, replica: Replica) -> Row
    ensures { result ≡ founding_row view replica }
{
    let survivors = if view.set.contains(replica.number()) {
        view.set
    } else {
        ReplicaSet::EMPTY
    };
    Row {
        survivors,
        ..Row::empty(true)
    }
}

// Puts a row in the replica's place.
#[inline(always)]
pub(crate) fn set_row(table: &mut Table<Row>, replica: Replica, row: Row)
    ensures rows { table.new.rows ≡ slice_set table.old.rows replica row }
    ensures sixteen { length table.old.rows ≡ 16 }
{
    let place = table.row_mut(replica);
    *place = row;
}

// Puts each row in its place, since sixteen rows, with a round's sixteen reports each, are much to copy.
pub(crate) fn found_rows(table: &mut Table<Row>, view: View)
    ensures rows { FoundedRows view table.new.rows }
    ensures sixteen { length table.new.rows ≡ 16 }
{
    for replica in Replica::all() {
        set_row(table, replica, founding_row(view, replica));
    }
}

// Writes a member's page.
fn write_member<S: Store>(store: &mut S, view: View, replica: Replica) -> Result<(), Fault>
    requires number { view.number.0 ≤ 1000000000 }
    requires member { has view.set.0 replica ≡ true }
    ensures { Written (S.pages store.old) (S.places store.old) (S.pages store.new) (S.places store.new)
        replica (founding_page view) result }
{
    let page = founding_page(view);
    store.write(KeptPage { replica, page })
}

// Writes the members' pages, lowest replica first, in a loop over all sixteen, since the contract speaks of each of the sixteen
// pages. With sixteen places no write is refused.
pub(crate) fn write_founding<S: Store>(store: &mut S, view: View) -> Result<(), Fault>
    requires number { view.number.0 ≤ 1000000000 }
    requires places { 16 ≤ S.places store.old }
    ensures all { result ≡ Ok tt }
    ensures pages { FoundedPages view (S.pages store.old) 16 (S.pages store.new) }
    ensures spent { SpentBy (size view.set.0) (S.places store.old) (S.places store.new) }
{
    for replica in Replica::all() {
        if view.set.contains(replica.number()) {
            write_member(store, view, replica)?;
        }
    }
    Ok(())
}

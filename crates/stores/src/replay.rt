// Lists of writes and cuts, on any store: what is read afterwards.
ghost use Rattle.std.specs.Prelude.{◌≡◌, ℕ, ◌<◌, OnOk};
ghost use Rattle.stores.specs.Kept.{page_at};
ghost use Rattle.stores.specs.Writings.{Performed, CutLeaves, Carried, MayRead, SpentBy, held_read, Stopped};

use super::held::HeldPages;
use super::kept_page::KeptPage;
use super::store::{Breakable, Store};
use super::writing::Writing;
use quorum::Fault;

fn perform<S: Breakable>(store: &mut S, kept: KeptPage, cut: Option<u64>) -> Result<(), Fault>
    ensures done { Performed (S.Store.pages store.old) (S.Store.places store.old) (S.Store.pages store.new) (S.Store.places store.new) kept.replica kept.page cut result }
    ensures left { OnOk result (CutLeaves (S.Breakable.leaves store.old) cut (page_at (S.Store.pages store.old) kept.replica) kept.page (page_at (S.Store.pages store.new) kept.replica)) }
{
    match cut {
        Some(n) => store.cut(kept, n),
        None => store.write(kept),
    }
}

// Carries the writings out, one after another, as far as each is acceptable and finds a place; says how many. What is
// then read at a replica is the page of the last writing there or, where that was cut off, a page that the cut may leave.
// Each is carried out on the store that the one before it left.
pub fn carry_out<S: Breakable>(store: &mut S, writings: &[Writing]) -> usize
    ensures stopped { Stopped writings.now result (S.Store.places store.new ≡ 0) }
    ensures carried { Carried S.Store.pages S.Store.places S.Breakable.leaves store.old writings.now result store.new }
    ensures read { (r : ℕ) → r < 16 → MayRead r (page_at (S.Store.pages store.old) r) writings.now result (page_at (S.Store.pages store.new) r) }
    ensures places { SpentBy result (S.Store.places store.old) (S.Store.places store.new) }
{
    for (done, writing) in writings.iter().enumerate() {
        let Some(kept) = writing.kept() else {
            return done;
        };
        let Ok(()) = perform(store, kept, writing.cut) else {
            return done;
        };
    }
    writings.len()
}

// The same on held pages, which say which page a cut leaves.
#[tactic(auto, using(crate::proofs::Reading::held_read_from))]
pub fn carry_out_held(held: &mut HeldPages, writings: &[Writing]) -> usize
    ensures stopped { Stopped writings.now result ⊥ }
    ensures read { (r : ℕ) → r < 16 → page_at held.new.pages r ≡ held_read r (page_at held.old.pages r) writings.now result }
{
    carry_out(held, writings)
}

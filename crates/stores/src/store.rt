// What a store promises.
ghost use Rattle.std.specs.Prelude.{◌≡◌, ℕ, List, length, OnOk};
ghost use Rattle.stores.specs.Kept.{page_at, Sound, Written, Cut};
ghost use Rattle.stores.specs.declared.page.Page.{Page};

use super::kept_page::KeptPage;
use super::page::Page;
use quorum::{Fault, Replica};

// Sixteen pages, each keeping the rules for its replica, and a count of places for writes. What is written is a page that
// keeps the rules, so a store need not hold any other.
pub trait Store {
    ghost pages: { Self → List Page };

    ghost places: { Self → ℕ };

    fn read(&self, replica: Replica) -> Page
        ensures { result ≡ page_at (pages self.now) replica };

    fn places(&self) -> u32
        ensures { result ≡ places self.now };

    // Replaces one page and uses at most one place; with none left it is refused and changes nothing.
    fn write(&mut self, kept: KeptPage) -> Result<(), Fault>
        ensures { Written (pages self.old) (places self.old) (pages self.new) (places self.new) kept.replica kept.page result };

    ghost sixteen: { (s : Self) → length (pages s) ≡ 16 };

    ghost sound: { (s : Self) → Sound (pages s) };
}

// A store whose writes can be broken off.
pub trait Breakable: Store {
    // Which page a write broken off after so many byte-writes may leave of the store as it was before: where one page was,
    // and another was to be written.
    ghost leaves: { Self → ℕ → Page → Page → Page → Type 0 };

    // A write broken off after n byte-writes: the page is whole, the old or the new one, and no other page changes.
    fn cut(&mut self, kept: KeptPage, n: u64) -> Result<(), Fault>
        ensures cut { Cut (Self.Store.pages self.old) (Self.Store.places self.old) (Self.Store.pages self.new) (Self.Store.places self.new) kept.replica kept.page result }
        ensures left { OnOk result (leaves self.old n (page_at (Self.Store.pages self.old) kept.replica) kept.page (page_at (Self.Store.pages self.new) kept.replica)) };
}

// A store that counts its places down, to show that the promises of a store are not those of held pages alone.
ghost use Rattle.std.specs.Prelude.{◌≡◌, ◌+◌, ◌==◌, length, replicate, IfOk, OnOk, if◌then◌else◌, nat_le};
ghost use Rattle.quorum.specs.Faults.{allowed, refused_if};
ghost use Rattle.stores.specs.Kept.{fresh, no_place, page_at, Sound, Written, Cut};
ghost use Rattle.stores_tests.specs.Counted.{byte_writes};

use quorum::{Fault, Layer, Reason, Replica, refuse_if};
use std::alloc::{AllocError, Global};
use stores::{Breakable, KeptPage, Page, Store};

// Sixteen pages on the heap, and how many writes are left.
#[derive(Drop)]
pub struct CountedPages {
    pages: Vec<Page>,
    left: u32,
    ghost sixteen: { length pages.items ≡ 16 },
    ghost sound: { Sound pages.items },
}

impl CountedPages {
    // Every page is fresh.
    pub fn new(heap: Global, left: u32) -> Result<CountedPages, AllocError>
        ensures { IfOk result (λ s. (s.pages.items ≡ replicate 16 fresh) × (s.left ≡ left)) }
    {
        let pages = Vec::from_slice(heap, &[Page::fresh(); 16])?;
        Ok(CountedPages { pages, left })
    }

    // A write takes eight byte-writes, and one fewer where it uses the last place.
    fn byte_writes(&self) -> u64
        ensures { result ≡ byte_writes self.now.left }
    {
        if self.left == 1 { 7 } else { 8 }
    }

    fn check_place(&self, replica: Replica) -> Result<(), Fault>
        ensures { result ≡ allowed (refused_if (self.now.left == 0) (no_place replica)) }
    {
        refuse_if(
            self.left == 0,
            Reason::NoPlace.at(replica.number(), Layer::Store),
        )
    }
}

impl Store for CountedPages {
    ghost pages = { λ s. s.pages.items };

    ghost places = { λ s. s.left };

    ghost sixteen = { λ s. s.sixteen };

    ghost sound = { λ s. s.sound };

    fn read(&self, replica: Replica) -> Page {
        self.pages[replica.index()]
    }

    fn places(&self) -> u32 {
        self.left
    }

    // Every write uses a place.
    fn write(&mut self, kept: KeptPage) -> Result<(), Fault>
        ensures written { Written self.old.pages.items self.old.left self.new.pages.items self.new.left kept.replica kept.page result }
        ensures place { OnOk result (self.old.left ≡ self.new.left + 1) }
    {
        self.check_place(kept.replica)?;
        self.left -= 1;
        self.pages[kept.replica.index()] = kept.page;
        Ok(())
    }
}

impl Breakable for CountedPages {
    ghost leaves = { λ s n old new p. p ≡ (if nat_le (byte_writes s.left) n then new else old) };

    // A write has its place from the fourth byte-write on.
    fn cut(&mut self, kept: KeptPage, n: u64) -> Result<(), Fault>
        ensures cut { Cut self.old.pages.items self.old.left self.new.pages.items self.new.left kept.replica kept.page result }
        ensures left { OnOk result (page_at self.new.pages.items kept.replica ≡ (if nat_le (byte_writes self.old.left) n then kept.page else page_at self.old.pages.items kept.replica)) }
        ensures place { OnOk result (self.old.left ≡ self.new.left + (if nat_le 4 n then 1 else 0)) }
    {
        self.check_place(kept.replica)?;
        let whole = self.byte_writes();
        if n >= 4 {
            self.left -= 1;
        }
        if n >= whole {
            self.pages[kept.replica.index()] = kept.page;
        }
        Ok(())
    }
}

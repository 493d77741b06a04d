// Pages held in memory.
ghost use Rattle.std.specs.Prelude.{◌≡◌, length, replicate, if◌then◌else◌, ◌==◌, OnOk, slice_set};
ghost use Rattle.stores.specs.Kept.{fresh, page_at, held_page, Sound, Cut};

use super::kept_page::KeptPage;
use super::page::Page;
use super::store::{Breakable, Store};
use quorum::{Fault, Replica};

// Sixteen pages in memory, which always have 65,535 places.
#[derive(Clone, Copy)]
pub struct HeldPages {
    pages: [Page; 16],
    ghost sixteen: { length pages ≡ 16 },
    ghost sound: { Sound pages },
}

impl HeldPages {
    // Every page is fresh.
    pub fn new() -> HeldPages
        ensures { result.pages ≡ replicate 16 fresh }
    {
        HeldPages {
            pages: [Page::fresh(); 16],
        }
    }
}

impl Store for HeldPages {
    ghost pages = { λ s. s.pages };

    ghost places = { λ _. 65535 };

    ghost sixteen = { λ s. s.sixteen };

    ghost sound = { λ s. s.sound };

    fn read(&self, replica: Replica) -> Page {
        self.pages[replica.index()]
    }

    fn places(&self) -> u32 {
        65_535
    }

    fn write(&mut self, kept: KeptPage) -> Result<(), Fault> {
        self.pages[kept.replica.index()] = kept.page;
        Ok(())
    }
}

impl Breakable for HeldPages {
    ghost leaves = { λ _. held_page };

    // A cut at 0 leaves the old page, any other the new one.
    fn cut(&mut self, kept: KeptPage, n: u64) -> Result<(), Fault>
        ensures cut { Cut self.old.pages 65535 self.new.pages 65535 kept.replica kept.page result }
        ensures left { OnOk result (held_page n (page_at self.old.pages kept.replica) kept.page (page_at self.new.pages kept.replica)) }
        ensures exact { self.new.pages ≡ (if n == 0 then self.old.pages else slice_set self.old.pages kept.replica kept.page) }
    {
        if n > 0 {
            self.pages[kept.replica.index()] = kept.page;
        }
        Ok(())
    }
}

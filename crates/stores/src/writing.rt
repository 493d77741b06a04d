// A write to a page, whole or broken off.
ghost use Rattle.std.specs.Prelude.{◌≡◌, true, false, MatchOption};
ghost use Rattle.stores.specs.Writings.{acceptable};

use super::kept_page::KeptPage;
use super::page::Page;

#[derive(Clone, Copy)]
pub struct Writing {
    pub replica: u8,
    pub page: Page,
    // Broken off after so many byte-writes.
    pub cut: Option<u64>,
}

impl Writing {
    // What is written, if it names a replica and its page keeps the rules for it.
    pub(crate) fn kept(&self) -> Option<KeptPage>
        ensures { MatchOption result (acceptable self.now ≡ false) (λ kept. (acceptable self.now ≡ true) × (kept.replica ≡ self.now.replica) × (kept.page ≡ self.now.page)) }
    {
        KeptPage::new(self.replica, self.page)
    }
}

// A page that may be written.
ghost use Rattle.std.specs.Prelude.{◌≡◌, true, false, MatchOption};
ghost use Rattle.stores.specs.Rules.{keeps_rules, may_be_kept};

use super::page::Page;
use quorum::Replica;

// A replica and a page that keeps the rules for it.
#[derive(Clone, Copy)]
pub struct KeptPage {
    pub replica: Replica,
    pub page: Page,
    pub ghost keeps: { keeps_rules replica page ≡ true },
}

impl KeptPage {
    // There is such a replica, and the page keeps the rules for it.
    pub fn new(number: u8, page: Page) -> Option<KeptPage>
        ensures { MatchOption result (may_be_kept number page ≡ false) (λ kept. (may_be_kept number page ≡ true) × (kept.replica ≡ number) × (kept.page ≡ page)) }
    {
        let replica = Replica::new(number)?;
        if page.keeps_rules(number) {
            Some(KeptPage { replica, page })
        } else {
            None
        }
    }
}

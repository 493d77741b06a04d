// Views and pages, the rules that pages keep, and the stores that keep pages.
#![tactic(auto)]

mod equal;
mod held;
mod kept_page;
mod page;
mod replay;
mod rules;
mod show;
mod store;
mod view;
mod writing;

pub use equal::alike_where_equal;
pub use held::HeldPages;
pub use kept_page::KeptPage;
pub use page::{Mode, Page};
pub use replay::{carry_out, carry_out_held};
pub use show::OrNone;
pub use store::{Breakable, Store};
pub use view::{Head, Number, Recorded, Stamp, View};
pub use writing::Writing;

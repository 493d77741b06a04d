// A store of another kind than held pages, for the tests.
#![tactic(auto)]

mod counted;

pub use counted::CountedPages;

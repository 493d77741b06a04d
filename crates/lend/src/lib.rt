// A table of sixteen elements, one for each replica, which lends one of them to be changed.
#![tactic(auto)]

ghost use Rattle.std.specs.Prelude.{◌≡◌, ◌<◌, length, slice_index_or, slice_set};
ghost use Rattle.std.specs.Borrow.{sem, follows};
ghost use Rattle.lend.specs.contracts.Table.{the_row};

use quorum::Replica;

// An array of a type parameter is read through a slice, since indexing it has no generated proof yet; so `lend` is proved by hand.
#[derive(Drop)]
pub struct Table<T> {
    rows: [T; 16],
}

impl<T> Table<T> {
    pub fn new(rows: [T; 16]) -> Self
        ensures { result.rows ≡ rows }
    {
        Table { rows }
    }

    // The element of a replica.
    pub fn row(&self, replica: Replica) -> &T
        ensures value { (d : T) → result.now ≡ slice_index_or self.now.rows replica d }
        ensures sixteen { length self.now.rows ≡ 16 }
    {
        let a = &self.rows;
        let s = &a[..];
        &s[replica.index()]
    }

    // Lends the element of a replica: when the loan ends, that element is what the borrower left, and no other changed.
    pub fn row_mut(&mut self, replica: Replica) -> &mut T
        ensures* follows { sem 𝓛 (follows (the_row T.row) T.row self.entry.ghost_name result.ghost_name (λ w. record { rows = slice_set self.old.rows replica w })) }
        ensures value { (d : T) → result.now ≡ slice_index_or self.old.rows replica d }
        ensures sixteen { length self.old.rows ≡ 16 }
    {
        self.lend(replica.index())
    }

    // A function by itself, since the proof by hand is of the loan alone.
    fn lend(&mut self, r: usize) -> &mut T
        requires { r < 16 }
        ensures* follows { sem 𝓛 (follows (the_row T.row) T.row self.entry.ghost_name result.ghost_name (λ w. record { rows = slice_set self.old.rows r w })) }
        ensures value { (d : T) → result.now ≡ slice_index_or self.old.rows r d }
    {
        &mut self.rows[r]
    }
}

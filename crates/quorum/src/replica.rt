// One of the sixteen replicas.
ghost use Rattle.std.specs.Prelude.{◌≡◌, ℕ, ◌<◌, if◌then◌else◌, Some, None, nat_lt};
ghost use Rattle.quorum.specs.Members.{everybody};

use std::marker::Model;
use std::{array, fmt};

// A number from 0 to 15. Clauses see the number alone.
#[derive(Clone, Copy, PartialEq, Eq, Debug)]
pub struct Replica {
    number: u8,
}

impl Model for Replica {
    ghost Value = { ℕ };

    ghost view = { λ r. r.number };

    ghost invariant = { λ r. r.number < 16 };

    ghost inverse = { λ n. record { number = n } };
}

impl Replica {
    // The replica of a number, if there is one. An `Option` and no `TryFrom`: callers ask by `?` and `ok_or` and tell of the number in words
    // of their own, so an error type would say nothing more. `number` and `index` say in their clauses that they are below 16, as `From` could not.
    pub fn new(number: u8) -> Option<Replica>
        ensures { result ≡ (if nat_lt number 16 then Some number else None) }
    {
        if number < 16 {
            Some(Replica { number })
        } else {
            None
        }
    }

    // All sixteen, lowest first.
    pub fn all() -> [Replica; 16]
        ensures { result ≡ everybody }
    {
        array::from_fn(
            |place: usize| -> Replica
                requires { place < 16 }
                ensures { result ≡ place }
            {
                Replica {
                    number: place as u8,
                }
            },
        )
    }

    pub fn number(self) -> u8
        ensures value { result ≡ self }
        ensures within { result < 16 }
    {
        self.number
    }

    // Its place among sixteen.
    pub fn index(self) -> usize
        ensures value { result ≡ self }
        ensures within { result < 16 }
    {
        usize::from(self.number)
    }
}

impl fmt::Display for Replica {
    fn fmt<W: fmt::Write>(&self, f: &mut fmt::Formatter<W>) -> fmt::Result {
        write!(f, "{}", self.number)
    }
}

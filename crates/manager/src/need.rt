// How many States a replica wants before it records.
ghost use Rattle.std.specs.Prelude.{◌≡◌};
ghost use Rattle.manager.specs.Verdicts.{need_of};

#[derive(Clone, Copy, PartialEq, Eq, Debug)]
pub enum Need {
    One,
    MoreThanHalf,
}

impl Need {
    // Out of so many.
    pub fn of(self, size: u32) -> u32
        ensures { result ≡ need_of self size }
    {
        match self {
            Need::One => 1,
            Need::MoreThanHalf => size / 2 + 1,
        }
    }
}

//! What waits for the owner: a row of numbers that their links spell, oldest first.
ghost use Rattle.std.specs.Prelude.{◌≡◌};

/// The first number, the last one, and how many there are: the count ends the row, and the last link is never followed.
#[derive(Clone, Copy)]
pub struct Row {
    /// The oldest.
    pub front: u32,
    /// The newest.
    pub last: u32,
    /// How many.
    pub count: u32,
}

impl Row {
    pub(crate) fn empty() -> Row
        ensures { result ≡ record { front = 0; last = 0; count = 0 } }
    {
        Row {
            front: 0,
            last: 0,
            count: 0,
        }
    }

    pub(crate) fn of_one(number: u32) -> Row
        ensures { result ≡ record { front = number; last = number; count = 1 } }
    {
        Row {
            front: number,
            last: number,
            count: 1,
        }
    }
}

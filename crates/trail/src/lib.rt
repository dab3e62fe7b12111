//! Lists that contracts alone see. They take no memory, and their methods do nothing at run time.
#![tactic(auto)]

ghost use Rattle.std.specs.Prelude.{◌≡◌, ℕ, List, [], ◌∷◌, ◌++◌};
ghost use Rattle.std.specs.Borrow.{ftrue};

use std::marker::{Model, PhantomData};

/// A list of numbers, which a clause reads as `items`. A type keeps in it what happened, so that its contracts can tell.
#[derive(Drop)]
pub struct Trail {
    seal: (),
    /// The list, oldest first.
    pub ghost items: { List ℕ },
}

impl Model for Trail {
    ghost also_owns = { λ _. ftrue };
}

// It owns nothing.
unsafe impl Send for Trail {}

impl Trail {
    /// The empty list.
    pub fn new() -> Trail
        ensures { result.items ≡ [] }
    {
        Trail { seal: () }
    }

    /// The list with one number more at its end.
    pub fn and(&self, item: u32) -> Trail
        ensures { result.items ≡ self.now.items ++ item ∷ [] }
    {
        let _ = item;
        Trail { seal: () }
    }
}

/// A list that a clause sees as a list. It is for a type that contracts alone speak of, as of what a seat has seen: no value of
/// it is made.
pub struct GhostList<T> {
    of: PhantomData<T>,
    ghost items: { List T },
}

impl<T> Model for GhostList<T> {
    ghost Value = { List T };

    ghost view = { λ list. list.items };

    ghost also_owns = { λ _. ftrue };
}

impl<T> Drop for GhostList<T> {
    fn drop(self) {
        let GhostList { of: _ } = self;
    }
}

// It owns nothing.
unsafe impl<T> Send for GhostList<T> {}

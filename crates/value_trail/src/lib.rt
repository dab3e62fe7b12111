//! A list of pairs that contracts alone see: numbers, each with a value. It takes no memory, and its methods do nothing at run time.
#![tactic(auto)]

ghost use Rattle.std.specs.Prelude.{◌≡◌, ℕ, List, [], ◌∷◌, ◌++◌};
ghost use Rattle.std.specs.Borrow.{ftrue};

use std::marker::{Model, PhantomData};

/// Numbers, each with a value, which a clause reads as `items`. A work whose items bring values keeps in it what it ran, and in
/// another what came back to it, so that its contracts can tell.
#[derive(Drop)]
pub struct ValueTrail<V> {
    of: PhantomData<V>,
    /// The list, oldest first.
    pub ghost items: { List (ℕ × V) },
}

impl<V> Model for ValueTrail<V> {
    ghost also_owns = { λ _. ftrue };
}

// It owns nothing.
unsafe impl<V: Send> Send for ValueTrail<V> {}

impl<V> ValueTrail<V> {
    /// The empty list.
    pub fn new() -> ValueTrail<V>
        ensures { result.items ≡ [] }
    {
        ValueTrail { of: PhantomData }
    }

    /// The list with one pair more at its end.
    pub fn and(&self, number: u32, value: &V) -> ValueTrail<V>
        ensures { result.items ≡ self.now.items ++ (number, value.now) ∷ [] }
    {
        let _ = number;
        let _ = value;
        ValueTrail { of: PhantomData }
    }
}

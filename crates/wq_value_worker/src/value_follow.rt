//! The pairs that a run with a value asks to be queued next.
ghost use Rattle.std.specs.Prelude.{◌≡◌, true, ◌↔◌, ◌<◌, [], ◌∷◌, ◌++◌, length, IsOk, OnOk, OnErr, IfErr, IfSome, IfNone};
ghost use Rattle.std.specs.Option.{option_to_list};

use std::marker::Model;
use std::mem::swap;

/// The items that a run asks to be queued next, each with its value, in this order: at most four. A pair whose number is no item
/// is given back to the work, as one whose item is pending.
#[derive(Drop)]
pub struct ValueFollow<V> {
    // Those that are there come first. Fields of their own, since a call to which an array of values of any type is moved owes
    // that its size fits. They move by swaps, since an assignment drops what it takes the place of.
    first: Option<(u32, V)>,
    second: Option<(u32, V)>,
    third: Option<(u32, V)>,
    fourth: Option<(u32, V)>,
}

impl<V> Model for ValueFollow<V> {
    ghost use Rattle.wq_value_worker.specs.Asked.{AskedPairs, asked_view, AreAsked};

    ghost Value = { AskedPairs V };

    ghost view = { asked_view };

    ghost invariant = { AreAsked };
}

impl<V: Drop> ValueFollow<V> {
    /// Nothing is asked for.
    pub fn new() -> ValueFollow<V>
        ensures none { result.pairs ≡ [] }
    {
        ValueFollow {
            first: None,
            second: None,
            third: None,
            fourth: None,
        }
    }

    /// Asks for one item more, behind those that were asked for.
    ///
    /// # Errors
    /// The value, where four are asked for already.
    pub fn push(&mut self, item: u32, value: V) -> Result<(), V>
        ensures room { IsOk result ↔ (length self.old.pairs < 4) }
        ensures pushed { OnOk result (self.new.pairs ≡ self.old.pairs ++ (item, value) ∷ []) }
        ensures full { OnErr result (self.new ≡ self.old) }
        ensures returned { IfErr result (λ v. v ≡ value) }
    {
        if self.fourth.is_some() {
            return Err(value);
        }
        let mut pair = Some((item, value));
        if self.first.is_none() {
            swap(&mut self.first, &mut pair);
        } else if self.second.is_none() {
            swap(&mut self.second, &mut pair);
        } else if self.third.is_none() {
            swap(&mut self.third, &mut pair);
        } else {
            swap(&mut self.fourth, &mut pair);
        }
        Ok(())
    }

    /// How many are asked for.
    pub fn len(&self) -> usize
        ensures count { result ≡ length self.now.pairs }
    {
        if self.first.is_none() {
            return 0;
        }
        if self.second.is_none() {
            return 1;
        }
        if self.third.is_none() {
            return 2;
        }
        if self.fourth.is_none() {
            return 3;
        }
        4
    }

    /// Whether nothing is asked for.
    pub fn is_empty(&self) -> bool
        ensures empty { (result ≡ true) ↔ (self.now.pairs ≡ []) }
    {
        self.first.is_none()
    }

    // Takes the first out.
    pub(crate) fn next(&mut self) -> Option<(u32, V)>
        ensures first { self.old.pairs ≡ option_to_list result ++ self.new.pairs }
        ensures empty { IfNone result (self.old.pairs ≡ []) }
        ensures room { IfSome result (λ _. length self.new.pairs < 4) }
    {
        let next = self.first.take();
        swap(&mut self.first, &mut self.second);
        swap(&mut self.second, &mut self.third);
        swap(&mut self.third, &mut self.fourth);
        next
    }

    // Puts one in front of the others again.
    pub(crate) fn put_in_front(&mut self, item: u32, value: V)
        requires room { length self.old.pairs < 4 }
        ensures first { self.new.pairs ≡ (item, value) ∷ self.old.pairs }
    {
        swap(&mut self.fourth, &mut self.third);
        swap(&mut self.third, &mut self.second);
        swap(&mut self.second, &mut self.first);
        self.first = Some((item, value));
    }
}

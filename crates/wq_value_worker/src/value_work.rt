//! What a worker runs where items bring values.
ghost use Rattle.std.specs.Prelude.{◌≡◌, ℕ, List, [], ◌∷◌, ◌++◌};

use crate::value_follow::ValueFollow;

/// The function of a queue's items, each of which brings a value. What it asks for the worker queues. It may queue by a sender of
/// its own, too, but not flush: that would wait for the run itself.
pub trait ValueWork<V: Drop> {
    /// The items that were run so far, each with the value that it was handed, in order. An implementation keeps them in a field
    /// that contracts alone see.
    ghost log: { Self → List (ℕ × V) };

    /// The pairs that were given back so far, in order.
    ghost given: { Self → List (ℕ × V) };

    /// What a run may answer, and what it may leave.
    ghost may: { Self → ℕ → V → List (ℕ × V) → Self → Type 0 };

    /// What a giving back may leave.
    ghost takes: { Self → ℕ → V → Self → Type 0 };

    /// Runs the item with the value that its queueing brought. The item's PENDING bit is clear by then, so that it may be queued
    /// again.
    fn run(&mut self, item: u32, value: V) -> ValueFollow<V>
        ensures logged { log self.new ≡ log self.old ++ (item, value) ∷ [] }
        ensures kept { given self.new ≡ given self.old }
        ensures allowed { may self.old item value result.pairs self.new };

    /// Takes back a pair that a run asked for and that was not queued: its item was pending, or the number is no item. Of a queue
    /// that is closed or drains none comes back for that, since the worker alone closes and drains its queue, and chains from its
    /// own execution then.
    fn returned(&mut self, item: u32, value: V)
        ensures logged { log self.new ≡ log self.old }
        ensures given { given self.new ≡ given self.old ++ (item, value) ∷ [] }
        ensures taken { takes self.old item value self.new };
}

//! What a worker runs.
ghost use Rattle.std.specs.Prelude.{◌≡◌, ℕ, List, [], ◌∷◌, ◌++◌};

use arrayvec::ArrayVec;

/// The items that a run asks to be queued next, in this order. Numbers that are not items are passed over.
pub type Follow = ArrayVec<u32, 4>;

/// The function of a queue's items. What it asks for the worker queues. It may queue by a sender of its own, too, but not flush:
/// that would wait for the run itself.
pub trait Work {
    /// The items that were run so far. An implementation keeps them in a field that contracts alone see.
    ghost log: { Self → List ℕ };

    /// What a run may answer, and what it may leave.
    ghost may: { Self → ℕ → List ℕ → Self → Type 0 };

    /// Runs the item, whose PENDING bit is clear by then, so that it may be queued again.
    fn run(&mut self, item: u32) -> Follow
        ensures logged { log self.new ≡ log self.old ++ item ∷ [] }
        ensures allowed { may self.old item result.items self.new };
}

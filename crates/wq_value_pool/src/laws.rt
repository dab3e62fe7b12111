//! What follows from what a pool of values says, in the form in which a caller needs it. The functions compute nothing: their
//! contracts are laws, which a caller has in hand after the call.
ghost use mathlib.Core.List.{IsPrefix};
ghost use Rattle.std.specs.Prelude.{◌≡◌, ℕ, List, []};
ghost use Rattle.std.specs.List.{AllByRecursion};
ghost use Rattle.wq_value_worker.specs.ValueBook.{ValueBookState};
ghost use Rattle.wq_values.specs.KnownWith.{MatchesAccepted};
ghost use Rattle.wq_pool.specs.Finished.{EndsFrom, BeginAsHandedIn};
ghost use Rattle.wq_pool.specs.Quiet.{IsUnused, IsQuiet};
ghost use Rattle.wq_value_worker.specs.Deals.{DealsInStep};
ghost use Rattle.wq_value_worker.specs.ValueState.{ValueWorkerState, owner_in};

use wq_value_worker::ValueWork;

/// What was brought to a worker before its pool was made begins what the book has that `finish` gives of its queue (`begins`).
pub fn brought_goes_on<V: Drop, W: ValueWork<V>>()
    ensures begins { (old : ValueWorkerState V W) (finished : W × ValueBookState V) → MatchesAccepted (owner_in old)
        → EndsFrom (λ w. w.worker) (DealsInStep W.given W.may W.takes) (λ b. b.book) (λ w b. b.brought ≡ w.brought) old finished
        → IsPrefix old.brought finished.1.brought }
{}

/// As `nothing_is_queued` of `wq_pool`, of works whose runs ask for no pair.
pub fn nothing_is_queued<V: Drop, W: ValueWork<V>>()
    ensures quiet { ((w : W) (k : ℕ) (value : V) (pairs : List (ℕ × V)) (ran : W) → W.may w k value pairs ran → pairs ≡ [])
        → (s : ℕ) (states : List (ValueWorkerState V W)) (all : List (W × ValueBookState V))
        → AllByRecursion (λ old. IsUnused s old.worker) states
        → BeginAsHandedIn (λ w. w.worker) (DealsInStep W.given W.may W.takes) (λ b. b.book) (λ w b. b.brought ≡ w.brought) states all
        → AllByRecursion (λ parts. IsQuiet s parts.1.book.seen) all }
{}

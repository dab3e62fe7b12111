//! What follows from what a pool says, in the form in which a caller needs it. The function computes nothing: its contract is a
//! law, which a caller has in hand after the call.
ghost use Rattle.std.specs.Prelude.{ℕ, List};
ghost use Rattle.std.specs.List.{AllByRecursion};
ghost use Rattle.wq_ledger.specs.Book.{BookState};
ghost use Rattle.wq_worker.specs.Silent.{AsksForNothing};
ghost use Rattle.wq_worker.specs.State.{WorkerState};
ghost use Rattle.wq_worker.specs.Works.{WorksInStep};
ghost use Rattle.wq_pool.specs.Finished.{BeginAsHandedIn};
ghost use Rattle.wq_pool.specs.Quiet.{IsUnused, IsQuiet};

use wq_worker::Work;

/// Workers whose works ask for nothing queue nothing of their own: where all had done nothing when they were handed in to a pool,
/// no number of the worker's sender, which is sender `s` in each of them, and of its owner was accepted in the histories that
/// `finish` gives (`begins`).
pub fn nothing_is_queued<W: Work>()
    ensures quiet { AsksForNothing W.may → (s : ℕ) (states : List (WorkerState W)) (all : List (W × BookState))
        → AllByRecursion (IsUnused s) states → BeginAsHandedIn (λ w. w) (WorksInStep W.may) (λ b. b) (λ w b. Unit {0}) states all
        → AllByRecursion (λ parts. IsQuiet s parts.1.seen) all }
{}

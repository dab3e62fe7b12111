//! What serves a queue: a worker, whether items bring values or not.
ghost use Rattle.std.specs.Prelude.{◌≡◌, ℕ, ◌+◌, List, [], ◌∷◌, false, length, MatchOption};
ghost use Rattle.wq_words.specs.History.{accepted, ended, closed, IsClosed, IsShut};
ghost use Rattle.wq_words.specs.Legal.{IsLegal, IsComplete, HasRunOut};
ghost use Rattle.wq_words.specs.Headline.{KeepsHeadline};
ghost use Rattle.wq_words.specs.declared.event.Event.TheVariants.{Close};
ghost use Rattle.wq_live.specs.Batch.{TakesAll};
ghost use Rattle.wq_ledger.specs.Book.{BookState};
ghost use Rattle.wq_live.specs.Rest.{MayNotRest};
ghost use Rattle.wq_worker.specs.declared.ran.Ran.TheVariants.{Nothing};
ghost use Rattle.wq_worker.specs.State.{WorkerState, IsSameWorker, Moves};
ghost use Rattle.wq_worker.specs.Resting.{HasNoneLeft, rest_events, LeavesWork, IsReady, IsUnready};
ghost use Rattle.wq_worker.specs.Step.{RunsBy};
ghost use Rattle.wq_worker.specs.Rows.{Shuts, Resumes};
ghost use Rattle.wq_worker.specs.Destroy.{IsBookOf};

use crate::ran::Ran;
use wq_live::Spins;
use wq_words::Layout;

/// What serves a queue. Its calls are those of `Worker`, which has more, as `ValueWorker` of `wq_value_worker` has.
pub trait Station {
    /// The work that it runs.
    type Work;

    /// The book of its queue, once that has run to its end.
    type Book;

    /// What it is without values.
    ghost state: { Self → WorkerState Self.Work };

    /// What a run may answer by its numbers, and what it and the givings back of its step may leave of the work.
    ghost may: { Self.Work → ℕ → List ℕ → Self.Work → Type 0 };

    /// What the givings back of a step may leave of the work that goes on with what was owed.
    ghost gives: { Self.Work → Self.Work → Type 0 };

    /// What one step does: a run, or a step that runs nothing and leaves the work as it was; and what becomes of the pairs that a
    /// run asks for, where items bring values.
    ghost deals: { Self → Self → Type 0 };

    /// What a book is without values.
    ghost book: { Self.Book → BookState };

    /// The work has run what has begun, all items of it, in order; where items bring values, each with the value that its own
    /// queueing brought, and each accepted number has its place in what was brought.
    ghost has_logged: { Self → Type 0 };

    /// The work has run what was accepted in the history of this book, in order.
    ghost has_run: { Self.Work → Self.Book → Type 0 };

    /// The book has what the worker knows to have been brought; nothing is said where items bring no values.
    ghost has_brought: { Self → Self.Book → Type 0 };

    /// As `Worker::legal`.
    fn legal(&self)
        ensures legal { IsLegal (state self.now).layout (state self.now).seen }
        ensures headline { KeepsHeadline (state self.now).seen };

    /// As `Worker::logged`.
    fn logged(&self)
        ensures { has_logged self.now };

    /// As `Worker::layout`.
    fn layout(&self) -> Layout
        ensures size { result ≡ (state self.now).layout };

    /// How long it gives way. It says nothing of what is done.
    fn spins(&self) -> Spins;

    /// How many numbers were taken and have not begun. It says nothing of what is done.
    fn waiting(&self) -> u32;

    /// As `Worker::run_one`.
    fn run_one(&mut self) -> Ran
        ensures runs { RunsBy may gives result (state self.old) (state self.new) }
        ensures deals { deals self.old self.new }
        ensures none { result ≡ Nothing → HasNoneLeft (state self.new).seen }
        ensures open { ¬ IsShut (state self.old).seen → ¬ IsShut (state self.new).seen }
        ensures unclosed { ¬ IsClosed (state self.old).seen → ¬ IsClosed (state self.new).seen }
        ensures closed { IsClosed (state self.old).seen → IsClosed (state self.new).seen }
        ensures shut { IsShut (state self.old).seen → IsShut (state self.new).seen }
        ensures same { IsSameWorker (state self.old) (state self.new) }
        ensures legal { IsLegal (state self.new).layout (state self.new).seen };

    /// As `Worker::ready`.
    fn ready(&mut self) -> Option<u32>
        ensures outcome { MatchOption result (IsUnready (state self.old) (state self.new)) (λ k. IsReady (state self.old) k (state self.new)) }
        ensures deals { deals self.old self.new };

    /// As `Worker::rest`.
    fn rest(&mut self) -> bool
        requires open { ¬ IsShut (state self.old).seen }
        requires none { HasNoneLeft (state self.old).seen }
        ensures work { LeavesWork (state self.old) (state self.new) }
        ensures events { Moves (rest_events result) 0 (state self.old) (state self.new) }
        ensures open { ¬ IsShut (state self.new).seen }
        ensures unclosed { ¬ IsClosed (state self.new).seen }
        ensures none { HasNoneLeft (state self.new).seen }
        ensures refused { result ≡ false → MayNotRest (state self.new).seen }
        ensures deals { deals self.old self.new };

    /// As `Worker::is_closed`.
    fn is_closed(&self) -> bool
        ensures closed { result ≡ closed (state self.now).seen }
        ensures legal { IsLegal (state self.now).layout (state self.now).seen };

    /// As `Worker::close`.
    fn close(&mut self) -> u32
        requires unclosed { ¬ IsClosed (state self.old).seen }
        ensures work { LeavesWork (state self.old) (state self.new) }
        ensures events { Moves (Close ∷ []) 0 (state self.old) (state self.new) }
        ensures takes { TakesAll Close result (state self.new).seen }
        ensures deals { deals self.old self.new };

    /// How many numbers are accepted and have not ended.
    fn left(&self) -> u32
        requires { IsShut (state self.now).seen }
        ensures { result + length (ended (state self.now).seen) ≡ length (accepted (state self.now).seen) };

    /// Begins a drain where the queue is open.
    fn drain_where_open(&mut self)
        ensures shuts { Shuts (state self.old) (state self.new) }
        ensures shut { IsShut (state self.new).seen }
        ensures deals { deals self.old self.new };

    /// Opens the queue again where it drained.
    fn resume_where_draining(&mut self)
        requires { HasRunOut (state self.old).seen }
        ensures resumes { Resumes (state self.old) (state self.new) }
        ensures none { HasNoneLeft (state self.new).seen }
        ensures deals { deals self.old self.new };

    /// Takes a worker apart whose queue has run to its end: the work, and the book of the queue.
    fn into_parts(self) -> (Self::Work, Self::Book)
        requires { IsComplete (state self).seen }
        ensures work { result.0 ≡ (state self).work }
        ensures book { IsBookOf (state self) (book result.1) }
        ensures brought { has_brought self result.1 }
        ensures ran { has_run result.0 result.1 };
}

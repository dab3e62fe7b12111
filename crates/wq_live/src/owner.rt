//! The owner of a queue.
ghost use Rattle.std.specs.Prelude.{◌≡◌, ◌≢◌, ℕ, ◌+◌, ◌<◌, ◌≤◌, ◌↔◌, false, [], ◌∷◌, ◌++◌, Some, IsSome, IsTrue, IfSome, length};
ghost use mathlib.Core.List.{IsPrefix};
ghost use Rattle.wq_words.specs.declared.event.Event.TheVariants.{Take, Close, Drain, Resume, Begin, End};
ghost use Rattle.wq_words.specs.Numbers.{number_count};
ghost use Rattle.wq_words.specs.History.{IsClosed, IsShut, IsDraining, closed, IsRunning, running, ended, accepted, begun};
ghost use Rattle.wq_words.specs.Legal.{IsLegal, IsComplete, HasRunOut};
ghost use Rattle.wq_words.specs.Headline.{KeepsHeadline};
ghost use Rattle.wq_words.specs.Seen.{owner_seat, own};
ghost use Rattle.wq_calls.specs.Known.{IsSame, Sees};
ghost use Rattle.wq_calls.specs.Answers.{Chains, IsFinal};
ghost use Rattle.wq_calls.specs.Batch.{batch, next_of, TakesAll};
ghost use Rattle.wq_calls.specs.Rest.{Rests, HasRested, MayNotRest};
ghost use Rattle.wq_words.specs.Counting.{capped};
ghost use Rattle.wq_calls.specs.Counts.{owner_counts};
ghost use Rattle.wq_calls.specs.Laws.{queued_number};

use crate::bare::Bare;
use std::marker::Model;
use wq_calls::{Done, OwnerCounts, OwnerSeat};
use wq_words::{Answer, Layout};

/// The owner of a queue, who takes what was pushed and executes it, one number at a time, in the order of the pushes. It
/// may be moved to another thread. No call takes a lock or memory, or waits. One that is dropped leaves what it took, and all that is
/// pushed after that, pending for good.
#[derive(Drop)]
pub struct Owner {
    pub(crate) seat: OwnerSeat<Bare>,
}

impl Model for Owner {
    ghost use Rattle.wq_calls.specs.Known.{Known};

    ghost Value = { Known };

    ghost use Rattle.wq_calls.specs.Sits.{owning, owner_view};
    ghost use Rattle.wq_live.specs.Alone.{OwnsAlone};

    ghost view = { λ s. owner_view (owning s.seat) };

    ghost invariant = { OwnsAlone };
}

impl Owner {
    /// The size of its queue.
    pub fn layout(&self) -> Layout
        ensures layout { result ≡ self.now.layout }
        ensures legal { IsLegal self.now.layout self.now.seen }
    {
        self.seat.layout
    }

    /// What it has seen is a legal history of its queue, so it keeps the headline: what was accepted is executed in its order,
    /// once at most, and one at a time.
    pub fn legal(&self)
        ensures legal { IsLegal self.now.layout self.now.seen }
        ensures headline { KeepsHeadline self.now.seen }
        ensures seat { self.now.number ≡ owner_seat }
    {
        // opens the seat, whose invariant says this
        let _ = &self.seat.counts;
    }

    /// Takes all that stands on the list, and answers how many that is (`llist_del_all`). An owner that serves by a loop of its
    /// own takes more at a time where some time passes after a short take, as `serve` of `wq_worker` lets `Spins` pass.
    pub fn take(&mut self) -> u32
        requires open { ¬ IsShut self.old.seen }
        requires empty { batch self.old.seen ≡ [] }
        ensures seen { Sees (Take ∷ []) 0 self.old self.new }
        ensures unqueued { accepted (own self.new.number self.new.seen) ≡ accepted (own self.old.number self.old.seen) }
        ensures executions { (begun self.new.seen ≡ begun self.old.seen) × (ended self.new.seen ≡ ended self.old.seen) }
        ensures takes { TakesAll Take result self.new.seen }
        ensures count { result ≡ length (batch self.new.seen) }
        ensures open { ¬ IsShut self.new.seen }
        ensures unclosed { ¬ IsClosed self.new.seen }
        ensures idle { ¬ IsRunning self.old.seen → ¬ IsRunning self.new.seen }
        ensures runs { IsRunning self.old.seen → IsRunning self.new.seen }
    {
        self.seat.take()
    }

    /// Closes the queue, also one that drains, takes all that stands on the list, and answers how many that is. What a sender
    /// queues from now on is answered `Closed`, or `Pending` where its bit is set.
    pub fn close(&mut self) -> u32
        requires unclosed { ¬ IsClosed self.old.seen }
        ensures seen { Sees (Close ∷ []) 0 self.old self.new }
        ensures unqueued { accepted (own self.new.number self.new.seen) ≡ accepted (own self.old.number self.old.seen) }
        ensures executions { (begun self.new.seen ≡ begun self.old.seen) × (ended self.new.seen ≡ ended self.old.seen) }
        ensures takes { TakesAll Close result self.new.seen }
        ensures behind { IsPrefix (batch self.old.seen) (batch self.new.seen) }
        ensures count { length (batch self.new.seen) ≡ length (batch self.old.seen) + result }
        ensures closed { IsClosed self.new.seen }
        ensures shut { IsShut self.new.seen }
        ensures idle { ¬ IsRunning self.old.seen → ¬ IsRunning self.new.seen }
        ensures runs { IsRunning self.old.seen → IsRunning self.new.seen }
    {
        self.seat.close()
    }

    /// Begins a drain (`drain_workqueue`): takes all that stands on the list, and answers how many that is. What a sender
    /// queues from now on is answered `Draining`, or `Pending` where its bit is set, until the queue is resumed. What is executed
    /// meanwhile may be chained to.
    pub fn drain(&mut self) -> u32
        requires open { ¬ IsShut self.old.seen }
        ensures seen { Sees (Drain ∷ []) 0 self.old self.new }
        ensures unqueued { accepted (own self.new.number self.new.seen) ≡ accepted (own self.old.number self.old.seen) }
        ensures executions { (begun self.new.seen ≡ begun self.old.seen) × (ended self.new.seen ≡ ended self.old.seen) }
        ensures takes { TakesAll Drain result self.new.seen }
        ensures behind { IsPrefix (batch self.old.seen) (batch self.new.seen) }
        ensures count { length (batch self.new.seen) ≡ length (batch self.old.seen) + result }
        ensures draining { IsDraining self.new.seen }
        ensures shut { IsShut self.new.seen }
        ensures unclosed { ¬ IsClosed self.new.seen }
        ensures idle { ¬ IsRunning self.old.seen → ¬ IsRunning self.new.seen }
        ensures runs { IsRunning self.old.seen → IsRunning self.new.seen }
    {
        self.seat.drain()
    }

    /// Ends a drain, once all that was accepted has ended: the queue takes pushes again.
    pub fn resume(&mut self)
        requires draining { IsDraining self.old.seen }
        requires empty { batch self.old.seen ≡ [] }
        requires idle { ¬ IsRunning self.old.seen }
        ensures seen { Sees (Resume ∷ []) 0 self.old self.new }
        ensures unqueued { accepted (own self.new.number self.new.seen) ≡ accepted (own self.old.number self.old.seen) }
        ensures executions { (begun self.new.seen ≡ begun self.old.seen) × (ended self.new.seen ≡ ended self.old.seen) }
        ensures open { ¬ IsShut self.new.seen }
        ensures unclosed { ¬ IsClosed self.new.seen }
        ensures empty { batch self.new.seen ≡ [] }
        ensures idle { ¬ IsRunning self.new.seen }
    {
        self.seat.resume();
    }

    /// The oldest number that was taken and has not begun.
    pub fn next(&self) -> Option<u32>
        ensures first { result ≡ next_of self.now.seen }
    {
        self.seat.next()
    }

    /// How many numbers were taken and have not begun.
    pub fn waiting(&self) -> u32
        ensures count { result ≡ length (batch self.now.seen) }
        ensures few { result ≤ number_count self.now.layout }
    {
        self.seat.waiting()
    }

    /// Begins the execution of `next`, and clears its PENDING bit first, so that it can be queued again while it runs.
    pub fn begin(&mut self) -> u32
        requires waits { batch self.old.seen ≢ [] }
        requires idle { ¬ IsRunning self.old.seen }
        ensures next { next_of self.old.seen ≡ Some result }
        ensures seen { Sees (Begin result ∷ []) 0 self.old self.new }
        ensures unqueued { accepted (own self.new.number self.new.seen) ≡ accepted (own self.old.number self.old.seen) }
        ensures executions { (begun self.new.seen ≡ begun self.old.seen ++ result ∷ []) × (ended self.new.seen ≡ ended self.old.seen) }
        ensures batch { batch self.old.seen ≡ result ∷ batch self.new.seen }
        ensures runs { IsRunning self.new.seen }
        ensures running { running self.new.seen ≡ Some result }
        ensures shut { IsShut self.old.seen → IsShut self.new.seen }
        ensures closed { IsClosed self.old.seen → IsClosed self.new.seen }
        ensures open { ¬ IsShut self.old.seen → ¬ IsShut self.new.seen }
        ensures unclosed { ¬ IsClosed self.old.seen → ¬ IsClosed self.new.seen }
    {
        self.seat.begin()
    }

    /// Ends the execution that runs.
    pub fn end(&mut self)
        requires runs { IsRunning self.old.seen }
        ensures seen { (k : ℕ) → running self.old.seen ≡ Some k → Sees (End k ∷ []) 0 self.old self.new }
        ensures unqueued { accepted (own self.new.number self.new.seen) ≡ accepted (own self.old.number self.old.seen) }
        ensures executions { (begun self.new.seen ≡ begun self.old.seen)
            × ((k : ℕ) → running self.old.seen ≡ Some k → ended self.new.seen ≡ ended self.old.seen ++ k ∷ []) }
        ensures same { IsSame self.old self.new }
        ensures batch { batch self.new.seen ≡ batch self.old.seen }
        ensures idle { ¬ IsRunning self.new.seen }
        ensures shut { IsShut self.old.seen → IsShut self.new.seen }
        ensures closed { IsClosed self.old.seen → IsClosed self.new.seen }
        ensures open { ¬ IsShut self.old.seen → ¬ IsShut self.new.seen }
        ensures unclosed { ¬ IsClosed self.old.seen → ¬ IsClosed self.new.seen }
    {
        self.seat.end();
    }

    /// Says once that the queue rests: true where all that was accepted has ended, the owner has taken or drained since it rested
    /// last, and nothing was pushed since that take or drain. The next push then answers `wakes`, if no take or drain comes
    /// before it.
    ///
    /// An owner that serves by a loop of its own takes, executes what it took, rests, parks its thread where that answered
    /// true, and begins again with a take. Its senders unpark it on `wakes` alone: once a rest, and not once an item. No
    /// wake-up is missed, which is not proved: a push that came before the rest makes it answer false, and then the owner does
    /// not park; the first push after it answers `wakes`, and its sender unparks the owner, also one that is yet to park. An
    /// owner that never rests, as by `serve` of `wq_worker`, is to be woken on `first`, once a take.
    pub fn rest(&mut self) -> bool
        requires open { ¬ IsShut self.old.seen }
        requires empty { batch self.old.seen ≡ [] }
        requires idle { ¬ IsRunning self.old.seen }
        ensures seen { Rests result self.old self.new }
        ensures unqueued { accepted (own self.new.number self.new.seen) ≡ accepted (own self.old.number self.old.seen) }
        ensures executions { (begun self.new.seen ≡ begun self.old.seen) × (ended self.new.seen ≡ ended self.old.seen) }
        ensures rested { IsTrue result → HasRested self.new.seen }
        ensures refused { result ≡ false → MayNotRest self.new.seen }
        ensures same { IsSame self.old self.new }
        ensures open { ¬ IsShut self.new.seen }
        ensures unclosed { ¬ IsClosed self.new.seen }
        ensures empty { batch self.new.seen ≡ [] }
        ensures idle { ¬ IsRunning self.new.seen }
    {
        self.seat.rest()
    }

    /// Queues an item behind all that waits, from the execution that runs while the queue takes no push, draining or closed
    /// (chain queueing in `drain_workqueue`). `Pending` where its bit was set.
    pub fn chain(&mut self, item: u32) -> Answer
        requires item { item < self.old.layout.items }
        requires shut { IsShut self.old.seen }
        requires runs { IsRunning self.old.seen }
        ensures answer { Chains item result self.old self.new }
        ensures same { IsSame self.old self.new }
        ensures batch { batch self.new.seen ≡ batch self.old.seen ++ queued_number item result }
        ensures executions { (begun self.new.seen ≡ begun self.old.seen) × (ended self.new.seen ≡ ended self.old.seen) }
        ensures running { running self.new.seen ≡ running self.old.seen }
        ensures shut { IsShut self.new.seen }
        ensures closed { IsClosed self.old.seen → IsClosed self.new.seen }
        ensures unclosed { ¬ IsClosed self.old.seen → ¬ IsClosed self.new.seen }
        ensures runs { IsRunning self.new.seen }
    {
        self.seat.chain(item)
    }

    /// Whether it has closed the queue.
    pub fn is_closed(&self) -> bool
        ensures closed { result ≡ closed self.now.seen }
    {
        self.seat.is_closed()
    }

    /// Whether the queue drains: its drain was not resumed, and it was not closed since.
    pub fn is_draining(&self) -> bool
        ensures draining { IsTrue result ↔ IsDraining self.now.seen }
        ensures else_open { result ≡ false → ¬ IsClosed self.now.seen → ¬ IsShut self.now.seen }
    {
        self.seat.is_draining()
    }

    /// Whether the queue drains and all that was accepted has ended, so that it can be resumed.
    pub fn drained(&self) -> bool
        ensures drained { IsTrue result ↔ (IsDraining self.now.seen × HasRunOut self.now.seen) }
        ensures all { IsTrue result → (ended self.now.seen ≡ begun self.now.seen) × (begun self.now.seen ≡ accepted self.now.seen) }
        ensures resumable { IsTrue result → (batch self.now.seen ≡ []) × (¬ IsRunning self.now.seen) }
        ensures finished { IsDraining self.now.seen → batch self.now.seen ≡ [] → ¬ IsRunning self.now.seen → IsTrue result }
    {
        self.seat.drained()
    }

    /// The number that runs.
    pub fn running(&self) -> Option<u32>
        ensures runs { result ≡ running self.now.seen }
    {
        self.seat.running
    }

    /// Some where the queue is closed and all that was accepted has ended.
    pub fn done(&self) -> Option<Done>
        ensures complete { IsSome result ↔ IsComplete self.now.seen }
        ensures count { IfSome result (λ done. done.ended ≡ capped (length (ended self.now.seen))) }
        ensures all { IsSome result → (ended self.now.seen ≡ begun self.now.seen) × (begun self.now.seen ≡ accepted self.now.seen) }
        ensures last { IsSome result → IsFinal self.now.layout self.now.seen }
        ensures finished { IsClosed self.now.seen → batch self.now.seen ≡ [] → ¬ IsRunning self.now.seen → IsSome result }
    {
        self.seat.done()
    }

    /// What it has counted of its own events.
    pub fn counts(&self) -> OwnerCounts
        ensures counted { result ≡ owner_counts self.now.seen }
    {
        self.seat.counts
    }
}

//! The owner of a queue whose items bring values.
ghost use Rattle.std.specs.Prelude.{◌≡◌, ◌≢◌, ℕ, ◌+◌, ◌<◌, ◌≤◌, ◌↔◌, false, [], ◌∷◌, ◌++◌, Some, IsSome, IsTrue, IfSome, length, slice_get};
ghost use mathlib.Core.List.{IsPrefix};
ghost use Rattle.wq_words.specs.declared.event.Event.TheVariants.{Take, Close, Drain, Resume, Begin, End};
ghost use Rattle.wq_words.specs.Numbers.{number_count};
ghost use Rattle.wq_words.specs.History.{IsClosed, IsShut, IsDraining, closed, IsRunning, running, ended, accepted, begun};
ghost use Rattle.wq_words.specs.Legal.{IsLegal, IsComplete, HasRunOut};
ghost use Rattle.wq_words.specs.Headline.{KeepsHeadline};
ghost use Rattle.wq_words.specs.Seen.{owner_seat, own};
ghost use Rattle.wq_words.specs.Valued.{Carries, IsLegalWith, with_values};
ghost use Rattle.wq_calls.specs.Known.{IsSame, Sees};
ghost use Rattle.wq_calls.specs.Answers.{Chains, IsFinal};
ghost use Rattle.wq_calls.specs.Batch.{batch, next_of, TakesAll};
ghost use Rattle.wq_calls.specs.Rest.{Rests, HasRested, MayNotRest};
ghost use Rattle.wq_words.specs.Counting.{capped};
ghost use Rattle.wq_calls.specs.Counts.{owner_counts};
ghost use Rattle.wq_calls.specs.Laws.{queued_number};
ghost use Rattle.wq_calls.specs.KnownWith.{Learnt, handed_in, answer_of, ChainsOrReturns, MatchesAccepted};

use std::marker::Model;
use wq_calls::{Done, OwnerCounts, OwnerSeat, ValueAnswer};
use wq_words::Layout;

/// The owner of a queue whose items bring values, as `Owner`: the execution of an item is handed the value that its queueing
/// brought. A value that never begins is dropped once, as the last seat of the queue goes.
#[derive(Drop)]
pub struct ValueOwner<V: Drop> {
    pub(crate) seat: OwnerSeat<V>,
}

impl<V: Drop> Model for ValueOwner<V> {
    ghost use Rattle.wq_calls.specs.KnownWith.{KnownWith};

    ghost Value = { KnownWith V };

    ghost use Rattle.wq_calls.specs.Valued.{owner_with};
    ghost use Rattle.wq_values.specs.Alone.{OwnsValues};

    ghost view = { λ s. owner_with s.seat };

    ghost invariant = { OwnsValues };
}

impl<V: Drop> ValueOwner<V> {
    /// The size of its queue.
    pub fn layout(&self) -> Layout
        ensures layout { result ≡ self.now.known.layout }
        ensures legal { IsLegal self.now.known.layout self.now.known.seen }
    {
        self.seat.layout
    }

    /// What it has seen is a legal history of its queue, so it keeps the headline: what was accepted is executed in its
    /// order, once at most, and one at a time. Each accepted item brought a value, no other number did, and the values in
    /// the order of the pushes are those in the order of the executions; that an execution was handed that very value is
    /// said by `begin`.
    pub fn legal(&self)
        ensures legal { IsLegal self.now.known.layout self.now.known.seen }
        ensures headline { KeepsHeadline self.now.known.seen }
        ensures values { IsLegalWith self.now.known.layout (with_values self.now.known.seen self.now.brought) }
        ensures matches { MatchesAccepted self.now }
        ensures seat { self.now.known.number ≡ owner_seat }
    {
        // opens the seat, whose invariant says this
        let _ = &self.seat.counts;
    }

    /// Takes all that stands on the list, and answers how many that is (`llist_del_all`). An owner that serves by a loop of its
    /// own takes more at a time where some time passes after a short take, as `serve` of `wq_worker` lets `Spins` pass.
    pub fn take(&mut self) -> u32
        requires open { ¬ IsShut self.old.known.seen }
        requires empty { batch self.old.known.seen ≡ [] }
        ensures seen { Sees (Take ∷ []) 0 self.old.known self.new.known }
        ensures unqueued { accepted (own self.new.known.number self.new.known.seen) ≡ accepted (own self.old.known.number self.old.known.seen) }
        ensures executions { (begun self.new.known.seen ≡ begun self.old.known.seen) × (ended self.new.known.seen ≡ ended self.old.known.seen) }
        ensures learnt { Learnt self.old self.new }
        ensures handed { handed_in self.new ≡ handed_in self.old }
        ensures takes { TakesAll Take result self.new.known.seen }
        ensures count { result ≡ length (batch self.new.known.seen) }
        ensures open { ¬ IsShut self.new.known.seen }
        ensures unclosed { ¬ IsClosed self.new.known.seen }
        ensures idle { ¬ IsRunning self.old.known.seen → ¬ IsRunning self.new.known.seen }
        ensures runs { IsRunning self.old.known.seen → IsRunning self.new.known.seen }
    {
        self.seat.take()
    }

    /// Closes the queue, also one that drains, takes all that stands on the list, and answers how many that is. What a sender
    /// queues from now on is answered `Closed`, or `Pending` where its bit is set.
    pub fn close(&mut self) -> u32
        requires unclosed { ¬ IsClosed self.old.known.seen }
        ensures seen { Sees (Close ∷ []) 0 self.old.known self.new.known }
        ensures unqueued { accepted (own self.new.known.number self.new.known.seen) ≡ accepted (own self.old.known.number self.old.known.seen) }
        ensures executions { (begun self.new.known.seen ≡ begun self.old.known.seen) × (ended self.new.known.seen ≡ ended self.old.known.seen) }
        ensures learnt { Learnt self.old self.new }
        ensures handed { handed_in self.new ≡ handed_in self.old }
        ensures takes { TakesAll Close result self.new.known.seen }
        ensures behind { IsPrefix (batch self.old.known.seen) (batch self.new.known.seen) }
        ensures count { length (batch self.new.known.seen) ≡ length (batch self.old.known.seen) + result }
        ensures closed { IsClosed self.new.known.seen }
        ensures shut { IsShut self.new.known.seen }
        ensures idle { ¬ IsRunning self.old.known.seen → ¬ IsRunning self.new.known.seen }
        ensures runs { IsRunning self.old.known.seen → IsRunning self.new.known.seen }
    {
        self.seat.close()
    }

    /// Begins a drain (`drain_workqueue`): takes all that stands on the list, and answers how many that is. What a sender
    /// queues from now on is answered `Draining`, or `Pending` where its bit is set, until the queue is resumed. What is executed
    /// meanwhile may be chained to.
    pub fn drain(&mut self) -> u32
        requires open { ¬ IsShut self.old.known.seen }
        ensures seen { Sees (Drain ∷ []) 0 self.old.known self.new.known }
        ensures unqueued { accepted (own self.new.known.number self.new.known.seen) ≡ accepted (own self.old.known.number self.old.known.seen) }
        ensures executions { (begun self.new.known.seen ≡ begun self.old.known.seen) × (ended self.new.known.seen ≡ ended self.old.known.seen) }
        ensures learnt { Learnt self.old self.new }
        ensures handed { handed_in self.new ≡ handed_in self.old }
        ensures takes { TakesAll Drain result self.new.known.seen }
        ensures behind { IsPrefix (batch self.old.known.seen) (batch self.new.known.seen) }
        ensures count { length (batch self.new.known.seen) ≡ length (batch self.old.known.seen) + result }
        ensures draining { IsDraining self.new.known.seen }
        ensures shut { IsShut self.new.known.seen }
        ensures unclosed { ¬ IsClosed self.new.known.seen }
        ensures idle { ¬ IsRunning self.old.known.seen → ¬ IsRunning self.new.known.seen }
        ensures runs { IsRunning self.old.known.seen → IsRunning self.new.known.seen }
    {
        self.seat.drain()
    }

    /// Ends a drain, once all that was accepted has ended: the queue takes pushes again.
    pub fn resume(&mut self)
        requires draining { IsDraining self.old.known.seen }
        requires empty { batch self.old.known.seen ≡ [] }
        requires idle { ¬ IsRunning self.old.known.seen }
        ensures seen { Sees (Resume ∷ []) 0 self.old.known self.new.known }
        ensures unqueued { accepted (own self.new.known.number self.new.known.seen) ≡ accepted (own self.old.known.number self.old.known.seen) }
        ensures executions { (begun self.new.known.seen ≡ begun self.old.known.seen) × (ended self.new.known.seen ≡ ended self.old.known.seen) }
        ensures learnt { Learnt self.old self.new }
        ensures handed { handed_in self.new ≡ handed_in self.old }
        ensures open { ¬ IsShut self.new.known.seen }
        ensures unclosed { ¬ IsClosed self.new.known.seen }
        ensures empty { batch self.new.known.seen ≡ [] }
        ensures idle { ¬ IsRunning self.new.known.seen }
    {
        self.seat.resume();
    }

    /// The oldest number that was taken and has not begun.
    pub fn next(&self) -> Option<u32>
        ensures first { result ≡ next_of self.now.known.seen }
    {
        self.seat.next()
    }

    /// How many numbers were taken and have not begun.
    pub fn waiting(&self) -> u32
        ensures count { result ≡ length (batch self.now.known.seen) }
        ensures few { result ≤ number_count self.now.known.layout }
    {
        self.seat.waiting()
    }

    /// Begins the execution of `next`, and clears its PENDING bit first, so that it can be queued again while it runs. With it comes
    /// the value that its queueing brought: None for a barrier and the stop item alone.
    pub fn begin(&mut self) -> (u32, Option<V>)
        requires waits { batch self.old.known.seen ≢ [] }
        requires idle { ¬ IsRunning self.old.known.seen }
        ensures next { next_of self.old.known.seen ≡ Some result.0 }
        ensures seen { Sees (Begin result.0 ∷ []) 0 self.old.known self.new.known }
        ensures unqueued { accepted (own self.new.known.number self.new.known.seen) ≡ accepted (own self.old.known.number self.old.known.seen) }
        ensures executions { (begun self.new.known.seen ≡ begun self.old.known.seen ++ result.0 ∷ [])
            × (ended self.new.known.seen ≡ ended self.old.known.seen) }
        ensures learnt { Learnt self.old self.new }
        ensures handed { handed_in self.new ≡ handed_in self.old ++ result.1 ∷ [] }
        ensures batch { batch self.old.known.seen ≡ result.0 ∷ batch self.new.known.seen }
        ensures value { slice_get self.new.brought (length (begun self.old.known.seen)) ≡ Some result.1 }
        ensures kind { Carries self.old.known.layout.items result.0 result.1 }
        ensures runs { IsRunning self.new.known.seen }
        ensures running { running self.new.known.seen ≡ Some result.0 }
        ensures shut { IsShut self.old.known.seen → IsShut self.new.known.seen }
        ensures closed { IsClosed self.old.known.seen → IsClosed self.new.known.seen }
        ensures open { ¬ IsShut self.old.known.seen → ¬ IsShut self.new.known.seen }
        ensures unclosed { ¬ IsClosed self.old.known.seen → ¬ IsClosed self.new.known.seen }
    {
        self.seat.begin_value()
    }

    /// Ends the execution that runs.
    pub fn end(&mut self)
        requires runs { IsRunning self.old.known.seen }
        ensures seen { (k : ℕ) → running self.old.known.seen ≡ Some k → Sees (End k ∷ []) 0 self.old.known self.new.known }
        ensures unqueued { accepted (own self.new.known.number self.new.known.seen) ≡ accepted (own self.old.known.number self.old.known.seen) }
        ensures executions { (begun self.new.known.seen ≡ begun self.old.known.seen)
            × ((k : ℕ) → running self.old.known.seen ≡ Some k → ended self.new.known.seen ≡ ended self.old.known.seen ++ k ∷ []) }
        ensures learnt { Learnt self.old self.new }
        ensures handed { handed_in self.new ≡ handed_in self.old }
        ensures same { IsSame self.old.known self.new.known }
        ensures batch { batch self.new.known.seen ≡ batch self.old.known.seen }
        ensures idle { ¬ IsRunning self.new.known.seen }
        ensures shut { IsShut self.old.known.seen → IsShut self.new.known.seen }
        ensures closed { IsClosed self.old.known.seen → IsClosed self.new.known.seen }
        ensures open { ¬ IsShut self.old.known.seen → ¬ IsShut self.new.known.seen }
        ensures unclosed { ¬ IsClosed self.old.known.seen → ¬ IsClosed self.new.known.seen }
    {
        self.seat.end();
    }

    /// Says once that the queue rests: true where all that was accepted has ended, the owner has taken or drained since it rested
    /// last, and nothing was pushed since that take or drain. The next push then answers `wakes`, if no take or drain comes
    /// before it.
    ///
    /// An owner that serves by a loop of its own takes, executes what it took, rests, parks its thread where that answered
    /// true, and begins again with a take. Its senders unpark it on `wakes` alone: once a rest, and not once an item. No
    /// wake-up is missed, which is not proved: a push that came before the rest makes it answer false, and then the owner does
    /// not park; the first push after it answers `wakes`, and its sender unparks the owner, also one that is yet to park. An
    /// owner that never rests, as by `serve` of `wq_value_worker`, is to be woken on `first`, once a take.
    pub fn rest(&mut self) -> bool
        requires open { ¬ IsShut self.old.known.seen }
        requires empty { batch self.old.known.seen ≡ [] }
        requires idle { ¬ IsRunning self.old.known.seen }
        ensures seen { Rests result self.old.known self.new.known }
        ensures unqueued { accepted (own self.new.known.number self.new.known.seen) ≡ accepted (own self.old.known.number self.old.known.seen) }
        ensures executions { (begun self.new.known.seen ≡ begun self.old.known.seen) × (ended self.new.known.seen ≡ ended self.old.known.seen) }
        ensures learnt { Learnt self.old self.new }
        ensures handed { handed_in self.new ≡ handed_in self.old }
        ensures rested { IsTrue result → HasRested self.new.known.seen }
        ensures refused { result ≡ false → MayNotRest self.new.known.seen }
        ensures same { IsSame self.old.known self.new.known }
        ensures open { ¬ IsShut self.new.known.seen }
        ensures unclosed { ¬ IsClosed self.new.known.seen }
        ensures empty { batch self.new.known.seen ≡ [] }
        ensures idle { ¬ IsRunning self.new.known.seen }
    {
        self.seat.rest()
    }

    /// Queues an item with a value behind all that waits, from the execution that runs while the queue takes no push, draining or
    /// closed (chain queueing in `drain_workqueue`). `Pending`, with the value, where its bit was set.
    pub fn chain_value(&mut self, item: u32, value: V) -> ValueAnswer<V>
        requires item { item < self.old.known.layout.items }
        requires shut { IsShut self.old.known.seen }
        requires runs { IsRunning self.old.known.seen }
        ensures answer { Chains item (answer_of result) self.old.known self.new.known }
        ensures learnt { Learnt self.old self.new }
        ensures handed { handed_in self.new ≡ handed_in self.old }
        ensures value { ChainsOrReturns item value result self.new }
        ensures same { IsSame self.old.known self.new.known }
        ensures batch { batch self.new.known.seen ≡ batch self.old.known.seen ++ queued_number item (answer_of result) }
        ensures executions { (begun self.new.known.seen ≡ begun self.old.known.seen) × (ended self.new.known.seen ≡ ended self.old.known.seen) }
        ensures running { running self.new.known.seen ≡ running self.old.known.seen }
        ensures shut { IsShut self.new.known.seen }
        ensures closed { IsClosed self.old.known.seen → IsClosed self.new.known.seen }
        ensures unclosed { ¬ IsClosed self.old.known.seen → ¬ IsClosed self.new.known.seen }
        ensures runs { IsRunning self.new.known.seen }
    {
        self.seat.chain_value(item, value)
    }

    /// Whether it has closed the queue.
    pub fn is_closed(&self) -> bool
        ensures closed { result ≡ closed self.now.known.seen }
    {
        self.seat.is_closed()
    }

    /// Whether the queue drains: its drain was not resumed, and it was not closed since.
    pub fn is_draining(&self) -> bool
        ensures draining { IsTrue result ↔ IsDraining self.now.known.seen }
        ensures else_open { result ≡ false → ¬ IsClosed self.now.known.seen → ¬ IsShut self.now.known.seen }
    {
        self.seat.is_draining()
    }

    /// Whether the queue drains and all that was accepted has ended, so that it can be resumed.
    pub fn drained(&self) -> bool
        ensures drained { IsTrue result ↔ (IsDraining self.now.known.seen × HasRunOut self.now.known.seen) }
        ensures all { IsTrue result → (ended self.now.known.seen ≡ begun self.now.known.seen)
            × (begun self.now.known.seen ≡ accepted self.now.known.seen) }
        ensures resumable { IsTrue result → (batch self.now.known.seen ≡ []) × (¬ IsRunning self.now.known.seen) }
        ensures finished { IsDraining self.now.known.seen → batch self.now.known.seen ≡ [] → ¬ IsRunning self.now.known.seen → IsTrue result }
    {
        self.seat.drained()
    }

    /// The number that runs.
    pub fn running(&self) -> Option<u32>
        ensures runs { result ≡ running self.now.known.seen }
    {
        self.seat.running
    }

    /// Some where the queue is closed and all that was accepted has ended.
    pub fn done(&self) -> Option<Done>
        ensures complete { IsSome result ↔ IsComplete self.now.known.seen }
        ensures count { IfSome result (λ done. done.ended ≡ capped (length (ended self.now.known.seen))) }
        ensures all { IsSome result → (ended self.now.known.seen ≡ begun self.now.known.seen)
            × (begun self.now.known.seen ≡ accepted self.now.known.seen) }
        ensures handed { IsSome result → handed_in self.now ≡ self.now.brought }
        ensures last { IsSome result → IsFinal self.now.known.layout self.now.known.seen }
        ensures finished { IsClosed self.now.known.seen → batch self.now.known.seen ≡ [] → ¬ IsRunning self.now.known.seen → IsSome result }
    {
        self.seat.done()
    }

    /// What it has counted of its own events.
    pub fn counts(&self) -> OwnerCounts
        ensures counted { result ≡ owner_counts self.now.known.seen }
    {
        self.seat.counts
    }
}

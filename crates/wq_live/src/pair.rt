//! An owner and a sender of one queue in one seat.
ghost use Rattle.std.specs.Prelude.{◌≡◌, ◌≢◌, ℕ, ◌+◌, ◌<◌, ◌≤◌, ◌↔◌, false, [], ◌∷◌, ◌++◌, Some, IsTrue, length};
ghost use mathlib.Core.List.{IsPrefix};
ghost use Rattle.wq_words.specs.declared.answer.Answer.TheVariants.{Contended};
ghost use Rattle.wq_words.specs.declared.event.Event.TheVariants.{Take, Close, Drain, Resume, Begin, End};
ghost use Rattle.wq_words.specs.Numbers.{number_count};
ghost use Rattle.wq_words.specs.History.{IsClosed, IsShut, IsDraining, closed, IsRunning, running, accepted, begun, ended};
ghost use Rattle.wq_words.specs.Legal.{IsLegal, HasRunOut};
ghost use Rattle.wq_words.specs.Headline.{KeepsHeadline};
ghost use Rattle.wq_words.specs.Seen.{owner_seat, own};
ghost use Rattle.wq_calls.specs.Known.{Sees};
ghost use Rattle.wq_calls.specs.Answers.{Answers, Chains, IsContended};
ghost use Rattle.wq_calls.specs.Batch.{batch, next_of, TakesAll};
ghost use Rattle.wq_calls.specs.Counts.{owner_counts, sender_counts};
ghost use Rattle.wq_calls.specs.Rest.{Rests, HasRested, MayNotRest};
ghost use Rattle.wq_calls.specs.Laws.{queued_number, IsStillOwned};
ghost use Rattle.wq_calls.specs.Pairs.{pair_owner, pair_sender};

use crate::bare::Bare;
use crate::owner::Owner;
use crate::sender::Sender;
use std::marker::Model;
use wq_calls::{OwnerCounts, OwnerSeat, SenderCounts, Sent, Spins, queue_number};
use wq_table::Second;
use wq_words::{Answer, Layout};

/// An owner and a sender of one queue in one seat: a step of either is seen by both, so they need no meeting. It may be
/// moved to another thread. No call takes a lock or memory, or waits.
#[derive(Drop)]
pub struct Pair {
    pub(crate) seat: OwnerSeat<Bare>,
    pub(crate) sent: Sent,
}

impl Model for Pair {
    ghost use Rattle.wq_calls.specs.Pairs.{KnownPair};

    ghost Value = { KnownPair };

    ghost use Rattle.wq_live.specs.Pair.{pair_view, IsPair};

    ghost view = { pair_view };

    ghost invariant = { IsPair };
}

impl Pair {
    /// An owner and a sender become one seat, which has seen one history that goes on from what each had seen.
    pub fn join(owner: Owner, sender: Sender) -> Pair
        requires one { sender.queue ≡ owner.queue }
        ensures owner { Sees [] 0 owner (pair_owner result) }
        ensures sender { Sees [] 0 sender (pair_sender result) }
        ensures owned { IsStillOwned owner.seen result.seen }
        ensures low { result.number < result.layout.senders }
    {
        let Owner { seat } = owner;
        let Sender { chair, sent } = sender;
        Pair {
            seat: OwnerSeat {
                chair: seat.chair.join(chair),
                ..seat
            },
            sent,
        }
    }

    /// How long its sender gives way after a lost exchange, between the tries of one call: a call of one try gives no way.
    pub fn set_spins(&mut self, spins: Spins)
        ensures same { self.new ≡ self.old }
    {
        self.sent.spins = spins;
    }

    /// The owner and the sender, each in a seat of its own again.
    pub fn split(self) -> (Owner, Sender)
        ensures owner { result.0 ≡ pair_owner self }
        ensures sender { result.1 ≡ pair_sender self }
    {
        let Pair { seat, sent } = self;
        let (first, second) = seat.chair.split();
        let owner = Owner {
            seat: OwnerSeat {
                chair: first,
                ..seat
            },
        };
        let sender = Sender {
            chair: second,
            sent,
        };
        (owner, sender)
    }

    /// The size of its queue.
    pub fn layout(&self) -> Layout
        ensures layout { result ≡ self.now.layout }
        ensures legal { IsLegal self.now.layout self.now.seen }
    {
        self.seat.layout
    }

    /// What it has seen is a legal history of its queue, so it keeps the headline: what was accepted is executed in its order,
    /// once at most, and one at a time.
    pub fn legal(&self)
        ensures legal { IsLegal self.now.layout self.now.seen }
        ensures headline { KeepsHeadline self.now.seen }
        ensures low { self.now.number < self.now.layout.senders }
    {
        // opens the seat, whose invariant says this
        let _ = &self.sent;
    }

    /// Whether its owner has closed the queue.
    pub fn is_closed(&self) -> bool
        ensures closed { result ≡ closed self.now.seen }
    {
        self.seat.is_closed()
    }

    /// As `Owner::is_draining`.
    pub fn is_draining(&self) -> bool
        ensures draining { IsTrue result ↔ IsDraining self.now.seen }
        ensures else_open { result ≡ false → ¬ IsClosed self.now.seen → ¬ IsShut self.now.seen }
    {
        self.seat.is_draining()
    }

    /// As `Owner::drained`.
    pub fn drained(&self) -> bool
        ensures drained { IsTrue result ↔ (IsDraining self.now.seen × HasRunOut self.now.seen) }
        ensures all { IsTrue result → (ended self.now.seen ≡ begun self.now.seen) × (begun self.now.seen ≡ accepted self.now.seen) }
        ensures resumable { IsTrue result → (batch self.now.seen ≡ []) × (¬ IsRunning self.now.seen) }
        ensures finished { IsDraining self.now.seen → batch self.now.seen ≡ [] → ¬ IsRunning self.now.seen → IsTrue result }
    {
        self.seat.drained()
    }

    /// The number that runs.
    pub fn running(&self) -> Option<u32>
        ensures runs { result ≡ running self.now.seen }
    {
        self.seat.running
    }

    /// What its owner has counted.
    pub fn owner_counts(&self) -> OwnerCounts
        ensures counted { result ≡ owner_counts self.now.seen }
    {
        self.seat.counts
    }

    /// What its sender has counted.
    pub fn sender_counts(&self) -> SenderCounts
        ensures counted { result ≡ sender_counts self.now.number self.now.seen }
    {
        self.sent.counts
    }

    /// As `Owner::take`: the owner's events, and none of the sender's.
    pub fn take(&mut self) -> u32
        requires open { ¬ IsShut self.old.seen }
        requires empty { batch self.old.seen ≡ [] }
        ensures seen { Sees (Take ∷ []) 0 (pair_owner self.old) (pair_owner self.new) }
        ensures unqueued { accepted (own owner_seat self.new.seen) ≡ accepted (own owner_seat self.old.seen) }
        ensures executions { (begun self.new.seen ≡ begun self.old.seen) × (ended self.new.seen ≡ ended self.old.seen) }
        ensures takes { TakesAll Take result self.new.seen }
        ensures count { result ≡ length (batch self.new.seen) }
        ensures open { ¬ IsShut self.new.seen }
        ensures unclosed { ¬ IsClosed self.new.seen }
        ensures idle { ¬ IsRunning self.old.seen → ¬ IsRunning self.new.seen }
        ensures runs { IsRunning self.old.seen → IsRunning self.new.seen }
        ensures others { Sees [] 0 (pair_sender self.old) (pair_sender self.new) }
    {
        self.seat.take()
    }

    /// As `Owner::close`: the owner's events, and none of the sender's.
    pub fn close(&mut self) -> u32
        requires unclosed { ¬ IsClosed self.old.seen }
        ensures seen { Sees (Close ∷ []) 0 (pair_owner self.old) (pair_owner self.new) }
        ensures unqueued { accepted (own owner_seat self.new.seen) ≡ accepted (own owner_seat self.old.seen) }
        ensures executions { (begun self.new.seen ≡ begun self.old.seen) × (ended self.new.seen ≡ ended self.old.seen) }
        ensures takes { TakesAll Close result self.new.seen }
        ensures behind { IsPrefix (batch self.old.seen) (batch self.new.seen) }
        ensures count { length (batch self.new.seen) ≡ length (batch self.old.seen) + result }
        ensures closed { IsClosed self.new.seen }
        ensures shut { IsShut self.new.seen }
        ensures idle { ¬ IsRunning self.old.seen → ¬ IsRunning self.new.seen }
        ensures runs { IsRunning self.old.seen → IsRunning self.new.seen }
        ensures others { Sees [] 0 (pair_sender self.old) (pair_sender self.new) }
    {
        self.seat.close()
    }

    /// As `Owner::drain`: the owner's events, and none of the sender's.
    pub fn drain(&mut self) -> u32
        requires open { ¬ IsShut self.old.seen }
        ensures seen { Sees (Drain ∷ []) 0 (pair_owner self.old) (pair_owner self.new) }
        ensures unqueued { accepted (own owner_seat self.new.seen) ≡ accepted (own owner_seat self.old.seen) }
        ensures executions { (begun self.new.seen ≡ begun self.old.seen) × (ended self.new.seen ≡ ended self.old.seen) }
        ensures takes { TakesAll Drain result self.new.seen }
        ensures behind { IsPrefix (batch self.old.seen) (batch self.new.seen) }
        ensures count { length (batch self.new.seen) ≡ length (batch self.old.seen) + result }
        ensures draining { IsDraining self.new.seen }
        ensures shut { IsShut self.new.seen }
        ensures unclosed { ¬ IsClosed self.new.seen }
        ensures idle { ¬ IsRunning self.old.seen → ¬ IsRunning self.new.seen }
        ensures runs { IsRunning self.old.seen → IsRunning self.new.seen }
        ensures others { Sees [] 0 (pair_sender self.old) (pair_sender self.new) }
    {
        self.seat.drain()
    }

    /// As `Owner::resume`: the owner's events, and none of the sender's.
    pub fn resume(&mut self)
        requires draining { IsDraining self.old.seen }
        requires empty { batch self.old.seen ≡ [] }
        requires idle { ¬ IsRunning self.old.seen }
        ensures seen { Sees (Resume ∷ []) 0 (pair_owner self.old) (pair_owner self.new) }
        ensures unqueued { accepted (own owner_seat self.new.seen) ≡ accepted (own owner_seat self.old.seen) }
        ensures executions { (begun self.new.seen ≡ begun self.old.seen) × (ended self.new.seen ≡ ended self.old.seen) }
        ensures open { ¬ IsShut self.new.seen }
        ensures unclosed { ¬ IsClosed self.new.seen }
        ensures empty { batch self.new.seen ≡ [] }
        ensures idle { ¬ IsRunning self.new.seen }
        ensures others { Sees [] 0 (pair_sender self.old) (pair_sender self.new) }
    {
        self.seat.resume();
    }

    /// As `Owner::next`.
    pub fn next(&self) -> Option<u32>
        ensures first { result ≡ next_of self.now.seen }
    {
        self.seat.next()
    }

    /// As `Owner::waiting`.
    pub fn waiting(&self) -> u32
        ensures count { result ≡ length (batch self.now.seen) }
        ensures few { result ≤ number_count self.now.layout }
    {
        self.seat.waiting()
    }

    /// As `Owner::begin`: the owner's events, and none of the sender's.
    pub fn begin(&mut self) -> u32
        requires waits { batch self.old.seen ≢ [] }
        requires idle { ¬ IsRunning self.old.seen }
        ensures next { next_of self.old.seen ≡ Some result }
        ensures seen { Sees (Begin result ∷ []) 0 (pair_owner self.old) (pair_owner self.new) }
        ensures unqueued { accepted (own owner_seat self.new.seen) ≡ accepted (own owner_seat self.old.seen) }
        ensures executions { (begun self.new.seen ≡ begun self.old.seen ++ result ∷ []) × (ended self.new.seen ≡ ended self.old.seen) }
        ensures batch { batch self.old.seen ≡ result ∷ batch self.new.seen }
        ensures runs { IsRunning self.new.seen }
        ensures running { running self.new.seen ≡ Some result }
        ensures shut { IsShut self.old.seen → IsShut self.new.seen }
        ensures closed { IsClosed self.old.seen → IsClosed self.new.seen }
        ensures open { ¬ IsShut self.old.seen → ¬ IsShut self.new.seen }
        ensures unclosed { ¬ IsClosed self.old.seen → ¬ IsClosed self.new.seen }
        ensures others { Sees [] 0 (pair_sender self.old) (pair_sender self.new) }
    {
        self.seat.begin()
    }

    /// As `Owner::end`: the owner's events, and none of the sender's.
    pub fn end(&mut self)
        requires runs { IsRunning self.old.seen }
        ensures seen { (k : ℕ) → running self.old.seen ≡ Some k → Sees (End k ∷ []) 0 (pair_owner self.old) (pair_owner self.new) }
        ensures unqueued { accepted (own owner_seat self.new.seen) ≡ accepted (own owner_seat self.old.seen) }
        ensures executions { (begun self.new.seen ≡ begun self.old.seen)
            × ((k : ℕ) → running self.old.seen ≡ Some k → ended self.new.seen ≡ ended self.old.seen ++ k ∷ []) }
        ensures batch { batch self.new.seen ≡ batch self.old.seen }
        ensures idle { ¬ IsRunning self.new.seen }
        ensures shut { IsShut self.old.seen → IsShut self.new.seen }
        ensures closed { IsClosed self.old.seen → IsClosed self.new.seen }
        ensures open { ¬ IsShut self.old.seen → ¬ IsShut self.new.seen }
        ensures unclosed { ¬ IsClosed self.old.seen → ¬ IsClosed self.new.seen }
        ensures others { Sees [] 0 (pair_sender self.old) (pair_sender self.new) }
    {
        self.seat.end();
    }

    /// As `Owner::rest`: the owner's events, and none of the sender's.
    pub fn rest(&mut self) -> bool
        requires open { ¬ IsShut self.old.seen }
        requires empty { batch self.old.seen ≡ [] }
        requires idle { ¬ IsRunning self.old.seen }
        ensures seen { Rests result (pair_owner self.old) (pair_owner self.new) }
        ensures unqueued { accepted (own owner_seat self.new.seen) ≡ accepted (own owner_seat self.old.seen) }
        ensures executions { (begun self.new.seen ≡ begun self.old.seen) × (ended self.new.seen ≡ ended self.old.seen) }
        ensures rested { IsTrue result → HasRested self.new.seen }
        ensures refused { result ≡ false → MayNotRest self.new.seen }
        ensures open { ¬ IsShut self.new.seen }
        ensures unclosed { ¬ IsClosed self.new.seen }
        ensures empty { batch self.new.seen ≡ [] }
        ensures idle { ¬ IsRunning self.new.seen }
        ensures others { Sees [] 0 (pair_sender self.old) (pair_sender self.new) }
    {
        self.seat.rest()
    }

    /// As `Owner::chain`: the owner's events, and none of the sender's.
    pub fn chain(&mut self, item: u32) -> Answer
        requires item { item < self.old.layout.items }
        requires shut { IsShut self.old.seen }
        requires runs { IsRunning self.old.seen }
        ensures answer { Chains item result (pair_owner self.old) (pair_owner self.new) }
        ensures batch { batch self.new.seen ≡ batch self.old.seen ++ queued_number item result }
        ensures executions { (begun self.new.seen ≡ begun self.old.seen) × (ended self.new.seen ≡ ended self.old.seen) }
        ensures running { running self.new.seen ≡ running self.old.seen }
        ensures shut { IsShut self.new.seen }
        ensures closed { IsClosed self.old.seen → IsClosed self.new.seen }
        ensures unclosed { ¬ IsClosed self.old.seen → ¬ IsClosed self.new.seen }
        ensures runs { IsRunning self.new.seen }
        ensures others { Sees [] 0 (pair_sender self.old) (pair_sender self.new) }
    {
        self.seat.chain(item)
    }

    /// As `Sender::queue_tries`: the sender's events, and none of the owner's.
    pub fn queue_tries(&mut self, item: u32, tries: u32) -> Answer
        requires item { item < self.old.layout.items }
        requires tries { 0 < tries }
        ensures answer { Answers item tries result (pair_sender self.old) (pair_sender self.new) }
        ensures contended { result ≡ Contended → IsContended self.old.number item tries self.new.seen }
        ensures others { Sees [] 0 (pair_owner self.old) (pair_owner self.new) }
        ensures owned { IsStillOwned self.old.seen self.new.seen }
    {
        queue_number::<Bare, Second>(&mut self.seat.chair, &mut self.sent, item, tries)
    }

    /// Afterwards both have seen one history, which goes on from what each had seen.
    pub fn meet(&mut self, sender: &mut Sender)
        requires one { sender.old.queue ≡ self.old.queue }
        ensures owner { Sees [] 0 (pair_owner self.old) (pair_owner self.new) }
        ensures sender { Sees [] 0 (pair_sender self.old) (pair_sender self.new) }
        ensures owned { IsStillOwned self.old.seen self.new.seen }
        ensures that { Sees [] 0 sender.old sender.new }
        ensures own { own sender.old.number sender.new.seen ≡ own sender.old.number sender.old.seen }
        ensures layout { sender.old.layout ≡ self.old.layout }
        ensures both { sender.new.seen ≡ self.new.seen }
    {
        self.seat.chair.meet(&mut sender.chair);
    }
}

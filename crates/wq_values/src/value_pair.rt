//! An owner and a sender of one queue in one seat, where items bring values.
ghost use Rattle.std.specs.Prelude.{◌≡◌, ◌≢◌, ℕ, ◌+◌, ◌<◌, ◌≤◌, ◌↔◌, false, [], ◌∷◌, ◌++◌, Some, IsTrue, length, slice_get};
ghost use mathlib.Core.List.{IsPrefix};
ghost use Rattle.wq_words.specs.declared.answer.Answer.TheVariants.{Contended};
ghost use Rattle.wq_words.specs.declared.event.Event.TheVariants.{Take, Close, Drain, Resume, Begin, End};
ghost use Rattle.wq_words.specs.Numbers.{number_count};
ghost use Rattle.wq_words.specs.History.{IsClosed, IsShut, IsDraining, closed, IsRunning, running, accepted, begun, ended};
ghost use Rattle.wq_words.specs.Legal.{IsLegal, HasRunOut};
ghost use Rattle.wq_words.specs.Headline.{KeepsHeadline};
ghost use Rattle.wq_words.specs.Valued.{Carries, IsLegalWith, with_values};
ghost use Rattle.wq_words.specs.Seen.{own, owner_seat};
ghost use Rattle.wq_calls.specs.OwnBrought.{own_brought};
ghost use Rattle.wq_calls.specs.Known.{Sees};
ghost use Rattle.wq_calls.specs.Answers.{Answers, Chains, IsContended};
ghost use Rattle.wq_calls.specs.Batch.{batch, next_of, TakesAll};
ghost use Rattle.wq_calls.specs.Counts.{owner_counts, sender_counts};
ghost use Rattle.wq_calls.specs.Rest.{Rests, HasRested, MayNotRest};
ghost use Rattle.wq_calls.specs.Laws.{queued_number, IsStillOwned};
ghost use Rattle.wq_calls.specs.KnownWith.{Learnt, handed_in, answer_of, BringsOrReturns, ChainsOrReturns, MatchesAccepted};
ghost use Rattle.wq_calls.specs.Pairs.{pair_owner, pair_sender};
ghost use Rattle.wq_values.specs.ValuePairs.{owner_of, sender_of};

use crate::value_owner::ValueOwner;
use crate::value_sender::ValueSender;
use std::marker::Model;
use wq_calls::{OwnerCounts, OwnerSeat, SenderCounts, Sent, Spins, ValueAnswer, queue_value};
use wq_table::Second;
use wq_words::Layout;

/// An owner and a sender of one queue in one seat, as `Pair`, where items bring values: a step of either is seen by both, so they
/// need no meeting. It may be moved to another thread where its values may. No call takes a lock or memory, or waits.
#[derive(Drop)]
pub struct ValuePair<V: Drop> {
    pub(crate) seat: OwnerSeat<V>,
    pub(crate) sent: Sent,
}

impl<V: Drop> Model for ValuePair<V> {
    ghost use Rattle.wq_values.specs.ValuePairs.{KnownValuePair};

    ghost Value = { KnownValuePair V };

    ghost use Rattle.wq_values.specs.ValuePairs.{value_pair_view, IsValuePair};

    ghost view = { value_pair_view };

    ghost invariant = { IsValuePair };
}

impl<V: Drop> ValuePair<V> {
    /// An owner and a sender become one seat, which has seen one history that goes on from what each had seen, and knows what
    /// was brought.
    pub fn join(owner: ValueOwner<V>, sender: ValueSender<V>) -> ValuePair<V>
        requires one { sender.known.queue ≡ owner.known.queue }
        ensures owner { Sees [] 0 owner.known (pair_owner result.known) }
        ensures sender { Sees [] 0 sender.known (pair_sender result.known) }
        ensures owned { IsStillOwned owner.known.seen result.known.seen }
        ensures learnt { Learnt owner (owner_of result) × Learnt sender (sender_of result) }
        ensures handed { handed_in (owner_of result) ≡ handed_in owner }
        ensures low { result.known.number < result.known.layout.senders }
    {
        let ValueOwner { seat } = owner;
        let ValueSender { chair, sent } = sender;
        ValuePair {
            seat: OwnerSeat {
                chair: seat.chair.join(chair),
                ..seat
            },
            sent,
        }
    }

    /// How long its sender gives way after a lost exchange, between the tries of one call: a call of one try gives no way.
    pub fn set_spins(&mut self, spins: Spins)
        ensures same { self.new ≡ self.old }
    {
        self.sent.spins = spins;
    }

    /// The owner and the sender, each in a seat of its own again.
    pub fn split(self) -> (ValueOwner<V>, ValueSender<V>)
        ensures owner { result.0 ≡ owner_of self }
        ensures sender { result.1 ≡ sender_of self }
    {
        let ValuePair { seat, sent } = self;
        let (first, second) = seat.chair.split();
        let owner = ValueOwner {
            seat: OwnerSeat {
                chair: first,
                ..seat
            },
        };
        let sender = ValueSender {
            chair: second,
            sent,
        };
        (owner, sender)
    }

    /// The size of its queue.
    pub fn layout(&self) -> Layout
        ensures layout { result ≡ self.now.known.layout }
        ensures legal { IsLegal self.now.known.layout self.now.known.seen }
    {
        self.seat.layout
    }

    /// What it has seen is a legal history of its queue, so it keeps the headline: what was accepted is executed in its
    /// order, once at most, and one at a time. Each accepted item brought a value, no other number did, and the values in
    /// the order of the pushes are those in the order of the executions; that an execution was handed that very value is
    /// said by `begin`.
    pub fn legal(&self)
        ensures legal { IsLegal self.now.known.layout self.now.known.seen }
        ensures headline { KeepsHeadline self.now.known.seen }
        ensures values { IsLegalWith self.now.known.layout (with_values self.now.known.seen self.now.brought) }
        ensures matches { MatchesAccepted (owner_of self.now) }
        ensures low { self.now.known.number < self.now.known.layout.senders }
    {
        // opens the seat, whose invariant says this
        let _ = &self.sent;
    }

    /// Whether its owner has closed the queue.
    pub fn is_closed(&self) -> bool
        ensures closed { result ≡ closed self.now.known.seen }
    {
        self.seat.is_closed()
    }

    /// As `ValueOwner::is_draining`.
    pub fn is_draining(&self) -> bool
        ensures draining { IsTrue result ↔ IsDraining self.now.known.seen }
        ensures else_open { result ≡ false → ¬ IsClosed self.now.known.seen → ¬ IsShut self.now.known.seen }
    {
        self.seat.is_draining()
    }

    /// As `ValueOwner::drained`.
    pub fn drained(&self) -> bool
        ensures drained { IsTrue result ↔ (IsDraining self.now.known.seen × HasRunOut self.now.known.seen) }
        ensures all { IsTrue result → (ended self.now.known.seen ≡ begun self.now.known.seen)
            × (begun self.now.known.seen ≡ accepted self.now.known.seen) }
        ensures resumable { IsTrue result → (batch self.now.known.seen ≡ []) × (¬ IsRunning self.now.known.seen) }
        ensures finished { IsDraining self.now.known.seen → batch self.now.known.seen ≡ [] → ¬ IsRunning self.now.known.seen → IsTrue result }
    {
        self.seat.drained()
    }

    /// The number that runs.
    pub fn running(&self) -> Option<u32>
        ensures runs { result ≡ running self.now.known.seen }
    {
        self.seat.running
    }

    /// What its owner has counted.
    pub fn owner_counts(&self) -> OwnerCounts
        ensures counted { result ≡ owner_counts self.now.known.seen }
    {
        self.seat.counts
    }

    /// What its sender has counted.
    pub fn sender_counts(&self) -> SenderCounts
        ensures counted { result ≡ sender_counts self.now.known.number self.now.known.seen }
    {
        self.sent.counts
    }

    /// As `ValueOwner::take`: the owner's events, and none of the sender's.
    pub fn take(&mut self) -> u32
        requires open { ¬ IsShut self.old.known.seen }
        requires empty { batch self.old.known.seen ≡ [] }
        ensures seen { Sees (Take ∷ []) 0 (pair_owner self.old.known) (pair_owner self.new.known) }
        ensures unqueued { accepted (own owner_seat self.new.known.seen) ≡ accepted (own owner_seat self.old.known.seen) }
        ensures executions { (begun self.new.known.seen ≡ begun self.old.known.seen) × (ended self.new.known.seen ≡ ended self.old.known.seen) }
        ensures learnt { Learnt (owner_of self.old) (owner_of self.new) }
        ensures handed { handed_in (owner_of self.new) ≡ handed_in (owner_of self.old) }
        ensures takes { TakesAll Take result self.new.known.seen }
        ensures count { result ≡ length (batch self.new.known.seen) }
        ensures open { ¬ IsShut self.new.known.seen }
        ensures unclosed { ¬ IsClosed self.new.known.seen }
        ensures idle { ¬ IsRunning self.old.known.seen → ¬ IsRunning self.new.known.seen }
        ensures runs { IsRunning self.old.known.seen → IsRunning self.new.known.seen }
        ensures others { Sees [] 0 (pair_sender self.old.known) (pair_sender self.new.known) }
    {
        self.seat.take()
    }

    /// As `ValueOwner::close`: the owner's events, and none of the sender's.
    pub fn close(&mut self) -> u32
        requires unclosed { ¬ IsClosed self.old.known.seen }
        ensures seen { Sees (Close ∷ []) 0 (pair_owner self.old.known) (pair_owner self.new.known) }
        ensures unqueued { accepted (own owner_seat self.new.known.seen) ≡ accepted (own owner_seat self.old.known.seen) }
        ensures executions { (begun self.new.known.seen ≡ begun self.old.known.seen) × (ended self.new.known.seen ≡ ended self.old.known.seen) }
        ensures learnt { Learnt (owner_of self.old) (owner_of self.new) }
        ensures handed { handed_in (owner_of self.new) ≡ handed_in (owner_of self.old) }
        ensures takes { TakesAll Close result self.new.known.seen }
        ensures behind { IsPrefix (batch self.old.known.seen) (batch self.new.known.seen) }
        ensures count { length (batch self.new.known.seen) ≡ length (batch self.old.known.seen) + result }
        ensures closed { IsClosed self.new.known.seen }
        ensures shut { IsShut self.new.known.seen }
        ensures idle { ¬ IsRunning self.old.known.seen → ¬ IsRunning self.new.known.seen }
        ensures runs { IsRunning self.old.known.seen → IsRunning self.new.known.seen }
        ensures others { Sees [] 0 (pair_sender self.old.known) (pair_sender self.new.known) }
    {
        self.seat.close()
    }

    /// As `ValueOwner::drain`: the owner's events, and none of the sender's.
    pub fn drain(&mut self) -> u32
        requires open { ¬ IsShut self.old.known.seen }
        ensures seen { Sees (Drain ∷ []) 0 (pair_owner self.old.known) (pair_owner self.new.known) }
        ensures unqueued { accepted (own owner_seat self.new.known.seen) ≡ accepted (own owner_seat self.old.known.seen) }
        ensures executions { (begun self.new.known.seen ≡ begun self.old.known.seen) × (ended self.new.known.seen ≡ ended self.old.known.seen) }
        ensures learnt { Learnt (owner_of self.old) (owner_of self.new) }
        ensures handed { handed_in (owner_of self.new) ≡ handed_in (owner_of self.old) }
        ensures takes { TakesAll Drain result self.new.known.seen }
        ensures behind { IsPrefix (batch self.old.known.seen) (batch self.new.known.seen) }
        ensures count { length (batch self.new.known.seen) ≡ length (batch self.old.known.seen) + result }
        ensures draining { IsDraining self.new.known.seen }
        ensures shut { IsShut self.new.known.seen }
        ensures unclosed { ¬ IsClosed self.new.known.seen }
        ensures idle { ¬ IsRunning self.old.known.seen → ¬ IsRunning self.new.known.seen }
        ensures runs { IsRunning self.old.known.seen → IsRunning self.new.known.seen }
        ensures others { Sees [] 0 (pair_sender self.old.known) (pair_sender self.new.known) }
    {
        self.seat.drain()
    }

    /// As `ValueOwner::resume`: the owner's events, and none of the sender's.
    pub fn resume(&mut self)
        requires draining { IsDraining self.old.known.seen }
        requires empty { batch self.old.known.seen ≡ [] }
        requires idle { ¬ IsRunning self.old.known.seen }
        ensures seen { Sees (Resume ∷ []) 0 (pair_owner self.old.known) (pair_owner self.new.known) }
        ensures unqueued { accepted (own owner_seat self.new.known.seen) ≡ accepted (own owner_seat self.old.known.seen) }
        ensures executions { (begun self.new.known.seen ≡ begun self.old.known.seen) × (ended self.new.known.seen ≡ ended self.old.known.seen) }
        ensures learnt { Learnt (owner_of self.old) (owner_of self.new) }
        ensures handed { handed_in (owner_of self.new) ≡ handed_in (owner_of self.old) }
        ensures open { ¬ IsShut self.new.known.seen }
        ensures unclosed { ¬ IsClosed self.new.known.seen }
        ensures empty { batch self.new.known.seen ≡ [] }
        ensures idle { ¬ IsRunning self.new.known.seen }
        ensures others { Sees [] 0 (pair_sender self.old.known) (pair_sender self.new.known) }
    {
        self.seat.resume();
    }

    /// As `ValueOwner::next`.
    pub fn next(&self) -> Option<u32>
        ensures first { result ≡ next_of self.now.known.seen }
    {
        self.seat.next()
    }

    /// As `ValueOwner::waiting`.
    pub fn waiting(&self) -> u32
        ensures count { result ≡ length (batch self.now.known.seen) }
        ensures few { result ≤ number_count self.now.known.layout }
    {
        self.seat.waiting()
    }

    /// As `ValueOwner::begin`: the owner's events, and none of the sender's.
    pub fn begin(&mut self) -> (u32, Option<V>)
        requires waits { batch self.old.known.seen ≢ [] }
        requires idle { ¬ IsRunning self.old.known.seen }
        ensures next { next_of self.old.known.seen ≡ Some result.0 }
        ensures seen { Sees (Begin result.0 ∷ []) 0 (pair_owner self.old.known) (pair_owner self.new.known) }
        ensures unqueued { accepted (own owner_seat self.new.known.seen) ≡ accepted (own owner_seat self.old.known.seen) }
        ensures executions { (begun self.new.known.seen ≡ begun self.old.known.seen ++ result.0 ∷ [])
            × (ended self.new.known.seen ≡ ended self.old.known.seen) }
        ensures learnt { Learnt (owner_of self.old) (owner_of self.new) }
        ensures handed { handed_in (owner_of self.new) ≡ handed_in (owner_of self.old) ++ result.1 ∷ [] }
        ensures batch { batch self.old.known.seen ≡ result.0 ∷ batch self.new.known.seen }
        ensures value { slice_get self.new.brought (length (begun self.old.known.seen)) ≡ Some result.1 }
        ensures kind { Carries self.old.known.layout.items result.0 result.1 }
        ensures runs { IsRunning self.new.known.seen }
        ensures running { running self.new.known.seen ≡ Some result.0 }
        ensures shut { IsShut self.old.known.seen → IsShut self.new.known.seen }
        ensures closed { IsClosed self.old.known.seen → IsClosed self.new.known.seen }
        ensures open { ¬ IsShut self.old.known.seen → ¬ IsShut self.new.known.seen }
        ensures unclosed { ¬ IsClosed self.old.known.seen → ¬ IsClosed self.new.known.seen }
        ensures others { Sees [] 0 (pair_sender self.old.known) (pair_sender self.new.known) }
    {
        self.seat.begin_value()
    }

    /// As `ValueOwner::end`: the owner's events, and none of the sender's.
    pub fn end(&mut self)
        requires runs { IsRunning self.old.known.seen }
        ensures seen { (k : ℕ) → running self.old.known.seen ≡ Some k → Sees (End k ∷ []) 0 (pair_owner self.old.known) (pair_owner self.new.known) }
        ensures unqueued { accepted (own owner_seat self.new.known.seen) ≡ accepted (own owner_seat self.old.known.seen) }
        ensures executions { (begun self.new.known.seen ≡ begun self.old.known.seen)
            × ((k : ℕ) → running self.old.known.seen ≡ Some k → ended self.new.known.seen ≡ ended self.old.known.seen ++ k ∷ []) }
        ensures learnt { Learnt (owner_of self.old) (owner_of self.new) }
        ensures handed { handed_in (owner_of self.new) ≡ handed_in (owner_of self.old) }
        ensures batch { batch self.new.known.seen ≡ batch self.old.known.seen }
        ensures idle { ¬ IsRunning self.new.known.seen }
        ensures shut { IsShut self.old.known.seen → IsShut self.new.known.seen }
        ensures closed { IsClosed self.old.known.seen → IsClosed self.new.known.seen }
        ensures open { ¬ IsShut self.old.known.seen → ¬ IsShut self.new.known.seen }
        ensures unclosed { ¬ IsClosed self.old.known.seen → ¬ IsClosed self.new.known.seen }
        ensures others { Sees [] 0 (pair_sender self.old.known) (pair_sender self.new.known) }
    {
        self.seat.end();
    }

    /// As `ValueOwner::rest`: the owner's events, and none of the sender's.
    pub fn rest(&mut self) -> bool
        requires open { ¬ IsShut self.old.known.seen }
        requires empty { batch self.old.known.seen ≡ [] }
        requires idle { ¬ IsRunning self.old.known.seen }
        ensures seen { Rests result (pair_owner self.old.known) (pair_owner self.new.known) }
        ensures unqueued { accepted (own owner_seat self.new.known.seen) ≡ accepted (own owner_seat self.old.known.seen) }
        ensures executions { (begun self.new.known.seen ≡ begun self.old.known.seen) × (ended self.new.known.seen ≡ ended self.old.known.seen) }
        ensures learnt { Learnt (owner_of self.old) (owner_of self.new) }
        ensures handed { handed_in (owner_of self.new) ≡ handed_in (owner_of self.old) }
        ensures rested { IsTrue result → HasRested self.new.known.seen }
        ensures refused { result ≡ false → MayNotRest self.new.known.seen }
        ensures open { ¬ IsShut self.new.known.seen }
        ensures unclosed { ¬ IsClosed self.new.known.seen }
        ensures empty { batch self.new.known.seen ≡ [] }
        ensures idle { ¬ IsRunning self.new.known.seen }
        ensures others { Sees [] 0 (pair_sender self.old.known) (pair_sender self.new.known) }
    {
        self.seat.rest()
    }

    /// As `ValueOwner::chain_value`: the owner's events, and none of the sender's.
    pub fn chain_value(&mut self, item: u32, value: V) -> ValueAnswer<V>
        requires item { item < self.old.known.layout.items }
        requires shut { IsShut self.old.known.seen }
        requires runs { IsRunning self.old.known.seen }
        ensures answer { Chains item (answer_of result) (pair_owner self.old.known) (pair_owner self.new.known) }
        ensures value { ChainsOrReturns item value result (owner_of self.new) }
        ensures learnt { Learnt (owner_of self.old) (owner_of self.new) }
        ensures handed { handed_in (owner_of self.new) ≡ handed_in (owner_of self.old) }
        ensures batch { batch self.new.known.seen ≡ batch self.old.known.seen ++ queued_number item (answer_of result) }
        ensures executions { (begun self.new.known.seen ≡ begun self.old.known.seen) × (ended self.new.known.seen ≡ ended self.old.known.seen) }
        ensures running { running self.new.known.seen ≡ running self.old.known.seen }
        ensures shut { IsShut self.new.known.seen }
        ensures closed { IsClosed self.old.known.seen → IsClosed self.new.known.seen }
        ensures unclosed { ¬ IsClosed self.old.known.seen → ¬ IsClosed self.new.known.seen }
        ensures runs { IsRunning self.new.known.seen }
        ensures others { Sees [] 0 (pair_sender self.old.known) (pair_sender self.new.known) }
    {
        self.seat.chain_value(item, value)
    }

    /// As `ValueSender::queue_value`: the sender's events, and none of the owner's.
    pub fn queue_value(&mut self, item: u32, value: V, tries: u32) -> ValueAnswer<V>
        requires item { item < self.old.known.layout.items }
        requires tries { 0 < tries }
        ensures answer { Answers item tries (answer_of result) (pair_sender self.old.known) (pair_sender self.new.known) }
        ensures value { BringsOrReturns item value result (sender_of self.new) }
        ensures learnt { Learnt (owner_of self.old) (owner_of self.new) }
        ensures handed { handed_in (owner_of self.new) ≡ handed_in (owner_of self.old) }
        ensures contended { answer_of result ≡ Contended → IsContended self.old.known.number item tries self.new.known.seen }
        ensures others { Sees [] 0 (pair_owner self.old.known) (pair_owner self.new.known) }
        ensures owned { IsStillOwned self.old.known.seen self.new.known.seen }
    {
        queue_value::<V, Second>(&mut self.seat.chair, &mut self.sent, item, value, tries)
    }

    /// Afterwards both have seen one history, which goes on from what each had seen, and know what was brought in it.
    pub fn meet(&mut self, sender: &mut ValueSender<V>)
        requires one { sender.old.known.queue ≡ self.old.known.queue }
        ensures owner { Sees [] 0 (pair_owner self.old.known) (pair_owner self.new.known) }
        ensures sender { Sees [] 0 (pair_sender self.old.known) (pair_sender self.new.known) }
        ensures owned { IsStillOwned self.old.known.seen self.new.known.seen }
        ensures that { Sees [] 0 sender.old.known sender.new.known }
        ensures own { own sender.old.known.number sender.new.known.seen ≡ own sender.old.known.number sender.old.known.seen }
        ensures layout { sender.old.known.layout ≡ self.old.known.layout }
        ensures both { sender.new.known.seen ≡ self.new.known.seen }
        ensures brought { sender.new.brought ≡ self.new.brought }
        ensures learnt { Learnt (owner_of self.old) (owner_of self.new) }
        ensures handed { handed_in (owner_of self.new) ≡ handed_in (owner_of self.old) }
        ensures theirs { Learnt sender.old sender.new }
        ensures own_values { own_brought sender.old.known.number sender.new.known.seen sender.new.brought
            ≡ own_brought sender.old.known.number sender.old.known.seen sender.old.brought }
    {
        self.seat.chair.meet(&mut sender.chair);
    }
}

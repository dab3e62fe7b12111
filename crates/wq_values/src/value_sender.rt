//! A sender of a queue whose items bring values.
ghost use Rattle.std.specs.Prelude.{◌≡◌, ◌≢◌, ◌<◌, ◌≤◌, not, [], IsTrue};
ghost use mathlib.Core.List.{IsPrefix};
ghost use Rattle.wq_words.specs.History.{pending, accepted, ended};
ghost use Rattle.wq_words.specs.Numbers.{barrier_number, stop_number, number_count};
ghost use Rattle.wq_words.specs.Legal.{IsLegal, IsComplete};
ghost use Rattle.wq_words.specs.Headline.{KeepsHeadline};
ghost use Rattle.wq_words.specs.Valued.{IsLegalWith, with_values};
ghost use Rattle.wq_words.specs.Seen.{owner_seat, own};
ghost use Rattle.wq_words.specs.declared.answer.Answer.TheVariants.{Queued, Contended};
ghost use Rattle.wq_calls.specs.Known.{IsSame, Sees};
ghost use Rattle.wq_calls.specs.Answers.{Answers, IsContended, HasFlushed};
ghost use Rattle.wq_calls.specs.KnownWith.{Learnt, handed_in, answer_of, BringsOrReturns, BringsNothing, MatchesAccepted};
ghost use Rattle.wq_calls.specs.Counts.{sender_counts};
ghost use Rattle.wq_calls.specs.OwnBrought.{own_brought};
ghost use Rattle.wq_calls.specs.Laws.{IsStillEnd, IsStillOwned};

use crate::value_owner::ValueOwner;
use crossbeam_utils::Backoff;
use std::marker::Model;
use std::sync::Wait;
use wq_calls::{
    SenderCounts, Sent, Spins, ValueAnswer, queue_number, queue_value, queue_value_wait,
    queue_waiting,
};
use wq_table::{Chair, First};
use wq_words::{Answer, Layout};

/// A sender of a queue whose items bring values, as `Sender` is of a plain queue. It may be moved to another thread where its
/// values may. No call takes a lock or memory, and only `queue_value_wait` and `flush` may wait.
///
/// An item that is queued brings its value: the execution that it becomes is handed that value. A value that is not queued comes
/// back with the answer. Barriers and the stop item bring nothing. A clause sees by `brought` what each accepted number of the
/// history that it has seen brought, in their order.
#[derive(Drop)]
pub struct ValueSender<V> {
    pub(crate) chair: Chair<V>,
    pub(crate) sent: Sent,
}

impl<V> Model for ValueSender<V> {
    ghost use Rattle.wq_calls.specs.KnownWith.{KnownWith};

    ghost Value = { KnownWith V };

    ghost use Rattle.wq_calls.specs.Valued.{sender_with};
    ghost use Rattle.wq_values.specs.Alone.{SendsValues};

    ghost view = { λ s. sender_with 0 s.chair s.sent };

    ghost invariant = { SendsValues };
}

impl<V: Drop> ValueSender<V> {
    /// Its number, which counts from 0 in the order of `build_values`.
    pub fn number(&self) -> u32
        ensures seat { result ≡ self.now.known.number }
    {
        self.sent.number
    }

    /// The size of its queue.
    pub fn layout(&self) -> Layout
        ensures layout { result ≡ self.now.known.layout }
        ensures legal { IsLegal self.now.known.layout self.now.known.seen }
    {
        self.sent.layout
    }

    /// What it has seen is a legal history of its queue, so it keeps the headline: what was accepted is executed in its
    /// order, once at most, and one at a time. Each accepted item brought a value, no other number did, and the values in
    /// the order of the pushes are those in the order of the executions; that an execution was handed that very value is
    /// said by `begin`.
    pub fn legal(&self)
        ensures legal { IsLegal self.now.known.layout self.now.known.seen }
        ensures headline { KeepsHeadline self.now.known.seen }
        ensures values { IsLegalWith self.now.known.layout (with_values self.now.known.seen self.now.brought) }
        ensures matches { MatchesAccepted self.now }
        ensures low { self.now.known.number < self.now.known.layout.senders }
    {
        // opens the seat, whose invariant says this
        let _ = &self.sent.counts;
    }

    /// What it has counted of its own events.
    pub fn counts(&self) -> SenderCounts
        ensures counted { result ≡ sender_counts self.now.known.number self.now.known.seen }
    {
        self.sent.counts
    }

    /// How long it gives way after a lost exchange, between the tries of one call: a call of one try gives no way.
    pub fn set_spins(&mut self, spins: Spins)
        ensures same { self.new ≡ self.old }
    {
        self.sent.spins = spins;
    }

    // The PENDING bit of a number.
    fn is_number_pending(&mut self, number: u32) -> bool
        requires number { number < number_count self.old.known.layout }
        ensures seen { Sees [] 0 self.old.known self.new.known }
        ensures learnt { Learnt self.old self.new }
        ensures pending { result ≡ pending self.new.known.seen number }
    {
        self.chair.check::<First>(number) != 0
    }

    // Queues a number, with at most so many tries.
    fn queue_number(&mut self, number: u32, tries: u32) -> Answer
        requires number { number < number_count self.old.known.layout }
        requires bare { self.old.known.layout.items ≤ number }
        ensures answer { Answers number tries result self.old.known self.new.known }
        ensures learnt { Learnt self.old self.new }
        ensures nothing { BringsNothing number result self.new }
        ensures contended { result ≡ Contended → IsContended self.old.known.number number tries self.new.known.seen }
    {
        queue_number::<V, First>(&mut self.chair, &mut self.sent, number, tries)
    }

    // Queues a number, and tries until no other seat changes the list meanwhile. The number is held between the tries.
    fn queue_waiting<R: Wait>(&mut self, rt: &R, number: u32) -> Answer
        requires number { number < number_count self.old.known.layout }
        requires bare { self.old.known.layout.items ≤ number }
        ensures answer { Answers number 0 result self.old.known self.new.known }
        ensures learnt { Learnt self.old self.new }
        ensures nothing { BringsNothing number result self.new }
        ensures settled { result ≢ Contended }
    {
        queue_waiting::<R, V, First>(rt, &mut self.chair, &mut self.sent, number)
    }

    /// Queues an item with a value, with at most so many tries to push it (`queue_work`). With any answer but `Queued` the value
    /// comes back. `Contended` is answered only after as many events of other seats since it held the item.
    pub fn queue_value(&mut self, item: u32, value: V, tries: u32) -> ValueAnswer<V>
        requires item { item < self.old.known.layout.items }
        requires tries { 0 < tries }
        ensures answer { Answers item tries (answer_of result) self.old.known self.new.known }
        ensures value { BringsOrReturns item value result self.new }
        ensures learnt { Learnt self.old self.new }
        ensures contended { answer_of result ≡ Contended → IsContended self.old.known.number item tries self.new.known.seen }
        ensures same { IsSame self.old.known self.new.known }
    {
        queue_value::<V, First>(&mut self.chair, &mut self.sent, item, value, tries)
    }

    /// Queues an item with a value, and tries until no other seat changes the list meanwhile (`queue_work`). With any answer but
    /// `Queued` the value comes back. Never `Contended`.
    pub fn queue_value_wait<R: Wait>(&mut self, rt: &R, item: u32, value: V) -> ValueAnswer<V>
        requires item { item < self.old.known.layout.items }
        ensures answer { Answers item 0 (answer_of result) self.old.known self.new.known }
        ensures value { BringsOrReturns item value result self.new }
        ensures learnt { Learnt self.old self.new }
        ensures same { IsSame self.old.known self.new.known }
        ensures settled { answer_of result ≢ Contended }
    {
        queue_value_wait::<R, V, First>(rt, &mut self.chair, &mut self.sent, item, value)
    }

    /// The item's PENDING bit (`work_pending`).
    pub fn is_pending(&mut self, item: u32) -> bool
        requires item { item < self.old.known.layout.items }
        ensures seen { Sees [] 0 self.old.known self.new.known }
        ensures learnt { Learnt self.old self.new }
        ensures own_values { own_brought self.old.known.number self.new.known.seen self.new.brought
            ≡ own_brought self.old.known.number self.old.known.seen self.old.brought }
        ensures pending { result ≡ pending self.new.known.seen item }
        ensures same { IsSame self.old.known self.new.known }
    {
        self.is_number_pending(item)
    }

    /// Queues a barrier, the first half of `flush_workqueue`, with at most so many tries. Barriers count from 0.
    pub fn flush_begin(&mut self, barrier: u32, tries: u32) -> Answer
        requires barrier { barrier < self.old.known.layout.barriers }
        requires tries { 0 < tries }
        ensures answer { Answers (barrier_number self.old.known.layout barrier) tries result self.old.known self.new.known }
        ensures learnt { Learnt self.old self.new }
        ensures nothing { BringsNothing (barrier_number self.old.known.layout barrier) result self.new }
        ensures contended { result ≡ Contended → IsContended self.old.known.number (barrier_number self.old.known.layout barrier) tries self.new.known.seen }
        ensures same { IsSame self.old.known self.new.known }
    {
        let number = self.sent.layout.barrier(barrier);
        self.queue_number(number, tries)
    }

    /// Whether the barrier's PENDING bit is clear. All that was accepted before a push of the barrier has then ended. Of a flush
    /// that `flush_begin` began it tells where that was answered `Queued`; after another answer nothing was waited for.
    pub fn flush_done(&mut self, barrier: u32) -> bool
        requires barrier { barrier < self.old.known.layout.barriers }
        ensures seen { Sees [] 0 self.old.known self.new.known }
        ensures learnt { Learnt self.old self.new }
        ensures own_values { own_brought self.old.known.number self.new.known.seen self.new.brought
            ≡ own_brought self.old.known.number self.old.known.seen self.old.brought }
        ensures clear { result ≡ not (pending self.new.known.seen (barrier_number self.old.known.layout barrier)) }
        ensures flushed { IsTrue result → HasFlushed (barrier_number self.old.known.layout barrier) self.new.known.seen }
    {
        let number = self.sent.layout.barrier(barrier);
        !self.is_number_pending(number)
    }

    /// Queues a barrier, and waits until all that was accepted before it has ended (`flush_workqueue`). Never
    /// `Contended`; after another answer than `Queued` it has waited for nothing.
    ///
    /// It wakes nobody, since it answers once the barrier has run: beside an owner that parks, and on a queue in a pool, it would
    /// wait for good. There, call `flush_begin`, wake whoever executes by its answer (one that rests before it parks on `wakes`,
    /// one that serves by `serve` of `wq_value_worker` on `first`, a pool by its `wake`), and wait by `flush_done`. Within an
    /// execution it would wait for that itself. A barrier behind the stop item waits until the queue is run on after it. Where
    /// another sender queues the barrier again before this one has seen its bit clear, it waits for that one, too: a thread that
    /// flushes wants a barrier of its own.
    pub fn flush<R: Wait>(&mut self, rt: &R, barrier: u32) -> Answer
        requires barrier { barrier < self.old.known.layout.barriers }
        ensures answer { Answers (barrier_number self.old.known.layout barrier) 0 result self.old.known self.new.known }
        ensures learnt { Learnt self.old self.new }
        ensures nothing { BringsNothing (barrier_number self.old.known.layout barrier) result self.new }
        ensures same { IsSame self.old.known self.new.known }
        ensures settled { result ≢ Contended }
        ensures flushed { (first wakes : _) → result ≡ Queued first wakes → HasFlushed (barrier_number self.old.known.layout barrier) self.new.known.seen }
        ensures ended { (first wakes : _) → result ≡ Queued first wakes → IsPrefix (accepted self.old.known.seen) (ended self.new.known.seen) }
    {
        let number = self.sent.layout.barrier(barrier);
        match self.queue_waiting(rt, number) {
            Answer::Queued { first, wakes } => {
                let backoff = Backoff::new();
                for _ in rt.forever() {
                    if self.flush_done(barrier) {
                        return Answer::Queued { first, wakes };
                    }
                    backoff.snooze();
                }
                unreachable!()
            }
            answer => answer,
        }
    }

    /// Queues the stop item, which has the last number of the queue, with at most so many tries.
    pub fn request_stop(&mut self, tries: u32) -> Answer
        requires tries { 0 < tries }
        ensures answer { Answers (stop_number self.old.known.layout) tries result self.old.known self.new.known }
        ensures learnt { Learnt self.old self.new }
        ensures nothing { BringsNothing (stop_number self.old.known.layout) result self.new }
        ensures contended { result ≡ Contended → IsContended self.old.known.number (stop_number self.old.known.layout) tries self.new.known.seen }
        ensures same { IsSame self.old.known self.new.known }
    {
        let stop = self.sent.layout.stop();
        self.queue_number(stop, tries)
    }

    /// Afterwards both have seen one history, which goes on from what each had seen, and know what was brought in it.
    pub fn meet(&mut self, other: &mut ValueSender<V>)
        requires { self.old.known.queue ≡ other.old.known.queue }
        ensures this { Sees [] 0 self.old.known self.new.known }
        ensures that { Sees [] 0 other.old.known other.new.known }
        ensures own { (own self.old.known.number self.new.known.seen ≡ own self.old.known.number self.old.known.seen)
            × (own other.old.known.number other.new.known.seen ≡ own other.old.known.number other.old.known.seen) }
        ensures both { other.new.known.seen ≡ self.new.known.seen }
        ensures brought { other.new.brought ≡ self.new.brought }
        ensures learnt { Learnt self.old self.new }
        ensures theirs { Learnt other.old other.new }
        ensures own_values { (own_brought self.old.known.number self.new.known.seen self.new.brought
            ≡ own_brought self.old.known.number self.old.known.seen self.old.brought)
            × (own_brought other.old.known.number other.new.known.seen other.new.brought
            ≡ own_brought other.old.known.number other.old.known.seen other.old.brought) }
        ensures layout { other.old.known.layout ≡ self.old.known.layout }
    {
        self.chair.meet(&mut other.chair);
    }

    /// Afterwards both have seen one history, which goes on from what each had seen, and know what was brought in it.
    pub fn meet_owner(&mut self, owner: &mut ValueOwner<V>)
        requires { self.old.known.queue ≡ owner.old.known.queue }
        ensures this { Sees [] 0 self.old.known self.new.known }
        ensures that { Sees [] 0 owner.old.known owner.new.known }
        ensures own { (own self.old.known.number self.new.known.seen ≡ own self.old.known.number self.old.known.seen)
            × (own owner.old.known.number owner.new.known.seen ≡ own owner.old.known.number owner.old.known.seen) }
        ensures owned { IsStillOwned owner.old.known.seen owner.new.known.seen }
        ensures both { owner.new.known.seen ≡ self.new.known.seen }
        ensures brought { owner.new.brought ≡ self.new.brought }
        ensures learnt { Learnt self.old self.new }
        ensures theirs { Learnt owner.old owner.new }
        ensures own_values { (own_brought self.old.known.number self.new.known.seen self.new.brought
            ≡ own_brought self.old.known.number self.old.known.seen self.old.brought)
            × (own_brought owner.old.known.number owner.new.known.seen owner.new.brought
            ≡ own_brought owner.old.known.number owner.old.known.seen owner.old.brought) }
        ensures layout { owner.old.known.layout ≡ self.old.known.layout }
        ensures number { self.old.known.number < self.old.known.layout.senders }
        ensures seat { owner.old.known.number ≡ owner_seat }
        ensures handed { handed_in owner.new ≡ handed_in owner.old }
        ensures end { IsComplete owner.old.known.seen → owner.new.brought ≡ owner.old.brought }
        ensures last { IsComplete owner.old.known.seen → IsStillEnd owner.old.known.seen owner.new.known.seen }
    {
        // the owner's first: all others may have no slots in hand
        owner.seat.chair.meet(&mut self.chair);
    }

    /// Afterwards all three have seen one history, which goes on from what each had seen, and know what was brought in it.
    pub fn meet_both(&mut self, other: &mut ValueSender<V>, owner: &mut ValueOwner<V>)
        requires sender { self.old.known.queue ≡ other.old.known.queue }
        requires owner { self.old.known.queue ≡ owner.old.known.queue }
        ensures this { Sees [] 0 self.old.known self.new.known }
        ensures that { Sees [] 0 other.old.known other.new.known }
        ensures owners { Sees [] 0 owner.old.known owner.new.known }
        ensures own { (own self.old.known.number self.new.known.seen ≡ own self.old.known.number self.old.known.seen)
            × (own other.old.known.number other.new.known.seen ≡ own other.old.known.number other.old.known.seen)
            × (own owner.old.known.number owner.new.known.seen ≡ own owner.old.known.number owner.old.known.seen) }
        ensures owned { IsStillOwned owner.old.known.seen owner.new.known.seen }
        ensures all { (other.new.known.seen ≡ self.new.known.seen) × (owner.new.known.seen ≡ self.new.known.seen) }
        ensures brought { (other.new.brought ≡ self.new.brought) × (owner.new.brought ≡ self.new.brought) }
        ensures learnt { Learnt self.old self.new }
        ensures theirs { Learnt other.old other.new × Learnt owner.old owner.new }
        ensures own_values { (own_brought self.old.known.number self.new.known.seen self.new.brought
            ≡ own_brought self.old.known.number self.old.known.seen self.old.brought)
            × (own_brought other.old.known.number other.new.known.seen other.new.brought
            ≡ own_brought other.old.known.number other.old.known.seen other.old.brought)
            × (own_brought owner.old.known.number owner.new.known.seen owner.new.brought
            ≡ own_brought owner.old.known.number owner.old.known.seen owner.old.brought) }
        ensures layout { (other.old.known.layout ≡ self.old.known.layout) × (owner.old.known.layout ≡ self.old.known.layout) }
        ensures handed { handed_in owner.new ≡ handed_in owner.old }
        ensures end { IsComplete owner.old.known.seen → owner.new.brought ≡ owner.old.brought }
        ensures last { IsComplete owner.old.known.seen → IsStillEnd owner.old.known.seen owner.new.known.seen }
    {
        // the owner's first: all others may have no slots in hand
        owner
            .seat
            .chair
            .meet_both(&mut self.chair, &mut other.chair);
    }
}

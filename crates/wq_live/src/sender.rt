//! A sender of a queue.
ghost use Rattle.std.specs.Prelude.{◌≡◌, ◌≢◌, ℕ, ◌<◌, false, not, [], ◌∷◌, IsTrue};
ghost use Rattle.wq_words.specs.declared.event.Event.TheVariants.{Back};
ghost use Rattle.wq_words.specs.declared.event.Why.TheVariants as why;
ghost use mathlib.Core.List.{IsPrefix};
ghost use Rattle.wq_words.specs.History.{pending, Holds, accepted, ended};
ghost use Rattle.wq_words.specs.Numbers.{barrier_number, stop_number, number_count};
ghost use Rattle.wq_words.specs.Legal.{IsLegal, IsComplete};
ghost use Rattle.wq_words.specs.Headline.{KeepsHeadline};
ghost use Rattle.wq_words.specs.Seen.{owner_seat, own};
ghost use Rattle.wq_words.specs.declared.answer.Answer.TheVariants.{Queued, Contended};
ghost use Rattle.wq_words.specs.declared.answer.Posted.TheVariants as posted;
ghost use Rattle.wq_calls.specs.Known.{IsSame, Sees};
ghost use Rattle.wq_calls.specs.Answers.{TestsAndSets, Answers, Posts, IsContended, HasFlushed};
ghost use Rattle.wq_calls.specs.Counts.{sender_counts};
ghost use Rattle.wq_calls.specs.Laws.{IsStillEnd, IsStillOwned};

use crate::bare::Bare;
use crate::owner::Owner;
use crossbeam_utils::Backoff;
use std::marker::Model;
use std::sync::Wait;
use wq_calls::{
    SenderCounts, Sent, Spins, find_closed, hold_number, queue_number, queue_waiting, try_tries,
};
use wq_table::{Chair, First};
use wq_words::{Answer, Layout, Posted};

/// A sender of a queue. It may be moved to another thread. No call takes a lock or memory, and only `queue` and `flush`
/// may wait.
///
/// An answer `Queued` says whether to wake the owner: one that rests before it parks (`Owner::rest`) on `wakes`, once a rest,
/// and one that serves by `serve` of `wq_worker` on `first`, once a take.
#[derive(Drop)]
pub struct Sender {
    pub(crate) chair: Chair<Bare>,
    pub(crate) sent: Sent,
}

impl Model for Sender {
    ghost use Rattle.wq_calls.specs.Known.{Known};

    ghost Value = { Known };

    ghost use Rattle.wq_calls.specs.Sits.{sender_view, sending_in};
    ghost use Rattle.wq_live.specs.Alone.{SendsAlone};

    ghost view = { λ s. sender_view (sending_in 0 s.chair s.sent) };

    ghost invariant = { SendsAlone };
}

impl Sender {
    /// Its number, which counts from 0 in the order of `build`.
    pub fn number(&self) -> u32
        ensures seat { result ≡ self.now.number }
    {
        self.sent.number
    }

    /// The size of its queue.
    pub fn layout(&self) -> Layout
        ensures layout { result ≡ self.now.layout }
        ensures legal { IsLegal self.now.layout self.now.seen }
    {
        self.sent.layout
    }

    /// What it has seen is a legal history of its queue, so it keeps the headline: what was accepted is executed in its order,
    /// once at most, and one at a time.
    pub fn legal(&self)
        ensures legal { IsLegal self.now.layout self.now.seen }
        ensures headline { KeepsHeadline self.now.seen }
        ensures low { self.now.number < self.now.layout.senders }
    {
        // opens the seat, whose invariant says this
        let _ = &self.sent.counts;
    }

    /// What it has counted of its own events.
    pub fn counts(&self) -> SenderCounts
        ensures counted { result ≡ sender_counts self.now.number self.now.seen }
    {
        self.sent.counts
    }

    /// How long it gives way after a lost exchange, between the tries of one call: a call of one try gives no way.
    pub fn set_spins(&mut self, spins: Spins)
        ensures same { self.new ≡ self.old }
    {
        self.sent.spins = spins;
    }

    // Sets the PENDING bit of a number.
    fn hold_number(&mut self, number: u32) -> bool
        requires number { number < number_count self.old.layout }
        ensures seen { TestsAndSets number result self.old self.new }
    {
        hold_number::<Bare, First>(&mut self.chair, &mut self.sent, number)
    }

    // The PENDING bit of a number.
    fn is_number_pending(&mut self, number: u32) -> bool
        requires number { number < number_count self.old.layout }
        ensures seen { Sees [] 0 self.old self.new }
        ensures pending { result ≡ pending self.new.seen number }
    {
        self.chair.check::<First>(number) != 0
    }

    /// Clears the PENDING bit of an item that this sender holds.
    pub fn give_back(&mut self, item: u32)
        requires item { item < self.old.layout.items }
        requires held { Holds self.old.seen self.old.number item }
        ensures seen { Sees (Back self.old.number item why.Cancelled ∷ []) 0 self.old self.new }
        ensures unqueued { accepted (own self.new.number self.new.seen) ≡ accepted (own self.old.number self.old.seen) }
        ensures same { IsSame self.old self.new }
        ensures keeps { (k : ℕ) → k ≢ item → Holds self.old.seen self.old.number k → Holds self.new.seen self.new.number k }
        ensures gone { ¬ Holds self.new.seen self.new.number item }
        ensures unheld { (k : ℕ) → ¬ Holds self.old.seen self.old.number k → ¬ Holds self.new.seen self.new.number k }
    {
        self.chair.back_cancelled::<First>(item);
    }

    // Tries to push a number that this sender holds, so many times, and at least once. It spins between the tries.
    fn push_tries(&mut self, number: u32, tries: u32) -> Posted
        requires number { number < number_count self.old.layout }
        requires held { Holds self.old.seen self.old.number number }
        ensures { Posts number tries result self.old self.new }
    {
        match try_tries::<Bare, First>(&mut self.chair, &mut self.sent, number, tries) {
            Posted::Closed => {
                find_closed::<Bare, First>(&mut self.chair, &mut self.sent, number);
                Posted::Closed
            }
            posted => posted,
        }
    }

    // Queues a number, with at most so many tries.
    fn queue_number(&mut self, number: u32, tries: u32) -> Answer
        requires number { number < number_count self.old.layout }
        ensures answer { Answers number tries result self.old self.new }
        ensures keeps { (k : ℕ) → Holds self.old.seen self.old.number k → Holds self.new.seen self.new.number k }
        ensures contended { result ≡ Contended → IsContended self.old.number number tries self.new.seen }
    {
        queue_number::<Bare, First>(&mut self.chair, &mut self.sent, number, tries)
    }

    // Queues a number, and tries until no other seat changes the list meanwhile. The number is held between the tries.
    fn queue_waiting<R: Wait>(&mut self, rt: &R, number: u32) -> Answer
        requires number { number < number_count self.old.layout }
        ensures answer { Answers number 0 result self.old self.new }
        ensures keeps { (k : ℕ) → Holds self.old.seen self.old.number k → Holds self.new.seen self.new.number k }
        ensures settled { result ≢ Contended }
    {
        queue_waiting::<R, Bare, First>(rt, &mut self.chair, &mut self.sent, number)
    }

    /// Sets the item's PENDING bit (the test-and-set of `queue_work`). True where it was clear: the item is then held by
    /// this sender, until it is pushed or given back.
    pub fn hold(&mut self, item: u32) -> bool
        requires item { item < self.old.layout.items }
        ensures seen { TestsAndSets item result self.old self.new }
        ensures unqueued { accepted (own self.new.number self.new.seen) ≡ accepted (own self.old.number self.old.seen) }
        ensures same { IsSame self.old self.new }
        ensures held { IsTrue result → Holds self.new.seen self.new.number item }
        ensures keeps { (k : ℕ) → Holds self.old.seen self.old.number k → Holds self.new.seen self.new.number k }
        ensures unheld { (k : ℕ) → k ≢ item → ¬ Holds self.old.seen self.old.number k → ¬ Holds self.new.seen self.new.number k }
        ensures still_unheld { result ≡ false → (k : ℕ) → ¬ Holds self.old.seen self.old.number k → ¬ Holds self.new.seen self.new.number k }
    {
        self.hold_number(item)
    }

    /// Pushes an item that this sender holds, with at most so many tries (`llist_add`, which tries for as long as it
    /// takes). Where it answers `Contended` or `Draining` it has made no event that marks its start, so the events of other seats
    /// that are said to pay for the tries, and the drain, may be older than the call.
    pub fn post(&mut self, item: u32, tries: u32) -> Posted
        requires item { item < self.old.layout.items }
        requires tries { 0 < tries }
        requires held { Holds self.old.seen self.old.number item }
        ensures answer { Posts item tries result self.old self.new }
        ensures same { IsSame self.old self.new }
        ensures held { result ≡ posted.Contended → Holds self.new.seen self.new.number item }
        ensures still_held { result ≡ posted.Draining → Holds self.new.seen self.new.number item }
        ensures gone { result ≢ posted.Contended → result ≢ posted.Draining → ¬ Holds self.new.seen self.new.number item }
        ensures keeps { (k : ℕ) → k ≢ item → Holds self.old.seen self.old.number k → Holds self.new.seen self.new.number k }
        ensures unheld { (k : ℕ) → ¬ Holds self.old.seen self.old.number k → ¬ Holds self.new.seen self.new.number k }
    {
        self.push_tries(item, tries)
    }

    /// Queues an item, with at most so many tries to push it (`queue_work`). `Contended` is answered only after as many
    /// events of other seats since it held the item.
    pub fn queue_tries(&mut self, item: u32, tries: u32) -> Answer
        requires item { item < self.old.layout.items }
        requires tries { 0 < tries }
        ensures answer { Answers item tries result self.old self.new }
        ensures contended { result ≡ Contended → IsContended self.old.number item tries self.new.seen }
        ensures same { IsSame self.old self.new }
        ensures keeps { (k : ℕ) → Holds self.old.seen self.old.number k → Holds self.new.seen self.new.number k }
    {
        self.queue_number(item, tries)
    }

    /// Queues an item, and tries until no other seat changes the list meanwhile (`queue_work`). Never `Contended`.
    pub fn queue<R: Wait>(&mut self, rt: &R, item: u32) -> Answer
        requires item { item < self.old.layout.items }
        ensures answer { Answers item 0 result self.old self.new }
        ensures same { IsSame self.old self.new }
        ensures keeps { (k : ℕ) → Holds self.old.seen self.old.number k → Holds self.new.seen self.new.number k }
        ensures settled { result ≢ Contended }
    {
        self.queue_waiting(rt, item)
    }

    /// The item's PENDING bit (`work_pending`).
    pub fn is_pending(&mut self, item: u32) -> bool
        requires item { item < self.old.layout.items }
        ensures seen { Sees [] 0 self.old self.new }
        ensures pending { result ≡ pending self.new.seen item }
        ensures same { IsSame self.old self.new }
        ensures keeps { (k : ℕ) → Holds self.old.seen self.old.number k → Holds self.new.seen self.new.number k }
    {
        self.is_number_pending(item)
    }

    /// Queues a barrier, the first half of `flush_workqueue`, with at most so many tries. Barriers count from 0.
    pub fn flush_begin(&mut self, barrier: u32, tries: u32) -> Answer
        requires barrier { barrier < self.old.layout.barriers }
        requires tries { 0 < tries }
        ensures answer { Answers (barrier_number self.old.layout barrier) tries result self.old self.new }
        ensures contended { result ≡ Contended → IsContended self.old.number (barrier_number self.old.layout barrier) tries self.new.seen }
        ensures same { IsSame self.old self.new }
        ensures keeps { (k : ℕ) → Holds self.old.seen self.old.number k → Holds self.new.seen self.new.number k }
    {
        let number = self.sent.layout.barrier(barrier);
        self.queue_number(number, tries)
    }

    /// Whether the barrier's PENDING bit is clear. All that was accepted before a push of the barrier has then ended. Of a flush
    /// that `flush_begin` began it tells where that was answered `Queued`; after another answer nothing was waited for.
    pub fn flush_done(&mut self, barrier: u32) -> bool
        requires barrier { barrier < self.old.layout.barriers }
        ensures seen { Sees [] 0 self.old self.new }
        ensures keeps { (k : ℕ) → Holds self.old.seen self.old.number k → Holds self.new.seen self.new.number k }
        ensures clear { result ≡ not (pending self.new.seen (barrier_number self.old.layout barrier)) }
        ensures flushed { IsTrue result → HasFlushed (barrier_number self.old.layout barrier) self.new.seen }
    {
        let number = self.sent.layout.barrier(barrier);
        !self.is_number_pending(number)
    }

    /// Queues a barrier, and waits until all that was accepted before it has ended (`flush_workqueue`). Never
    /// `Contended`; after another answer than `Queued` it has waited for nothing.
    ///
    /// It wakes nobody, since it answers once the barrier has run: beside an owner that parks, and on a queue in a pool, it would
    /// wait for good. There, call `flush_begin`, wake whoever executes by its answer (one that rests before it parks on `wakes`,
    /// one that serves by `serve` of `wq_worker` on `first`, a pool by its `wake`), and wait by `flush_done`. Within an execution
    /// it would wait for that itself. A barrier behind the stop item waits until the queue is run on after it. Where another sender
    /// queues the barrier again before this one has seen its bit clear, it waits for that one, too: a thread that flushes wants a
    /// barrier of its own.
    pub fn flush<R: Wait>(&mut self, rt: &R, barrier: u32) -> Answer
        requires barrier { barrier < self.old.layout.barriers }
        ensures answer { Answers (barrier_number self.old.layout barrier) 0 result self.old self.new }
        ensures same { IsSame self.old self.new }
        ensures keeps { (k : ℕ) → Holds self.old.seen self.old.number k → Holds self.new.seen self.new.number k }
        ensures settled { result ≢ Contended }
        ensures flushed { (first wakes : _) → result ≡ Queued first wakes → HasFlushed (barrier_number self.old.layout barrier) self.new.seen }
        ensures ended { (first wakes : _) → result ≡ Queued first wakes → IsPrefix (accepted self.old.seen) (ended self.new.seen) }
    {
        let number = self.sent.layout.barrier(barrier);
        match self.queue_waiting(rt, number) {
            Answer::Queued { first, wakes } => {
                let backoff = Backoff::new();
                for _ in rt.forever() {
                    if self.flush_done(barrier) {
                        return Answer::Queued { first, wakes };
                    }
                    backoff.snooze();
                }
                unreachable!()
            }
            answer => answer,
        }
    }

    /// Queues the stop item, which has the last number of the queue, with at most so many tries.
    pub fn request_stop(&mut self, tries: u32) -> Answer
        requires tries { 0 < tries }
        ensures answer { Answers (stop_number self.old.layout) tries result self.old self.new }
        ensures contended { result ≡ Contended → IsContended self.old.number (stop_number self.old.layout) tries self.new.seen }
        ensures same { IsSame self.old self.new }
        ensures keeps { (k : ℕ) → Holds self.old.seen self.old.number k → Holds self.new.seen self.new.number k }
    {
        let stop = self.sent.layout.stop();
        self.queue_number(stop, tries)
    }

    /// Afterwards both have seen one history, which goes on from what each had seen.
    pub fn meet(&mut self, other: &mut Sender)
        requires { self.old.queue ≡ other.old.queue }
        ensures this { Sees [] 0 self.old self.new }
        ensures keeps { (k : ℕ) → Holds self.old.seen self.old.number k → Holds self.new.seen self.new.number k }
        ensures that { Sees [] 0 other.old other.new }
        ensures own { (own self.old.number self.new.seen ≡ own self.old.number self.old.seen)
            × (own other.old.number other.new.seen ≡ own other.old.number other.old.seen) }
        ensures both { other.new.seen ≡ self.new.seen }
        ensures layout { other.old.layout ≡ self.old.layout }
    {
        self.chair.meet(&mut other.chair);
    }

    /// Afterwards both have seen one history, which goes on from what each had seen.
    pub fn meet_owner(&mut self, owner: &mut Owner)
        requires { self.old.queue ≡ owner.old.queue }
        ensures this { Sees [] 0 self.old self.new }
        ensures keeps { (k : ℕ) → Holds self.old.seen self.old.number k → Holds self.new.seen self.new.number k }
        ensures that { Sees [] 0 owner.old owner.new }
        ensures own { (own self.old.number self.new.seen ≡ own self.old.number self.old.seen)
            × (own owner.old.number owner.new.seen ≡ own owner.old.number owner.old.seen) }
        ensures owned { IsStillOwned owner.old.seen owner.new.seen }
        ensures both { owner.new.seen ≡ self.new.seen }
        ensures layout { owner.old.layout ≡ self.old.layout }
        ensures number { self.old.number < self.old.layout.senders }
        ensures seat { owner.old.number ≡ owner_seat }
        ensures last { IsComplete owner.old.seen → IsStillEnd owner.old.seen owner.new.seen }
    {
        self.chair.meet(&mut owner.seat.chair);
    }

    /// Afterwards all three have seen one history, which goes on from what each had seen.
    pub fn meet_both(&mut self, other: &mut Sender, owner: &mut Owner)
        requires sender { self.old.queue ≡ other.old.queue }
        requires owner { self.old.queue ≡ owner.old.queue }
        ensures this { Sees [] 0 self.old self.new }
        ensures keeps { (k : ℕ) → Holds self.old.seen self.old.number k → Holds self.new.seen self.new.number k }
        ensures that { Sees [] 0 other.old other.new }
        ensures owners { Sees [] 0 owner.old owner.new }
        ensures own { (own self.old.number self.new.seen ≡ own self.old.number self.old.seen)
            × (own other.old.number other.new.seen ≡ own other.old.number other.old.seen)
            × (own owner.old.number owner.new.seen ≡ own owner.old.number owner.old.seen) }
        ensures owned { IsStillOwned owner.old.seen owner.new.seen }
        ensures all { (other.new.seen ≡ self.new.seen) × (owner.new.seen ≡ self.new.seen) }
        ensures layout { (other.old.layout ≡ self.old.layout) × (owner.old.layout ≡ self.old.layout) }
        ensures last { IsComplete owner.old.seen → IsStillEnd owner.old.seen owner.new.seen }
    {
        self.chair
            .meet_both(&mut other.chair, &mut owner.seat.chair);
    }
}

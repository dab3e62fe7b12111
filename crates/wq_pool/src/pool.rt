//! A pool.
ghost use Rattle.std.specs.Prelude.{◌≡◌, ◌↔◌, ◌<◌, ◌≤◌, Ok, Err, true, false, map, length, option_map, All, IfOk, IfSome};
ghost use Rattle.wq_words.specs.History.{IsRunning};
ghost use Rattle.wq_ready.specs.declared.ready_queue.AnnounceError.TheVariants as announce_error;
ghost use Rattle.wq_ready.specs.Answers.{Announces, Picks};
ghost use Rattle.wq_ready.specs.Known.{IsCallerOf, new_callers};
ghost use Rattle.wq_pool.specs.declared.pool.PoolError.TheVariants as pool_error;
ghost use Rattle.wq_pool.specs.Known.{queue_in_turn, id_of};
ghost use Rattle.wq_pool.specs.Pool.{IsTurnOf, IsNoPool, GoesOnFrom, says_wakes};

use crate::slots::QueueSlots;
use crate::turn::{TurnOf, WorkedOf};
use std::alloc::Global;
use std::marker::Model;
use std::sync::Wait;
use std::sync::atomic::AtomicU64;
use std::sync::atomic::Ordering::SeqCst;
use std::thread;
use thiserror::Error;
use wq_ready::{AnnounceError, Caller, ReadyQueue, Size};
use wq_turn::ServedOf;
use wq_words::Answer;
use wq_worker::Station;

/// The most queues of a pool.
pub(crate) const MOST_QUEUES: usize = 256;

/// Why no pool was made.
#[derive(Clone, Copy, Debug, PartialEq, Eq, Error)]
pub enum PoolError {
    /// No queue was handed in, or more than 256.
    #[error("a pool has 1 to 256 queues")]
    NoQueue,
    /// No memory could be had.
    #[error("no memory")]
    Memory,
}

/// Queues, each by its place, and the ready queue of those that were announced. Threads share it by `&`. No call takes a lock.
/// None but `new` and `finish` takes memory, but that a `run` by two callers or more takes some for each further thread.
#[derive(Drop)]
pub struct PoolOf<K: Station> {
    pub(crate) slots: QueueSlots<K>,
    ready: ReadyQueue,
    // How many queues have run their stop item.
    stopped: AtomicU64,
    pub(crate) alloc: Global,
}

impl<K: Station> Model for PoolOf<K> {
    ghost use Rattle.wq_pool.specs.Known.{PoolState};

    ghost Value = { PoolState K };

    ghost use Rattle.wq_pool.specs.PoolView.{pool_view, HasReadyQueue};

    ghost view = { pool_view };

    ghost invariant = { HasReadyQueue };
}

impl<K: Station + Drop> PoolOf<K> {
    /// A pool of these queues, each known by its place, and its callers, each at its number. Each worker goes on from what it has
    /// seen: a queue onto which something was pushed, or whose worker has made a take or a drain, though it found nothing, is to be
    /// announced once, since no push says `wakes` any more before its next rest.
    ///
    /// # Errors
    /// `NoQueue` exactly where no queue is handed in, or more than 256, else `Memory`. What was handed in is dropped after either: those
    /// queues have no owner any more.
    pub fn new(
        alloc: Global,
        queues: Vec<ServedOf<K>>,
        callers: u32,
    ) -> Result<(PoolOf<K>, Vec<Caller>), PoolError>
        ensures no_queue { (result ≡ Err pool_error.NoQueue) ↔ IsNoPool (length queues.items) }
        ensures workers { IfOk result (λ r. r.0.workers ≡ map (id_of K.state) queues.items) }
        ensures states { IfOk result (λ r. r.0.states ≡ queues.items) }
        ensures size { IfOk result (λ r. r.0.ready.size ≡ record { queues = length queues.items; callers = callers }) }
        ensures callers { IfOk result (λ r. r.1.items ≡ new_callers r.0.ready callers) }
        ensures count { IfOk result (λ r. length r.1.items ≡ callers) }
        ensures ready { IfOk result (λ r. All (IsCallerOf r.0.ready) r.1.items) }
    {
        let count = queues.len();
        if count == 0 || count > MOST_QUEUES {
            return Err(PoolError::NoQueue);
        }
        let size = Size {
            queues: count as u32,
            callers,
        };
        let Ok(slots) = QueueSlots::new(alloc, queues) else {
            return Err(PoolError::Memory);
        };
        let Ok((ready, all)) = ReadyQueue::new(alloc, size) else {
            return Err(PoolError::Memory);
        };
        let pool = PoolOf {
            slots,
            ready,
            stopped: AtomicU64::new(0),
            alloc,
        };
        Ok((pool, all))
    }

    /// Announces a queue: it waits behind all that were announced before. For the answer of a queueing `wake` does this; by hand
    /// a queue is announced that rests no more, though nobody was told of a push that woke it: one onto which something was
    /// pushed before the pool was made, or whose worker made a take or a drain before that, though it found nothing, and one onto
    /// which a delay table pushed. Each announcement is picked once, so one too many costs a pick that may find nothing. It takes a
    /// place besides, and while all places are taken `wake` waits.
    ///
    /// # Errors
    /// `NoQueue` exactly where the pool has no queue of this number. `Full` only where as many announcements as the pool has queues
    /// could wait, by all that this caller has seen.
    pub fn announce<R: Wait>(
        &self,
        rt: &R,
        caller: &mut Caller,
        queue: u32,
    ) -> Result<(), AnnounceError>
        requires { IsCallerOf self.now.ready caller.old }
        ensures no_queue { (result ≡ Err announce_error.NoQueue) ↔ (length self.now.workers ≤ queue) }
        ensures seen { Announces queue result caller.old caller.new }
        ensures caller { IsCallerOf self.now.ready caller.new }
    {
        self.ready.announce(rt, caller, queue)
    }

    /// Does what the answer of a queueing on this queue asks for: announces the queue where it says `wakes`, and waits while the
    /// ready queue is full. Whoever queues calls it with each answer.
    ///
    /// # Errors
    /// `NoQueue` exactly where the pool has no queue of this number, whatever the answer; `Full` never.
    pub fn wake<R: Wait>(
        &self,
        rt: &R,
        caller: &mut Caller,
        queue: u32,
        answer: Answer,
    ) -> Result<(), AnnounceError>
        requires { IsCallerOf self.now.ready caller.old }
        ensures known { (result ≡ Ok tt) ↔ (queue < length self.now.workers) }
        ensures no_queue { (result ≡ Err announce_error.NoQueue) ↔ (length self.now.workers ≤ queue) }
        ensures wakes { says_wakes answer ≡ true → Announces queue result caller.old caller.new }
        ensures quiet { says_wakes answer ≡ false → caller.new ≡ caller.old }
        ensures goes_on { GoesOnFrom caller.old caller.new }
        ensures caller { IsCallerOf self.now.ready caller.new }
    {
        if queue >= self.slots.count() {
            return Err(AnnounceError::NoQueue);
        }
        let Answer::Queued { wakes: true, .. } = answer else {
            return Ok(());
        };
        for _ in rt.forever() {
            match self.announce(rt, caller, queue) {
                Ok(()) => return Ok(()),
                Err(_) => thread::yield_now(),
            }
        }
        unreachable!()
    }

    /// Takes the queue that was announced first in hand. It waits until that queue is in its slot: for good where its turn was
    /// dropped, where this very thread has it in hand, or where whoever has it waits for a queue that this thread has in hand, so
    /// put back what you have before you pick again beside other threads. `None` only where the ready queue could be empty, by all
    /// that this caller has seen.
    pub fn pick<R: Wait>(&self, rt: &R, caller: &mut Caller) -> Option<TurnOf<K>>
        requires { IsCallerOf self.now.ready caller.old }
        ensures seen { Picks (option_map queue_in_turn result) caller.old caller.new }
        ensures caller { IsCallerOf self.now.ready caller.new }
        ensures turn { IfSome result (IsTurnOf K.state K.deals self.now) }
        ensures idle { IfSome result (λ turn. ¬ IsRunning (K.state turn.worker).seen) }
    {
        match self.pick_number(rt, caller) {
            Some(queue) => Some(self.fetch(rt, queue)),
            None => None,
        }
    }

    // The number of the queue that was announced first, which is left in its slot.
    pub(crate) fn pick_number<R: Wait>(&self, rt: &R, caller: &mut Caller) -> Option<u32>
        requires { IsCallerOf self.now.ready caller.old }
        ensures queue { IfSome result (λ queue. queue < length self.now.workers) }
        ensures seen { Picks result caller.old caller.new }
        ensures caller { IsCallerOf self.now.ready caller.new }
    {
        self.ready.pick(rt, caller)
    }

    // Tries until the queue is in its slot.
    pub(crate) fn fetch<R: Wait>(&self, rt: &R, queue: u32) -> TurnOf<K>
        requires { queue < length self.now.workers }
        ensures turn { IsTurnOf K.state K.deals self.now result }
        ensures queue { result.queue ≡ queue }
        ensures idle { ¬ IsRunning (K.state result.worker).seen }
    {
        for _ in rt.forever() {
            if let Some(turn) = self.slots.pick_up(queue) {
                return turn;
            }
            thread::yield_now();
        }
        unreachable!()
    }

    /// Lays a queue that was worked at in its slot again.
    pub fn put_back(&self, caller: &mut Caller, worked: WorkedOf<K>)
        requires caller { IsCallerOf self.now.ready caller.old }
        requires worked { worked.slots ≡ self.now.slots }
        ensures same { caller.new ≡ caller.old }
    {
        let _ = caller;
        self.lay_down(worked);
    }

    // A queue whose stop item ran in somebody's hand counts among those that have run theirs.
    pub(crate) fn lay_down(&self, mut worked: WorkedOf<K>)
        requires { worked.slots ≡ self.now.slots }
    {
        if worked.served.count_stop() {
            self.stopped.fetch_add(1, SeqCst);
        }
        self.slots.lay_down(worked);
    }

    // The same while the queue is in hand, since it may stay there for long.
    pub(crate) fn count_stop(&self, turn: &mut TurnOf<K>)
        ensures { turn.new ≡ turn.old }
    {
        if turn.count_stop() {
            self.stopped.fetch_add(1, SeqCst);
        }
    }

    // Whether every queue has run its stop item.
    pub(crate) fn has_stopped(&self) -> bool {
        self.stopped.load(SeqCst) >= u64::from(self.slots.count())
    }
}

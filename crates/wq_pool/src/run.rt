//! One thread for each caller of a pool.
ghost use Rattle.std.specs.Prelude.{◌≡◌, ℕ, ◌<◌, length, slice_index_or, All, Ok, IfSome};
ghost use Rattle.wq_ready.specs.Known.{CallerState, IsCallerOf};
ghost use Rattle.wq_pool.specs.Pool.{GoesOnFrom, IsTurnOf};

use crate::pool::{MOST_QUEUES, PoolOf};
use crate::turn::TurnOf;
use std::alloc::AllocError;
use std::sync::Wait;
use std::thread;
use std::thread::Threads;
use wq_ready::Caller;
use wq_turn::Gate;
use wq_worker::Station;

// The share of a queue: after so many executions those that wait go first.
const EXECUTIONS: u32 = 1024;

// An execution that is owed is looked at as soon as it has ended, so that one that owes again and again keeps nobody waiting.
fn share_of<K: Station>(turn: &TurnOf<K>) -> u32 {
    if turn.owes() { 1 } else { EXECUTIONS }
}

// There is a mark for each queue, since no pool has more.
fn mark(marks: &mut [bool; MOST_QUEUES], queue: u32) {
    if let Some(mark) = marks.get_mut(queue as usize) {
        *mark = true;
    }
}

impl<K: Station + Drop + Send> PoolOf<K> {
    // Announces each queue that is marked, and takes its mark off. True where there was room for all.
    fn announce_marked<R: Wait>(
        &self,
        rt: &R,
        caller: &mut Caller,
        marks: &mut [bool; MOST_QUEUES],
    ) -> bool
        requires { IsCallerOf self.now.ready caller.old }
        ensures caller { IsCallerOf self.now.ready caller.new }
        ensures goes_on { GoesOnFrom caller.old caller.new }
    {
        for (queue, is_marked) in marks.iter_mut().enumerate() {
            if *is_marked {
                if self.announce(rt, caller, queue as u32).is_err() {
                    return false;
                }
                *is_marked = false;
            }
        }
        true
    }

    // Takes what waits off the ready queue, and marks each queue of it.
    fn mark_all<R: Wait>(&self, rt: &R, caller: &mut Caller, marks: &mut [bool; MOST_QUEUES])
        requires { IsCallerOf self.now.ready caller.old }
        ensures caller { IsCallerOf self.now.ready caller.new }
        ensures goes_on { GoesOnFrom caller.old caller.new }
    {
        for _ in 0..self.slots.count() {
            let Some(queue) = self.pick_number(rt, caller) else {
                return;
            };
            mark(marks, queue);
        }
    }

    // Announces a queue where the run ends, which looks at none any more. Where there is no room all that wait are taken off the
    // ready queue, and announced anew with it, each queue once: so there is room for all, unless others announce meanwhile, whose
    // announcements are then taken off too.
    fn announce_last<R: Wait>(&self, rt: &R, caller: &mut Caller, queue: u32)
        requires { IsCallerOf self.now.ready caller.old }
        ensures caller { IsCallerOf self.now.ready caller.new }
        ensures goes_on { GoesOnFrom caller.old caller.new }
    {
        let mut marks = [false; MOST_QUEUES];
        mark(&mut marks, queue);
        for _ in rt.forever() {
            if self.announce_marked(rt, caller, &mut marks) {
                return;
            }
            self.mark_all(rt, caller, &mut marks);
        }
        unreachable!()
    }

    // Announces a queue again, behind all that wait. Where there is no room, the first that waits makes it, and is to be looked at
    // next. Where others took that room too, no second one is taken off: there is room once each queue waits once, and so there is
    // where every queue has run its stop item.
    fn announce_again<R: Wait>(
        &self,
        rt: &R,
        caller: &mut Caller,
        queue: u32,
        next: &mut Option<u32>,
    ) -> bool
        requires caller { IsCallerOf self.now.ready caller.old }
        requires next { IfSome next.old (λ q. q < length self.now.workers) }
        ensures caller { IsCallerOf self.now.ready caller.new }
        ensures next { IfSome next.new (λ q. q < length self.now.workers) }
        ensures goes_on { GoesOnFrom caller.old caller.new }
    {
        if self.announce(rt, caller, queue).is_ok() {
            return true;
        }
        if next.is_some() || self.has_stopped() {
            self.announce_last(rt, caller, queue);
            return true;
        }
        *next = self.pick_number(rt, caller);
        self.announce(rt, caller, queue).is_ok()
    }

    // Works at a queue until nothing is left to do, and lays it down. After its share of executions it is announced again, behind all
    // that wait, and laid down with what is left: announced first, since nobody finds a queue that lies there unannounced. Where an
    // execution is owed, or there is still no room, it is worked on. Answers the queue that made room, if one had to.
    fn work_share<R: Wait, G: Gate>(
        &self,
        rt: &R,
        caller: &mut Caller,
        turn: TurnOf<K>,
        gate: &G,
    ) -> Option<u32>
        requires caller { IsCallerOf self.now.ready caller.old }
        requires turn { IsTurnOf K.state K.deals self.now turn }
        ensures next { IfSome result (λ q. q < length self.now.workers) }
        ensures goes_on { GoesOnFrom caller.old caller.new }
    {
        let mut turn = turn;
        let mut next = None;
        for _ in rt.forever() {
            let share = share_of(&turn);
            match turn.work(share, gate) {
                Ok(worked) => {
                    self.put_back(caller, worked);
                    return next;
                }
                Err(same) => turn = same,
            }
            self.count_stop(&mut turn);
            if !turn.owes() {
                let is_announced = self.announce_again(rt, caller, turn.queue(), &mut next);
                if is_announced {
                    self.put_back(caller, turn.into_worked());
                    return next;
                }
            }
        }
        unreachable!()
    }

    // The turn at the queue that made room, or at the one that was announced first.
    fn next_turn<R: Wait>(
        &self,
        rt: &R,
        caller: &mut Caller,
        next: Option<u32>,
    ) -> Option<TurnOf<K>>
        requires caller { IsCallerOf self.now.ready caller.old }
        requires next { IfSome next (λ q. q < length self.now.workers) }
        ensures caller { IsCallerOf self.now.ready caller.new }
        ensures goes_on { GoesOnFrom caller.old caller.new }
        ensures turn { IfSome result (IsTurnOf K.state K.deals self.now) }
    {
        match next {
            Some(queue) => Some(self.fetch(rt, queue)),
            None => self.pick(rt, caller),
        }
    }

    // Works at the queue that made room, or at the one that was announced first, and gives its processor way where there is neither.
    // Answers the queue that made room for that one, if one had to.
    fn serve_next<R: Wait, G: Gate>(
        &self,
        rt: &R,
        caller: &mut Caller,
        next: Option<u32>,
        gate: &G,
    ) -> Option<u32>
        requires caller { IsCallerOf self.now.ready caller.old }
        requires next { IfSome next (λ q. q < length self.now.workers) }
        ensures next { IfSome result (λ q. q < length self.now.workers) }
        ensures goes_on { GoesOnFrom caller.old caller.new }
    {
        let Some(turn) = self.next_turn(rt, caller, next) else {
            thread::yield_now();
            return None;
        };
        self.work_share(rt, caller, turn, gate)
    }

    // Serves what was announced until each queue has run its stop item. A queue is counted once, as it is looked at for the first
    // time after its stop item ran: what says that it was counted lies in its slot with it. A queue that made room is looked at
    // before the others, and announced again where all have stopped.
    fn serve<R: Wait, G: Gate>(&self, rt: &R, caller: &mut Caller, gate: &G)
        requires { IsCallerOf self.now.ready caller.old }
        ensures { GoesOnFrom caller.old caller.new }
    {
        let mut next = None;
        for _ in rt.forever() {
            if self.has_stopped() {
                let Some(queue) = next else {
                    return;
                };
                self.announce_last(rt, caller, queue);
                return;
            }
            next = self.serve_next(rt, caller, next, gate);
        }
    }

    /// Serves what is announced, in one thread for each caller, until every queue has run its stop item since the pool was
    /// made. What ran in a turn of `pick` counts from its `put_back` on. Where no thread can be made, or no memory had for one, the
    /// callers serve in turn. Each caller comes back with what it has seen. A caller that finds nothing announced gives its
    /// processor way and looks again; it does not park, so an idle pool takes the time of a processor for each of its callers. With
    /// no caller it ends at once, and so it does where each stop item has run before: what is queued after that is to be worked on
    /// by `pick`.
    ///
    /// What it leaves is announced when it ends, for `pick`: a queue in hand of which something is left is announced again, and so
    /// is one that was taken off the ready queue and not looked at. One that was announced more than once may be so but once then.
    ///
    /// It does not end while a queue has no stop item to run: one that was closed without it, as all are after a `finish` that
    /// gave the pool back, is to be worked on by `pick`. Nor does it end once a turn or a `Worked` was dropped of a queue that was not
    /// put back after its stop item had run: a thread that picks such a queue waits for it for good.
    ///
    /// # Errors
    /// None: it always answers Ok.
    pub fn run<R: Threads + Wait + Sync, G: Gate + Sync>(
        &self,
        rt: &R,
        workers: &mut [Caller],
        gate: &G,
    ) -> Result<(), AllocError>
        requires { All (IsCallerOf self.now.ready) workers.old }
        ensures made { result ≡ Ok tt }
        ensures count { length workers.new ≡ length workers.old }
        ensures ready { All (IsCallerOf self.now.ready) workers.new }
        ensures callers { (i : ℕ) (d : CallerState) → i < length workers.old → GoesOnFrom (slice_index_or workers.old i d) (slice_index_or workers.new i d) }
    {
        if workers.is_empty() {
            return Ok(());
        }
        let threads = workers.len();
        let serve = |_place: usize, caller: &mut Caller|
            requires { IsCallerOf self.now.ready caller.now }
            ensures { GoesOnFrom caller.entry.now caller.exit.now }
        { self.serve(rt, caller, gate) };
        thread::for_each_mut(rt, workers, threads, &serve);
        Ok(())
    }
}

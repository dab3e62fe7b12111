//! The end of a pool: every queue is closed and drained, and then all are taken apart.
ghost use Rattle.std.specs.Prelude.{◌≡◌, ◌<◌, ◌≤◌, [], map, length, All, IfOk, IfErr, IfNone, IfSome};
ghost use Rattle.std.specs.Vec.{vec_len, vec_capacity};
ghost use Rattle.wq_pool.specs.Known.{turn_id};
ghost use Rattle.wq_pool.specs.Finish.{AreFirst, AreComplete, WereDrained, ComeFromDrains, LeavesOf, FirstLeft, IsPoolFault};
ghost use Rattle.wq_pool.specs.Finished.{AreFinishedBy, RanToEndBy, AreTakenApart, BeginAsHandedIn};

use crate::pool::PoolOf;
use crate::slots::QueueSlots;
use crate::turn::WorkedOf;
use std::fmt;
use thiserror::Error;
use wq_worker::Station;

/// A pool that could not be taken apart. It is given back.
#[derive(Drop, Error)]
pub enum PoolFaultOf<K: Station> {
    /// The queue is not in its slot. Those before it are closed, and so many were executed of each as the limit says, or all.
    /// That it is out is in no clause, nor that those behind it are as they were.
    #[error("the queue {queue} is not in its slot")]
    Out {
        pool: PoolOf<K>,
        queue: u32,
    },
    /// So many numbers of the queue are accepted and have not ended, after as many executions as the limit says. Nothing is left
    /// of those before it, and all queues are closed.
    #[error("{left} numbers of the queue {queue} are accepted and have not ended")]
    Unfinished {
        pool: PoolOf<K>,
        queue: u32,
        left: u32,
    },
    /// No memory could be had. No queue was touched, which is in no clause.
    #[error("no memory")]
    Memory {
        pool: PoolOf<K>,
    },
}

impl<K: Station> fmt::Debug for PoolFaultOf<K> {
    fn fmt<O: fmt::Write>(&self, f: &mut fmt::Formatter<O>) -> fmt::Result {
        match self {
            PoolFaultOf::Out { queue, .. } => f
                .debug_struct("Out")
                .field("queue", queue)
                .finish_non_exhaustive(),
            PoolFaultOf::Unfinished { queue, left, .. } => f
                .debug_struct("Unfinished")
                .field("queue", queue)
                .field("left", left)
                .finish_non_exhaustive(),
            PoolFaultOf::Memory { .. } => f.debug_struct("Memory").finish_non_exhaustive(),
        }
    }
}

// The queues that were picked up, by place, each drained; the first of them of which something is left, and how much; and the
// first queue that was out.
struct Gathered<K: Station> {
    all: Vec<WorkedOf<K>>,
    left: Option<(u32, u32)>,
    out: Option<u32>,
}

fn first_left(left: Option<(u32, u32)>, queue: u32, more: u32) -> Option<(u32, u32)>
    ensures { FirstLeft left queue more result }
{
    match left {
        Some(first) => Some(first),
        None => if more > 0 { Some((queue, more)) } else { None },
    }
}

// Picks up each queue in turn, closes it, and executes up to so many of its numbers.
fn gather<K: Station + Drop>(
    slots: &QueueSlots<K>,
    mut all: Vec<WorkedOf<K>>,
    limit: u32,
) -> Gathered<K>
    requires room { (all.items ≡ []) × (length slots.now.workers ≤ vec_capacity all) }
    ensures first { AreFirst K.state K.deals slots.now result.all.items }
    ensures all { IfNone result.out (length result.all.items ≡ length slots.now.workers) }
    ensures drained { WereDrained K.state K.may K.gives K.deals limit slots.now.workers slots.now.states result.all.items }
    ensures left { LeavesOf K.state K.may K.gives K.deals limit slots.now.workers slots.now.states result.all.items result.left }
    ensures out { IfSome result.out (λ queue. (queue ≡ length result.all.items) × (queue < length slots.now.workers)) }
{
    let mut left = None;
    for queue in 0..slots.count() {
        let Some(mut turn) = slots.pick_up(queue) else {
            return Gathered {
                all,
                left,
                out: Some(queue),
            };
        };
        let more = turn.drain(limit);
        left = first_left(left, queue, more);
        all.push_reserved(turn.into_worked());
    }
    Gathered {
        all,
        left,
        out: None,
    }
}

fn take_apart<K: Station + Drop>(
    all: Vec<WorkedOf<K>>,
    mut finished: Vec<(K::Work, K::Book)>,
) -> Vec<(K::Work, K::Book)>
    requires room { (finished.items ≡ []) × (vec_len all ≤ vec_capacity finished) }
    requires complete { AreComplete K.state all.items }
    ensures finished { AreFinishedBy K.book K.has_run (map (turn_id K.state) all.items) result.items }
    ensures parts { AreTakenApart K.state K.book K.has_brought all.items result.items }
{
    for worked in all {
        finished.push_reserved(worked.into_parts());
    }
    finished
}

impl<K: Station + Drop> PoolOf<K> {
    fn lay_all(&self, mut all: Vec<WorkedOf<K>>)
        requires { All (λ worked. worked.slots ≡ self.now.slots) all.items }
    {
        while let Some(worked) = all.pop() {
            self.lay_down(worked);
        }
    }

    /// Closes every queue and executes what is left of each, up to so many numbers of each, and then takes all apart: the works and
    /// the books, by place. A queue is tried once, and one that is in a turn is out. The clauses speak of what was done to a queue
    /// from some state of its worker on, which goes on from what was handed in: whoever calls has not seen what lies in the pool.
    /// Where items bring values `begins` and the law `brought_goes_on` of `wq_value_pool` say that what was brought before the pool
    /// was made begins what the book has.
    ///
    /// # Errors
    /// `Memory` before any queue is touched; `Out` for the first queue that is not in its slot, and those behind it are not
    /// touched; `Unfinished` for the first queue with something left. The pool is given back, and the queues that were in their
    /// slots are laid down again, which is in no clause. A queue whose turn was dropped stays out for good. Onto a queue that was
    /// closed no stop item can be queued, and `run` waits for each that had none.
    pub fn finish(self, limit: u32) -> Result<Vec<(K::Work, K::Book)>, PoolFaultOf<K>>
    where
        K::Work: Drop,
        K::Book: Drop,
        ensures finished { IfOk result (λ finished. AreFinishedBy K.book K.has_run self.workers finished.items) }
        ensures count { IfOk result (λ finished. length finished.items ≡ length self.workers) }
        ensures each { IfOk result (λ finished. All (RanToEndBy K.book K.has_run) finished.items) }
        ensures drained { IfOk result (λ finished. ComeFromDrains K.state K.may K.gives K.deals limit K.book K.has_brought
            self.workers self.states finished.items) }
        ensures begins { IfOk result (λ finished. BeginAsHandedIn K.state K.deals K.book K.has_brought self.states finished.items) }
        ensures fault { IfErr result (IsPoolFault K.state K.may K.gives K.deals limit self) }
    {
        let count = self.slots.count() as usize;
        let Ok(all) = Vec::with_capacity(self.alloc, count) else {
            return Err(PoolFaultOf::Memory { pool: self });
        };
        let Ok(finished) = Vec::with_capacity(self.alloc, count) else {
            return Err(PoolFaultOf::Memory { pool: self });
        };
        let Gathered { all, left, out } = gather(&self.slots, all, limit);
        match (out, left) {
            (Some(queue), _) => {
                self.lay_all(all);
                Err(PoolFaultOf::Out { pool: self, queue })
            }
            (None, Some((queue, left))) => {
                self.lay_all(all);
                Err(PoolFaultOf::Unfinished {
                    pool: self,
                    queue,
                    left,
                })
            }
            (None, None) => {
                let parts = take_apart(all, finished);
                Ok(parts)
            }
        }
    }
}

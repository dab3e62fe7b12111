//! A worker that serves in a thread of its own, and beside it two senders in theirs.
ghost use Rattle.std.specs.Prelude.{◌≡◌, ◌+◌, ◌*◌, ◌≤◌, [], IfOk};
ghost use Rattle.wq_worker.specs.History.{accepted, ended, IsRunning, IsShut};
ghost use Rattle.wq_worker.specs.Legal.{IsLegal, IsComplete};
ghost use Rattle.wq_worker.specs.Headline.{KeepsHeadline};
ghost use Rattle.wq_worker.specs.Seen.{own, owner_seat};
ghost use Rattle.wq_worker.specs.Known.{new_sender};
ghost use Rattle.wq_worker.specs.Book.{IsLedgerOf};
ghost use Rattle.wq_worker.specs.Silent.{AddsNoNumber};
ghost use Rattle.wq_worker.specs.State.{IsSameWorker, items_among};
ghost use Rattle.example_threads.specs.Met.{TellsOwn, QueuedAsTold};

use crate::one_worker::RunList;
use crate::queueing::{Told, TwoSenders, queue_both, stop};
use crate::waking::{Waker, WakesOn, parker_and_waker};
use crossbeam_utils::sync::Parker;
use std::alloc::{AllocError, Global};
use std::sync::Wait;
use std::thread::{Threads, join};
use thiserror::Error;
use trail::Trail;
use wq_live::Sender;
use wq_words::Layout;
use wq_worker::{Book, Ledger, Totals, Unbalanced, Unbuilt, Worker, nothing_is_asked};

/// The work and the book of a queue that was destroyed, its two senders, which have met the book, and the sums of all counts.
#[derive(Drop)]
pub struct Destroyed {
    /// The work, with the list of what it ran.
    pub work: RunList,
    /// The book, with the whole history of the queue, which contracts alone see.
    pub book: Book,
    /// The sender 0, and what it queued.
    pub first: Told,
    /// The sender 1, and what it queued.
    pub second: Told,
    /// The sums of the counts of the worker and of all senders.
    pub totals: Totals,
}

/// Why nothing was served to its end.
#[derive(Clone, Copy, Debug, PartialEq, Eq, Error)]
pub enum Unserved {
    /// Memory could not be had.
    #[error("no memory")]
    Memory,
    /// So many numbers were left when the destroy came to its limit.
    #[error("{0} left at the limit")]
    Left(u32),
    /// The ledgers do not balance: a count is saturated.
    #[error("{0}")]
    Unbalanced(#[from] Unbalanced),
}

impl From<AllocError> for Unserved {
    fn from(_error: AllocError) -> Unserved {
        Unserved::Memory
    }
}

impl From<Unbuilt<RunList>> for Unserved {
    fn from(_unbuilt: Unbuilt<RunList>) -> Unserved {
        Unserved::Memory
    }
}

/// Two senders queue so many items each, of their own, in two threads. When both have ended, the second queues the stop item.
fn queue_and_stop<R: Threads + Wait + Sync>(
    rt: &R,
    first: Sender,
    second: Sender,
    each: u32,
    waker: &Waker,
) -> TwoSenders
    requires items { (each * 2 ≤ first.layout.items) × (each * 2 ≤ second.layout.items) }
    requires new { (first.seen ≡ []) × (second.seen ≡ []) }
    ensures first { QueuedAsTold first result.first }
    ensures second { QueuedAsTold second result.second }
{
    let TwoSenders { first, second } = queue_both(rt, first, second, each, waker);
    TwoSenders {
        first,
        second: stop(second, waker),
    }
}

/// Serves until the stop item ran. The worker queues nothing, since its work asks for nothing.
fn serve<R: Wait>(rt: &R, mut worker: Worker<RunList>, parker: &Parker) -> Worker<RunList>
    requires open { ¬ IsShut worker.seen }
    requires idle { ¬ IsRunning worker.seen }
    ensures same { IsSameWorker worker result }
    ensures idle { ¬ IsRunning result.seen }
    ensures silent { AddsNoNumber worker.number worker.seen result.seen }
{
    worker.legal();
    nothing_is_asked::<Worker<RunList>>();
    worker.serve(rt, parker);
    worker
}

/// The sums of all counts.
fn balance(book: &Book, one: Ledger, other: Ledger) -> Result<Totals, Unbalanced>
    requires one { IsLedgerOf book.now.seen one }
    requires other { IsLedgerOf book.now.seen other }
    ensures { IfOk result (λ totals. totals.queued + totals.chained ≡ totals.executed) }
{
    book.balance([one, other].as_slice())
}

/// Destroys a worker of which nothing runs. It queues nothing by that, since its work asks for nothing.
fn destroy(worker: Worker<RunList>) -> Result<(RunList, Book), Unserved>
    requires idle { ¬ IsRunning worker.seen }
    ensures same { IfOk result (λ r. (r.1.queue ≡ worker.queue) × (r.1.layout ≡ worker.layout)) }
    ensures ran { IfOk result (λ r. r.0.ran.items ≡ items_among r.1.layout (accepted r.1.seen)) }
    ensures silent { IfOk result (λ r. AddsNoNumber worker.number worker.seen r.1.seen) }
{
    worker.legal();
    nothing_is_asked::<Worker<RunList>>();
    match worker.destroy(u32::MAX) {
        Ok(parts) => Ok(parts),
        Err(unfinished) => Err(Unserved::Left(unfinished.left)),
    }
}

/// Destroys a worker that has served. Its senders meet the book, which then balances.
fn finish(worker: Worker<RunList>, mut first: Told, mut second: Told) -> Result<Destroyed, Unserved>
    requires number { worker.number ≡ 2 }
    requires idle { ¬ IsRunning worker.seen }
    requires of_worker { accepted (own 2 worker.seen) ≡ [] }
    requires of_owner { accepted (own owner_seat worker.seen) ≡ [] }
    requires first { TellsOwn worker.queue 0 first }
    requires second { TellsOwn worker.queue 1 second }
    ensures layout { IfOk result (λ r. r.book.layout ≡ worker.layout) }
    ensures legal { IfOk result (λ r. IsLegal r.book.layout r.book.seen) }
    ensures complete { IfOk result (λ r. IsComplete r.book.seen) }
    ensures headline { IfOk result (λ r. KeepsHeadline r.book.seen) }
    ensures ended { IfOk result (λ r. ended r.book.seen ≡ accepted r.book.seen) }
    ensures ran { IfOk result (λ r. r.work.ran.items ≡ items_among r.book.layout (accepted r.book.seen)) }
    ensures first { IfOk result (λ r. TellsOwn r.book.queue 0 r.first) }
    ensures second { IfOk result (λ r. TellsOwn r.book.queue 1 r.second) }
    ensures of_first { IfOk result (λ r. accepted (own 0 r.book.seen) ≡ r.first.queued.items) }
    ensures of_second { IfOk result (λ r. accepted (own 1 r.book.seen) ≡ r.second.queued.items) }
    ensures of_worker { IfOk result (λ r. accepted (own 2 r.book.seen) ≡ []) }
    ensures nothing_else { IfOk result (λ r. accepted (own owner_seat r.book.seen) ≡ []) }
    ensures balance { IfOk result (λ r. r.totals.queued + r.totals.chained ≡ r.totals.executed) }
{
    let (work, mut book) = destroy(worker)?;
    let one = book.meet(&mut first.sender);
    let other = book.meet(&mut second.sender);
    book.legal();
    let totals = balance(&book, one, other)?;
    Ok(Destroyed {
        work,
        book,
        first,
        second,
        totals,
    })
}

/// The worker serves in a thread, and beside it the senders queue in theirs. When both have ended, the stop item follows.
fn serve_beside<R: Threads + Wait + Sync>(
    rt: &R,
    worker: Worker<RunList>,
    first: Sender,
    second: Sender,
    each: u32,
    parker: Parker,
    waker: &Waker,
) -> (Worker<RunList>, TwoSenders)
    requires items { each * 2 ≤ worker.layout.items }
    requires open { ¬ IsShut worker.seen }
    requires idle { ¬ IsRunning worker.seen }
    requires first { first ≡ new_sender worker.queue worker.layout 0 }
    requires second { second ≡ new_sender worker.queue worker.layout 1 }
    ensures same { IsSameWorker worker result.0 }
    ensures idle { ¬ IsRunning result.0.seen }
    ensures silent { AddsNoNumber worker.number worker.seen result.0.seen }
    ensures first { TellsOwn result.0.queue 0 result.1.first }
    ensures second { TellsOwn result.0.queue 1 result.1.second }
{
    join(
        rt,
        move ||
            requires { (¬ IsShut worker.seen) × (¬ IsRunning worker.seen) }
            ensures { IsSameWorker worker result × (¬ IsRunning result.seen) × AddsNoNumber worker.number worker.seen result.seen }
        { serve(rt, worker, &parker) },
        move ||
            requires { (each * 2 ≤ first.layout.items) × (each * 2 ≤ second.layout.items) × (first.seen ≡ []) × (second.seen ≡ []) }
            ensures { QueuedAsTold first result.first × QueuedAsTold second result.second }
        { queue_and_stop(rt, first, second, each, waker) },
    )
}

/// The same on a new queue, with so many items of each sender. Where it is Ok all that was accepted ran, in its order and once:
/// of each sender what it was answered `Queued` for, in its order, and nothing else. Nothing is left, and the book balances.
///
/// # Errors
/// `Memory` where memory was refused, `Left` where the destroy came to its limit, and `Unbalanced` where a count is saturated.
pub fn run_served<R: Threads + Wait + Sync>(
    rt: &R,
    alloc: Global,
    layout: Layout,
    each: u32,
) -> Result<Destroyed, Unserved>
    requires items { each * 2 ≤ layout.items }
    requires senders { layout.senders ≡ 3 }
    ensures layout { IfOk result (λ r. r.book.layout ≡ layout) }
    ensures legal { IfOk result (λ r. IsLegal r.book.layout r.book.seen) }
    ensures complete { IfOk result (λ r. IsComplete r.book.seen) }
    ensures headline { IfOk result (λ r. KeepsHeadline r.book.seen) }
    ensures ended { IfOk result (λ r. ended r.book.seen ≡ accepted r.book.seen) }
    ensures ran { IfOk result (λ r. r.work.ran.items ≡ items_among r.book.layout (accepted r.book.seen)) }
    ensures first { IfOk result (λ r. TellsOwn r.book.queue 0 r.first) }
    ensures second { IfOk result (λ r. TellsOwn r.book.queue 1 r.second) }
    ensures of_first { IfOk result (λ r. accepted (own 0 r.book.seen) ≡ r.first.queued.items) }
    ensures of_second { IfOk result (λ r. accepted (own 1 r.book.seen) ≡ r.second.queued.items) }
    ensures of_worker { IfOk result (λ r. accepted (own 2 r.book.seen) ≡ []) }
    ensures nothing_else { IfOk result (λ r. accepted (own owner_seat r.book.seen) ≡ []) }
    ensures balance { IfOk result (λ r. r.totals.queued + r.totals.chained ≡ r.totals.executed) }
{
    let (parker, waker) = parker_and_waker(alloc, WakesOn::EmptyList)?;
    let work = RunList { ran: Trail::new() };
    let (worker, mut senders) = Worker::build(alloc, layout, work, 1)?;
    let Some(second) = senders.pop() else {
        unreachable!()
    };
    let Some(first) = senders.pop() else {
        unreachable!()
    };
    let (worker, queued) = serve_beside(rt, worker, first, second, each, parker, &waker);
    finish(worker, queued.first, queued.second)
}

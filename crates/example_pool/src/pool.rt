//! The two queues and their pool.
ghost use Rattle.std.specs.Prelude.{◌≡◌, ◌+◌, ◌<◌, ◌≤◌, ◌∷◌, [], All, IfOk, length};
ghost use Rattle.std.specs.List.{AllByRecursion};
ghost use Rattle.wq_pool.specs.History.{accepted, IsRunning, IsShut};
ghost use Rattle.wq_pool.specs.Seen.{own};
ghost use Rattle.wq_pool.specs.Known.{IsCallerOf};
ghost use Rattle.wq_pool.specs.State.{items_among};
ghost use Rattle.wq_pool.specs.Finished.{AreFinished, BeginAsHandedIn};
ghost use Rattle.wq_pool.specs.Quiet.{IsUnused, IsQuiet};
ghost use Rattle.wq_pool.specs.WorkerId.{worker_id};
ghost use Rattle.example_pool.specs.RunList.{RunsInStep};
ghost use Rattle.example_pool.specs.Ended.{AreNewSenders, HaveQueued, RanAll};

use crate::queueing::{QueueSenders, SenderWithCaller, Told, queue_all};
use crate::work::RunList;
use std::alloc::{AllocError, Global};
use std::sync::Wait;
use std::thread::{Threads, join};
use thiserror::Error;
use wq_live::Sender;
use wq_pool::{Caller, NoGate, Pool, PoolFault, Served, nothing_is_queued};
use wq_words::Layout;
use wq_worker::{Book, Unbuilt, Worker};

// So many numbers of each queue are executed at a time, where some are left at the end.
const EXECUTIONS: u32 = 1024;

/// Why the queues did not come to their end.
#[derive(Clone, Copy, Debug, PartialEq, Eq, Error)]
pub enum Unended {
    /// No memory could be had.
    #[error("no memory")]
    Memory,
    /// This queue was not in the pool when all workers had ended.
    #[error("the queue {queue} is out")]
    Out { queue: u32 },
}

impl From<AllocError> for Unended {
    fn from(_error: AllocError) -> Unended {
        Unended::Memory
    }
}

impl From<Unbuilt<RunList>> for Unended {
    fn from(_unbuilt: Unbuilt<RunList>) -> Unended {
        Unended::Memory
    }
}

/// A queue that has run to its end: its work and its book, and its senders with what they were told.
#[derive(Drop)]
pub struct Ended {
    /// The work, with the list of what it ran.
    pub work: RunList,
    /// The book, with the whole history of the queue, which contracts alone see.
    pub book: Book,
    /// The sender 0, whose queueings were of the items 0 and 1.
    pub first: Told,
    /// The sender 1, whose queueings were of the items 2 and 3.
    pub second: Told,
}

// A pool of two queues, and its callers.
fn pool_of(
    alloc: Global,
    one: Worker<RunList>,
    two: Worker<RunList>,
) -> Result<(Pool<RunList>, Vec<Caller>), Unended>
    requires idle { (¬ IsRunning one.seen) × (¬ IsRunning two.seen) }
    requires open { (¬ IsShut one.seen) × (¬ IsShut two.seen) }
    ensures workers { IfOk result (λ r. r.0.workers ≡ worker_id one ∷ worker_id two ∷ []) }
    ensures states { IfOk result (λ r. r.0.states ≡ one ∷ two ∷ []) }
    ensures callers { IfOk result (λ r. All (IsCallerOf r.0.ready) r.1.items × (length r.1.items ≡ 7)) }
{
    let Ok(queues) = Vec::from_array(alloc, [Served::new(one), Served::new(two)]) else {
        return Err(Unended::Memory);
    };
    match Pool::new(alloc, queues, 7) {
        Ok(made) => Ok(made),
        Err(_) => Err(Unended::Memory),
    }
}

// One of the callers that are left.
fn caller_of(pool: &Pool<RunList>, callers: &mut Vec<Caller>) -> Caller
    requires some { 0 < length callers.old.items }
    requires all { All (IsCallerOf pool.now.ready) callers.old.items }
    ensures one { IsCallerOf pool.now.ready result }
    ensures all { All (IsCallerOf pool.now.ready) callers.new.items }
    ensures count { length callers.new.items + 1 ≡ length callers.old.items }
{
    let Some(caller) = callers.pop() else {
        unreachable!()
    };
    caller
}

// The senders of the pool's queue of this number, two of them with callers.
fn senders_of(
    pool: &Pool<RunList>,
    callers: &mut Vec<Caller>,
    queue: u32,
    senders: Vec<Sender>,
) -> QueueSenders
    requires queue { queue < length pool.now.workers }
    requires senders { length senders.items ≡ 3 }
    requires some { 2 ≤ length callers.old.items }
    requires all { All (IsCallerOf pool.now.ready) callers.old.items }
    ensures senders { senders.items ≡ result.first.sender ∷ result.second.sender ∷ result.last ∷ [] }
    ensures two { IsCallerOf pool.now.ready result.first.caller × IsCallerOf pool.now.ready result.second.caller }
    ensures queues { (result.first.queue < length pool.now.workers) × (result.second.queue < length pool.now.workers) }
    ensures all { All (IsCallerOf pool.now.ready) callers.new.items }
    ensures count { length callers.new.items + 2 ≡ length callers.old.items }
{
    let Ok(senders) = <[Sender; 3]>::try_from(senders) else {
        unreachable!()
    };
    let [sender, other, last] = senders;
    let first = SenderWithCaller {
        queue,
        sender,
        caller: caller_of(pool, callers),
    };
    let second = SenderWithCaller {
        queue,
        sender: other,
        caller: caller_of(pool, callers),
    };
    QueueSenders {
        first,
        second,
        last,
    }
}

// Two workers serve both queues in threads of their own, while the senders queue. Where no thread can be made `join` calls what
// stands first last, so that the workers then find all that was queued.
fn serve<R: Threads + Wait + Sync>(
    rt: &R,
    pool: &Pool<RunList>,
    mut workers: Vec<Caller>,
    caller: Caller,
    one: QueueSenders,
    two: QueueSenders,
) -> Result<((Told, Told), (Told, Told)), Unended>
    requires workers { All (IsCallerOf pool.now.ready) workers.items }
    requires caller { IsCallerOf pool.now.ready caller }
    requires queues { 2 ≤ length pool.now.workers }
    requires one { AreNewSenders pool.now one }
    requires two { AreNewSenders pool.now two }
    ensures one { IfOk result (λ told. HaveQueued one.first.sender.queue told.0.0 told.0.1) }
    ensures two { IfOk result (λ told. HaveQueued two.first.sender.queue told.1.0 told.1.1) }
{
    let (ran, told) = join(
        rt,
        move ||
            requires { All (IsCallerOf pool.now.ready) workers.items }
        { pool.run(rt, workers.as_mut_slice(), &NoGate) },
        move ||
            requires { IsCallerOf pool.now.ready caller × (2 ≤ length pool.now.workers) × AreNewSenders pool.now one × AreNewSenders pool.now two }
            ensures { HaveQueued one.first.sender.queue result.0.0 result.0.1 × HaveQueued two.first.sender.queue result.1.0 result.1.1 }
        { queue_all(rt, pool, caller, one, two) },
    );
    ran?;
    Ok(told)
}

// Takes the pool apart. Where something is left of a queue it goes on.
fn finish<R: Wait>(rt: &R, pool: Pool<RunList>) -> Result<Vec<(RunList, Book)>, Unended>
    ensures finished { IfOk result (λ all. AreFinished (λ work. work.ran.items) pool.workers all.items) }
    ensures count { IfOk result (λ all. length all.items ≡ length pool.workers) }
    ensures begins { IfOk result (λ all. BeginAsHandedIn (λ w. w) RunsInStep (λ b. b) (λ w b. Unit {0}) pool.states all.items) }
{
    let mut pool = pool;
    for _ in rt.forever() {
        match pool.finish(EXECUTIONS) {
            Ok(all) => return Ok(all),
            Err(PoolFault::Unfinished { pool: same, .. }) => pool = same,
            Err(PoolFault::Out { queue, .. }) => return Err(Unended::Out { queue }),
            Err(PoolFault::Memory { .. }) => return Err(Unended::Memory),
        }
    }
    unreachable!()
}

// The two that a list holds, in its order.
fn both_of(finished: Vec<(RunList, Book)>) -> ((RunList, Book), (RunList, Book))
    requires two { length finished.items ≡ 2 }
    ensures both { finished.items ≡ result.0 ∷ result.1 ∷ [] }
{
    let Ok(finished) = <[(RunList, Book); 2]>::try_from(finished) else {
        unreachable!()
    };
    let [one, two] = finished;
    (one, two)
}

// Both queues at their end. Their works asked for nothing, so no worker queued a number of its own.
fn finish_both<R: Wait>(
    rt: &R,
    pool: Pool<RunList>,
) -> Result<((RunList, Book), (RunList, Book)), Unended>
    requires two { length pool.workers ≡ 2 }
    requires unused { AllByRecursion (IsUnused 3) pool.states }
    ensures finished { IfOk result (λ r. AreFinished (λ work. work.ran.items) pool.workers (r.0 ∷ r.1 ∷ [])) }
    ensures of_workers { IfOk result (λ r. IsQuiet 3 r.0.1.seen × IsQuiet 3 r.1.1.seen) }
{
    nothing_is_queued::<RunList>();
    let finished = finish(rt, pool)?;
    Ok(both_of(finished))
}

// Both senders meet the book, so that all that they queued is in it.
fn meet(book: &mut Book, first: &mut Sender, second: &mut Sender)
    requires { (first.old.queue ≡ book.old.queue) × (second.old.queue ≡ book.old.queue) }
    ensures same { (book.new.queue ≡ book.old.queue) × (book.new.layout ≡ book.old.layout) }
    ensures senders { (first.new.queue ≡ first.old.queue) × (second.new.queue ≡ second.old.queue) }
    ensures own_first { own first.old.number first.new.seen ≡ own first.old.number first.old.seen }
    ensures own_second { own second.old.number second.new.seen ≡ own second.old.number second.old.seen }
    ensures accepted { accepted book.new.seen ≡ accepted book.old.seen }
    ensures of_worker { IsQuiet 3 book.old.seen → IsQuiet 3 book.new.seen }
    ensures of_first { accepted (own first.old.number book.new.seen) ≡ accepted (own first.old.number first.old.seen) }
    ensures of_second { accepted (own second.old.number book.new.seen) ≡ accepted (own second.old.number second.old.seen) }
{
    book.meet(first);
    book.meet(second);
}

// What a queue has done, and what its senders were told.
fn end_of(finished: (RunList, Book), told: (Told, Told)) -> Ended
    requires told { HaveQueued finished.1.queue told.0 told.1 }
    requires ran { finished.0.ran.items ≡ items_among finished.1.layout (accepted finished.1.seen) }
    requires of_worker { IsQuiet 3 finished.1.seen }
    ensures layout { result.book.layout ≡ finished.1.layout }
    ensures history { RanAll result.book.layout result.book.seen result }
{
    let (work, mut book) = finished;
    let (mut first, mut second) = told;
    meet(&mut book, &mut first.sender, &mut second.sender);
    book.legal();
    Ended {
        work,
        book,
        first,
        second,
    }
}

/// Two new queues of this size in a pool, which two threads serve, while four senders, two of each queue, queue two items each
/// in threads of their own. When these have ended the stop items follow, and the pool is taken apart.
///
/// # Errors
/// `Memory` where no memory could be had; `Out` where a queue is not in the pool in the end.
pub fn run<R: Threads + Wait + Sync>(
    rt: &R,
    alloc: Global,
    layout: Layout,
) -> Result<(Ended, Ended), Unended>
    requires items { 4 ≤ layout.items }
    requires senders { layout.senders ≡ 4 }
    ensures layouts { IfOk result (λ ended. (ended.0.book.layout ≡ layout) × (ended.1.book.layout ≡ layout)) }
    ensures first { IfOk result (λ ended. RanAll ended.0.book.layout ended.0.book.seen ended.0) }
    ensures second { IfOk result (λ ended. RanAll ended.1.book.layout ended.1.book.seen ended.1) }
{
    let (one, of_one) = Worker::build(alloc, layout, RunList::new(), 1)?;
    let (two, of_two) = Worker::build(alloc, layout, RunList::new(), 1)?;
    let (pool, mut callers) = pool_of(alloc, one, two)?;
    let one = senders_of(&pool, &mut callers, 0, of_one);
    let two = senders_of(&pool, &mut callers, 1, of_two);
    let caller = caller_of(&pool, &mut callers);
    let (told_one, told_two) = serve(rt, &pool, callers, caller, one, two)?;
    let (one, two) = finish_both(rt, pool)?;
    let one = end_of(one, told_one);
    let two = end_of(two, told_two);
    Ok((one, two))
}

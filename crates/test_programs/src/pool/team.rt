//! Queues for a pool, and the callers of it.
ghost use Rattle.std.specs.Prelude.{◌≡◌, [], All};
ghost use Rattle.wq_ready.specs.Known.{IsCallerOf};

use crate::expect::expect_same;
use arrayvec::ArrayVec;
use std::alloc::Global;
use std::process::Abort;
use std::slice;
use std::sync::atomic::AtomicU64;
use std::sync::atomic::Ordering::SeqCst;
use std::sync::{Mutex, Wait};
use std::thread::{Threads, join};
use trail::Trail;
use wq_live::{Answer, Sender};
use wq_pool::{
    Caller, Gate, NoGate, Pool, PoolFaultOf, PoolOf, Served, ServedOf, TurnOf, WorkedOf,
};
use wq_words::Layout;
use wq_worker::{Follow, Station, Work, Worker};

/// A work that keeps what it ran. Where an item from a number on ran it asks for one below 100.
#[derive(Drop)]
pub(crate) struct Logging {
    pub(crate) ran: Trail,
    pub(crate) order: ArrayVec<u32, 64>,
    asks_from: u32,
}

impl Logging {
    /// It asks for nothing.
    pub(crate) fn new() -> Logging
        ensures { result.ran.items ≡ [] }
    {
        Logging::asking(u32::MAX)
    }

    pub(crate) fn asking(asks_from: u32) -> Logging
        ensures { result.ran.items ≡ [] }
    {
        Logging {
            ran: Trail::new(),
            order: ArrayVec::new(),
            asks_from,
        }
    }
}

impl Work for Logging {
    ghost log = { λ w. w.ran.items };

    ghost may = { λ w k f v. Unit {0} };

    fn run(&mut self, item: u32) -> Follow {
        self.ran = self.ran.and(item);
        let _ = self.order.try_push(item);
        let mut follow = Follow::new();
        if item >= self.asks_from {
            let _ = follow.try_push(item % 100);
        }
        follow
    }
}

/// A gate that counts what was run.
#[derive(Drop)]
pub(crate) struct Counting {
    ran: AtomicU64,
}

impl Counting {
    pub(crate) fn new() -> Counting {
        Counting {
            ran: AtomicU64::new(0),
        }
    }

    pub(crate) fn count(&self) -> u64 {
        self.ran.load(SeqCst)
    }
}

impl Gate for Counting {
    fn before(&self, queue: u32, item: u32) {
        let _ = (queue, item);
    }

    fn after(&self, queue: u32, item: u32) {
        let _ = (queue, item);
        self.ran.fetch_add(1, SeqCst);
    }
}

/// The answer of a first push that wakes.
pub(crate) const WAKES: Answer = Answer::Queued {
    first: true,
    wakes: true,
};

/// The answer of a push behind others.
pub(crate) const QUEUED: Answer = Answer::Queued {
    first: false,
    wakes: false,
};

/// Queues an item of the queue in one try.
pub(crate) fn queue_item<R: Abort>(rt: &R, sender: &mut Sender, item: u32) -> Answer {
    assert!(rt; item < sender.layout().items);
    sender.queue_tries(item, 1)
}

/// A new queue, and the senders of it that are not its worker's.
pub(crate) fn new_queue<R: Abort, W: Work + Drop>(
    rt: &R,
    alloc: Global,
    layout: Layout,
    work: W,
) -> (Served<W>, Vec<Sender>)
    requires { W.log work ≡ [] }
    ensures { All (λ s. s.queue ≡ result.0.queue) result.1.items }
{
    let Ok((worker, senders)) = Worker::build(alloc, layout, work, 1) else {
        panic!(rt; "no memory for a queue")
    };
    (Served::new(worker), senders)
}

/// A queue of at least so many items, and its sender.
pub(crate) fn empty<R: Abort>(
    rt: &R,
    alloc: Global,
    items: u32,
    work: Logging,
) -> (Served<Logging>, Sender)
    requires { work.ran.items ≡ [] }
{
    let layout = Layout::new(items.max(4), 1, 2).expect(rt, "a layout");
    let (served, mut senders) = new_queue(rt, alloc, layout, work);
    let sender = senders.pop().expect(rt, "a sender");
    drop(senders);
    (served, sender)
}

/// A queue in which the items below a number are queued, and its sender.
pub(crate) fn filled<R: Abort>(rt: &R, alloc: Global, count: u32) -> (Served<Logging>, Sender) {
    let (served, mut sender) = empty(rt, alloc, count, Logging::new());
    for item in 0..count {
        queue_item(rt, &mut sender, item);
    }
    (served, sender)
}

/// Two queues, with so many items queued in each.
pub(crate) fn two_filled<R: Abort>(
    rt: &R,
    alloc: Global,
    first: u32,
    second: u32,
) -> Vec<Served<Logging>> {
    let (one, sender) = filled(rt, alloc, first);
    drop(sender);
    let (other, sender) = filled(rt, alloc, second);
    drop(sender);
    Vec::from_array(alloc, [one, other]).expect(rt, "memory")
}

/// So many queues, with so many items queued in each.
pub(crate) fn all_filled<R: Abort>(
    rt: &R,
    alloc: Global,
    queues: u32,
    count: u32,
) -> Vec<Served<Logging>> {
    let mut all = Vec::new(alloc);
    for _turn in 0..queues {
        let (served, sender) = filled(rt, alloc, count);
        drop(sender);
        all.push(served).expect(rt, "memory");
    }
    all
}

/// So many queues, with so many items and then the stop item queued in each.
pub(crate) fn to_stop<R: Abort>(
    rt: &R,
    alloc: Global,
    queues: u32,
    count: u32,
) -> Vec<Served<Logging>> {
    let mut all = Vec::new(alloc);
    for _turn in 0..queues {
        let (served, mut sender) = filled(rt, alloc, count);
        sender.request_stop(1);
        drop(sender);
        all.push(served).expect(rt, "memory");
    }
    all
}

pub(crate) fn take_last<R: Abort, K: Station>(
    rt: &R,
    pool: &PoolOf<K>,
    callers: &mut Vec<Caller>,
) -> Caller
    requires { All (IsCallerOf pool.now.ready) callers.old.items }
    ensures rest { All (IsCallerOf pool.now.ready) callers.new.items }
    ensures last { IsCallerOf pool.now.ready result }
{
    let _ = pool;
    callers.pop().expect(rt, "a caller")
}

/// A pool of these queues, a caller of it, and so many more for its workers.
pub(crate) fn new_pool_for<R: Abort, K: Station + Drop>(
    rt: &R,
    alloc: Global,
    queues: Vec<ServedOf<K>>,
    workers: u32,
) -> (PoolOf<K>, Caller, Vec<Caller>)
    ensures caller { IsCallerOf result.0.ready result.1 }
    ensures workers { All (IsCallerOf result.0.ready) result.2.items }
{
    let (pool, mut callers) = PoolOf::new(alloc, queues, workers.saturating_add(1)).expect(
        rt, "a pool",
    );
    let caller = take_last(rt, &pool, &mut callers);
    (pool, caller, callers)
}

/// A pool of these queues, and one caller of it.
pub(crate) fn new_pool<R: Abort, K: Station + Drop>(
    rt: &R,
    alloc: Global,
    queues: Vec<ServedOf<K>>,
) -> (PoolOf<K>, Caller)
    ensures { IsCallerOf result.0.ready result.1 }
{
    let (pool, caller, workers) = new_pool_for(rt, alloc, queues, 0);
    drop(workers);
    (pool, caller)
}

/// A pool of these queues, a caller of it, and one for a worker.
pub(crate) fn new_pool_with_worker<R: Abort, K: Station + Drop>(
    rt: &R,
    alloc: Global,
    queues: Vec<ServedOf<K>>,
) -> (PoolOf<K>, Caller, Caller)
    ensures caller { IsCallerOf result.0.ready result.1 }
    ensures worker { IsCallerOf result.0.ready result.2 }
{
    let (pool, caller, mut workers) = new_pool_for(rt, alloc, queues, 1);
    let worker = take_last(rt, &pool, &mut workers);
    drop(workers);
    (pool, caller, worker)
}

/// A caller with its pool.
#[derive(Drop)]
pub(crate) struct GuestOf<'a, K: Station> {
    pub(crate) pool: &'a PoolOf<K>,
    pub(crate) caller: Caller,
    ghost is_caller: { IsCallerOf pool.now.ready caller },
}

/// A caller of a pool of plain workers.
pub(crate) type Guest<'a> = GuestOf<'a, Worker<Logging>>;

impl<'a, K: Station + Drop> GuestOf<'a, K> {
    pub(crate) fn new(pool: &'a PoolOf<K>, caller: Caller) -> GuestOf<'a, K>
        requires { IsCallerOf pool.now.ready caller }
    {
        GuestOf { pool, caller }
    }

    pub(crate) fn announce<R: Wait>(&mut self, rt: &R, queue: u32) -> bool {
        self.pool.announce(rt, &mut self.caller, queue).is_ok()
    }

    /// Announces so many queues, from the first on.
    pub(crate) fn announce_all<R: Abort + Wait>(&mut self, rt: &R, queues: u32) {
        for queue in 0..queues {
            assert!(rt; self.announce(rt, queue));
        }
    }

    /// Announces a queue, picks one, works at it to its end and puts it back.
    pub(crate) fn serve<R: Abort + Wait, G: Gate>(&mut self, rt: &R, queue: u32, gate: &G) {
        assert!(rt; self.announce(rt, queue));
        let turn = self.pool.pick(rt, &mut self.caller).expect(rt, "a turn");
        let worked = work(rt, turn, 9, gate);
        self.pool.put_back(&mut self.caller, worked);
    }

    /// Does what the answer of a queueing on this queue asks for.
    pub(crate) fn wake<R: Abort + Wait>(&mut self, rt: &R, queue: u32, answer: Answer) {
        let woken = self.pool.wake(rt, &mut self.caller, queue, answer);
        assert!(rt; woken.is_ok());
    }

    /// Queues the stop item of a queue, by this sender of it.
    pub(crate) fn stop<R: Abort + Wait>(&mut self, rt: &R, queue: u32, sender: &mut Sender) {
        let answer = sender.request_stop(u32::MAX);
        self.wake(rt, queue, answer);
    }
}

impl<'a, K: Station + Drop + Send> GuestOf<'a, K> {
    /// Runs the pool, as its only worker.
    pub(crate) fn run<R: Abort + Threads + Wait + Sync, G: Gate + Sync>(
        &mut self,
        rt: &R,
        gate: &G,
    ) {
        self.pool
            .run(rt, slice::from_mut(&mut self.caller), gate)
            .expect(rt, "a thread");
    }
}

/// One worker runs its pool while another thread does this.
pub(crate) fn run_beside<R: Abort + Threads + Wait + Sync, G: Gate + Sync, F: FnOnce() + Send>(
    rt: &R,
    mut worker: Guest<'_>,
    gate: &G,
    deed: F,
)
    requires { F.IsAlwaysCallable deed }
{
    join(rt, || worker.run(rt, gate), deed);
    drop(worker);
}

/// So many callers with their pool, each under a lock of its own.
pub(crate) fn take_guests<'a, R: Abort>(
    rt: &R,
    alloc: Global,
    pool: &'a Pool<Logging>,
    callers: &mut Vec<Caller>,
    count: u32,
) -> Vec<Mutex<Guest<'a>>>
    requires { All (IsCallerOf pool.now.ready) callers.old.items }
    ensures { All (IsCallerOf pool.now.ready) callers.new.items }
{
    let mut guests = Vec::new(alloc);
    for _turn in 0..count {
        let caller = take_last(rt, pool, callers);
        guests
            .push(Mutex::new(Guest::new(pool, caller)))
            .expect(rt, "memory");
    }
    guests
}

/// Works at a queue to the end.
pub(crate) fn work<R: Abort, K: Station, G: Gate>(
    rt: &R,
    turn: TurnOf<K>,
    limit: u32,
    gate: &G,
) -> WorkedOf<K>
    ensures { result.slots ≡ turn.slots }
{
    match turn.work(limit, gate) {
        Ok(worked) => worked,
        Err(_) => panic!(rt; "something was left"),
    }
}

/// Works at a queue up to a limit, behind which something is left.
pub(crate) fn work_back<R: Abort, K: Station, G: Gate>(
    rt: &R,
    turn: TurnOf<K>,
    limit: u32,
    gate: &G,
) -> TurnOf<K>
    ensures { result.slots ≡ turn.slots }
{
    match turn.work(limit, gate) {
        Ok(_) => panic!(rt; "nothing was left"),
        Err(turn) => turn,
    }
}

/// Announces a queue and works at it to the end, as the only one that is announced.
pub(crate) fn serve_queue<R: Abort + Wait, K: Station + Drop>(
    rt: &R,
    pool: &PoolOf<K>,
    caller: &mut Caller,
    queue: u32,
)
    requires { IsCallerOf pool.now.ready caller.old }
    ensures { IsCallerOf pool.now.ready caller.new }
{
    pool.announce(rt, caller, queue).expect(rt, "room");
    let turn = pool.pick(rt, caller).expect(rt, "a turn");
    let worked = work(rt, turn, 9, &NoGate);
    assert!(rt; worked.queue() == queue);
    pool.put_back(caller, worked);
}

/// Finishes a pool of which this queue is out, and gives it back.
pub(crate) fn finish_out<R: Abort, K: Station + Drop>(
    rt: &R,
    pool: PoolOf<K>,
    limit: u32,
    out: u32,
) -> PoolOf<K>
where
    K::Work: Drop,
    K::Book: Drop,
    ensures { result ≡ pool }
{
    match pool.finish(limit) {
        Err(PoolFaultOf::Out { pool, queue }) => {
            expect_same(rt, queue, out);
            pool
        }
        _ => panic!(rt; "no queue was out"),
    }
}

/// Finishes a pool that is not executed within the limit, and gives it back. The queue that is named and what is left of it are
/// these.
pub(crate) fn finish_unfinished<R: Abort, K: Station + Drop>(
    rt: &R,
    pool: PoolOf<K>,
    limit: u32,
    unfinished: (u32, u32),
) -> PoolOf<K>
where
    K::Work: Drop,
    K::Book: Drop,
    ensures { result ≡ pool }
{
    match pool.finish(limit) {
        Err(PoolFaultOf::Unfinished { pool, queue, left }) => {
            expect_same(rt, (queue, left), unfinished);
            pool
        }
        _ => panic!(rt; "nothing was left"),
    }
}

/// Finishes a pool of so many queues, with so many executions of each.
pub(crate) fn finish_all<R: Abort, K: Station + Drop>(
    rt: &R,
    pool: PoolOf<K>,
    limit: u32,
    queues: usize,
)
where
    K::Work: Drop,
    K::Book: Drop,
{
    let finished = pool.finish(limit).expect(rt, "all finished");
    expect_same(rt, finished.len(), queues);
    drop(finished);
}

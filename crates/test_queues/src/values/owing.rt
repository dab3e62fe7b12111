//! Pairs that a worker could not queue, since two senders push in between: they go on in the next call.
ghost use Rattle.std.specs.Prelude.{◌≡◌, []};

use super::drops::{alive, share};
use super::reading::queue_once;
use super::worker::{destroy, new_worker, take_last};
use crate::balance::balance_values_met;
use crate::expect::expect_same;
use crate::patience::Patience;
use std::alloc::Global;
use std::process::Abort;
use std::sync::atomic::AtomicU64;
use std::sync::atomic::Ordering::SeqCst;
use std::sync::{Arc, Wait};
use std::thread::{Threads, join_mut};
use std::time::Clock;
use wq_value_worker::{ValueFollow, ValueWork, ValueWorker};
use wq_values::ValueSender;
use wq_worker::Ran;

/// What an item brings: a number, and a share in a value that counts its shares, which only the work's own pairs have.
#[derive(Drop)]
struct Share {
    number: u64,
    held: Option<Arc<u32>>,
}

/// A work that asks, where an item below 50 runs, for the next of these and the next of the 50 after them. Each of its pairs brings
/// the number behind that of the run. It asks for no more where it is over.
#[derive(Drop)]
struct Restless<'a, R: Abort> {
    rt: &'a R,
    shared: Arc<u32>,
    ran: Vec<(u32, Share)>,
    came_back: Vec<(u32, Share)>,
    is_over: bool,
    // How many of its own ran.
    own: u64,
    asked: u64,
    are_own: bool,
}

impl<'a, R: Abort> Restless<'a, R> {
    fn new(rt: &'a R, alloc: Global, shared: Arc<u32>) -> Restless<'a, R>
        ensures { result.ran.items ≡ [] }
    {
        Restless {
            rt,
            shared,
            ran: Vec::new(alloc),
            came_back: Vec::new(alloc),
            is_over: false,
            own: 0,
            asked: 0,
            are_own: true,
        }
    }

    /// Looks whether one of its own is the next: of either row in turn, with their next number. A sender's brings its item's number.
    fn check(&mut self, item: u32, number: u64)
        ensures { (self.new.ran ≡ self.old.ran) × (self.new.came_back ≡ self.old.came_back) }
    {
        if item >= 100 {
            self.are_own = self.are_own && number == u64::from(item);
            return;
        }
        let row = u64::from(item / 50);
        let is_in_order = number.wrapping_mul(2).wrapping_add(row) == self.own;
        let is_its_item = u64::from(item % 50) == number % 50;
        self.are_own = self.are_own && is_in_order && is_its_item;
        self.own = self.own.wrapping_add(1);
    }

    fn ask(&mut self, number: u64) -> ValueFollow<Share>
        ensures { (self.new.ran ≡ self.old.ran) × (self.new.came_back ≡ self.old.came_back) }
    {
        let mut follow = ValueFollow::new();
        self.asked = number;
        for &row in &[0u32, 50] {
            let value = Share {
                number,
                held: Arc::try_clone(&self.shared).ok(),
            };
            let _ = follow.push(row.wrapping_add((number % 50) as u32), value);
        }
        follow
    }
}

impl<'a, R: Abort> ValueWork<Share> for Restless<'a, R> {
    ghost log = { λ w. w.ran.items };

    ghost given = { λ w. w.came_back.items };

    ghost may = { λ w k v f u. Unit {0} };

    ghost takes = { λ w k v u. Unit {0} };

    fn run(&mut self, item: u32, value: Share) -> ValueFollow<Share> {
        let number = value.number;
        self.ran.push((item, value)).expect(self.rt, "memory");
        self.check(item, number);
        if item < 50 && !self.is_over {
            self.ask(number.wrapping_add(1))
        } else {
            ValueFollow::new()
        }
    }

    fn returned(&mut self, item: u32, value: Share) {
        self.came_back.push((item, value)).expect(self.rt, "memory");
    }
}

/// Queues 100 items over and over, each with one try and with its own number.
fn queue_often(sender: &mut ValueSender<Share>, first: u32)
    ensures { sender.new.known.queue ≡ sender.old.known.queue }
{
    for turn in 0..100_000u32 {
        let item = first.wrapping_add(turn % 100);
        let value = Share {
            number: u64::from(item),
            held: None,
        };
        queue_once(sender, item, value);
    }
}

/// Two senders queue their items in threads.
fn disturb<R: Threads + Sync>(
    rt: &R,
    first: &mut ValueSender<Share>,
    second: &mut ValueSender<Share>,
    is_done: &AtomicU64,
)
    ensures { (first.new.known.queue ≡ first.old.known.queue) × (second.new.known.queue ≡ second.old.known.queue) }
{
    join_mut(
        rt,
        &mut || queue_often(first, 100),
        &mut || queue_often(second, 200),
    );
    is_done.store(1, SeqCst);
}

/// Runs until the senders are done, or, where that is wanted, until an execution is owed. How often one was.
fn run_beside<R: Wait, W: ValueWork<Share>>(
    rt: &R,
    worker: &mut ValueWorker<Share, W>,
    is_done: &AtomicU64,
    most: u32,
) -> u32
    ensures { worker.new.worker.queue ≡ worker.old.worker.queue }
{
    let mut owed = 0u32;
    for _ in rt.forever() {
        if let Ran::Owing(_) = worker.run_one() {
            owed = owed.wrapping_add(1);
        }
        if owed >= most || is_done.load(SeqCst) > 0 {
            return owed;
        }
    }
    unreachable!()
}

/// A worker of a queue of 300 items, and the two senders that disturb it.
#[derive(Drop)]
struct Disturbed<'a, R: Abort> {
    worker: ValueWorker<Share, Restless<'a, R>>,
    first: ValueSender<Share>,
    second: ValueSender<Share>,
}

/// Queues the first item of a row.
fn queue_first(sender: &mut ValueSender<Share>, item: u32)
    ensures { sender.new.known.queue ≡ sender.old.known.queue }
{
    let value = Share {
        number: 0,
        held: None,
    };
    queue_once(sender, item, value);
}

/// The first pairs of both rows stand on the queue.
fn new_disturbed<'a, R: Abort>(rt: &'a R, alloc: Global, shared: &Arc<u32>) -> Disturbed<'a, R>
    ensures first { result.first.known.queue ≡ result.worker.worker.queue }
    ensures second { result.second.known.queue ≡ result.worker.worker.queue }
{
    let work = Restless::new(rt, alloc, share(rt, shared));
    let (worker, mut senders) = new_worker(rt, alloc, 300, work);
    let second = take_last(rt, &worker, &mut senders);
    let mut first = take_last(rt, &worker, &mut senders);
    queue_first(&mut first, 0);
    queue_first(&mut first, 50);
    drop(senders);
    Disturbed {
        worker,
        first,
        second,
    }
}

/// Runs beside two senders until they are done, or, where that is wanted, until an execution is owed. How often one was.
fn run_disturbed<R: Threads + Wait + Sync, W: ValueWork<Share> + Send>(
    rt: &R,
    worker: &mut ValueWorker<Share, W>,
    first: &mut ValueSender<Share>,
    second: &mut ValueSender<Share>,
    most: u32,
) -> u32
    ensures worker { worker.new.worker.queue ≡ worker.old.worker.queue }
    ensures senders { (first.new.known.queue ≡ first.old.known.queue) × (second.new.known.queue ≡ second.old.known.queue) }
{
    let is_done = AtomicU64::new(0);
    let (owed, _) = join_mut(
        rt,
        &mut || run_beside(rt, worker, &is_done, most),
        &mut || disturb(rt, first, second, &is_done),
    );
    owed
}

/// Runs beside two senders again and again until an execution was owed, for as long as the test has patience. Whether one was.
fn run_until_owing<R: Clock + Threads + Wait + Sync, W: ValueWork<Share> + Send>(
    rt: &R,
    worker: &mut ValueWorker<Share, W>,
    first: &mut ValueSender<Share>,
    second: &mut ValueSender<Share>,
    most: u32,
) -> bool
    ensures worker { worker.new.worker.queue ≡ worker.old.worker.queue }
    ensures senders { (first.new.known.queue ≡ first.old.known.queue) × (second.new.known.queue ≡ second.old.known.queue) }
{
    let patience = Patience::begin(rt);
    for _ in 0..u32::MAX {
        if run_disturbed(rt, worker, first, second, most) > 0 {
            return true;
        }
        if patience.is_over(rt) {
            return false;
        }
    }
    false
}

/// Seats whose worker has run beside both senders and owed an execution. Where `most` is 1, it owes it still.
fn new_owing<'a, R: Abort + Clock + Threads + Wait + Sync>(
    rt: &'a R,
    alloc: Global,
    shared: &Arc<u32>,
    most: u32,
) -> Disturbed<'a, R>
    ensures first { result.first.known.queue ≡ result.worker.worker.queue }
    ensures second { result.second.known.queue ≡ result.worker.worker.queue }
{
    let Disturbed {
        mut worker,
        mut first,
        mut second,
    } = new_disturbed(rt, alloc, shared);
    let is_owing = run_until_owing(rt, &mut worker, &mut first, &mut second, most);
    assert!(rt; is_owing);
    Disturbed {
        worker,
        first,
        second,
    }
}

/// A pair whose queueing is contended is owed, and the next call goes on with it and its value, and with those behind it: each pair
/// is run once, in order, with its own value, and none comes back.
#[test]
fn contended_pair_goes_on(rt: HostRuntime) {
    let shared = Arc::new(rt.alloc(), 7u32).expect(&rt, "a value");
    let Disturbed {
        mut worker,
        mut first,
        mut second,
    } = new_owing(&rt, rt.alloc(), &shared, u32::MAX);
    worker.adjust(|work: &mut Restless<'_, HostRuntime>| work.is_over = true);
    let (work, mut book) = destroy(&rt, worker, 1000);
    let own = work.asked.wrapping_add(1).wrapping_mul(2);
    expect_same(&rt, (work.own, work.are_own), (own, true));
    let held = usize::try_from(work.asked).unwrap_or(0).wrapping_mul(2);
    expect_same(
        &rt,
        (work.came_back.len(), alive(&shared)),
        (0, held.wrapping_add(1)),
    );
    drop(work);
    expect_same(&rt, alive(&shared), 0);
    let totals = balance_values_met(&mut book, &mut first, &mut second).expect(&rt, "a balance");
    expect_same(
        &rt,
        totals.queued.wrapping_add(totals.chained),
        totals.executed,
    );
    assert!(rt; totals.contended > 0);
    drop(book);
    drop(second);
    drop(first);
}

/// A worker that owes an execution is ready for no number, though one waits, and is ready for one once that execution has ended.
#[test]
fn owing_worker_is_not_ready(rt: HostRuntime) {
    let shared = Arc::new(rt.alloc(), 7u32).expect(&rt, "a value");
    let Disturbed {
        mut worker,
        first,
        mut second,
    } = new_owing(&rt, rt.alloc(), &shared, 1);
    drop(first);
    queue_first(&mut second, 50);
    expect_same(&rt, worker.ready(), None);
    let ended = worker.run_one();
    assert!(rt; matches!(ended, Ran::Item(_)));
    assert!(rt; worker.ready().is_some());
    drop(second);
    drop(worker);
}

/// A worker that goes with an execution owed drops the pairs that it has not queued, and each once.
#[test]
fn owed_pairs_are_dropped_with_the_worker(rt: HostRuntime) {
    let shared = Arc::new(rt.alloc(), 7u32).expect(&rt, "a value");
    let Disturbed {
        worker,
        first,
        second,
    } = new_owing(&rt, rt.alloc(), &shared, 1);
    assert!(rt; alive(&shared) > 2);
    drop(worker);
    drop(first);
    drop(second);
    expect_same(&rt, alive(&shared), 0);
}

//! Executions that are owed, since two senders push in between.
ghost use Rattle.std.specs.Prelude.{◌≡◌, []};

use crate::balance::balance_met;
use crate::expect::expect_same;
use crate::patience::Patience;
use crate::seats::queue_item;
use crate::worker::crew::{Job, queue_pair};
use crate::worker::team::{Team, destroy, new_parker, new_team, serve};
use crossbeam_utils::sync::{Parker, Unparker};
use std::process::Abort;
use std::sync::Wait;
use std::sync::atomic::AtomicU64;
use std::thread::{Threads, join_mut, sleep};
use std::time::{Clock, Duration};
use trail::Trail;
use wq_live::{Answer, Sender};
use wq_worker::{Follow, Work, Worker};

/// A work whose items below a number ask for the next one in a ring, so that one of them waits while the number is not 0, unless
/// one was lost.
#[derive(Drop)]
struct Restless {
    below: u32,
    ran: Trail,
}

impl Restless {
    fn new(below: u32) -> Restless
        ensures { result.ran.items ≡ [] }
    {
        Restless {
            below,
            ran: Trail::new(),
        }
    }
}

impl Work for Restless {
    ghost log = { λ w. w.ran.items };

    ghost may = { λ w k f v. Unit {0} };

    fn run(&mut self, item: u32) -> Follow {
        self.ran = self.ran.and(item);
        let mut follow = Follow::new();
        if item < self.below {
            let _ = follow.try_push((item + 1) % self.below);
        }
        follow
    }
}

/// Queues 100 items over and over, each with one try. It never looks what it is answered.
pub(crate) fn queue_often<R: Abort>(rt: &R, sender: &mut Sender) -> u32
    ensures { sender.new.queue ≡ sender.old.queue }
{
    let first = sender.number().wrapping_mul(100).wrapping_add(100);
    for turn in 0..100_000u32 {
        queue_item(rt, sender, first.wrapping_add(turn % 100));
    }
    0
}

fn request_stop(sender: &mut Sender) -> Answer
    ensures { sender.new.queue ≡ sender.old.queue }
{
    sender.request_stop(u32::MAX)
}

/// Requests the stop until a request finds it executed, for ten seconds at most.
fn stops_by_itself<R: Clock>(rt: &R, sender: &mut Sender) -> bool
    ensures { sender.new.queue ≡ sender.old.queue }
{
    for turn in 0..10_000u32 {
        if request_stop(sender) != Answer::Pending && turn > 0 {
            return true;
        }
        sleep(rt, Duration::from_millis(1));
    }
    false
}

/// Two senders queue their items in threads, and then the first requests the stop. Only after that the worker is unparked.
fn disturb<R: Abort + Clock + Threads + Wait + Sync>(
    rt: &R,
    first: &mut Sender,
    second: &mut Sender,
    unparker: &Unparker,
) -> bool
    ensures { (first.new.queue ≡ first.old.queue) × (second.new.queue ≡ second.old.queue) }
{
    let met = AtomicU64::new(0);
    queue_pair(rt, first, second, Job::Often, unparker, &met);
    let is_stopped = stops_by_itself(rt, first);
    unparker.unpark();
    is_stopped
}

/// Serves while two senders disturb, again and again until an execution was owed, for as long as the test has patience. Whether one
/// was, and the worker came to each stop item without being unparked.
fn serve_until_owing<R: Abort + Clock + Threads + Wait + Sync>(
    rt: &R,
    worker: &mut Worker<Restless>,
    parker: &mut Parker,
    unparker: &Unparker,
    first: &mut Sender,
    second: &mut Sender,
) -> bool
    ensures worker { worker.new.queue ≡ worker.old.queue }
    ensures senders { (first.new.queue ≡ first.old.queue) × (second.new.queue ≡ second.old.queue) }
{
    let patience = Patience::begin(rt);
    for _ in 0..u32::MAX {
        let (_, is_stopped) = join_mut(
            rt,
            &mut || serve(rt, worker, parker),
            &mut || disturb(rt, first, second, unparker),
        );
        if !is_stopped {
            return false;
        }
        if worker.counts().contended > 0 {
            return true;
        }
        if patience.is_over(rt) {
            return false;
        }
        // The last request found the stop item executed and queued it once more.
        serve(rt, worker, parker);
    }
    false
}

/// Whether the ring goes on once the stop item that was requested last has run.
fn ring_goes_on(worker: &mut Worker<Restless>) -> bool
    ensures { worker.new.queue ≡ worker.old.queue }
{
    let _ = worker.run_some(1000);
    worker.run_some(1000) == 1000
}

/// Destroys a worker that owed an execution, with what is left: the book balances.
fn check_balance<R: Abort>(
    rt: &R,
    mut worker: Worker<Restless>,
    first: &mut Sender,
    second: &mut Sender,
)
    requires { (first.old.queue ≡ worker.queue) × (second.old.queue ≡ worker.queue) }
{
    worker.adjust(|work: &mut Restless| work.below = 0);
    let (_work, mut book) = destroy(rt, worker, 1000);
    let totals = balance_met(&mut book, first, second).expect(rt, "a balance");
    expect_same(
        rt,
        totals.queued.wrapping_add(totals.chained),
        totals.executed,
    );
    assert!(rt; totals.contended > 0);
    drop(book);
}

/// An execution is owed where the worker's one try is lost to another sender. A worker that serves goes on at once there, the item
/// that was to be queued is not lost, and the book balances.
#[test]
fn owing_goes_on(rt: HostRuntime) {
    let (mut parker, unparker) = new_parker(&rt, rt.alloc());
    let Team {
        mut worker,
        mut first,
        mut second,
    } = new_team(&rt, rt.alloc(), 300, Restless::new(100));
    queue_item(&rt, &mut first, 0);
    let is_owing = serve_until_owing(
        &rt,
        &mut worker,
        &mut parker,
        &unparker,
        &mut first,
        &mut second,
    );
    assert!(rt; is_owing);
    assert!(rt; ring_goes_on(&mut worker));
    check_balance(&rt, worker, &mut first, &mut second);
    drop(second);
    drop(first);
}

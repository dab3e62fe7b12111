//! A turn that owes an execution, since two senders push in between.
ghost use Rattle.std.specs.Prelude.{◌≡◌};

use crate::expect::expect_same;
use crate::patience::Patience;
use crate::pool::team::{Guest, Logging, finish_all, new_pool, new_queue, queue_item};
use std::alloc::Global;
use std::cell::Cell;
use std::process::Abort;
use std::sync::Wait;
use std::sync::atomic::AtomicU64;
use std::sync::atomic::Ordering::SeqCst;
use std::thread::{Threads, join};
use std::time::Clock;
use wq_live::Sender;
use wq_pool::{Gate, Served, Turn, Worked};
use wq_words::Layout;

/// Which item runs, by the calls of the gate, and whether each began where none ran, and ended where it ran.
#[derive(Drop)]
struct Pairing {
    running: Cell<Option<u32>>,
    are_pairs: Cell<bool>,
}

impl Pairing {
    fn new() -> Pairing {
        Pairing {
            running: Cell::new(None),
            are_pairs: Cell::new(true),
        }
    }

    fn change(&self, from: Option<u32>, to: Option<u32>) {
        if self.running.replace(to) != from {
            self.are_pairs.set(false);
        }
    }

    /// Panics unless all calls were pairs, but for one item that runs still, or for none.
    fn expect_pairs_but<R: Abort>(&self, rt: &R, is_running: bool) {
        expect_same(rt, self.running.get().is_some(), is_running);
        expect_same(rt, self.are_pairs.get(), true);
    }
}

impl Gate for Pairing {
    fn before(&self, queue: u32, item: u32) {
        let _ = queue;
        self.change(None, Some(item));
    }

    fn after(&self, queue: u32, item: u32) {
        let _ = queue;
        self.change(Some(item), None);
    }
}

/// A queue whose work asks for an item below 100 after each other item, and two senders of it.
struct Disturbed {
    queues: Vec<Served<Logging>>,
    first: Sender,
    second: Sender,
}

fn new_disturbed<R: Abort>(rt: &R, alloc: Global) -> Disturbed {
    let layout = Layout::new(300, 1, 3).expect(rt, "a layout");
    let (served, mut senders) = new_queue(rt, alloc, layout, Logging::asking(100));
    let first = senders.pop().expect(rt, "a sender");
    let second = senders.pop().expect(rt, "a second sender");
    drop(senders);
    Disturbed {
        queues: Vec::from_array(alloc, [served]).expect(rt, "memory"),
        first,
        second,
    }
}

/// Queues 100 items over and over, each with one try.
fn queue_often<R: Abort>(rt: &R, sender: &mut Sender, first: u32) {
    for turn in 0..100_000u32 {
        queue_item(rt, sender, first.wrapping_add(turn % 100));
    }
}

/// Two senders queue their items in threads.
fn disturb<R: Abort + Threads + Sync>(
    rt: &R,
    first: &mut Sender,
    second: &mut Sender,
    is_done: &AtomicU64,
) {
    join(
        rt,
        || queue_often(rt, first, 100),
        || queue_often(rt, second, 200),
    );
    is_done.store(1, SeqCst);
}

fn work_whole<R: Wait>(rt: &R, mut turn: Turn<Logging>, gate: &Pairing) -> Worked<Logging>
    ensures { result.slots ≡ turn.slots }
{
    for _ in rt.forever() {
        match turn.work(1024, gate) {
            Ok(worked) => return worked,
            Err(same) => turn = same,
        }
    }
    unreachable!()
}

/// Goes on at a turn that owes an execution. It owes it still where nothing may be executed.
fn go_on<R: Abort + Wait>(rt: &R, turn: Turn<Logging>, gate: &Pairing) -> Worked<Logging>
    ensures { result.slots ≡ turn.slots }
{
    match turn.work(0, gate) {
        Ok(_) => panic!(rt; "it owed nothing"),
        Err(same) => work_whole(rt, same, gate),
    }
}

/// Works with no limit within reach, and says whether the turn was given back, since it owed an execution.
fn work_owing<R: Abort + Wait>(
    rt: &R,
    turn: Turn<Logging>,
    gate: &Pairing,
) -> (Worked<Logging>, bool)
    ensures { result.0.slots ≡ turn.slots }
{
    match turn.work(u32::MAX, gate) {
        Ok(worked) => (worked, false),
        Err(owing) => {
            gate.expect_pairs_but(rt, true);
            (go_on(rt, owing, gate), true)
        }
    }
}

/// Serves the queue once.
fn serve_once<R: Abort + Wait>(rt: &R, guest: &mut Guest<'_>) -> bool {
    guest.announce(rt, 0);
    let Some(turn) = guest.pool.pick(rt, &mut guest.caller) else {
        return false;
    };
    let gate = Pairing::new();
    let (worked, is_owing) = work_owing(rt, turn, &gate);
    gate.expect_pairs_but(rt, false);
    guest.pool.put_back(&mut guest.caller, worked);
    is_owing
}

/// Serves the queue over and over until a turn owed an execution, or the senders are done.
fn serve_until_owing<R: Abort + Wait>(rt: &R, guest: &mut Guest<'_>, is_done: &AtomicU64) -> bool {
    for _ in rt.forever() {
        if serve_once(rt, guest) {
            return true;
        }
        if is_done.load(SeqCst) > 0 {
            return false;
        }
    }
    unreachable!()
}

/// Whether a turn owed an execution while two senders disturbed.
fn owes_once<R: Abort + Threads + Wait + Sync>(
    rt: &R,
    guest: &mut Guest<'_>,
    first: &mut Sender,
    second: &mut Sender,
) -> bool {
    let is_done = AtomicU64::new(0);
    let (is_owing, _) = join(
        rt,
        || serve_until_owing(rt, guest, &is_done),
        || disturb(rt, first, second, &is_done),
    );
    is_owing
}

/// Whether a turn owed an execution, while two senders disturbed again and again, for as long as the test has patience.
fn owes_at_last<R: Abort + Clock + Threads + Wait + Sync>(
    rt: &R,
    guest: &mut Guest<'_>,
    first: &mut Sender,
    second: &mut Sender,
) -> bool {
    let patience = Patience::begin(rt);
    for _ in 0..u32::MAX {
        if owes_once(rt, guest, first, second) {
            return true;
        }
        if patience.is_over(rt) {
            return false;
        }
    }
    false
}

/// A turn is given back where it owes an execution, which it does where the worker's one try is lost to another sender. The
/// next turn goes on with it. The gate is called before it in the first turn, and after it in the last.
#[test]
fn owing_is_given_back(rt: HostRuntime) {
    let Disturbed {
        queues,
        mut first,
        mut second,
    } = new_disturbed(&rt, rt.alloc());
    let (pool, caller) = new_pool(&rt, rt.alloc(), queues);
    let mut guest = Guest::new(&pool, caller);
    assert!(rt; owes_at_last(&rt, &mut guest, &mut first, &mut second));
    drop(guest);
    finish_all(&rt, pool, 1000, 1);
    drop(second);
    drop(first);
}

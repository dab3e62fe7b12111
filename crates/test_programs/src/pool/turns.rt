//! Turns at a queue: their limit, the gate around each execution, and one that is dropped.
ghost use Rattle.std.specs.Prelude.{◌≡◌, []};
ghost use Rattle.wq_ready.specs.Known.{IsCallerOf};

use crate::expect::expect_same;
use crate::pool::team::{
    Logging, finish_out, new_pool, new_queue, queue_item, two_filled, work, work_back,
};
use std::alloc::Global;
use std::cell::Cell;
use std::process::Abort;
use std::sync::Wait;
use trail::Trail;
use wq_live::Sender;
use wq_pool::{Caller, Gate, NoGate, Pool, Served, TurnOf, WorkedOf};
use wq_words::Layout;
use wq_worker::{Follow, Station, Work};

/// Notes each call by a digit: 1 and 2 before and after item 0, 3 and 4 before and after item 1, and so on, and 9 for a run.
#[derive(Drop)]
struct Noting {
    digits: Cell<u64>,
}

impl Noting {
    fn note(&self, digit: u32) {
        let shifted = self.digits.get().wrapping_mul(10);
        self.digits.set(shifted.wrapping_add(u64::from(digit)));
    }
}

impl Gate for Noting {
    fn before(&self, queue: u32, item: u32) {
        let _ = queue;
        self.note(item.wrapping_mul(2).wrapping_add(1));
    }

    fn after(&self, queue: u32, item: u32) {
        let _ = queue;
        self.note(item.wrapping_mul(2).wrapping_add(2));
    }
}

/// A work that notes its runs where the gate notes its calls.
#[derive(Drop)]
struct Noted<'a> {
    ran: Trail,
    notes: &'a Noting,
}

impl<'a> Noted<'a> {
    fn new(notes: &'a Noting) -> Noted<'a>
        ensures { result.ran.items ≡ [] }
    {
        Noted {
            ran: Trail::new(),
            notes,
        }
    }
}

impl<'a> Work for Noted<'a> {
    ghost log = { λ w. w.ran.items };

    ghost may = { λ w k f v. Unit {0} };

    fn run(&mut self, item: u32) -> Follow {
        self.ran = self.ran.and(item);
        self.notes.note(9);
        Follow::new()
    }
}

/// Queues item 0, a barrier, item 1 and the stop item.
fn queue_four<R: Abort>(rt: &R, sender: &mut Sender) {
    queue_item(rt, sender, 0);
    assert!(rt; 0 < sender.layout().barriers);
    sender.flush_begin(0, 1);
    queue_item(rt, sender, 1);
    sender.request_stop(1);
}

/// A queue on which two items, a barrier and the stop item stand, and whose runs are noted.
fn noted_queue<'a, R: Abort>(rt: &R, alloc: Global, notes: &'a Noting) -> Vec<Served<Noted<'a>>> {
    let layout = Layout::new(2, 1, 2).expect(rt, "a layout");
    let (served, mut senders) = new_queue(rt, alloc, layout, Noted::new(notes));
    let mut sender = senders.pop().expect(rt, "a sender");
    queue_four(rt, &mut sender);
    drop(sender);
    drop(senders);
    Vec::from_array(alloc, [served]).expect(rt, "memory")
}

/// Works at a queue in three calls, the first two of which come to their limit.
fn work_thrice<R: Abort, K: Station>(rt: &R, turn: TurnOf<K>, gate: &Noting) -> WorkedOf<K>
    ensures { result.slots ≡ turn.slots }
{
    let turn = work_back(rt, turn, 0, gate);
    expect_same(rt, gate.digits.get(), 0);
    let turn = work_back(rt, turn, 2, gate);
    expect_same(rt, gate.digits.get(), 192);
    let worked = work(rt, turn, 2, gate);
    expect_same(rt, (gate.digits.get(), worked.queue()), (192_394, 0));
    worked
}

/// A turn executes up to its limit and is given back where something waits. The gate is called before and after the run of each
/// item, and neither for a barrier nor for the stop item.
#[test]
fn given_back_at_its_limit(rt: HostRuntime) {
    let gate = Noting {
        digits: Cell::new(0),
    };
    let (pool, mut caller) = new_pool(&rt, rt.alloc(), noted_queue(&rt, rt.alloc(), &gate));
    pool.announce(&rt, &mut caller, 0).expect(&rt, "room");
    let turn = pool.pick(&rt, &mut caller).expect(&rt, "a turn");
    pool.put_back(&mut caller, work_thrice(&rt, turn, &gate));
    drop(caller);
    drop(pool);
}

/// Drops the turn at the queue that was announced first, and serves the one behind it.
fn drop_first<R: Abort + Wait>(rt: &R, pool: &Pool<Logging>, caller: &mut Caller)
    requires { IsCallerOf pool.now.ready caller.old }
    ensures { IsCallerOf pool.now.ready caller.new }
{
    drop(pool.pick(rt, caller).expect(rt, "a turn"));
    let turn = pool.pick(rt, caller).expect(rt, "a second turn");
    let worked = work(rt, turn, 9, &NoGate);
    expect_same(rt, worked.queue(), 0);
    pool.put_back(caller, worked);
}

/// A turn that is dropped leaves its queue out, and the other queue is served.
#[test]
fn dropped_stays_out(rt: HostRuntime) {
    let queues = two_filled(&rt, rt.alloc(), 1, 1);
    let (pool, mut caller) = new_pool(&rt, rt.alloc(), queues);
    pool.announce(&rt, &mut caller, 1).expect(&rt, "room");
    pool.announce(&rt, &mut caller, 0).expect(&rt, "room");
    drop_first(&rt, &pool, &mut caller);
    let pool = finish_out(&rt, pool, 9, 1);
    assert!(rt; pool.pick(&rt, &mut caller).is_none());
    drop(pool);
    drop(caller);
}

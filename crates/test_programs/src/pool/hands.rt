//! Callers that pick, work and put back in threads of their own.
ghost use Rattle.std.specs.Prelude.{All};
ghost use Rattle.wq_ready.specs.Known.{IsCallerOf};

use crate::expect::expect_same;
use crate::pool::team::{
    Counting, Guest, Logging, filled, finish_all, queue_item, take_guests, work,
};
use std::alloc::Global;
use std::process::Abort;
use std::sync::atomic::AtomicU64;
use std::sync::atomic::Ordering::SeqCst;
use std::sync::{Mutex, Wait};
use std::thread::{Threads, for_each_mut, yield_now};
use wq_live::{Answer, Sender};
use wq_pool::{Caller, Pool, Served};

const QUEUES: u32 = 3;

const THREADS: u32 = 4;

/// So many items are run before the threads end.
const ITEMS: u64 = 10_000;

/// What the threads share: the senders by their queues' places, how often they queued, and the gate.
#[derive(Drop)]
struct Board {
    senders: Vec<Mutex<Sender>>,
    queued: AtomicU64,
    gate: Counting,
}

impl Board {
    /// Queues an item of the queue.
    fn queue<R: Abort + Wait>(&self, rt: &R, queue: u32, item: u32) {
        let sender = self.senders.get(queue as usize).expect(rt, "a sender");
        let answer = queue_item(rt, &mut sender.lock(rt), item);
        if matches!(answer, Answer::Queued { .. }) {
            self.queued.fetch_add(1, SeqCst);
        }
    }

    fn has_run_all(&self) -> bool {
        self.gate.count() >= ITEMS
    }
}

/// Empty queues, and a board with their senders.
fn open_board<R: Abort>(rt: &R, alloc: Global) -> (Vec<Served<Logging>>, Board) {
    let mut queues = Vec::new(alloc);
    let mut senders = Vec::new(alloc);
    for _turn in 0..QUEUES {
        let (served, sender) = filled(rt, alloc, 0);
        queues.push(served).expect(rt, "memory");
        senders.push(Mutex::new(sender)).expect(rt, "memory");
    }
    let board = Board {
        senders,
        queued: AtomicU64::new(0),
        gate: Counting::new(),
    };
    (queues, board)
}

/// Picks a queue, queues two items of it, announces it again while it is in hand, works and puts it back. False where none was
/// announced.
fn serve_next<R: Abort + Wait>(rt: &R, guest: &mut Guest<'_>, board: &Board) -> bool {
    let Some(turn) = guest.pool.pick(rt, &mut guest.caller) else {
        return false;
    };
    board.queue(rt, turn.queue(), 0);
    board.queue(rt, turn.queue(), 3);
    let announced = guest.pool.announce(rt, &mut guest.caller, turn.queue());
    assert!(rt; announced.is_ok());
    let worked = work(rt, turn, 9, &board.gate);
    guest.pool.put_back(&mut guest.caller, worked);
    true
}

fn serve_all<R: Abort + Wait>(rt: &R, guest: &mut Guest<'_>, board: &Board) {
    for _ in rt.forever() {
        if board.has_run_all() {
            return;
        }
        if !serve_next(rt, guest, board) {
            yield_now();
        }
    }
}

fn serve_in_threads<R: Abort + Threads + Wait + Sync>(
    rt: &R,
    guests: &mut [Mutex<Guest<'_>>],
    board: &Board,
) {
    let serve = |_place: usize, guest: &mut Mutex<Guest<'_>>| serve_all(rt, guest.get_mut(), board);
    for_each_mut(rt, guests, THREADS as usize, &serve);
}

/// Threads serve the queues that the board has the senders of.
fn serve_board<R: Abort + Threads + Wait + Sync>(
    rt: &R,
    alloc: Global,
    pool: &Pool<Logging>,
    mut callers: Vec<Caller>,
    board: &Board,
)
    requires { All (IsCallerOf pool.now.ready) callers.items }
{
    let mut guests = take_guests(rt, alloc, pool, &mut callers, THREADS);
    if let Some(guest) = guests.first_mut() {
        guest.get_mut().announce_all(rt, QUEUES);
    }
    serve_in_threads(rt, guests.as_mut_slice(), board);
    drop(guests);
    drop(callers);
}

/// Queues go from thread to thread, and also a thread that picked a queue which another has in hand gets it. What was queued is
/// executed by them, so that nothing is left for the end.
#[test]
fn handed_on_between_threads(rt: HostRuntime) {
    let (queues, board) = open_board(&rt, rt.alloc());
    let (pool, callers) = Pool::new(rt.alloc(), queues, THREADS).expect(&rt, "a pool");
    serve_board(&rt, rt.alloc(), &pool, callers, &board);
    finish_all(&rt, pool, 0, 3);
    assert!(rt; board.has_run_all());
    expect_same(&rt, board.gate.count(), board.queued.load(SeqCst));
    drop(board);
}

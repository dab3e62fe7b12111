//! A worker that stops within a run: its senders come to their ends meanwhile, and it goes on with all that they queued.
ghost use Rattle.std.specs.Prelude.{◌≡◌, []};

use crate::expect::expect_same;
use crate::latch::Latch;
use crate::seats::{FIRST, QUEUED, WAKES, queue_item};
use crate::worker::team::{Team, destroy, new_team};
use std::process::Abort;
use std::thread::join;
use trail::Trail;
use wq_live::{Answer, Sender};
use wq_worker::{Follow, Work};

/// A work that stops at a latch where it runs item 0.
#[derive(Drop)]
struct Stopping<'a> {
    latch: &'a Latch,
    ran: Trail,
    has_waited: bool,
}

impl<'a> Stopping<'a> {
    fn new(latch: &'a Latch) -> Stopping<'a>
        ensures { result.ran.items ≡ [] }
    {
        Stopping {
            latch,
            ran: Trail::new(),
            has_waited: false,
        }
    }
}

impl<'a> Work for Stopping<'a> {
    ghost log = { λ w. w.ran.items };

    ghost may = { λ w k f v. Unit {0} };

    fn run(&mut self, item: u32) -> Follow {
        self.ran = self.ran.and(item);
        if item == 0 {
            self.has_waited = self.latch.stop();
        }
        Follow::new()
    }
}

/// Once the run has stopped, both senders queue: what runs, another item, a barrier and the stop item.
fn queue_beside<R: Abort>(rt: &R, first: &mut Sender, second: &mut Sender, latch: &Latch) -> bool {
    let has_stopped = latch.meet();
    expect_same(rt, queue_item(rt, first, 0), FIRST);
    expect_same(rt, queue_item(rt, second, 0), Answer::Pending);
    expect_same(rt, queue_item(rt, second, 1), QUEUED);
    assert!(rt; 0 < second.layout().barriers);
    expect_same(rt, second.flush_begin(0, 1), QUEUED);
    assert!(rt; 0 < second.layout().barriers);
    assert!(rt; !second.flush_done(0));
    expect_same(rt, first.request_stop(1), QUEUED);
    latch.open();
    has_stopped
}

/// A run stops, and both senders come to their ends. Then the worker goes on, and executes all that they queued.
#[test]
fn senders_end_while_a_run_stops(rt: HostRuntime) {
    let latch = Latch::new();
    let Team {
        mut worker,
        mut first,
        mut second,
    } = new_team(&rt, rt.alloc(), 4, Stopping::new(&latch));
    expect_same(&rt, queue_item(&rt, &mut first, 0), WAKES);
    let (has_stopped, executed) = join(
        &rt,
        || queue_beside(&rt, &mut first, &mut second, &latch),
        || worker.run_some(9),
    );
    assert!(rt; has_stopped);
    expect_same(&rt, executed, 5);
    let (work, book) = destroy(&rt, worker, 0);
    drop(book);
    assert!(rt; work.has_waited);
    drop(second);
    drop(first);
}

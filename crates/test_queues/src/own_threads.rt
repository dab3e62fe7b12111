//! The examples of a user's own threads, of messages that they hand over, and of workers.
use crate::expect::expect_same;
use crate::latch::Latch;
use example_threads::{queue_and_destroy, run, run_served};
use example_values::{run as hand_over, run_summed};
use std::alloc::Global;
use std::process::Abort;
use std::sync::Wait;
use std::thread::{Threads, join};
use wq_live::Done;
use wq_words::Layout;

/// So often an example is run.
const RUNS: u32 = 50;

/// How many items each sender queues.
const EACH: u32 = 100;

#[derive(Clone, Copy)]
enum Example {
    Threads,
    Served,
    Messages,
}

/// A run ends with all items and the stop item executed, and each sender's own were queued.
fn check_run<R: Abort + Threads + Wait + Sync>(rt: &R, alloc: Global) {
    let layout = Layout::new(300, 1, 3).expect(rt, "a layout");
    let met = run(rt, alloc, layout, EACH).expect(rt, "memory");
    let queued = (
        met.first.sender.counts().queued,
        met.second.sender.counts().queued,
        met.third.sender.counts().queued,
    );
    expect_same(rt, queued, (100, 100, 101));
    expect_same(rt, met.owner.done(), Some(Done { ended: 301 }));
    drop(met);
}

/// A worker serves beside two senders: a run ends with their items and the stop item executed.
fn check_served<R: Abort + Threads + Wait + Sync>(rt: &R, alloc: Global) {
    let layout = Layout::new(200, 1, 3).expect(rt, "a layout");
    let Ok(served) = run_served(rt, alloc, layout, EACH) else {
        panic!(rt; "nothing was served");
    };
    let totals = served.totals;
    expect_same(
        rt,
        (totals.queued, totals.chained, totals.executed),
        (201, 0, 201),
    );
    drop(served);
}

/// A run ends with all messages handed over: 1,000 to 1,099 of the first sender, with its items 0 to 99, and 2,100 to 2,199 of the
/// second, with 100 to 199. Each item times its message adds up to the sum, which tells them apart.
fn check_messages<R: Abort + Threads + Wait + Sync>(rt: &R, alloc: Global) {
    let layout = Layout::new(200, 1, 3).expect(rt, "a layout");
    let met = hand_over(rt, alloc, layout, EACH).expect(rt, "memory");
    let queued = (
        met.first.sender.counts().queued,
        met.second.sender.counts().queued,
    );
    expect_same(rt, queued, (100, 100));
    expect_same(rt, met.ran.owner.done(), Some(Done { ended: 201 }));
    expect_same(rt, met.ran.sum, 37_496_700);
    drop(met);
}

fn check_often<R: Abort + Threads + Wait + Sync>(
    rt: &R,
    alloc: Global,
    example: Example,
    over: &Latch,
) {
    for _run in 0..RUNS {
        match example {
            Example::Threads => check_run(rt, alloc),
            Example::Served => check_served(rt, alloc),
            Example::Messages => check_messages(rt, alloc),
        }
    }
    over.open();
}

/// Runs an example over and over. Where nobody is woken, a run never ends: it is then given up.
fn check_all_runs<R: Abort + Threads + Wait + Sync>(rt: &R, alloc: Global, example: Example) {
    let over = Latch::new();
    join(
        rt,
        || check_often(rt, alloc, example, &over),
        || assert!(rt; over.stop(), "a run does not end"),
    );
}

/// All items are accepted and executed.
#[test]
fn all_are_executed(rt: HostRuntime) {
    check_all_runs(&rt, rt.alloc(), Example::Threads);
}

#[test]
fn all_are_served(rt: HostRuntime) {
    check_all_runs(&rt, rt.alloc(), Example::Served);
}

#[test]
fn all_messages_are_handed_over(rt: HostRuntime) {
    check_all_runs(&rt, rt.alloc(), Example::Messages);
}

/// The values of both senders are added up.
#[test]
fn all_values_are_summed(rt: HostRuntime) {
    let layout = Layout::new(4, 1, 3).expect(&rt, "a layout");
    let Ok(summed) = run_summed(rt.alloc(), layout) else {
        panic!(rt; "there is no sum");
    };
    expect_same(&rt, (summed.sum, summed.totals.executed), (43_210, 4));
    expect_same(&rt, summed.queued, (3_010, 40_200));
    drop(summed);
}

/// The worker runs both items within its limit.
#[test]
fn worker_ends(rt: HostRuntime) {
    let layout = Layout::new(2, 1, 2).expect(&rt, "a layout");
    let left = queue_and_destroy(rt.alloc(), layout).expect(&rt, "memory");
    let Some((_work, book, ledger)) = left else {
        panic!(rt; "it takes more than nine executions");
    };
    let totals = book.balance([ledger].as_slice()).expect(&rt, "a balance");
    expect_same(&rt, (totals.queued, totals.executed), (2, 2));
    drop(book);
}

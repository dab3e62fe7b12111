//! Workers that drained before they came into a pool.
use crate::expect::expect_same;
use crate::pool::team::{Logging, QUEUED, WAKES, new_pool, queue_item, serve_queue};
use std::alloc::Global;
use std::process::Abort;
use wq_live::{Answer, Sender};
use wq_pool::Served;
use wq_words::Layout;
use wq_worker::{Drained, Ran, Worker};

/// The answer of a first push that wakes nobody.
const FIRST: Answer = Answer::Queued {
    first: true,
    wakes: false,
};

/// A worker of a queue of 104 items, whose work asks for an item below 100 where it runs one from 100 on, and its sender.
fn new_worker<R: Abort>(rt: &R, alloc: Global) -> (Worker<Logging>, Sender) {
    let layout = Layout::new(104, 1, 2).expect(rt, "a layout");
    let Ok((worker, mut senders)) = Worker::build(alloc, layout, Logging::asking(100), 1) else {
        panic!(rt; "no memory for a queue")
    };
    let sender = senders.pop().expect(rt, "a sender");
    drop(senders);
    (worker, sender)
}

/// What a pool may have of a worker: it drains no more, and has nothing left. It executes nothing.
fn served(mut worker: Worker<Logging>) -> Option<Served<Logging>> {
    if worker.is_draining() {
        return None;
    }
    if let Ran::Nothing = worker.run_one() {
        if !worker.is_draining() {
            return Some(Served::new(worker));
        }
    }
    None
}

/// A queue that was drained to its end in two calls, the first of which came to its limit; its sender.
fn drained<R: Abort>(rt: &R, alloc: Global) -> (Served<Logging>, Sender) {
    let (mut worker, mut sender) = new_worker(rt, alloc);
    queue_item(rt, &mut sender, 103);
    queue_item(rt, &mut sender, 1);
    expect_same(rt, worker.drain(1), Drained::TooLong { left: 2 });
    assert!(rt; worker.is_draining());
    expect_same(rt, queue_item(rt, &mut sender, 2), Answer::Draining);
    expect_same(rt, worker.drain(2), Drained::Empty);
    (
        served(worker).expect(rt, "a worker that drains no more"),
        sender,
    )
}

/// A worker that drains is no pool's until a later drain has ended it. Its first push then says no wake, so whoever made the
/// pool announces the queue once, and the pool executes what is queued from then on.
#[test]
fn drained_queue_is_served(rt: HostRuntime) {
    let (queue, mut sender) = drained(&rt, rt.alloc());
    let queues = Vec::from_array(rt.alloc(), [queue]).expect(&rt, "memory");
    let (pool, mut caller) = new_pool(&rt, rt.alloc(), queues);
    expect_same(&rt, queue_item(&rt, &mut sender, 2), FIRST);
    expect_same(&rt, queue_item(&rt, &mut sender, 0), QUEUED);
    serve_queue(&rt, &pool, &mut caller, 0);
    expect_same(&rt, queue_item(&rt, &mut sender, 1), WAKES);
    let finished = pool.finish(1).expect(&rt, "all finished");
    expect_same(&rt, queue_item(&rt, &mut sender, 2), Answer::Closed);
    let [(ran, _)] = finished.as_slice() else {
        panic!(rt; "not one queue")
    };
    expect_same(&rt, ran.order.as_slice(), [103, 1, 3, 2, 0, 1].as_slice());
    drop(finished);
    drop(caller);
    drop(sender);
}

//! The example of a user's own pool.
use crate::expect::expect_each_words;
use example_pool::{Ended, Unended, run};
use wq_words::Layout;

const RUNS: u32 = 20;

/// The orders in which four items can run, of which one sender queues 0 before 1, and the other 2 before 3.
const ORDERS: &[[u32; 4]] = &[
    [0, 1, 2, 3],
    [0, 2, 1, 3],
    [0, 2, 3, 1],
    [2, 0, 1, 3],
    [2, 0, 3, 1],
    [2, 3, 0, 1],
];

/// All four items were queued, and ran in each sender's order, once.
fn ran_all(queue: &Ended) -> bool {
    let ran = queue.work.items.as_slice();
    let queued = (
        queue.first.sender.counts().queued,
        queue.second.sender.counts().queued,
    );
    queued == (2, 2) && ORDERS.iter().any(|order| order.as_slice() == ran)
}

/// Both queues run all that their senders queue, each time.
#[test]
fn both_queues_run_all(rt: HostRuntime) {
    for _run in 0..RUNS {
        let layout = Layout::new(4, 1, 4).expect(&rt, "a layout");
        let (one, two) = run(&rt, rt.alloc(), layout).expect(&rt, "a run");
        assert!(rt; ran_all(&one));
        assert!(rt; ran_all(&two));
        drop(two);
        drop(one);
    }
}

const WORDS: &[(Unended, &str)] = &[
    (Unended::Memory, "no memory"),
    (Unended::Out { queue: 1 }, "the queue 1 is out"),
];

#[test]
fn words_of_run_errors(rt: HostRuntime) {
    expect_each_words(&rt, rt.alloc(), WORDS);
}

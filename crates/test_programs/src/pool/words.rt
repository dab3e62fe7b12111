//! The words of a pool's errors.
use crate::expect::{expect_each_words, expect_words};
use crate::pool::team::{Logging, all_filled, new_pool};
use std::alloc::Global;
use std::process::Abort;
use wq_pool::{AnnounceError, Pool, PoolError, PoolFault};

const OF_ANNOUNCEMENTS: &[(AnnounceError, &str)] = &[
    (AnnounceError::NoQueue, "no queue of this number"),
    (AnnounceError::Full, "the ready queue was full"),
];

#[test]
fn words_of_announce_errors(rt: HostRuntime) {
    expect_each_words(&rt, rt.alloc(), OF_ANNOUNCEMENTS);
}

const OF_POOLS: &[(PoolError, &str)] = &[
    (PoolError::NoQueue, "a pool has 1 to 256 queues"),
    (PoolError::Memory, "no memory"),
];

#[test]
fn words_of_pool_errors(rt: HostRuntime) {
    expect_each_words(&rt, rt.alloc(), OF_POOLS);
}

/// A pool of one queue, of which nothing is queued.
fn lone<R: Abort>(rt: &R, alloc: Global) -> Pool<Logging> {
    let (pool, caller) = new_pool(rt, alloc, all_filled(rt, alloc, 1, 0));
    drop(caller);
    pool
}

/// Each fault of a pool with its words, and how what is written of it for a programmer begins, which does not go into its pool.
fn faults<R: Abort>(
    rt: &R,
    alloc: Global,
) -> [(PoolFault<Logging>, &'static str, &'static str); 3] {
    [
        (
            PoolFault::Out {
                pool: lone(rt, alloc),
                queue: 3,
            },
            "the queue 3 is not in its slot",
            "Out { queue: 3",
        ),
        (
            PoolFault::Unfinished {
                pool: lone(rt, alloc),
                queue: 1,
                left: 2,
            },
            "2 numbers of the queue 1 are accepted and have not ended",
            "Unfinished { queue: 1, left: 2",
        ),
        (
            PoolFault::Memory {
                pool: lone(rt, alloc),
            },
            "no memory",
            "Memory",
        ),
    ]
}

#[test]
fn words_of_pool_faults(rt: HostRuntime) {
    for (fault, words, beginning) in faults(&rt, rt.alloc()).as_slice() {
        expect_words(&rt, rt.alloc(), fault, words);
        let text = format!(in rt.alloc(); "{fault:?}").expect(&rt, "memory");
        assert!(rt; text.starts_with(beginning), "{text}");
    }
}

//! The words of why there is no queue and no worker, and why one was not taken apart.
use crate::expect::{expect_report, expect_words};
use wq_live::BuildError;
use wq_worker::{Unbuilt, Unfinished};

/// Those of a worker that was not made are the words of why its queue was not. A report leaves out the work.
#[test]
fn words_of_unbuilt(rt: HostRuntime) {
    let alloc = rt.alloc();
    expect_words(&rt, alloc, &BuildError::Memory, "memory");
    let unbuilt = Unbuilt {
        work: 7u32,
        error: BuildError::Memory,
    };
    expect_words(&rt, alloc, &unbuilt, "memory");
    expect_report(&rt, alloc, &unbuilt, "Unbuilt { error: Memory, .. }");
}

/// They say how much is left, and a report leaves out the worker.
#[test]
fn words_of_unfinished(rt: HostRuntime) {
    let alloc = rt.alloc();
    let unfinished = Unfinished {
        worker: 7u32,
        left: 3,
    };
    let words = "3 numbers are accepted and have not ended";
    expect_words(&rt, alloc, &unfinished, words);
    expect_report(&rt, alloc, &unfinished, "Unfinished { left: 3, .. }");
}

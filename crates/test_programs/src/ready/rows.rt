//! Worked rows of a ready queue.
ghost use Rattle.std.specs.Prelude.{All};
ghost use Rattle.wq_ready.specs.Known.{IsCallerOf};

use crate::expect::expect_same;
use std::alloc::Global;
use std::process::Abort;
use std::sync::Wait;
use wq_ready::{AnnounceError, Caller, ReadyQueue, Size};

/// A ready queue for three queues, and two callers of it, the one with the higher number first.
#[derive(Drop)]
struct Pair {
    ready: ReadyQueue,
    last: Caller,
    first: Caller,
}

fn take_last<R: Abort>(rt: &R, ready: &ReadyQueue, callers: &mut Vec<Caller>) -> Caller
    requires { All (IsCallerOf ready.now) callers.old.items }
    ensures rest { All (IsCallerOf ready.now) callers.new.items }
    ensures last { IsCallerOf ready.now result }
{
    let _ = ready;
    callers.pop().expect(rt, "a caller")
}

fn new_pair<R: Abort>(rt: &R, alloc: Global) -> Pair
    ensures { IsCallerOf result.ready result.last × IsCallerOf result.ready result.first }
{
    let size = Size {
        queues: 3,
        callers: 2,
    };
    let (ready, mut callers) = ReadyQueue::new(alloc, size).expect(rt, "memory");
    let last = take_last(rt, &ready, &mut callers);
    let first = take_last(rt, &ready, &mut callers);
    Pair { ready, last, first }
}

/// An announcement of a queue by a caller is answered so.
fn announces<R: Abort + Wait>(
    rt: &R,
    ready: &ReadyQueue,
    caller: &mut Caller,
    queue: u32,
    answer: Result<(), AnnounceError>,
)
    requires { IsCallerOf ready.now caller.old }
    ensures { IsCallerOf ready.now caller.new }
{
    expect_same(rt, ready.announce(rt, caller, queue), answer);
}

/// A pick by a caller finds this queue, or none.
fn picks<R: Abort + Wait>(rt: &R, ready: &ReadyQueue, caller: &mut Caller, queue: Option<u32>)
    requires { IsCallerOf ready.now caller.old }
    ensures { IsCallerOf ready.now caller.new }
{
    expect_same(rt, ready.pick(rt, caller), queue);
}

/// What is announced by either caller is picked by either, in the order of the announcements, each once.
#[test]
fn first_in_first_out(rt: HostRuntime) {
    let Pair {
        ready,
        mut last,
        mut first,
    } = new_pair(&rt, rt.alloc());
    expect_same(&rt, (first.number(), last.number()), (0, 1));
    picks(&rt, &ready, &mut first, None);
    announces(&rt, &ready, &mut first, 2, Ok(()));
    announces(&rt, &ready, &mut last, 0, Ok(()));
    announces(&rt, &ready, &mut first, 1, Ok(()));
    picks(&rt, &ready, &mut last, Some(2));
    picks(&rt, &ready, &mut first, Some(0));
    picks(&rt, &ready, &mut first, Some(1));
    picks(&rt, &ready, &mut last, None);
}

/// As many announcements wait as there are queues, and one that was picked makes room for one.
#[test]
fn full_at_its_size(rt: HostRuntime) {
    let Pair {
        ready,
        mut last,
        mut first,
    } = new_pair(&rt, rt.alloc());
    announces(&rt, &ready, &mut first, 3, Err(AnnounceError::NoQueue));
    announces(&rt, &ready, &mut first, 1, Ok(()));
    announces(&rt, &ready, &mut first, 1, Ok(()));
    announces(&rt, &ready, &mut last, 0, Ok(()));
    announces(&rt, &ready, &mut last, 2, Err(AnnounceError::Full));
    announces(
        &rt,
        &ready,
        &mut last,
        u32::MAX,
        Err(AnnounceError::NoQueue),
    );
    picks(&rt, &ready, &mut first, Some(1));
    announces(&rt, &ready, &mut first, 2, Ok(()));
    announces(&rt, &ready, &mut first, 0, Err(AnnounceError::Full));
    drop(ready);
    drop(first);
    drop(last);
}

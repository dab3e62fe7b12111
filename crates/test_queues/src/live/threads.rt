//! Senders and the owner in threads of their own.
use super::reading::{close, execute_one};
use crate::expect::expect_same;
use crate::seats::{queue_all, queue_halves, seats, two_seats};
use std::process::Abort;
use std::sync::Wait;
use std::sync::atomic::AtomicU64;
use std::sync::atomic::Ordering::SeqCst;
use std::thread::{join, yield_now};
use wq_live::{Answer, Owner, Sender};

/// Executes what waits, for so many rounds, and appends the numbers in order.
fn execute_for(owner: &mut Owner, rounds: u32, into: &mut Vec<u32>) -> bool {
    for _ in 0..rounds {
        match execute_one(owner) {
            Some(number) => {
                if into.push(number).is_err() {
                    return false;
                }
            }
            None => yield_now(),
        }
    }
    true
}

/// The numbers from `from` to `to` stand in order.
fn in_order(numbers: &[u32], from: u32, to: u32) -> bool {
    let mut next = from;
    for number in numbers {
        if from <= *number && *number < to {
            if *number != next {
                return false;
            }
            next = next.wrapping_add(1);
        }
    }
    next == to
}

/// Both halves have run, each in its sender's order, and nothing is left.
fn expect_halves<R: Abort>(rt: &R, owner: &Owner, executed: &[u32], half: u32) {
    let all = half.wrapping_mul(2);
    expect_same(rt, executed.len(), all as usize);
    assert!(rt; in_order(executed, 0, half), "sender 0");
    assert!(rt; in_order(executed, half, all), "sender 1");
    assert!(rt; owner.done().is_some());
}

#[test]
fn two_threads_queue_in_their_order(rt: HostRuntime) {
    let (mut owner, mut first, mut second) = seats(&rt, rt.alloc(), 128, 1);
    let queued = queue_halves(&rt, &mut first, &mut second, 0, 64);
    expect_same(&rt, queued, (64, 64));
    expect_same(&rt, close(&mut owner), Some(128));
    let mut executed = Vec::new(rt.alloc());
    assert!(rt; execute_for(&mut owner, 129, &mut executed));
    expect_halves(&rt, &owner, executed.as_slice(), 64);
    drop(second);
    drop(first);
    drop(owner);
}

/// Queues each of three items that is no longer pending. Answers how many were queued.
fn queue_three<R: Abort>(rt: &R, sender: &mut Sender) -> u32 {
    let mut queued = 0u32;
    for item in 0..3u32 {
        assert!(rt; item < sender.layout().items);
        if let Answer::Queued { .. } = sender.queue_tries(item, 8) {
            queued = queued.wrapping_add(1);
        }
    }
    queued
}

/// Queues three items again and again until 1,000 are queued, and says that it is done. Answers how many were queued.
fn queue_again<R: Abort + Wait>(rt: &R, sender: &mut Sender, is_done: &AtomicU64) -> u32 {
    let mut queued = 0u32;
    for _ in rt.forever() {
        match queue_three(rt, sender) {
            0 => yield_now(),
            more => queued = queued.wrapping_add(more),
        }
        if queued >= 1000 {
            is_done.store(1, SeqCst);
            return queued;
        }
    }
    unreachable!()
}

/// Executes what waits until the sender is done, and appends the numbers in order.
fn execute_beside<R: Abort + Wait>(
    rt: &R,
    owner: &mut Owner,
    is_done: &AtomicU64,
    into: &mut Vec<u32>,
) {
    for _ in rt.forever() {
        assert!(rt; execute_for(owner, 1, into));
        if is_done.load(SeqCst) > 0 {
            return;
        }
    }
    unreachable!()
}

/// What has begun is queued again, and linked anew, while others of its batch wait.
#[test]
fn items_are_queued_again_while_a_batch_waits(rt: HostRuntime) {
    let (mut owner, mut sender) = two_seats(&rt, rt.alloc(), 4);
    let mut executed = Vec::new(rt.alloc());
    let is_done = AtomicU64::new(0);
    let (queued, ()) = join(
        &rt,
        || queue_again(&rt, &mut sender, &is_done),
        || execute_beside(&rt, &mut owner, &is_done, &mut executed),
    );
    assert!(rt; queued >= 1000, "{queued}");
    assert!(rt; close(&mut owner).is_some());
    assert!(rt; execute_for(&mut owner, 4, &mut executed));
    expect_same(&rt, executed.len(), queued as usize);
    assert!(rt; owner.done().is_some());
    drop(sender);
    drop(owner);
}

/// Flushes by barrier 0. True where the barrier was queued and has been executed.
fn flush<R: Wait>(rt: &R, sender: &mut Sender) -> bool {
    if sender.layout().barriers == 0 {
        return false;
    }
    match sender.flush(rt, 0) {
        Answer::Queued { .. } => true,
        _ => false,
    }
}

/// Executes until this number was executed, and answers how many were.
fn execute_until<R: Wait>(rt: &R, owner: &mut Owner, last: u32) -> u32 {
    let mut executed = 0u32;
    for _ in rt.forever() {
        match execute_one(owner) {
            Some(number) => {
                executed = executed.wrapping_add(1);
                if number == last {
                    return executed;
                }
            }
            None => yield_now(),
        }
    }
    unreachable!()
}

#[test]
fn flush_returns_beside_an_owner(rt: HostRuntime) {
    let (mut owner, mut sender) = two_seats(&rt, rt.alloc(), 16);
    expect_same(&rt, queue_all(&mut sender, 0, 16), 16);
    let (flushed, executed) = join(
        &rt,
        || flush(&rt, &mut sender),
        || execute_until(&rt, &mut owner, 16),
    );
    assert!(rt; flushed);
    expect_same(&rt, executed, 17);
    drop(owner);
    drop(sender);
}

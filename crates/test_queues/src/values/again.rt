//! One item that two threads queue again and again, each time with another value, while it begins in a third.
use super::reading::{execute_one, given_back};
use super::threads::{Parcel, make_parcel};
use crate::expect::expect_same;
use std::thread::{Threads, join};
use wq_live::Answer;
use wq_values::{ValueOwner, ValueSender, build_values};
use wq_words::Layout;

/// Queues the first item so often in one try each, with a parcel of this number, then of the next but one, and so on. How many
/// were queued, and whether each other parcel came back.
fn queue_again(sender: &mut ValueSender<Parcel>, first: u64, rounds: u32) -> (u32, bool) {
    let mut queued = 0u32;
    let mut came_back = true;
    let mut number = first;
    for _ in 0..rounds {
        if sender.layout().items == 0 {
            break;
        }
        let value = make_parcel(0, number);
        match given_back(sender.queue_value(0, value, 1)) {
            (Answer::Queued { .. }, _) => queued = queued.wrapping_add(1),
            (_, back) => came_back = came_back && back == Some(value),
        }
        number = number.wrapping_add(2);
    }
    (queued, came_back)
}

/// Executes until the stop item was executed. How many parcels that were, or None where one was missing, or came twice or in front of
/// an earlier one of its sender.
fn execute_rising(owner: &mut ValueOwner<Parcel>, stop: u32) -> Option<u32> {
    let mut executed = 0u32;
    let mut even = 0u64;
    let mut odd = 1u64;
    for _ in 0..u32::MAX {
        match execute_one(owner) {
            Some((_, Some(value))) => {
                let least = if value.number % 2 == 0 {
                    &mut even
                } else {
                    &mut odd
                };
                if value.number < *least || value != make_parcel(0, value.number) {
                    return None;
                }
                *least = value.number.wrapping_add(2);
                executed = executed.wrapping_add(1);
            }
            Some((number, None)) if number == stop => return Some(executed),
            Some((_, None)) => return None,
            None => {}
        }
    }
    None
}

/// Two threads queue, and then the stop item. What each of them answered.
fn queue_by_two<R: Threads + Sync>(
    rt: &R,
    first: &mut ValueSender<Parcel>,
    second: &mut ValueSender<Parcel>,
    rounds: u32,
) -> ((u32, bool), (u32, bool)) {
    let both = join(
        rt,
        || queue_again(first, 0, rounds),
        || queue_again(second, 1, rounds),
    );
    first.request_stop(u32::MAX);
    both
}

#[test]
fn item_that_begins_is_handed_its_own_value(rt: HostRuntime) {
    let layout = Layout::new(1, 1, 2).expect(&rt, "a layout");
    let (mut owner, mut senders) = build_values(rt.alloc(), layout).expect(
        &rt,
        "memory for a queue",
    );
    let mut second = senders.pop().expect(&rt, "sender 1");
    let mut first = senders.pop().expect(&rt, "sender 0");
    let (queued, executed) = join(
        &rt,
        || queue_by_two(&rt, &mut first, &mut second, 300_000),
        || execute_rising(&mut owner, 2),
    );
    let (even, odd) = queued;
    expect_same(&rt, (even.1, odd.1), (true, true));
    expect_same(&rt, executed, Some(even.0.wrapping_add(odd.0)));
    drop(first);
    drop(second);
    drop(senders);
    drop(owner);
}

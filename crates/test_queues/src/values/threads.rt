//! Senders with values and their owner in threads of their own.
use super::drops::{alive, share};
use super::reading::{close, execute_one, given_back};
use crate::expect::expect_same;
use crate::patience::Patience;
use std::alloc::Global;
use std::process::Abort;
use std::sync::{Arc, Wait};
use std::thread::{Threads, join, yield_now};
use std::time::Clock;
use wq_live::Answer;
use wq_values::{ValueOwner, ValueSender, build_values};
use wq_words::Layout;

/// The items of a queue whose sender is contended.
const ITEMS: u32 = 65_536;

/// A value that is wider than a word: which item it was queued with, and a number that is the sender's own.
#[derive(Clone, Copy, Debug, Drop, PartialEq, Eq)]
pub(super) struct Parcel {
    pub(super) item: u32,
    pub(super) number: u64,
    pub(super) square: u64,
}

pub(super) fn make_parcel(item: u32, number: u64) -> Parcel {
    Parcel {
        item,
        number,
        square: number.wrapping_mul(number),
    }
}

/// A parcel, and a share in a value that counts its shares while they are not dropped.
#[derive(Drop)]
struct Counted {
    parcel: Parcel,
    _share: Arc<u32>,
}

fn make_counted<R: Abort>(rt: &R, item: u32, number: u64, shared: &Arc<u32>) -> Counted {
    Counted {
        parcel: make_parcel(item, number),
        _share: share(rt, shared),
    }
}

/// Queues an item with its value, and again with what came back where it was contended, at most 1,000 times. Whether it was queued.
fn queue_tried(sender: &mut ValueSender<Counted>, item: u32, value: Counted) -> bool {
    let mut next = Some(value);
    for _ in 0..1000u32 {
        let Some(value) = next else {
            break;
        };
        if item >= sender.layout().items {
            break;
        }
        let (answer, back) = given_back(sender.queue_value(item, value, 1000));
        if let Answer::Queued { .. } = answer {
            return true;
        }
        next = back;
    }
    false
}

/// Queues these items in order, each with a parcel of its own. Answers how many were queued.
fn queue_all<R: Abort>(
    rt: &R,
    sender: &mut ValueSender<Counted>,
    from: u32,
    to: u32,
    shared: &Arc<u32>,
) -> u32 {
    let mut queued = 0u32;
    for item in from..to {
        let value = make_counted(rt, item, u64::from(item), shared);
        if queue_tried(sender, item, value) {
            queued = queued.wrapping_add(1);
        }
    }
    queued
}

/// Executes what comes until so many values were handed to it in all, and appends each with its item, in order. False where a number
/// came without a value, where there was no memory to append one, and where nothing waits once the test's patience is over.
fn execute_until<R: Clock>(
    rt: &R,
    owner: &mut ValueOwner<Counted>,
    count: usize,
    into: &mut Vec<(u32, Counted)>,
) -> bool {
    let patience = Patience::begin(rt);
    for _ in 0..u32::MAX {
        match execute_one(owner) {
            Some((number, Some(value))) => {
                if into.push((number, value)).is_err() {
                    return false;
                }
            }
            Some((_, None)) => return false,
            None => {
                if patience.is_over(rt) {
                    return false;
                }
                yield_now();
            }
        }
        if into.len() >= count {
            return true;
        }
    }
    false
}

/// Each was handed its own parcel, and each half came in its sender's order.
fn expect_halves<R: Abort>(rt: &R, executed: &[(u32, Counted)], half: u32) {
    let mut next = (0u32, half);
    for (number, value) in executed {
        let number = *number;
        expect_same(rt, value.parcel, make_parcel(number, u64::from(number)));
        if number < half {
            expect_same(rt, number, next.0);
            next.0 = next.0.wrapping_add(1);
        } else {
            expect_same(rt, number, next.1);
            next.1 = next.1.wrapping_add(1);
        }
    }
    expect_same(rt, next, (half, half.wrapping_mul(2)));
}

/// The owner of a queue of so many items, its two senders, and the value of which each parcel has a share.
#[derive(Drop)]
struct Seats {
    owner: ValueOwner<Counted>,
    first: ValueSender<Counted>,
    second: ValueSender<Counted>,
    shared: Arc<u32>,
}

fn new_seats<R: Abort>(rt: &R, alloc: Global, items: u32) -> Seats {
    let layout = Layout::new(items, 1, 2).expect(rt, "a layout");
    let (owner, mut senders) = build_values(alloc, layout).expect(rt, "memory for a queue");
    Seats {
        owner,
        second: senders.pop().expect(rt, "sender 1"),
        first: senders.pop().expect(rt, "sender 0"),
        shared: Arc::new(alloc, 7u32).expect(rt, "a value"),
    }
}

/// Queues a half, and then the seat goes, where it is to.
fn queue_half<R: Abort>(
    rt: &R,
    seat: &mut Option<ValueSender<Counted>>,
    from: u32,
    to: u32,
    shared: &Arc<u32>,
    goes: bool,
) -> u32 {
    let Some(sender) = seat else {
        return 0;
    };
    let queued = queue_all(rt, sender, from, to, shared);
    if goes {
        *seat = None;
    }
    queued
}

/// The two senders queue a half each in two threads. How many each of them queued.
fn queue_halves<R: Abort + Threads + Sync>(
    rt: &R,
    first: &mut Option<ValueSender<Counted>>,
    second: &mut Option<ValueSender<Counted>>,
    half: u32,
    shared: &Arc<u32>,
    go: bool,
) -> (u32, u32) {
    join(
        rt,
        || queue_half(rt, first, 0, half, shared, go),
        || queue_half(rt, second, half, half.wrapping_mul(2), shared, go),
    )
}

/// The two senders queue, beside the owner in a third thread, which goes on until it has executed all. Each value is there as long
/// as it is in the list of what was executed, and is dropped once, with it.
#[test]
fn two_threads_queue_values_in_their_order(rt: HostRuntime) {
    let Seats {
        mut owner,
        first,
        second,
        shared,
    } = new_seats(&rt, rt.alloc(), 512);
    let mut seats = (Some(first), Some(second));
    let mut executed = Vec::new(rt.alloc());
    let (queued, ran) = join(
        &rt,
        || queue_halves(&rt, &mut seats.0, &mut seats.1, 256, &shared, false),
        || execute_until(&rt, &mut owner, 512, &mut executed),
    );
    expect_same(&rt, (queued, ran), ((256, 256), true));
    expect_same(&rt, close(&mut owner), Some(0));
    assert!(rt; owner.done().is_some());
    expect_halves(&rt, executed.as_slice(), 256);
    expect_same(&rt, alive(&shared), 512);
    drop(executed);
    expect_same(&rt, alive(&shared), 0);
    drop(seats);
    drop(owner);
}

/// Executes so many numbers, each as it comes, and drops what it was handed.
fn execute_and_drop<R: Wait>(rt: &R, owner: &mut ValueOwner<Counted>, count: u32) {
    let mut executed = 0u32;
    for _ in rt.forever() {
        if executed >= count {
            return;
        }
        match execute_one(owner) {
            Some(_) => executed = executed.wrapping_add(1),
            None => yield_now(),
        }
    }
}

/// Senders that queue in threads and go leave their values, of which those that the owner executes are dropped as it does, and the
/// others with the owner, the last seat.
#[test]
fn senders_go_and_each_value_is_dropped_once(rt: HostRuntime) {
    let Seats {
        mut owner,
        first,
        second,
        shared,
    } = new_seats(&rt, rt.alloc(), 512);
    let mut seats = (Some(first), Some(second));
    let (queued, _) = join(
        &rt,
        || queue_halves(&rt, &mut seats.0, &mut seats.1, 256, &shared, true),
        || execute_and_drop(&rt, &mut owner, 100),
    );
    expect_same(&rt, (queued, alive(&shared)), ((256, 256), 412));
    execute_and_drop(&rt, &mut owner, 200);
    expect_same(&rt, alive(&shared), 212);
    drop(owner);
    expect_same(&rt, alive(&shared), 0);
    drop(seats);
}

/// Queues all items but the first in one try each, one after another and over and over, until one was contended and the very value
/// came back, for as long as the test has patience. Then it queues the stop item. There are so many that its tries fill a turn on a
/// processor that it shares with the owner's thread, which then comes in between; where one is still pending it lets that thread go on.
fn contend<R: Abort + Clock>(rt: &R, sender: &mut ValueSender<Counted>, shared: &Arc<u32>) -> bool {
    let patience = Patience::begin(rt);
    let mut is_contended = false;
    let mut item = 0u32;
    for number in 0..u64::MAX {
        item = item.wrapping_add(1);
        if item >= sender.layout().items {
            if patience.is_over(rt) {
                break;
            }
            item = 0;
            continue;
        }
        let value = make_counted(rt, item, number, shared);
        match given_back(sender.queue_value(item, value, 1)) {
            (Answer::Contended, Some(back)) => {
                is_contended = back.parcel == make_parcel(item, number);
                break;
            }
            (Answer::Pending, _) => yield_now(),
            _ => {}
        }
    }
    sender.request_stop(u32::MAX);
    is_contended
}

/// Queues the first item with a value and executes what waits, over and over, until the stop item was executed. Whether each that was
/// executed was handed a value of its own.
fn churn<R: Abort>(
    rt: &R,
    owner: &mut ValueOwner<Counted>,
    sender: &mut ValueSender<Counted>,
    shared: &Arc<u32>,
) -> bool {
    let stop = owner.layout().stop();
    let mut are_own = true;
    for round in 0..u32::MAX {
        if 0 < sender.layout().items {
            let value = make_counted(rt, 0, u64::from(round), shared);
            given_back(sender.queue_value(0, value, 1));
        }
        match execute_one(owner) {
            Some((number, Some(value))) => are_own = are_own && value.parcel.item == number,
            Some((number, None)) if number == stop => return are_own,
            Some((_, None)) => return false,
            None => {}
        }
    }
    false
}

/// A value whose queueing lost its try comes back, and each value is dropped once: as it was executed or came back, or with the seats.
#[test]
fn value_comes_back_where_a_try_was_lost(rt: HostRuntime) {
    let Seats {
        mut owner,
        mut first,
        mut second,
        shared,
    } = new_seats(&rt, rt.alloc(), ITEMS);
    let (contended, own) = join(
        &rt,
        || contend(&rt, &mut first, &shared),
        || churn(&rt, &mut owner, &mut second, &shared),
    );
    expect_same(&rt, (contended, own), (true, true));
    drop(owner);
    drop(first);
    drop(second);
    expect_same(&rt, alive(&shared), 0);
}

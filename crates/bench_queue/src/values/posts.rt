//! Senders in threads of their own, each of which queues its slice of items again and again.
use crate::host::Host;
use crate::posts::pause;
use crate::refusal::Refusal;
use crate::values::payload::Payload;
use std::thread::{self, JoinHandle};
use wq_values::{ValueAnswer, ValueSender};

/// Queues an item with a value once it is no longer pending. False where the queue is closed.
pub fn offer<V: Payload>(sender: &mut ValueSender<V>, item: u32) -> bool {
    let mut value = V::of(item);
    for turn in 0..u64::MAX {
        if item >= sender.layout().items {
            return false;
        }
        match sender.queue_value(item, value, 1000) {
            ValueAnswer::Queued { .. } => return true,
            ValueAnswer::Closed(_) => return false,
            ValueAnswer::Pending(back)
            | ValueAnswer::Contended(back)
            | ValueAnswer::Draining(back) => {
                value = back;
                pause(turn);
            }
        }
    }
    false
}

/// Queues each item of a slice, and counts them. False where the queue is closed.
fn offer_slice<V: Payload>(
    sender: &mut ValueSender<V>,
    from: u32,
    to: u32,
    queued: &mut u64,
) -> bool {
    for item in from..to {
        if !offer(sender, item) {
            return false;
        }
        *queued = queued.saturating_add(1);
    }
    true
}

/// Queues its slice of items again and again until the queue is closed, and answers how many that were.
fn feed<V: Payload>(mut sender: ValueSender<V>, slice: u32) -> u64 {
    let from = sender.number().saturating_mul(slice);
    let to = from.saturating_add(slice);
    let mut queued = 0u64;
    for _ in 0..u64::MAX {
        if !offer_slice(&mut sender, from, to, &mut queued) {
            break;
        }
    }
    queued
}

/// Starts a thread for each sender.
pub fn start<R: Host, V: Payload + 'static>(
    rt: &R,
    senders: Vec<ValueSender<V>>,
    slice: u32,
) -> Result<Vec<JoinHandle<u64>>, Refusal> {
    let mut threads = Vec::new(rt.alloc());
    for sender in senders {
        let thread = thread::spawn(rt, move || feed(sender, slice)).map_err(|_| Refusal::NoThread)?;
        threads.push(thread)?;
    }
    Ok(threads)
}

/// How many the sender queued that queued fewest, when all have ended.
pub fn join_all<R: Host>(rt: &R, threads: Vec<JoinHandle<u64>>) -> u64 {
    let mut least = u64::MAX;
    for thread in threads {
        least = least.min(thread.join(rt));
    }
    least
}

//! Senders in threads of their own, each of which queues its slice of items again and again.
use crate::host::Host;
use crate::refusal::Refusal;
use crossbeam_utils::sync::Unparker;
use std::alloc::Global;
use std::hint::spin_loop;
use std::sync::Arc;
use std::sync::atomic::{AtomicU64, Ordering};
use std::thread::{self, JoinHandle, yield_now};
use wq_live::{Answer, Sender, Spins};

/// Where a sender unparks the worker.
#[derive(Clone, Copy, PartialEq, Eq)]
pub enum UnparkPolicy {
    /// Nowhere: an owner looks again and again.
    Nobody,
    /// Where its push went onto an empty list.
    First,
    /// Where it was answered that it wakes.
    Wakes,
}

/// What senders did: how many pushes went onto an empty list, how often they unparked the worker, and how many pushes the one made
/// that made fewest.
#[derive(Clone, Copy, Default)]
pub struct PushCounts {
    pub firsts: u64,
    pub unparks: u64,
    pub least: u64,
}

/// A sender, and what it needs to wake the worker and to see that the run has come to its end.
#[derive(Drop)]
struct Post {
    sender: Sender,
    slice: u32,
    policy: UnparkPolicy,
    unparker: Unparker,
    shown: Arc<AtomicU64, Global>,
    counts: PushCounts,
}

/// Passes some time between two tries of a number that is still pending.
pub fn pause(turn: u64) {
    for _ in 0..16 {
        spin_loop();
    }
    if turn % 64 == 63 {
        yield_now();
    }
}

/// Queues an item once it is no longer pending, and passes some time before each further try. What that was answered, Queued or
/// Closed.
pub fn offer<F: Fn(u64)>(sender: &mut Sender, item: u32, pause: F) -> Answer
    requires { F.IsAlwaysCallable pause }
{
    for turn in 0..u64::MAX {
        if item >= sender.layout().items {
            return Answer::Closed;
        }
        match sender.queue_tries(item, 1000) {
            Answer::Pending | Answer::Contended | Answer::Draining => pause(turn),
            settled => return settled,
        }
    }
    Answer::Closed
}

impl Post {
    /// Queues an item, and wakes the worker where that is asked. False where the queue is closed.
    fn offer(&mut self, item: u32) -> bool {
        let answer = offer(&mut self.sender, item, pause);
        if let Answer::Queued { first, wakes } = answer {
            self.counts.firsts = self.counts.firsts.saturating_add(u64::from(first));
            self.counts.least = self.counts.least.saturating_add(1);
            if (first && self.policy == UnparkPolicy::First)
                || (wakes && self.policy == UnparkPolicy::Wakes)
            {
                self.counts.unparks = self.counts.unparks.saturating_add(1);
                self.unparker.unpark();
            }
        }
        answer != Answer::Closed
    }

    /// Queues each item of a slice, and then looks whether so many items as are wanted have run. False where they have, or where
    /// the queue is closed.
    fn offer_slice(&mut self, from: u32, to: u32) -> bool {
        for item in from..to {
            if !self.offer(item) {
                return false;
            }
        }
        self.shown.load(Ordering::SeqCst) == 0
    }

    /// Queues its slice of items again and again until the end, and then the stop item.
    fn feed(mut self) -> PushCounts {
        let from = self.sender.number().saturating_mul(self.slice);
        let to = from.saturating_add(self.slice);
        for _ in 0..u64::MAX {
            if !self.offer_slice(from, to) {
                break;
            }
        }
        self.sender.request_stop(u32::MAX);
        self.unparker.unpark();
        self.counts
    }
}

/// Each sender gives way so long.
pub fn set_spins(senders: &mut [Sender], spins: Spins) {
    for sender in senders {
        sender.set_spins(spins);
    }
}

/// Starts a thread for each sender.
pub fn start<R: Host>(
    rt: &R,
    senders: Vec<Sender>,
    slice: u32,
    policy: UnparkPolicy,
    unparker: &Unparker,
    shown: &Arc<AtomicU64, Global>,
) -> Result<Vec<JoinHandle<PushCounts>>, Refusal> {
    let mut threads = Vec::new(rt.alloc());
    for sender in senders {
        let post = Post {
            sender,
            slice,
            policy,
            unparker: unparker.clone()?,
            shown: Arc::try_clone(shown)?,
            counts: PushCounts::default(),
        };
        let thread = thread::spawn(rt, move || post.feed()).map_err(|_| Refusal::NoThread)?;
        threads.push(thread)?;
    }
    Ok(threads)
}

/// What all senders did, when they have ended.
pub fn join_all<R: Host>(rt: &R, threads: Vec<JoinHandle<PushCounts>>) -> PushCounts {
    let mut all = PushCounts {
        least: u64::MAX,
        ..PushCounts::default()
    };
    for thread in threads {
        let counts = thread.join(rt);
        all.firsts = all.firsts.saturating_add(counts.firsts);
        all.unparks = all.unparks.saturating_add(counts.unparks);
        all.least = all.least.min(counts.least);
    }
    all
}

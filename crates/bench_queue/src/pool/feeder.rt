//! A sender of each queue of a pool, in one thread.
ghost use Rattle.wq_ready.specs.Known.{IsCallerOf};

use super::in_order::{InOrder, SLICE};
use crate::posts::offer;
use std::sync::Wait;
use std::sync::atomic::{AtomicU64, Ordering};
use std::thread::yield_now;
use wq_live::{Answer, Sender};
use wq_pool::{Caller, Pool};

/// Queues its slice of items on all queues in turn, and announces those that rested.
#[derive(Drop)]
pub struct Feeder<'p> {
    pool: &'p Pool<InOrder>,
    caller: Caller,
    // Its seat at each queue.
    seats: Vec<Sender>,
    // How many feeders have not come to their end.
    feeding: &'p AtomicU64,
    // How many items it queues on each queue.
    rounds: u64,
    announced: u64,
    ghost calls: { IsCallerOf pool.now.ready caller },
}

impl<'p> Feeder<'p> {
    pub fn new(
        pool: &'p Pool<InOrder>,
        caller: Caller,
        seats: Vec<Sender>,
        feeding: &'p AtomicU64,
        rounds: u64,
    ) -> Feeder<'p>
        requires { IsCallerOf pool.now.ready caller }
    {
        Feeder {
            pool,
            caller,
            seats,
            feeding,
            rounds,
            announced: 0,
        }
    }

    /// How many announcements it has made.
    pub fn announced(&self) -> u64 {
        self.announced
    }

    // Announces a queue that was woken, and counts that.
    fn wake<R: Wait>(&mut self, rt: &R, queue: usize, answer: Answer) {
        let queue = u32::try_from(queue).unwrap_or(u32::MAX);
        if let Answer::Queued { wakes: true, .. } = answer {
            self.announced = self.announced.saturating_add(1);
        }
        let _ = self.pool.wake(rt, &mut self.caller, queue, answer);
    }

    // Queues an item on each queue, or with none the stop item.
    fn queue_on_all<R: Wait>(&mut self, rt: &R, item: Option<u32>) {
        for queue in 0..self.seats.len() {
            let Some(seat) = self.seats.get_mut(queue) else {
                return;
            };
            let answer = match item {
                Some(item) => offer(seat, item, |_turn: u64| yield_now()),
                None => seat.request_stop(u32::MAX),
            };
            self.wake(rt, queue, answer);
        }
    }

    /// Queues its items on each queue, and where all other feeders have come to their end, the stop items.
    pub fn feed<R: Wait>(&mut self, rt: &R) {
        let number = self.seats.first().map_or(0, Sender::number);
        let first = number.saturating_mul(SLICE);
        for round in 0..self.rounds {
            let place = (round % u64::from(SLICE)) as u32;
            self.queue_on_all(rt, Some(first.saturating_add(place)));
        }
        if self.feeding.fetch_sub(1, Ordering::SeqCst) == 1 {
            self.queue_on_all(rt, None);
        }
    }
}

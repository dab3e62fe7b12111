//! Queues for a pool whose items bring values.
ghost use Rattle.std.specs.Prelude.{◌≡◌, []};

use crate::pool::team::Logging;
use std::alloc::Global;
use std::process::Abort;
use std::sync::Arc;
use wq_pool::ServedOf;
use wq_value_pool::ValueServed;
use wq_value_worker::{ValueFollow, ValueWork, ValueWorker};
use wq_values::{ValueAnswer, ValueSender};
use wq_words::Layout;

/// What an item brings: a share of a number.
pub(crate) type Share = Arc<u64>;

/// A work that keeps what it ran, and what came back. It asks for nothing.
#[derive(Drop)]
pub(crate) struct Carrying<'a, R: Abort> {
    rt: &'a R,
    ran: Vec<(u32, Share)>,
    came_back: Vec<(u32, Share)>,
}

/// A queue whose items bring shares.
pub(crate) type Valued<'a, R> = ValueServed<Share, Carrying<'a, R>>;

impl<'a, R: Abort> Carrying<'a, R> {
    fn new(rt: &'a R, alloc: Global) -> Carrying<'a, R>
        ensures { result.ran.items ≡ [] }
    {
        Carrying {
            rt,
            ran: Vec::new(alloc),
            came_back: Vec::new(alloc),
        }
    }
}

impl<'a, R: Abort> ValueWork<Share> for Carrying<'a, R> {
    ghost log = { λ w. w.ran.items };

    ghost given = { λ w. w.came_back.items };

    ghost may = { λ w k v f u. Unit {0} };

    ghost takes = { λ w k v u. Unit {0} };

    fn run(&mut self, item: u32, value: Share) -> ValueFollow<Share> {
        self.ran.push((item, value)).expect(self.rt, "memory");
        ValueFollow::new()
    }

    fn returned(&mut self, item: u32, value: Share) {
        self.came_back.push((item, value)).expect(self.rt, "memory");
    }
}

/// A work that can say whether it ran these items, in this order, and no others.
pub(crate) trait Ordered {
    fn has_run(&self, items: &[u32]) -> bool;
}

impl Ordered for Logging {
    fn has_run(&self, items: &[u32]) -> bool {
        self.order.as_slice() == items
    }
}

/// Which value an item brings.
fn value_of(item: u32) -> u64 {
    u64::from(item).wrapping_add(1 << 40)
}

/// The share that an item brings.
pub(crate) fn share_of<R: Abort>(rt: &R, alloc: Global, item: u32) -> Share {
    Arc::new(alloc, value_of(item)).expect(rt, "memory")
}

/// Each with the value that it brought.
impl<'a, R: Abort> Ordered for Carrying<'a, R> {
    fn has_run(&self, items: &[u32]) -> bool {
        let mut place = 0usize;
        for (item, share) in self.ran.as_slice() {
            if items.get(place) != Some(item) || **share != value_of(*item) {
                return false;
            }
            place = place.wrapping_add(1);
        }
        place == items.len()
    }
}

/// Queues an item of the queue with its share, in one try.
pub(crate) fn queue_value<R: Abort>(
    rt: &R,
    sender: &mut ValueSender<Share>,
    item: u32,
    share: Share,
) {
    assert!(rt; item < sender.layout().items);
    let answer = sender.queue_value(item, share, 1);
    assert!(rt; matches!(answer, ValueAnswer::Queued { .. }), "item {item}");
}

/// A queue of at least so many items, and its sender.
pub(crate) fn empty_with_values<'a, R: Abort>(
    rt: &'a R,
    alloc: Global,
    items: u32,
) -> (Valued<'a, R>, ValueSender<Share>) {
    let layout = Layout::new(items.max(4), 1, 2).expect(rt, "a layout");
    let work = Carrying::new(rt, alloc);
    let Ok((worker, mut senders)) = ValueWorker::build(alloc, layout, work, 1) else {
        panic!(rt; "no memory for a queue")
    };
    let sender = senders.pop().expect(rt, "a sender");
    drop(senders);
    (ServedOf::new(worker), sender)
}

/// A queue in which the items below a number are queued, each with its value, and its sender.
fn filled_with_values<'a, R: Abort>(
    rt: &'a R,
    alloc: Global,
    count: u32,
) -> (Valued<'a, R>, ValueSender<Share>) {
    let (served, mut sender) = empty_with_values(rt, alloc, count);
    for item in 0..count {
        queue_value(rt, &mut sender, item, share_of(rt, alloc, item));
    }
    (served, sender)
}

/// Two queues, with so many items queued in each.
pub(crate) fn two_with_values<'a, R: Abort>(
    rt: &'a R,
    alloc: Global,
    first: u32,
    second: u32,
) -> Vec<Valued<'a, R>> {
    let (one, sender) = filled_with_values(rt, alloc, first);
    drop(sender);
    let (other, sender) = filled_with_values(rt, alloc, second);
    drop(sender);
    Vec::from_array(alloc, [one, other]).expect(rt, "memory")
}

/// So many queues, with so many items queued in each.
pub(crate) fn all_with_values<'a, R: Abort>(
    rt: &'a R,
    alloc: Global,
    queues: u32,
    count: u32,
) -> Vec<Valued<'a, R>> {
    let mut all = Vec::new(alloc);
    for _turn in 0..queues {
        let (served, sender) = filled_with_values(rt, alloc, count);
        drop(sender);
        all.push(served).expect(rt, "memory");
    }
    all
}

/// So many queues, with so many items and then the stop item queued in each.
pub(crate) fn to_stop_with_values<'a, R: Abort>(
    rt: &'a R,
    alloc: Global,
    queues: u32,
    count: u32,
) -> Vec<Valued<'a, R>> {
    let mut all = Vec::new(alloc);
    for _turn in 0..queues {
        let (served, mut sender) = filled_with_values(rt, alloc, count);
        sender.request_stop(1);
        drop(sender);
        all.push(served).expect(rt, "memory");
    }
    all
}

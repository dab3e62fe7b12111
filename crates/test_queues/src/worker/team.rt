//! A worker with the seats of its queue, for tests.
ghost use Rattle.std.specs.Prelude.{◌≡◌, [], All};
ghost use Rattle.wq_words.specs.History.{begun};

use crate::expect::expect_same;
use arrayvec::ArrayVec;
use crossbeam_utils::sync::{Parker, Unparker};
use std::alloc::Global;
use std::process::Abort;
use std::sync::Wait;
use trail::Trail;
use wq_live::{Answer, Owner, Sender, build};
use wq_words::Layout;
use wq_worker::{Book, Follow, Work, Worker};

/// A work that asks for this number, if any, where item 0 ran, and keeps what it ran.
#[derive(Drop)]
pub(crate) struct Fixed {
    pub(crate) next: Option<u32>,
    pub(crate) ran: Trail,
    pub(crate) order: ArrayVec<u32, 300>,
}

impl Fixed {
    pub(crate) fn new() -> Fixed
        ensures { result.ran.items ≡ [] }
    {
        Fixed {
            next: None,
            ran: Trail::new(),
            order: ArrayVec::new(),
        }
    }
}

impl Work for Fixed {
    ghost log = { λ w. w.ran.items };

    ghost may = { λ w k f v. Unit {0} };

    fn run(&mut self, item: u32) -> Follow {
        self.ran = self.ran.and(item);
        let _ = self.order.try_push(item);
        let mut follow = Follow::new();
        if item != 0 {
            return follow;
        }
        if let Some(number) = self.next {
            let _ = follow.try_push(number);
        }
        follow
    }
}

pub(crate) fn new_queue<R: Abort>(
    rt: &R,
    alloc: Global,
    items: u32,
    senders: u32,
) -> (Owner, Vec<Sender>)
    ensures none_begun { begun result.0.seen ≡ [] }
    ensures one { All (λ s. s.queue ≡ result.0.queue) result.1.items }
{
    let layout = Layout::new(items, 1, senders).expect(rt, "a layout");
    build(alloc, layout).expect(rt, "memory for a queue")
}

pub(crate) fn take_last<R: Abort>(rt: &R, owner: &Owner, senders: &mut Vec<Sender>) -> Sender
    requires { All (λ s. s.queue ≡ owner.now.queue) senders.old.items }
    ensures rest { All (λ s. s.queue ≡ owner.now.queue) senders.new.items }
    ensures last { result.queue ≡ owner.now.queue }
{
    let _ = owner.running();
    senders.pop().expect(rt, "a sender")
}

/// A worker with the last of three senders of a queue, and the two others.
#[derive(Drop)]
pub(crate) struct Team<W: Work> {
    pub(crate) worker: Worker<W>,
    pub(crate) first: Sender,
    pub(crate) second: Sender,
}

pub(crate) fn new_team<R: Abort, W: Work>(rt: &R, alloc: Global, items: u32, work: W) -> Team<W>
    requires { W.log work ≡ [] }
    ensures { (result.first.queue ≡ result.worker.queue) × (result.second.queue ≡ result.worker.queue) }
{
    let (owner, mut senders) = new_queue(rt, alloc, items, 3);
    let last = take_last(rt, &owner, &mut senders);
    let second = take_last(rt, &owner, &mut senders);
    let first = take_last(rt, &owner, &mut senders);
    drop(senders);
    Team {
        worker: Worker::new(owner, last, work, 1),
        first,
        second,
    }
}

pub(crate) fn is_pending<R: Abort>(rt: &R, sender: &mut Sender, item: u32) -> bool
    ensures { sender.new.queue ≡ sender.old.queue }
{
    assert!(rt; item < sender.layout().items);
    sender.is_pending(item)
}

pub(crate) fn destroy<R: Abort, W: Work>(rt: &R, worker: Worker<W>, limit: u32) -> (W, Book)
    ensures { result.1.queue ≡ worker.queue }
{
    worker.destroy(limit).expect(rt, "a drained queue")
}

/// Destroys a worker, whose work has run these items then.
pub(crate) fn destroy_having_run<R: Abort>(
    rt: &R,
    worker: Worker<Fixed>,
    limit: u32,
    order: &[u32],
) {
    let (work, book) = destroy(rt, worker, limit);
    drop(book);
    expect_same(rt, work.order.as_slice(), order);
}

pub(crate) fn serve<R: Abort + Wait, W: Work>(rt: &R, worker: &mut Worker<W>, parker: &mut Parker)
    ensures { worker.new.queue ≡ worker.old.queue }
{
    assert!(rt; !worker.is_closed() && !worker.is_draining());
    worker.serve(rt, parker);
}

/// A parker for a worker, and what unparks it.
pub(crate) fn new_parker<R: Abort>(rt: &R, alloc: Global) -> (Parker, Unparker) {
    let parker = Parker::new(alloc).expect(rt, "memory for a parker");
    let unparker = parker.unparker().clone().expect(rt, "one unparker more");
    (parker, unparker)
}

pub(crate) fn stop(sender: &mut Sender, unparker: &Unparker) -> Answer
    ensures { sender.new.queue ≡ sender.old.queue }
{
    let answer = sender.request_stop(u32::MAX);
    unparker.unpark();
    answer
}

//! A sender, which queues its items and wakes whoever executes them where an answer says so; and two that do so in two threads.
ghost use Rattle.std.specs.Prelude.{◌≡◌, ◌*◌, ◌<◌, ◌≤◌, ◌++◌, []};
ghost use Rattle.wq_live.specs.History.{accepted};
ghost use Rattle.wq_live.specs.Seen.{own};
ghost use Rattle.wq_live.specs.Known.{IsSame};
ghost use Rattle.wq_live.specs.Laws.{queued_number};
ghost use Rattle.example_threads.specs.Met.{QueuedAsTold};

use crate::waking::Waker;
use std::sync::Wait;
use std::thread::{Threads, join};
use trail::Trail;
use wq_live::{Answer, Sender, queued_is_accepted};

/// A sender, and the list of what it queued and was answered `Queued` for, which contracts alone see.
#[derive(Drop)]
pub struct Told {
    /// The sender, with the history that it has seen, which contracts alone see.
    pub sender: Sender,
    /// The list of what was accepted of it, which contracts alone see.
    pub queued: Trail,
}

/// Two senders, with what each of them queued.
#[derive(Drop)]
pub(crate) struct TwoSenders {
    pub(crate) first: Told,
    pub(crate) second: Told,
}

/// The list with the number, if the answer is `Queued`.
fn tell(queued: Trail, number: u32, answer: Answer) -> Trail
    ensures told { result.items ≡ queued.items ++ queued_number number answer }
{
    match answer {
        Answer::Queued { .. } => queued.and(number),
        Answer::Pending | Answer::Closed | Answer::Draining | Answer::Contended => queued,
    }
}

/// One queueing. What was accepted of the sender grows by the item, if the answer is `Queued`.
fn queue<R: Wait>(rt: &R, sender: &mut Sender, item: u32, waker: &Waker) -> Answer
    requires item { item < sender.old.layout.items }
    ensures same { IsSame sender.old sender.new }
    ensures accepted { accepted (own sender.old.number sender.new.seen) ≡ accepted (own sender.old.number sender.old.seen) ++ queued_number item result }
{
    queued_is_accepted();
    let answer = sender.queue(rt, item);
    waker.wake(answer);
    answer
}

/// Queues these items in their order, once each.
pub(crate) fn queue_own<R: Wait>(
    rt: &R,
    mut sender: Sender,
    from: u32,
    to: u32,
    waker: &Waker,
) -> Told
    requires from { from ≤ to }
    requires to { to ≤ sender.layout.items }
    requires new { sender.seen ≡ [] }
    ensures { QueuedAsTold sender result }
{
    let mut queued = Trail::new();
    for item in from..to {
        let answer = queue(rt, &mut sender, item, waker);
        queued = tell(queued, item, answer);
    }
    Told { sender, queued }
}

/// Two senders queue so many items each, of their own, in two threads.
pub(crate) fn queue_both<R: Threads + Wait + Sync>(
    rt: &R,
    first: Sender,
    second: Sender,
    each: u32,
    waker: &Waker,
) -> TwoSenders
    requires items { (each * 2 ≤ first.layout.items) × (each * 2 ≤ second.layout.items) }
    requires new { (first.seen ≡ []) × (second.seen ≡ []) }
    ensures first { QueuedAsTold first result.first }
    ensures second { QueuedAsTold second result.second }
{
    let (first, second) = join(
        rt,
        move ||
            requires { (each * 2 ≤ first.layout.items) × (first.seen ≡ []) }
            ensures { QueuedAsTold first result }
        { queue_own(rt, first, 0, each, waker) },
        move ||
            requires { (each * 2 ≤ second.layout.items) × (second.seen ≡ []) }
            ensures { QueuedAsTold second result }
        { queue_own(rt, second, each, each * 2, waker) },
    );
    TwoSenders { first, second }
}

/// Queues the stop item, behind all that the sender queued.
pub(crate) fn stop(told: Told, waker: &Waker) -> Told
    requires accepted { accepted (own told.sender.number told.sender.seen) ≡ told.queued.items }
    ensures same { IsSame told.sender result.sender }
    ensures accepted { accepted (own told.sender.number result.sender.seen) ≡ result.queued.items }
{
    let Told { mut sender, queued } = told;
    let number = sender.layout().stop();
    queued_is_accepted();
    let answer = sender.request_stop(u32::MAX);
    waker.wake(answer);
    Told {
        sender,
        queued: tell(queued, number, answer),
    }
}

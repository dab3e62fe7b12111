//! Senders in threads of their own, and the stop items.
ghost use Rattle.std.specs.Prelude.{◌≡◌, ◌<◌, ◌≤◌, ◌++◌, [], length};
ghost use Rattle.wq_pool.specs.History.{accepted};
ghost use Rattle.wq_pool.specs.Seen.{own};
ghost use Rattle.wq_pool.specs.Laws.{queued_number};
ghost use Rattle.wq_pool.specs.Known.{IsSame, IsCallerOf};
ghost use Rattle.example_pool.specs.Ended.{AreNewSenders, queueing, QueuedBoth, HaveQueued};

use crate::work::RunList;
use std::sync::Wait;
use std::thread::{Threads, join};
use wq_live::{Answer, Sender, own_events_grow, queued_is_accepted};
use wq_pool::{Caller, Pool};

/// A sender, and what its two queueings were answered.
#[derive(Drop)]
pub struct Told {
    /// The sender, with the history that it has seen, which contracts alone see.
    pub sender: Sender,
    /// What its first queueing was answered.
    pub one: Answer,
    /// What its second queueing was answered.
    pub two: Answer,
}

/// A sender of the pool's queue of this number, and a caller that announces it.
#[derive(Drop)]
pub(crate) struct SenderWithCaller {
    pub(crate) queue: u32,
    pub(crate) sender: Sender,
    pub(crate) caller: Caller,
}

/// The senders of one queue: two for threads, and one for the stop item.
#[derive(Drop)]
pub(crate) struct QueueSenders {
    pub(crate) first: SenderWithCaller,
    pub(crate) second: SenderWithCaller,
    pub(crate) last: Sender,
}

// One queueing, whose answer is what the sender then did. Where it wakes the queue, this is announced, so that a worker picks it.
fn queue<R: Wait>(rt: &R, pool: &Pool<RunList>, seat: &mut SenderWithCaller, item: u32) -> Answer
    requires caller { IsCallerOf pool.now.ready seat.old.caller }
    requires queue { seat.old.queue < length pool.now.workers }
    requires item { item < seat.old.sender.layout.items }
    ensures caller { IsCallerOf pool.now.ready seat.new.caller }
    ensures queue { seat.new.queue ≡ seat.old.queue }
    ensures same { IsSame seat.old.sender seat.new.sender }
    ensures events { own seat.old.sender.number seat.new.sender.seen ≡ own seat.old.sender.number seat.old.sender.seen
        ++ queueing seat.old.sender.number item result }
    ensures accepted { accepted (own seat.old.sender.number seat.new.sender.seen) ≡ accepted (own seat.old.sender.number seat.old.sender.seen)
        ++ queued_number item result }
{
    queued_is_accepted();
    own_events_grow();
    let answer = seat.sender.queue(rt, item);
    let Ok(()) = pool.wake(rt, &mut seat.caller, seat.queue, answer) else {
        unreachable!()
    };
    answer
}

// What a thread does: two queueings, one after the other.
fn queue_two<R: Wait>(
    rt: &R,
    pool: &Pool<RunList>,
    mut seat: SenderWithCaller,
    one: u32,
    two: u32,
) -> Told
    requires caller { IsCallerOf pool.now.ready seat.caller }
    requires queue { seat.queue < length pool.now.workers }
    requires one { one < seat.sender.layout.items }
    requires two { two < seat.sender.layout.items }
    requires new { seat.sender.seen ≡ [] }
    ensures { QueuedBoth one two seat result }
{
    let first = queue(rt, pool, &mut seat, one);
    let second = queue(rt, pool, &mut seat, two);
    let SenderWithCaller { sender, .. } = seat;
    Told {
        sender,
        one: first,
        two: second,
    }
}

// The senders of one queue, two of them in threads of their own. The last one is given back.
fn queue_both<R: Threads + Wait + Sync>(
    rt: &R,
    pool: &Pool<RunList>,
    senders: QueueSenders,
) -> ((Told, Told), Sender)
    requires { AreNewSenders pool.now senders }
    ensures { HaveQueued senders.first.sender.queue result.0.0 result.0.1 }
{
    let QueueSenders {
        first,
        second,
        last,
    } = senders;
    let told = join(
        rt,
        move ||
            requires { IsCallerOf pool.now.ready first.caller × (first.queue < length pool.now.workers)
                × (2 ≤ first.sender.layout.items) × (first.sender.seen ≡ []) }
            ensures { QueuedBoth 0 1 first result }
        { queue_two(rt, pool, first, 0, 1) },
        move ||
            requires { IsCallerOf pool.now.ready second.caller × (second.queue < length pool.now.workers)
                × (4 ≤ second.sender.layout.items) × (second.sender.seen ≡ []) }
            ensures { QueuedBoth 2 3 second result }
        { queue_two(rt, pool, second, 2, 3) },
    );
    (told, last)
}

// Queues the stop item, behind all that its queue has accepted.
fn stop<R: Wait>(rt: &R, pool: &Pool<RunList>, caller: &mut Caller, queue: u32, mut sender: Sender)
    requires caller { IsCallerOf pool.now.ready caller.old }
    requires queue { queue < length pool.now.workers }
    ensures { IsCallerOf pool.now.ready caller.new }
{
    for _ in rt.forever() {
        match sender.request_stop(1) {
            Answer::Contended => {}
            answer => {
                let Ok(()) = pool.wake(rt, caller, queue, answer) else {
                    unreachable!()
                };
                return;
            }
        }
    }
}

/// All four senders queue, and when they have ended both stop items follow.
pub(crate) fn queue_all<R: Threads + Wait + Sync>(
    rt: &R,
    pool: &Pool<RunList>,
    mut caller: Caller,
    one: QueueSenders,
    two: QueueSenders,
) -> ((Told, Told), (Told, Told))
    requires caller { IsCallerOf pool.now.ready caller }
    requires queues { 2 ≤ length pool.now.workers }
    requires one { AreNewSenders pool.now one }
    requires two { AreNewSenders pool.now two }
    ensures one { HaveQueued one.first.sender.queue result.0.0 result.0.1 }
    ensures two { HaveQueued two.first.sender.queue result.1.0 result.1.1 }
{
    let ((told_one, last_one), (told_two, last_two)) = join(
        rt,
        move ||
            requires { AreNewSenders pool.now one }
            ensures { HaveQueued one.first.sender.queue result.0.0 result.0.1 }
        { queue_both(rt, pool, one) },
        move ||
            requires { AreNewSenders pool.now two }
            ensures { HaveQueued two.first.sender.queue result.0.0 result.0.1 }
        { queue_both(rt, pool, two) },
    );
    stop(rt, pool, &mut caller, 0, last_one);
    stop(rt, pool, &mut caller, 1, last_two);
    (told_one, told_two)
}

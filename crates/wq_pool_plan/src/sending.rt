//! What the threads of the senders do.
ghost use Rattle.std.specs.Prelude.{◌+◌, ◌*◌, ◌<◌, ◌≤◌, [], ◌∷◌, length};
ghost use Rattle.wq_plan.specs.Plan.{most_plan_queues};
ghost use Rattle.wq_ready.specs.Known.{IsCallerOf};
ghost use Rattle.wq_race.specs.Race.{items_at, HasQueued, AllQueued};
ghost use Rattle.wq_pool_plan.specs.Race.{IsGroupFor, AllStopped};

use crate::teams::Group;
use std::sync::Wait;
use wq_live::{Answer, Sender};
use wq_pool::{Caller, Pool};
use wq_race::{RunCounter, queue_stop};

// Does what the answer of a queueing on this queue asks for.
fn wake<R: Wait>(rt: &R, pool: &Pool<RunCounter>, caller: &mut Caller, queue: u32, answer: Answer)
    requires caller { IsCallerOf pool.now.ready caller.old }
    requires queue { queue < length pool.now.workers }
    ensures { IsCallerOf pool.now.ready caller.new }
{
    let Ok(()) = pool.wake(rt, caller, queue, answer) else {
        unreachable!()
    };
}

// Queues an item, and announces the queue where that wakes it.
fn queue_item<R: Wait>(
    rt: &R,
    pool: &Pool<RunCounter>,
    caller: &mut Caller,
    queue: u32,
    sender: &mut Sender,
    item: u32,
)
    requires caller { IsCallerOf pool.now.ready caller.old }
    requires queue { queue < length pool.now.workers }
    requires item { item < sender.old.layout.items }
    ensures caller { IsCallerOf pool.now.ready caller.new }
    ensures queued { HasQueued (item ∷ []) sender.old sender.new }
{
    let answer = sender.queue(rt, item);
    wake(rt, pool, caller, queue, answer);
}

// Queues the sender's own items in order, once each.
fn queue_own<R: Wait>(
    rt: &R,
    pool: &Pool<RunCounter>,
    caller: &mut Caller,
    queue: u32,
    sender: &mut Sender,
    own: u32,
)
    requires caller { IsCallerOf pool.now.ready caller.old }
    requires queue { queue < length pool.now.workers }
    requires room { sender.old.number * own + own ≤ sender.old.layout.items }
    ensures caller { IsCallerOf pool.now.ready caller.new }
    ensures queued { HasQueued (items_at sender.old.number own) sender.old sender.new }
{
    let first = sender.number() * own;
    for item in first..first + own {
        queue_item(rt, pool, caller, queue, sender, item);
    }
}

/// Queues the own items of the senders of one number, on each queue in turn.
pub(crate) fn queue_group<R: Wait>(
    rt: &R,
    pool: &Pool<RunCounter>,
    mut caller: Caller,
    mut group: Group,
    own: u32,
) -> Group
    requires caller { IsCallerOf pool.now.ready caller }
    requires ready { IsGroupFor own pool.now group }
    ensures { AllQueued own group.senders.items result.senders.items }
{
    let mut queue = 0u32;
    for sender in group.senders.iter_mut() {
        queue_own(rt, pool, &mut caller, queue, sender, own);
        queue += 1;
    }
    group
}

/// Queues the stop item of each queue.
pub(crate) fn stop_all<R: Wait>(
    rt: &R,
    pool: &Pool<RunCounter>,
    mut caller: Caller,
    programs: &mut Vec<Sender>,
)
    requires caller { IsCallerOf pool.now.ready caller }
    requires places { length programs.old.items ≤ length pool.now.workers }
    requires few { length programs.old.items ≤ most_plan_queues }
    ensures { AllStopped programs.old.items programs.new.items }
{
    let mut queue = 0u32;
    for program in programs.iter_mut() {
        let answer = queue_stop(rt, program);
        wake(rt, pool, &mut caller, queue, answer);
        queue += 1;
    }
}

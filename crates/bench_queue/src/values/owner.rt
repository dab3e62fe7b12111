//! An owner that executes in this thread, what senders queue in threads of their own or one sender in turn with it.
ghost use Rattle.wq_words.specs.History.{IsRunning};

use crate::benchmark::Load;
use crate::host::Host;
use crate::refusal::Refusal;
use crate::values::payload::Payload;
use crate::values::posts::{join_all, offer, start};
use wq_live::Spins;
use wq_values::{ValueOwner, ValueSender, build_values};

/// How many executions ended, in how many takes that found something, what the values came to, and how many the sender queued that
/// queued fewest.
#[derive(Clone, Copy, Default)]
pub struct ValueThroughput {
    pub items: u64,
    pub takes: u64,
    pub sum: u64,
    pub least: u64,
}

// Executes the oldest number that was taken, with a function that reads its value. None where none waits.
fn execute_next<V: Payload>(owner: &mut ValueOwner<V>) -> Option<u64>
    requires idle { ¬ IsRunning owner.old.known.seen }
    ensures idle { ¬ IsRunning owner.new.known.seen }
{
    if owner.next().is_none() {
        return None;
    }
    let (_, value) = owner.begin();
    let word = match &value {
        Some(value) => value.read(),
        None => 0,
    };
    owner.end();
    Some(word)
}

// Executes up to so many numbers, and answers how many that were. It adds up what their values came to.
fn execute_some<V: Payload>(owner: &mut ValueOwner<V>, limit: u64, sum: &mut u64) -> u64
    requires idle { ¬ IsRunning owner.old.known.seen }
{
    for count in 0..limit {
        let Some(word) = execute_next(owner) else {
            return count;
        };
        *sum = sum.wrapping_add(word);
    }
    limit
}

// Takes what was queued where nothing taken waits, executes up to so many numbers, and answers how many that were.
fn execute_batch<V: Payload>(owner: &mut ValueOwner<V>, limit: u64, sum: &mut u64) -> u64 {
    if owner.next().is_none() && !owner.is_closed() && !owner.is_draining() {
        owner.take();
    }
    if owner.running().is_some() {
        return 0;
    }
    execute_some(owner, limit, sum)
}

// Queues each item of the queue once.
fn queue_all<V: Payload>(sender: &mut ValueSender<V>) {
    for item in 0..sender.layout().items {
        offer(sender, item);
    }
}

// Executes until so many items have ended. A sender that has no thread queues all items before each take.
fn execute<V: Payload>(
    owner: &mut ValueOwner<V>,
    mut alone: Option<ValueSender<V>>,
    load: Load,
) -> ValueThroughput {
    let mut counts = ValueThroughput::default();
    for _ in 0..u64::MAX {
        if counts.items >= load.total {
            break;
        }
        if let Some(sender) = &mut alone {
            queue_all(sender);
        }
        let count = execute_batch(owner, load.total - counts.items, &mut counts.sum);
        if alone.is_none() {
            load.pace.after_take(count, load.spins);
        }
        counts.items = counts.items.saturating_add(count);
        counts.takes = counts.takes.saturating_add(u64::from(count > 0));
    }
    counts
}

// Closes the queue and executes what is left of it, so that no sender waits for an item that would be pending for ever.
fn finish<V: Payload>(owner: &mut ValueOwner<V>, counts: &mut ValueThroughput) {
    if !owner.is_closed() {
        owner.close();
    }
    execute_batch(owner, u64::MAX, &mut counts.sum);
}

// Each sender gives way so long.
fn set_spins<V: Payload>(senders: &mut [ValueSender<V>], spins: Spins) {
    for sender in senders {
        sender.set_spins(spins);
    }
}

/// Executes so many items while the senders queue, and then closes the queue and executes the rest, which ends them.
pub fn run<R: Host, V: Payload + 'static>(rt: &R, load: Load) -> Result<ValueThroughput, Refusal> {
    let (mut owner, mut senders) = build_values::<V>(rt.alloc(), load.layout(0)?)?;
    set_spins(&mut senders, load.spins);
    if load.senders == 0 {
        return Ok(execute(&mut owner, senders.pop(), load));
    }
    let threads = start(rt, senders, load.slice)?;
    let mut counts = execute(&mut owner, None, load);
    finish(&mut owner, &mut counts);
    counts.least = join_all(rt, threads);
    Ok(counts)
}

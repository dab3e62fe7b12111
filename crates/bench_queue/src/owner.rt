//! An owner that executes in this thread, what senders queue in threads of their own or one sender in turn with it.
ghost use Rattle.std.specs.Prelude.{◌≡◌, IsTrue};
ghost use Rattle.wq_words.specs.History.{IsRunning};

use crate::benchmark::Load;
use crate::host::Host;
use crate::posts::{UnparkPolicy, join_all, set_spins, start};
use crate::refusal::Refusal;
use crate::run_counter::shown;
use crossbeam_utils::sync::Parker;
use wq_live::{Owner, Sender, build};

/// How many executions ended, in how many takes that found something.
#[derive(Clone, Copy, Default)]
pub struct Throughput {
    pub items: u64,
    pub takes: u64,
    /// How many the sender queued that queued fewest.
    pub least: u64,
}

// Executes the oldest number that was taken, with a function that does nothing. False where none waits.
fn execute_next(owner: &mut Owner) -> bool
    requires idle { ¬ IsRunning owner.old.seen }
    ensures idle { IsTrue result → ¬ IsRunning owner.new.seen }
{
    if owner.next().is_none() {
        return false;
    }
    owner.begin();
    if owner.running().is_some() {
        owner.end();
    }
    owner.running().is_none()
}

// Executes up to so many numbers, and answers how many that were.
fn execute_some(owner: &mut Owner, limit: u64) -> u64
    requires idle { ¬ IsRunning owner.old.seen }
{
    for count in 0..limit {
        if !execute_next(owner) {
            return count;
        }
    }
    limit
}

/// Takes what was queued where nothing taken waits, executes up to so many numbers, and answers how many that were.
pub fn execute_batch(owner: &mut Owner, limit: u64) -> u64 {
    if owner.next().is_none() && !owner.is_closed() && !owner.is_draining() {
        owner.take();
    }
    if owner.running().is_some() {
        return 0;
    }
    execute_some(owner, limit)
}

/// Queues each item of the queue once.
pub fn queue_all(sender: &mut Sender)
    ensures { sender.new.queue ≡ sender.old.queue }
{
    for item in 0..sender.layout().items {
        if item < sender.layout().items {
            let _ = sender.queue_tries(item, 1);
        }
    }
}

/// Executes until so many items have ended. A sender that has no thread queues all items before each take.
fn execute(owner: &mut Owner, mut alone: Option<Sender>, load: Load) -> Throughput {
    let mut counts = Throughput::default();
    for _ in 0..u64::MAX {
        if counts.items >= load.total {
            break;
        }
        if let Some(sender) = &mut alone {
            queue_all(sender);
        }
        let count = execute_batch(owner, load.total - counts.items);
        if alone.is_none() {
            load.pace.after_take(count, load.spins);
        }
        counts.items = counts.items.saturating_add(count);
        counts.takes = counts.takes.saturating_add(u64::from(count > 0));
    }
    counts
}

/// Closes the queue and executes what is left of it, so that no sender waits for an item that would be pending for ever.
fn finish(owner: &mut Owner) {
    if !owner.is_closed() {
        owner.close();
    }
    execute_batch(owner, u64::MAX);
}

/// Executes so many items while the senders queue, and then closes the queue and executes the rest, which ends them.
pub fn run<R: Host>(rt: &R, load: Load) -> Result<Throughput, Refusal> {
    let (mut owner, mut senders) = build(rt.alloc(), load.layout(0)?)?;
    set_spins(&mut senders, load.spins);
    if load.senders == 0 {
        return Ok(execute(&mut owner, senders.pop(), load));
    }
    let parker = Parker::new(rt.alloc())?;
    let shown = shown(rt.alloc())?;
    let threads = start(
        rt,
        senders,
        load.slice,
        UnparkPolicy::Nobody,
        parker.unparker(),
        &shown,
    )?;
    let mut counts = execute(&mut owner, None, load);
    finish(&mut owner);
    counts.least = join_all(rt, threads).least;
    Ok(counts)
}

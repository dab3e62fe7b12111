//! A queue of many items: what each call takes that goes over all of them, and how much memory is kept.
ghost use Rattle.std.specs.Prelude.{◌≡◌, [], IfOk};

use crate::delays::seats;
use crate::host::Host;
use crate::owner::{execute_batch, queue_all};
use crate::refusal::Refusal;
use crate::run_counter::{RunCounter, shown};
use std::alloc::Global;
use std::fs;
use std::time::Instant;
use wq_delay::Delay;
use wq_live::{Owner, Sender};
use wq_words::Layout;
use wq_worker::{Book, Worker};

/// How many bytes a page of memory has on x86-64.
const PAGE: u64 = 4096;

/// How long a lap, a call or a few over all items, took, and how many bytes of memory are resident more after it.
#[derive(Clone, Copy)]
pub struct Lap {
    pub name: &'static str,
    pub nanos: u128,
    pub bytes: u64,
}

/// The laps that have ended, where the next one began, and what could not be had for one of them.
#[derive(Drop)]
struct Laps {
    ended: Vec<Lap>,
    start: Instant,
    bytes: u64,
    refusal: Option<Refusal>,
}

/// How many bytes of memory this process has resident.
fn resident<R: Host>(rt: &R) -> Result<u64, Refusal> {
    let text = fs::read_to_string(rt, "/proc/self/statm")?;
    let pages = text.split_ascii_whitespace().nth(1);
    let pages: u64 = pages.and_then(|word| word.parse().ok()).unwrap_or(0);
    Ok(pages.saturating_mul(PAGE))
}

impl Laps {
    fn begin<R: Host>(rt: &R) -> Result<Laps, Refusal> {
        let bytes = resident(rt)?;
        Ok(Laps {
            ended: Vec::new(rt.alloc()),
            start: Instant::now(rt)?,
            bytes,
            refusal: None,
        })
    }

    /// Ends a lap, and begins the next. What cannot be had is said when all have ended: what is measured would else have an end of
    /// its own at each lap, and be dropped there, which each is a case for the proof.
    fn end<R: Host>(&mut self, rt: &R, name: &'static str) {
        if let Err(refusal) = self.try_end(rt, name) {
            self.refusal = Some(refusal);
        }
    }

    fn try_end<R: Host>(&mut self, rt: &R, name: &'static str) -> Result<(), Refusal> {
        let nanos = self.start.elapsed(rt)?.as_nanos();
        let bytes = resident(rt)?;
        self.ended.push(Lap {
            name,
            nanos,
            bytes: bytes.saturating_sub(self.bytes),
        })?;
        self.bytes = bytes;
        self.start = Instant::now(rt)?;
        Ok(())
    }
}

/// Begins a drain, where the queue is open.
fn drain(owner: &mut Owner) {
    if !owner.is_closed() && !owner.is_draining() {
        owner.drain();
    }
}

/// Ends a drain that has run out.
fn resume(owner: &mut Owner) {
    if owner.drained() {
        owner.resume();
    }
}

/// Closes the queue, where it is not closed.
fn close(owner: &mut Owner) {
    if !owner.is_closed() {
        owner.close();
    }
}

/// An owner finds all items on its list at a take, at a drain and at a close.
fn measure_owner<R: Host>(rt: &R, laps: &mut Laps, items: u32) -> Result<(), Refusal> {
    let (mut owner, mut sender) = seats(rt.alloc(), items)?;
    laps.end(rt, "build");
    queue_all(&mut sender);
    laps.end(rt, "queue");
    execute_batch(&mut owner, 0);
    laps.end(rt, "take");
    execute_batch(&mut owner, u64::MAX);
    laps.end(rt, "execute");
    queue_all(&mut sender);
    laps.end(rt, "queue");
    drain(&mut owner);
    laps.end(rt, "drain");
    execute_batch(&mut owner, u64::MAX);
    resume(&mut owner);
    queue_all(&mut sender);
    laps.end(rt, "execute, resume, queue");
    close(&mut owner);
    laps.end(rt, "close");
    Ok(())
}

/// A worker of a new queue of so many items, and its one sender.
fn worker_and_sender(
    alloc: Global,
    items: u32,
    work: RunCounter,
) -> Result<(Worker<RunCounter>, Sender), Refusal>
    requires { work.ran.items ≡ [] }
    ensures { IfOk result (λ r. r.1.queue ≡ r.0.queue) }
{
    let (worker, mut senders) = Worker::build(alloc, Layout::new(items, 1, 2)?, work, 1)?;
    match senders.pop() {
        Some(sender) => Ok((worker, sender)),
        None => Err(Refusal::Memory),
    }
}

/// The book of a worker, when all that is left has run.
fn destroyed(worker: Worker<RunCounter>) -> Result<Book, Refusal>
    ensures { IfOk result (λ book. book.queue ≡ worker.queue) }
{
    match worker.destroy(u32::MAX) {
        Ok((_work, book)) => Ok(book),
        Err(_unfinished) => Err(Refusal::Unfinished),
    }
}

/// The sender meets the book, and its ledger is balanced with it.
fn balance(book: &mut Book, sender: &mut Sender) -> Result<(), Refusal>
    requires { sender.old.queue ≡ book.old.queue }
{
    let ledger = book.meet(sender);
    match book.balance(&[ledger]) {
        Ok(_totals) => Ok(()),
        Err(_unbalanced) => Err(Refusal::Unbalanced),
    }
}

/// A worker with as many items is destroyed, and its sender meets the book that is left.
fn measure_end<R: Host>(
    rt: &R,
    laps: &mut Laps,
    worker: Worker<RunCounter>,
    mut sender: Sender,
) -> Result<(), Refusal>
    requires { sender.queue ≡ worker.queue }
{
    let mut book = destroyed(worker)?;
    laps.end(rt, "destroy");
    balance(&mut book, &mut sender)?;
    laps.end(rt, "ledgers");
    Ok(())
}

/// A worker drains a queue of which all items wait, and is destroyed with as many.
fn measure_worker<R: Host>(rt: &R, laps: &mut Laps, items: u32) -> Result<(), Refusal> {
    let work = RunCounter::new(u64::MAX, shown(rt.alloc())?);
    let (mut worker, mut sender) = worker_and_sender(rt.alloc(), items, work)?;
    queue_all(&mut sender);
    laps.end(rt, "build of a worker, queue");
    worker.drain(u32::MAX);
    laps.end(rt, "drain of a worker");
    queue_all(&mut sender);
    laps.end(rt, "queue");
    measure_end(rt, laps, worker, sender)
}

/// Queues all items at ticks to come.
fn arm_all(delay: &mut Delay) {
    for item in 0..delay.layout().items {
        if item < delay.layout().items {
            let _ = delay.arm(item, u64::from(item % 1024).saturating_add(1), 1);
        }
    }
}

/// A delay table lets all items go at once, keeps them in a drain, and lets them go after it.
fn measure_advances<R: Host>(rt: &R, laps: &mut Laps, owner: &mut Owner, delay: &mut Delay) {
    let _ = delay.advance(1024, 1);
    laps.end(rt, "advance, all go out");
    execute_batch(owner, u64::MAX);
    arm_all(delay);
    drain(owner);
    laps.end(rt, "execute, arm, drain");
    let _ = delay.advance(2048, 1);
    laps.end(rt, "advance in a drain");
    for tick in 2049..3073 {
        let _ = delay.advance(tick, 1);
    }
    laps.end(rt, "1024 advances, all are late");
    resume(owner);
    let _ = delay.advance(3072, 1);
    laps.end(rt, "advance after the resume");
    execute_batch(owner, u64::MAX);
}

/// A delay table is made, advanced with all items armed, and dissolved with as many.
fn measure_delay<R: Host>(rt: &R, laps: &mut Laps, items: u32) -> Result<(), Refusal> {
    let (mut owner, sender) = seats(rt.alloc(), items)?;
    laps.end(rt, "build");
    let mut delay = Delay::new(rt.alloc(), sender, 0).map_err(|_| Refusal::Memory)?;
    laps.end(rt, "table");
    arm_all(&mut delay);
    laps.end(rt, "arm");
    measure_advances(rt, laps, &mut owner, &mut delay);
    arm_all(&mut delay);
    laps.end(rt, "execute, arm");
    delay.dissolve();
    laps.end(rt, "dissolve");
    Ok(())
}

/// What each lap took over so many items.
pub fn measure<R: Host>(rt: &R, items: u32) -> Result<Vec<Lap>, Refusal> {
    let mut laps = Laps::begin(rt)?;
    measure_owner(rt, &mut laps, items)?;
    laps.end(rt, "drop");
    measure_worker(rt, &mut laps, items)?;
    laps.end(rt, "drop");
    measure_delay(rt, &mut laps, items)?;
    let Laps { ended, refusal, .. } = laps;
    match refusal {
        None => Ok(ended),
        Some(refusal) => Err(refusal),
    }
}

//! Six senders of one queue: the worker's own, four that queue in threads beside it, and one that queues the stop item.
ghost use Rattle.std.specs.Prelude.{◌≡◌, All};
ghost use Rattle.wq_ledger.specs.Book.{IsLedgerOf};

use super::contention::queue_often;
use super::draining::{self, drain_until_through};
use crate::expect::expect_same;
use crate::worker::team::{Fixed, destroy, new_parker, new_queue, serve, take_last};
use crossbeam_utils::sync::{Parker, Unparker};
use std::alloc::Global;
use std::hint::spin_loop;
use std::process::Abort;
use std::sync::Wait;
use std::sync::atomic::AtomicU64;
use std::thread::{Threads, join_mut};
use wq_live::{Answer, Owner, Sender};
use wq_worker::{Book, Ledger, Ran, Totals, Worker};

/// Which answers a sender wakes the worker on.
#[derive(Clone, Copy)]
pub(crate) enum Wakes {
    Always,
    OnRest,
    OnFirst,
}

/// How many items of its own each sender queues, how long it pauses before each, and when it wakes the worker.
#[derive(Clone, Copy)]
pub(crate) struct Offer {
    pub(crate) own: u32,
    pub(crate) pauses: u32,
    pub(crate) on: Wakes,
}

/// Wakes the worker where the answer says so. How often that is: once or never.
fn wake(answer: Answer, on: Wakes, unparker: &Unparker) -> u32 {
    let is_asked = match (answer, on) {
        (Answer::Queued { .. }, Wakes::Always) => true,
        (Answer::Queued { wakes, .. }, Wakes::OnRest) => wakes,
        (Answer::Queued { first, .. }, Wakes::OnFirst) => first,
        _ => false,
    };
    if is_asked {
        unparker.unpark();
    }
    u32::from(is_asked)
}

// By spins: beside a busy process a thread that gives its processor way comes back after milliseconds.
fn pause(turns: u32) {
    for _ in 0..turns.wrapping_mul(8) {
        spin_loop();
    }
}

pub(crate) fn queue_waiting<R: Abort + Wait>(rt: &R, sender: &mut Sender, item: u32) -> Answer
    ensures { sender.new.queue ≡ sender.old.queue }
{
    assert!(rt; item < sender.layout().items);
    sender.queue(rt, item)
}

/// Queues the sender's own items. How often it woke the worker.
fn queue_own<R: Abort + Wait>(rt: &R, sender: &mut Sender, offer: Offer, unparker: &Unparker) -> u32
    ensures { sender.new.queue ≡ sender.old.queue }
{
    let first = sender.number().wrapping_mul(offer.own);
    let mut count = 0u32;
    for item in first..first.wrapping_add(offer.own) {
        pause(item.wrapping_mul(offer.pauses));
        let answer = queue_waiting(rt, sender, item);
        count = count.wrapping_add(wake(answer, offer.on, unparker));
    }
    count
}

/// What senders do in their threads.
#[derive(Clone, Copy)]
pub(crate) enum Job {
    /// Each queues its own items, and wakes the worker, which runs until the stop item ran.
    Offer(Offer),
    /// Each queues its own items until they are through, while the worker drains.
    Through,
    /// Each queues 100 items over and over.
    Often,
}

/// What one sender does. How often it woke the worker, or was answered that the queue drains.
fn do_job<R: Abort + Wait>(
    rt: &R,
    sender: &mut Sender,
    job: Job,
    unparker: &Unparker,
    met: &AtomicU64,
) -> u32
    ensures { sender.new.queue ≡ sender.old.queue }
{
    match job {
        Job::Offer(offer) => queue_own(rt, sender, offer, unparker),
        Job::Through => draining::queue_own(rt, sender, met),
        Job::Often => queue_often(rt, sender),
    }
}

/// Two senders do so, each in a thread.
pub(crate) fn queue_pair<R: Abort + Threads + Wait + Sync>(
    rt: &R,
    first: &mut Sender,
    second: &mut Sender,
    job: Job,
    unparker: &Unparker,
    met: &AtomicU64,
) -> u32
    ensures { (first.new.queue ≡ first.old.queue) × (second.new.queue ≡ second.old.queue) }
{
    let (one, two) = join_mut(
        rt,
        &mut || do_job(rt, first, job, unparker, met),
        &mut || do_job(rt, second, job, unparker, met),
    );
    one.wrapping_add(two)
}

/// Senders 0 to 4 of a queue.
#[derive(Drop)]
pub(crate) struct Crew {
    pub(crate) first: Sender,
    pub(crate) second: Sender,
    pub(crate) third: Sender,
    pub(crate) fourth: Sender,
    pub(crate) last: Sender,
}

/// The stop item is queued behind items that are offered. How often the worker was woken for it.
fn stop_behind(sender: &mut Sender, job: Job, unparker: &Unparker) -> u32
    ensures { sender.new.queue ≡ sender.old.queue }
{
    let Job::Offer(offer) = job else {
        return 0;
    };
    let answer = sender.request_stop(u32::MAX);
    wake(answer, offer.on, unparker)
}

/// Four senders do so in threads, and then the last one queues the stop item behind what was offered.
fn queue_and_stop<R: Abort + Threads + Wait + Sync>(
    rt: &R,
    crew: &mut Crew,
    job: Job,
    unparker: &Unparker,
    met: &AtomicU64,
) -> u32
    ensures pairs { (crew.new.first.queue ≡ crew.old.first.queue) × (crew.new.second.queue ≡ crew.old.second.queue)
        × (crew.new.third.queue ≡ crew.old.third.queue) × (crew.new.fourth.queue ≡ crew.old.fourth.queue) }
    ensures last { crew.new.last.queue ≡ crew.old.last.queue }
{
    let (one, two) = join_mut(
        rt,
        &mut || queue_pair(rt, &mut crew.first, &mut crew.second, job, unparker, met),
        &mut || queue_pair(rt, &mut crew.third, &mut crew.fourth, job, unparker, met),
    );
    let last = stop_behind(&mut crew.last, job, unparker);
    one.wrapping_add(two).wrapping_add(last)
}

/// The sender meets the book, and its ledger is put behind the others.
fn enter<R: Abort>(rt: &R, book: &mut Book, ledgers: &mut Vec<Ledger>, sender: &mut Sender)
    requires one { sender.old.queue ≡ book.old.queue }
    requires made { All (IsLedgerOf book.old.seen) ledgers.old.items }
    ensures same { book.new.queue ≡ book.old.queue }
    ensures made { All (IsLedgerOf book.new.seen) ledgers.new.items }
{
    let ledger = book.meet(sender);
    ledgers.push(ledger).expect(rt, "memory for a ledger");
}

fn new_crew<R: Abort>(rt: &R, owner: &Owner, senders: &mut Vec<Sender>) -> Crew
    requires { All (λ s. s.queue ≡ owner.now.queue) senders.old.items }
    ensures { (result.first.queue ≡ owner.now.queue) × (result.second.queue ≡ owner.now.queue)
        × (result.third.queue ≡ owner.now.queue) × (result.fourth.queue ≡ owner.now.queue) × (result.last.queue ≡ owner.now.queue) }
{
    Crew {
        last: take_last(rt, owner, senders),
        fourth: take_last(rt, owner, senders),
        third: take_last(rt, owner, senders),
        second: take_last(rt, owner, senders),
        first: take_last(rt, owner, senders),
    }
}

/// Runs, and rests and parks where nothing waits, until the stop item ran. How often it rested.
fn run_and_rest<R: Abort + Wait>(rt: &R, worker: &mut Worker<Fixed>, parker: &mut Parker) -> u32
    ensures { worker.new.queue ≡ worker.old.queue }
{
    let mut rests = 0u32;
    for _ in rt.forever() {
        match worker.run_one() {
            Ran::Stop => return rests,
            Ran::Nothing => {
                assert!(rt; !worker.is_closed() && !worker.is_draining());
                if worker.rest() {
                    rests = rests.wrapping_add(1);
                    parker.park(rt);
                }
            }
            Ran::Item(_) | Ran::Barrier(_) | Ran::Owing(_) => {}
        }
    }
    unreachable!()
}

/// Runs until the stop item ran, or drains until all is through: where it is woken on `wakes` alone the worker rests, and else it
/// serves. How often it rested.
fn run_until_over<R: Abort + Wait>(
    rt: &R,
    worker: &mut Worker<Fixed>,
    parker: &mut Parker,
    met: &AtomicU64,
    job: Job,
) -> u32
    ensures { worker.new.queue ≡ worker.old.queue }
{
    let Job::Offer(offer) = job else {
        drain_until_through(rt, worker, met);
        return 0;
    };
    match offer.on {
        Wakes::OnRest => run_and_rest(rt, worker, parker),
        Wakes::Always | Wakes::OnFirst => {
            serve(rt, worker, parker);
            0
        }
    }
}

/// The worker runs beside its crew until all is over. How often it rested, and how often it was woken, or its crew was answered that
/// the queue drains.
pub(crate) fn run_beside<R: Abort + Threads + Wait + Sync>(
    rt: &R,
    alloc: Global,
    worker: &mut Worker<Fixed>,
    crew: &mut Crew,
    job: Job,
) -> (u32, u32)
    ensures worker { worker.new.queue ≡ worker.old.queue }
    ensures pairs { (crew.new.first.queue ≡ crew.old.first.queue) × (crew.new.second.queue ≡ crew.old.second.queue)
        × (crew.new.third.queue ≡ crew.old.third.queue) × (crew.new.fourth.queue ≡ crew.old.fourth.queue) }
    ensures last { crew.new.last.queue ≡ crew.old.last.queue }
{
    let (mut parker, unparker) = new_parker(rt, alloc);
    let met = AtomicU64::new(0);
    join_mut(
        rt,
        &mut || run_until_over(rt, worker, &mut parker, &met, job),
        &mut || queue_and_stop(rt, crew, job, &unparker, &met),
    )
}

fn enter_all<R: Abort>(rt: &R, alloc: Global, book: &mut Book, crew: &mut Crew) -> Vec<Ledger>
    requires { (crew.old.first.queue ≡ book.old.queue) × (crew.old.second.queue ≡ book.old.queue)
        × (crew.old.third.queue ≡ book.old.queue) × (crew.old.fourth.queue ≡ book.old.queue) × (crew.old.last.queue ≡ book.old.queue) }
    ensures { All (IsLedgerOf book.new.seen) result.items }
{
    let mut ledgers = Vec::new(alloc);
    enter(rt, book, &mut ledgers, &mut crew.first);
    enter(rt, book, &mut ledgers, &mut crew.second);
    enter(rt, book, &mut ledgers, &mut crew.third);
    enter(rt, book, &mut ledgers, &mut crew.fourth);
    enter(rt, book, &mut ledgers, &mut crew.last);
    ledgers
}

/// A worker of a queue of so many items, with the last of six senders, and the five others.
pub(crate) fn new_manned<R: Abort>(rt: &R, alloc: Global, items: u32) -> (Worker<Fixed>, Crew)
    ensures { (result.1.first.queue ≡ result.0.queue) × (result.1.second.queue ≡ result.0.queue)
        × (result.1.third.queue ≡ result.0.queue) × (result.1.fourth.queue ≡ result.0.queue) × (result.1.last.queue ≡ result.0.queue) }
{
    let (owner, mut senders) = new_queue(rt, alloc, items, 6);
    let own = take_last(rt, &owner, &mut senders);
    let crew = new_crew(rt, &owner, &mut senders);
    drop(senders);
    (Worker::new(owner, own, Fixed::new(), 1), crew)
}

/// The crew meets the book, which balances.
pub(crate) fn balance_crew<R: Abort>(
    rt: &R,
    alloc: Global,
    book: &mut Book,
    crew: &mut Crew,
) -> Totals
    requires { (crew.old.first.queue ≡ book.old.queue) × (crew.old.second.queue ≡ book.old.queue)
        × (crew.old.third.queue ≡ book.old.queue) × (crew.old.fourth.queue ≡ book.old.queue) × (crew.old.last.queue ≡ book.old.queue) }
{
    let ledgers = enter_all(rt, alloc, book, crew);
    book.balance(ledgers.as_slice()).expect(rt, "a balance")
}

/// Four senders queue 64 items each from threads of their own, and a fifth the stop item, while the worker serves.
#[test]
fn six_senders_balance(rt: HostRuntime) {
    let (mut worker, mut crew) = new_manned(&rt, rt.alloc(), 256);
    let offer = Offer {
        own: 64,
        pauses: 0,
        on: Wakes::Always,
    };
    run_beside(&rt, rt.alloc(), &mut worker, &mut crew, Job::Offer(offer));
    let (work, mut book) = destroy(&rt, worker, 9);
    expect_same(&rt, work.order.len(), 256);
    let totals = balance_crew(&rt, rt.alloc(), &mut book, &mut crew);
    expect_same(
        &rt,
        (totals.queued, totals.chained, totals.executed),
        (257, 0, 257),
    );
    expect_same(
        &rt,
        (totals.pending, totals.closed, totals.draining),
        (0, 0, 0),
    );
    drop(book);
    drop(crew);
}

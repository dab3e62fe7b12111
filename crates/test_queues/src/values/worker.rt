//! A worker whose items bring values, call by call.
ghost use Rattle.std.specs.Prelude.{◌≡◌, [], All};

use super::reading::queue_once;
use crate::balance::balance_values_met;
use crate::expect::expect_same;
use crate::seats::FIRST;
use std::alloc::Global;
use std::mem::replace;
use std::process::Abort;
use wq_live::Answer;
use wq_value_worker::{ValueBook, ValueFollow, ValueWork, ValueWorker};
use wq_values::ValueSender;
use wq_words::Layout;
use wq_worker::{Drained, Ran, Totals, Unfinished};

/// A work that asks for these pairs where item 0 ran, and keeps what it ran and what came back.
#[derive(Drop)]
pub(super) struct Keeping<'a, R: Abort, V: Drop> {
    rt: &'a R,
    asks: ValueFollow<V>,
    pub(super) ran: Vec<(u32, V)>,
    pub(super) came_back: Vec<(u32, V)>,
}

impl<'a, R: Abort, V: Drop> Keeping<'a, R, V> {
    pub(super) fn asking(rt: &'a R, alloc: Global, asks: ValueFollow<V>) -> Keeping<'a, R, V>
        ensures { result.ran.items ≡ [] }
    {
        Keeping {
            rt,
            asks,
            ran: Vec::new(alloc),
            came_back: Vec::new(alloc),
        }
    }
}

impl<'a, R: Abort, V: Drop> ValueWork<V> for Keeping<'a, R, V> {
    ghost log = { λ w. w.ran.items };

    ghost given = { λ w. w.came_back.items };

    ghost may = { λ w k v f u. Unit {0} };

    ghost takes = { λ w k v u. Unit {0} };

    fn run(&mut self, item: u32, value: V) -> ValueFollow<V> {
        self.ran.push((item, value)).expect(self.rt, "memory");
        if item == 0 {
            replace(&mut self.asks, ValueFollow::new())
        } else {
            ValueFollow::new()
        }
    }

    fn returned(&mut self, item: u32, value: V) {
        self.came_back.push((item, value)).expect(self.rt, "memory");
    }
}

/// A new worker whose work is this one, and the senders of its queue.
pub(super) fn new_worker<R: Abort, V: Drop, W: ValueWork<V> + Drop>(
    rt: &R,
    alloc: Global,
    items: u32,
    work: W,
) -> (ValueWorker<V, W>, Vec<ValueSender<V>>)
    requires { W.log work ≡ [] }
    ensures { All (λ s. s.known.queue ≡ result.0.worker.queue) result.1.items }
{
    let layout = Layout::new(items, 1, 3).expect(rt, "a layout");
    let Ok(made) = ValueWorker::build(alloc, layout, work, 1) else {
        panic!(rt; "no memory for a queue")
    };
    made
}

pub(super) fn take_last<R: Abort, V: Drop, W: ValueWork<V>>(
    rt: &R,
    worker: &ValueWorker<V, W>,
    senders: &mut Vec<ValueSender<V>>,
) -> ValueSender<V>
    requires { All (λ s. s.known.queue ≡ worker.now.worker.queue) senders.old.items }
    ensures rest { All (λ s. s.known.queue ≡ worker.now.worker.queue) senders.new.items }
    ensures last { result.known.queue ≡ worker.now.worker.queue }
{
    let _ = worker;
    senders.pop().expect(rt, "a sender")
}

/// A worker with the last of three senders of a queue, and the two others.
#[derive(Drop)]
pub(super) struct Team<'a, R: Abort, V: Drop> {
    pub(super) worker: ValueWorker<V, Keeping<'a, R, V>>,
    pub(super) first: ValueSender<V>,
    pub(super) second: ValueSender<V>,
}

/// A team of a queue of so many items, whose work asks for these pairs.
pub(super) fn new_team<'a, R: Abort, V: Drop>(
    rt: &'a R,
    alloc: Global,
    items: u32,
    asks: ValueFollow<V>,
) -> Team<'a, R, V>
    ensures first { result.first.known.queue ≡ result.worker.worker.queue }
    ensures second { result.second.known.queue ≡ result.worker.worker.queue }
{
    let (worker, mut senders) = new_worker(rt, alloc, items, Keeping::asking(rt, alloc, asks));
    let second = take_last(rt, &worker, &mut senders);
    let first = take_last(rt, &worker, &mut senders);
    drop(senders);
    Team {
        worker,
        first,
        second,
    }
}

/// Queues an item of the queue with a value.
pub(super) fn queue<R: Abort, V: Drop>(rt: &R, sender: &mut ValueSender<V>, item: u32, value: V)
    ensures { sender.new.known.queue ≡ sender.old.known.queue }
{
    let (answer, _back) = queue_once(sender, item, value);
    assert!(rt;
        matches!(answer, Some(Answer::Queued { .. })),
        "item {item}"
    );
}

pub(super) fn destroy<R: Abort, V: Drop, W: ValueWork<V> + Drop>(
    rt: &R,
    worker: ValueWorker<V, W>,
    limit: u32,
) -> (W, ValueBook<V>)
    ensures { result.1.book.queue ≡ worker.worker.queue }
{
    worker.destroy(limit).expect(rt, "a drained queue")
}

/// A destroy that comes to its limit.
fn destroy_some<R: Abort, V: Drop, W: ValueWork<V> + Drop>(
    rt: &R,
    worker: ValueWorker<V, W>,
    limit: u32,
) -> Unfinished<ValueWorker<V, W>>
    ensures { result.worker.worker.queue ≡ worker.worker.queue }
{
    match worker.destroy(limit) {
        Ok(_) => panic!(rt; "nothing was left"),
        Err(unfinished) => unfinished,
    }
}

/// A call of a sender or of the worker, with what it answers.
#[derive(Clone, Copy)]
pub(super) enum Step {
    /// The sender queues an item with a value.
    First(u32, u64),
    Second(u32, u64),
    /// The second sender requests the stop.
    Stop(Answer),
    /// The worker runs one number, or up to so many.
    Run(Ran),
    RunSome(u32, u32),
    Drain(u32, Drained),
    Close,
    /// How many executions the worker has counted, of which the first asked for four pairs.
    Counts(u128),
}

/// What a worker of four pairs has counted in so many executions.
fn totals(executed: u128) -> Totals {
    Totals {
        queued: 2,
        chained: 0,
        executed,
        pending: 1,
        closed: 0,
        draining: 0,
        contended: 0,
    }
}

/// A step of the worker.
fn step_worker<R: Abort>(
    rt: &R,
    worker: &mut ValueWorker<u64, Keeping<'_, R, u64>>,
    place: usize,
    step: Step,
) {
    match step {
        Step::Run(ran) => expect_same(rt, (place, worker.run_one()), (place, ran)),
        Step::RunSome(limit, count) => {
            expect_same(rt, (place, worker.run_some(limit)), (place, count));
        }
        Step::Drain(limit, drained) => {
            expect_same(rt, (place, worker.drain(limit)), (place, drained));
        }
        Step::Close => {
            assert!(rt; !worker.is_closed());
            worker.close();
        }
        Step::Counts(executed) => expect_same(rt, worker.counts(), totals(executed)),
        Step::First(..) | Step::Second(..) | Step::Stop(_) => {}
    }
}

/// Makes the steps, and looks whether each answers what is said of it.
fn play<R: Abort>(rt: &R, team: &mut Team<'_, R, u64>, steps: &[Step]) {
    for (place, &step) in steps.iter().enumerate() {
        match step {
            Step::First(item, value) => queue(rt, &mut team.first, item, value),
            Step::Second(item, value) => queue(rt, &mut team.second, item, value),
            Step::Stop(answer) => expect_same(rt, team.second.request_stop(1), answer),
            _ => step_worker(rt, &mut team.worker, place, step),
        }
    }
}

/// Makes the steps, and destroys the worker, which has run these by then, and these came back.
pub(super) fn play_out<R: Abort>(
    rt: &R,
    mut team: Team<'_, R, u64>,
    steps: &[Step],
    limit: u32,
    ran: &[(u32, u64)],
    came_back: &[(u32, u64)],
) {
    play(rt, &mut team, steps);
    let (work, book) = destroy(rt, team.worker, limit);
    drop(book);
    expect_same(rt, work.ran.as_slice(), ran);
    expect_same(rt, work.came_back.as_slice(), came_back);
    drop(work);
    drop(team.first);
    drop(team.second);
}

/// Each item runs with the value that it was queued with, in the order of the queueings, whichever sender's.
#[test]
fn each_runs_with_its_value(rt: HostRuntime) {
    let team = new_team(&rt, rt.alloc(), 8, ValueFollow::new());
    play_out(&rt, team, EACH, 0, EACH_RAN, &[]);
}

const EACH_RAN: &[(u32, u64)] = &[(3, 30), (0, 7), (2, 20), (3, 31)];

const EACH: &[Step] = &[
    Step::First(3, 30),
    Step::Second(0, 7),
    Step::First(2, 20),
    Step::Run(Ran::Item(3)),
    Step::Second(3, 31),
    Step::Run(Ran::Item(0)),
    Step::Run(Ran::Item(2)),
    Step::Run(Ran::Item(3)),
    Step::Run(Ran::Nothing),
    Step::Stop(FIRST),
    Step::Run(Ran::Stop),
];

/// Four pairs: the second's item is pending by then, and the third's number is that of the barrier.
pub(super) fn four_pairs<R: Abort>(rt: &R) -> ValueFollow<u64> {
    let mut asks = ValueFollow::new();
    for &(item, value) in &[(5u32, 50u64), (2, 21), (8, 80), (4, 40)] {
        assert!(rt; asks.push(item, value).is_ok());
    }
    expect_same(rt, asks.push(6, 60), Err(60));
    asks
}

/// What comes back of four pairs.
pub(super) const TWO_BACK: &[(u32, u64)] = &[(2, 21), (8, 80)];

/// What runs where items 0 and 2 were queued.
const FOUR_RAN: &[(u32, u64)] = &[(0, 7), (2, 20), (5, 50), (4, 40)];

/// Item 0 asks for four pairs. Two come back once each, with their own values, and the two others run with theirs, behind what
/// was queued before: on an open queue, on one that drains and on a closed one.
const DOORS: &[&[Step]] = &[
    &[
        Step::First(0, 7),
        Step::Second(2, 20),
        Step::Run(Ran::Item(0)),
        Step::Run(Ran::Item(2)),
        Step::Run(Ran::Item(5)),
        Step::Run(Ran::Item(4)),
        Step::Run(Ran::Nothing),
    ],
    &[
        Step::First(0, 7),
        Step::Second(2, 20),
        Step::Drain(0, Drained::TooLong { left: 2 }),
        Step::Run(Ran::Item(0)),
        Step::Run(Ran::Item(2)),
        Step::Run(Ran::Item(5)),
        Step::Run(Ran::Item(4)),
        Step::Run(Ran::Nothing),
    ],
    &[
        Step::First(0, 7),
        Step::Second(2, 20),
        Step::Close,
        Step::Run(Ran::Item(0)),
        Step::Run(Ran::Item(2)),
        Step::Run(Ran::Item(5)),
        Step::Run(Ran::Item(4)),
        Step::Run(Ran::Nothing),
    ],
];

/// What a run asks for is queued with its values, also where the queue takes no push, or comes back.
#[test]
fn pairs_are_queued_or_come_back(rt: HostRuntime) {
    for &steps in DOORS {
        let team = new_team(&rt, rt.alloc(), 8, four_pairs(&rt));
        play_out(&rt, team, steps, 0, FOUR_RAN, TWO_BACK);
    }
}

/// A destroy that comes to its limit gives the worker back, closed, and a second one ends. The book balances with the senders.
#[test]
fn destroy_goes_on_with_values(rt: HostRuntime) {
    let Team {
        worker,
        mut first,
        mut second,
    } = new_team(&rt, rt.alloc(), 8, four_pairs(&rt));
    queue(&rt, &mut first, 0, 7u64);
    queue(&rt, &mut second, 2, 20);
    let unfinished = destroy_some(&rt, worker, 1);
    expect_same(&rt, unfinished.left, 3);
    assert!(rt; unfinished.worker.is_closed());
    let (answer, back) = queue_once(&mut first, 1, 10);
    expect_same(&rt, (answer, back), (Some(Answer::Closed), Some(10)));
    let (work, mut book) = destroy(&rt, unfinished.worker, 3);
    expect_same(&rt, (work.ran.len(), work.came_back.len()), (4, 2));
    let totals = Totals {
        queued: 2,
        chained: 2,
        executed: 4,
        pending: 1,
        closed: 1,
        draining: 0,
        contended: 0,
    };
    let balanced = balance_values_met(&mut book, &mut first, &mut second);
    expect_same(&rt, balanced, Ok(totals));
    drop(book);
    drop(work);
    drop(second);
    drop(first);
}

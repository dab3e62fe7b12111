//! What a race over a pool did, and whether its books balance.
ghost use Rattle.std.specs.Prelude.{◌≡◌, ◌+◌, ◌^◌, ◌<◌, ◌≤◌, List, length, All, IfOk};
ghost use Rattle.wq_plan.specs.Plan.{most_plan_queues};
ghost use Rattle.wq_turn.specs.declared.worker_id.WorkerId.{WorkerId};
ghost use Rattle.wq_turn.specs.Finished.{IsFinished};
ghost use Rattle.wq_pool.specs.Finished.{AreFinished};
ghost use Rattle.wq_race.specs.Outcome.{HasHeard, AllKnown};
ghost use Rattle.wq_pool_plan.specs.Race.{IsSent, AllSent};
ghost use Rattle.wq_pool_plan.specs.Outcome.{AnswersBalance, QueueRun, IsQueueRun, TellsRun, TellsRuns, IsOutcomeOf, AreBoth};

use crate::teams::Group;
use std::alloc::{AllocError, Global};
use std::sync::Wait;
use std::thread::yield_now;
use wq_live::Sender;
use wq_plan::Plan;
use wq_pool::{Pool, PoolFault};
use wq_race::{Outcome, RaceError, RunCounter, enter, enter_all, queued_by};
use wq_worker::{Book, Totals, Unbalanced};

/// Takes a pool apart, when it has run: the works and the books, by queue.
pub(crate) fn finish<R: Wait>(
    rt: &R,
    mut pool: Pool<RunCounter>,
) -> Result<Vec<(RunCounter, Book)>, RaceError>
    ensures { IfOk result (λ finished. AreFinished (λ w. w.ran.items) pool.workers finished.items) }
{
    for _ in rt.forever() {
        match pool.finish(u32::MAX) {
            Ok(finished) => return Ok(finished),
            Err(PoolFault::Memory { .. }) => return Err(RaceError::Memory),
            // Out does not come: all threads have ended, and none of them drops a turn.
            Err(PoolFault::Out { pool: same, .. } | PoolFault::Unfinished { pool: same, .. }) => {
                pool = same;
            }
        }
        yield_now();
    }
    unreachable!()
}

// The book meets each of these senders.
fn meet_all(book: &mut Book, senders: &mut Vec<Sender>)
    requires { All (λ s. s.queue ≡ book.old.queue) senders.old.items }
    ensures book { HasHeard book.old book.new }
    ensures senders { AllKnown book.new.seen senders.old.items senders.new.items }
{
    for sender in senders.iter_mut() {
        book.meet(sender);
    }
}

// The outcome of one queue. Where as much was executed as the senders and the program queued, nobody else queued, and what the
// senders queued is what was accepted. Else the worker queued as well, or a count is saturated; then what the work ran is.
fn outcome_of(balance: Result<Totals, Unbalanced>, queued: u128, stops: u64, ran: u64) -> Outcome
    requires { queued < 2 ^ 64 }
    ensures { IsOutcomeOf balance queued stops ran result }
{
    let stops = u128::from(stops);
    let ran = u128::from(ran);
    match balance {
        Ok(totals) => {
            let is_all = totals.executed == queued + stops;
            Outcome {
                accepted: if is_all { queued } else { ran },
                ran,
                is_balanced: true,
            }
        }
        Err(_) => Outcome {
            accepted: ran,
            ran,
            is_balanced: false,
        },
    }
}

// The book meets these senders and then the program's: how the ledgers of all balance.
fn balance_with(
    alloc: Global,
    book: &mut Book,
    senders: Vec<Sender>,
    program: &mut Sender,
) -> Result<Result<Totals, Unbalanced>, AllocError>
    requires one { All (λ s. s.queue ≡ book.old.queue) senders.items }
    requires program { program.old.queue ≡ book.old.queue }
    ensures { IfOk result (AnswersBalance book.old senders.items program.old) }
{
    let mut ledgers = Vec::with_capacity(alloc, senders.len() + 1)?;
    enter_all(book, &mut ledgers, senders)?;
    enter(book, &mut ledgers, program)?;
    book.legal();
    Ok(book.balance(&ledgers))
}

// The same, of a book and a sender that are done with afterwards.
fn settle(
    alloc: Global,
    mut book: Book,
    senders: Vec<Sender>,
    mut program: Sender,
) -> Result<Result<Totals, Unbalanced>, AllocError>
    requires one { All (λ s. s.queue ≡ book.queue) senders.items }
    requires program { program.queue ≡ book.queue }
    ensures { IfOk result (AnswersBalance book senders.items program) }
{
    balance_with(alloc, &mut book, senders, &mut program)
}

// What came of one queue.
fn balance_one(
    alloc: Global,
    work: RunCounter,
    mut book: Book,
    group: Group,
    program: Sender,
) -> Result<Outcome, AllocError>
    requires { (plan : Plan) × (id : WorkerId) × IsFinished (λ w. w.ran.items) id (work, book) × IsSent plan id group.senders.items program }
    ensures { IfOk result (λ outcome. (plan : Plan) (id : WorkerId) → IsFinished (λ w. w.ran.items) id (work, book)
        → IsSent plan id group.senders.items program → (run : QueueRun) × IsQueueRun plan run × TellsRun run outcome) }
{
    let Group { mut senders } = group;
    meet_all(&mut book, &mut senders);
    book.legal();
    let queued = queued_by(&senders);
    let stops = program.counts().queued;
    let ran = work.count();
    let balance = settle(alloc, book, senders, program)?;
    Ok(outcome_of(balance, queued, stops, ran))
}

// Two outcomes as one.
fn both(one: Outcome, other: Outcome) -> Outcome
    requires { (one.accepted + other.accepted < 2 ^ 128) × (one.ran + other.ran < 2 ^ 128) }
    ensures { AreBoth one other result }
{
    Outcome {
        accepted: one.accepted + other.accepted,
        ran: one.ran + other.ran,
        is_balanced: one.is_balanced && other.is_balanced,
    }
}

/// What came of all queues.
pub(crate) fn balance_all(
    alloc: Global,
    mut finished: Vec<(RunCounter, Book)>,
    mut by_queue: Vec<Group>,
    mut programs: Vec<Sender>,
) -> Result<Outcome, AllocError>
    requires { (plan : Plan) × (ids : List WorkerId) × (length ids ≤ most_plan_queues)
        × AreFinished (λ w. w.ran.items) ids finished.items × AllSent plan ids by_queue.items programs.items }
    ensures { IfOk result (λ outcome. (plan : Plan) (ids : List WorkerId) → AreFinished (λ w. w.ran.items) ids finished.items
        → AllSent plan ids by_queue.items programs.items → (runs : List QueueRun) × (length runs ≡ length ids) × TellsRuns plan runs outcome) }
{
    let mut all = Outcome {
        accepted: 0,
        ran: 0,
        is_balanced: true,
    };
    while let Some((work, book)) = finished.pop() {
        let Some(group) = by_queue.pop() else {
            unreachable!()
        };
        let Some(program) = programs.pop() else {
            unreachable!()
        };
        let one = balance_one(alloc, work, book, group, program)?;
        all = both(one, all);
    }
    Ok(all)
}

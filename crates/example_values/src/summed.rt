//! A worker that adds up the values that two senders queue, call by call in one thread.
ghost use Rattle.std.specs.Prelude.{◌≡◌, ◌+◌, ◌<◌, ◌≤◌, [], length, IfOk, sum};
ghost use Rattle.wq_value_worker.specs.History.{accepted, ended, IsRunning};
ghost use Rattle.wq_value_worker.specs.Legal.{IsLegal, IsComplete};
ghost use Rattle.wq_value_worker.specs.Known.{IsSame};
ghost use Rattle.wq_value_worker.specs.Seen.{own, owner_seat};
ghost use Rattle.wq_value_worker.specs.Book.{IsLedgerOf};
ghost use Rattle.wq_value_worker.specs.OwnBrought.{queued_value};
ghost use Rattle.wq_value_worker.specs.Returned.{pairs_of};
ghost use Rattle.wq_value_worker.specs.Silent.{AddsNoNumber};
ghost use Rattle.wq_value_worker.specs.State.{IsSameWorker};
ghost use Rattle.wq_value_worker.specs.Valued.{values_among};
ghost use Rattle.example_values.specs.Sums.{sum_of, own_sum};

use crate::adder::Adder;
use std::alloc::Global;
use thiserror::Error;
use wq_value_worker::{
    Ledger, Totals, Unbalanced, Unbuilt, ValueBook, ValueWorker, nothing_is_asked,
    pairs_have_values,
};
use wq_values::{ValueAnswer, ValueSender, own_values_match, queued_brings, values_add_up};
use wq_words::Layout;

/// What a queue came to that was destroyed.
#[derive(Drop)]
pub struct Summed {
    /// The sum of the values of all items that ran.
    pub sum: u64,
    /// The sum of the values that the first sender was answered Queued for, and that of the second.
    pub queued: (u64, u64),
    /// The sums of the counts of the worker and of both senders.
    pub totals: Totals,
    /// The book, with the whole history of the queue and what each number brought, which contracts alone see.
    pub book: ValueBook<u32>,
}

/// Why there is no sum.
#[derive(Clone, Copy, Debug, PartialEq, Eq, Error)]
pub enum Unsummed {
    /// Memory could not be had.
    #[error("no memory")]
    Memory,
    /// So many numbers were left when the destroy came to its limit.
    #[error("{0} left at the limit")]
    Left(u32),
    /// The sum does not fit into 64 bits.
    #[error("the sum is too large")]
    TooLarge,
    /// The ledgers do not balance: a count is saturated.
    #[error("{0}")]
    Unbalanced(#[from] Unbalanced),
}

impl From<Unbuilt<Adder>> for Unsummed {
    fn from(_unbuilt: Unbuilt<Adder>) -> Unsummed {
        Unsummed::Memory
    }
}

/// The value where it was queued, else 0.
fn queued_of(answer: &ValueAnswer<u32>, value: u32) -> u32
    ensures { result ≡ sum (values_among (queued_value value answer.now)) }
{
    match answer {
        ValueAnswer::Queued { .. } => value,
        ValueAnswer::Pending(_)
        | ValueAnswer::Closed(_)
        | ValueAnswer::Contended(_)
        | ValueAnswer::Draining(_) => 0,
    }
}

/// Queues an item. Answers its value where it is queued, else 0, and what was not queued is dropped with the answer.
fn queue_one(sender: &mut ValueSender<u32>, item: u32, value: u32) -> u32
    requires { item < sender.old.known.layout.items }
    ensures same { IsSame sender.old.known sender.new.known }
    ensures sum { own_sum sender.old.known.number sender.new.known.seen sender.new.brought
        ≡ own_sum sender.old.known.number sender.old.known.seen sender.old.brought + result }
{
    queued_brings::<u32>();
    let answer = sender.queue_value(item, value, 1);
    queued_of(&answer, value)
}

/// Queues two items, and answers the sum of the values of those that are queued.
fn queue_two(sender: &mut ValueSender<u32>, one: (u32, u32), other: (u32, u32)) -> u64
    requires one { one.0 < sender.old.known.layout.items }
    requires other { other.0 < sender.old.known.layout.items }
    ensures same { IsSame sender.old.known sender.new.known }
    ensures sum { own_sum sender.old.known.number sender.new.known.seen sender.new.brought
        ≡ own_sum sender.old.known.number sender.old.known.seen sender.old.brought + result }
{
    let first = queue_one(sender, one.0, one.1);
    u64::from(first) + u64::from(queue_one(sender, other.0, other.1))
}

/// Executes two items, if so many wait. The worker queues nothing by that, since its work asks for nothing.
fn run_two(worker: &mut ValueWorker<u32, Adder>)
    requires { ¬ IsRunning worker.old.worker.seen }
    ensures same { IsSameWorker worker.old.worker worker.new.worker }
    ensures idle { ¬ IsRunning worker.new.worker.seen }
    ensures silent { AddsNoNumber worker.old.worker.number worker.old.worker.seen worker.new.worker.seen }
{
    worker.legal();
    nothing_is_asked::<ValueWorker<u32, Adder>>();
    worker.run_some(2);
}

/// The sums of all counts.
fn balance(book: &ValueBook<u32>, one: Ledger, other: Ledger) -> Result<Totals, Unbalanced>
    requires one { IsLedgerOf book.now.book.seen one }
    requires other { IsLedgerOf book.now.book.seen other }
    ensures { IfOk result (λ totals. totals.executed ≡ length (ended book.now.book.seen)) }
{
    book.balance([one, other].as_slice())
}

/// Destroys a worker of which nothing runs: what is left runs first. It queues nothing by that.
fn destroy(worker: ValueWorker<u32, Adder>) -> Result<(u64, ValueBook<u32>), Unsummed>
    requires idle { ¬ IsRunning worker.worker.seen }
    ensures queue { IfOk result (λ r. r.1.book.queue ≡ worker.worker.queue) }
    ensures layout { IfOk result (λ r. r.1.book.layout ≡ worker.worker.layout) }
    ensures sum { IfOk result (λ r. r.0 ≡ sum_of (pairs_of (accepted r.1.book.seen) r.1.brought)) }
    ensures silent { IfOk result (λ r. AddsNoNumber worker.worker.number worker.worker.seen r.1.book.seen) }
{
    worker.legal();
    nothing_is_asked::<ValueWorker<u32, Adder>>();
    match worker.destroy(u32::MAX) {
        Ok((work, book)) => match work.sum() {
            Some(sum) => Ok((sum, book)),
            None => Err(Unsummed::TooLarge),
        },
        Err(unfinished) => Err(Unsummed::Left(unfinished.left)),
    }
}

/// Executes two items, and destroys the worker, of whose sender nothing was accepted.
fn execute(mut worker: ValueWorker<u32, Adder>) -> Result<(u64, ValueBook<u32>), Unsummed>
    requires number { worker.worker.number ≡ 2 }
    requires idle { ¬ IsRunning worker.worker.seen }
    requires of_worker { accepted (own 2 worker.worker.seen) ≡ [] }
    ensures queue { IfOk result (λ r. r.1.book.queue ≡ worker.worker.queue) }
    ensures layout { IfOk result (λ r. r.1.book.layout ≡ worker.worker.layout) }
    ensures sum { IfOk result (λ r. r.0 ≡ sum_of (pairs_of (accepted r.1.book.seen) r.1.brought)) }
    ensures of_worker { IfOk result (λ r. accepted (own 2 r.1.book.seen) ≡ []) }
    ensures chained { IfOk result (λ r. accepted (own owner_seat r.1.book.seen) ≡ accepted (own owner_seat worker.worker.seen)) }
{
    run_two(&mut worker);
    destroy(worker)
}

/// Runs what two senders queue, and destroys the worker. The senders meet the book, which then balances.
fn run(
    worker: ValueWorker<u32, Adder>,
    mut first: ValueSender<u32>,
    mut second: ValueSender<u32>,
) -> Result<Summed, Unsummed>
    requires items { 4 ≤ worker.worker.layout.items }
    requires senders { worker.worker.layout.senders ≡ 3 }
    requires number { worker.worker.number ≡ 2 }
    requires idle { ¬ IsRunning worker.worker.seen }
    requires of_worker { accepted (own 2 worker.worker.seen) ≡ [] }
    requires chained { accepted (own owner_seat worker.worker.seen) ≡ [] }
    requires first { (first.known.queue ≡ worker.worker.queue) × (first.known.layout ≡ worker.worker.layout) }
    requires second { (second.known.queue ≡ worker.worker.queue) × (second.known.layout ≡ worker.worker.layout) }
    requires numbers { (first.known.number ≡ 0) × (second.known.number ≡ 1) }
    requires unsent { (own_sum first.known.number first.known.seen first.brought ≡ 0)
        × (own_sum second.known.number second.known.seen second.brought ≡ 0) }
    ensures layout { IfOk result (λ r. r.book.book.layout ≡ worker.worker.layout) }
    ensures legal { IfOk result (λ r. IsLegal r.book.book.layout r.book.book.seen) }
    ensures complete { IfOk result (λ r. IsComplete r.book.book.seen) }
    ensures sum { IfOk result (λ r. r.sum ≡ sum_of (pairs_of (accepted r.book.book.seen) r.book.brought)) }
    ensures queued { IfOk result (λ r. r.sum ≡ r.queued.0 + r.queued.1) }
    ensures ran { IfOk result (λ r. r.totals.executed ≡ length (accepted r.book.book.seen)) }
    ensures of_worker { IfOk result (λ r. accepted (own 2 r.book.book.seen) ≡ []) }
{
    let queued = (
        queue_two(&mut first, (0, 10), (2, 3_000)),
        queue_two(&mut second, (1, 200), (3, 40_000)),
    );
    let (sum, mut book) = execute(worker)?;
    let one = book.meet(&mut first);
    let other = book.meet(&mut second);
    book.legal();
    own_values_match::<u32>();
    values_add_up::<u32>();
    pairs_have_values::<u32>();
    let totals = balance(&book, one, other)?;
    Ok(Summed {
        sum,
        queued,
        totals,
        book,
    })
}

/// Two senders queue four items with values on a new queue, whose worker adds them up. Where it is Ok the sum is that of the values
/// of all that was accepted, each of which ran once, which are those that the two senders were answered Queued for; the worker
/// itself queued nothing.
///
/// # Errors
/// `Memory` where memory was refused, `Left` where the destroy came to its limit, `TooLarge` where the sum does not fit, and
/// `Unbalanced` where a count is saturated.
pub fn run_summed(alloc: Global, layout: Layout) -> Result<Summed, Unsummed>
    requires items { 4 ≤ layout.items }
    requires senders { layout.senders ≡ 3 }
    ensures layout { IfOk result (λ r. r.book.book.layout ≡ layout) }
    ensures legal { IfOk result (λ r. IsLegal r.book.book.layout r.book.book.seen) }
    ensures complete { IfOk result (λ r. IsComplete r.book.book.seen) }
    ensures sum { IfOk result (λ r. r.sum ≡ sum_of (pairs_of (accepted r.book.book.seen) r.book.brought)) }
    ensures queued { IfOk result (λ r. r.sum ≡ r.queued.0 + r.queued.1) }
    ensures ran { IfOk result (λ r. r.totals.executed ≡ length (accepted r.book.book.seen)) }
    ensures of_worker { IfOk result (λ r. accepted (own 2 r.book.book.seen) ≡ []) }
{
    let (worker, mut senders) = ValueWorker::build(alloc, layout, Adder::new(), 1)?;
    let Some(second) = senders.pop() else {
        unreachable!()
    };
    let Some(first) = senders.pop() else {
        unreachable!()
    };
    run(worker, first, second)
}

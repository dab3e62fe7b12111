//! One worker, whose sender's items it runs until it is destroyed.
ghost use Rattle.std.specs.Prelude.{◌≡◌, ◌≤◌, [], IfOk, IfSome};
ghost use Rattle.wq_worker.specs.History.{accepted};
ghost use Rattle.wq_worker.specs.Legal.{IsLegal, IsComplete};
ghost use Rattle.wq_worker.specs.Book.{IsLedgerOf};
ghost use Rattle.wq_worker.specs.State.{items_among};

use std::alloc::{AllocError, Global};
use trail::Trail;
use wq_words::Layout;
use wq_worker::{Book, Follow, Ledger, Work, Worker};

/// A work that keeps the list of what it ran, which contracts alone see, and asks for nothing to follow.
#[derive(Drop)]
pub struct RunList {
    /// The list of what it ran, which contracts alone see.
    pub ran: Trail,
}

impl Work for RunList {
    ghost log = { λ w. w.ran.items };

    ghost may = { λ w k follow v. follow ≡ [] };

    fn run(&mut self, item: u32) -> Follow {
        self.ran = self.ran.and(item);
        Follow::new()
    }
}

/// One sender queues two items, the worker is destroyed, and the sender meets its book. None where that took more than nine
/// executions. The work has then run just the items that were accepted, in order, and the queue has run to its end.
///
/// # Errors
/// Memory for the queue was refused.
pub fn queue_and_destroy(
    alloc: Global,
    layout: Layout,
) -> Result<Option<(RunList, Book, Ledger)>, AllocError>
    requires items { 2 ≤ layout.items }
    requires senders { 2 ≤ layout.senders }
    ensures layout { IfOk result (λ left. IfSome left (λ r. r.1.layout ≡ layout)) }
    ensures legal { IfOk result (λ left. IfSome left (λ r. IsLegal r.1.layout r.1.seen)) }
    ensures complete { IfOk result (λ left. IfSome left (λ r. IsComplete r.1.seen)) }
    ensures ran { IfOk result (λ left. IfSome left (λ r. r.0.ran.items ≡ items_among r.1.layout (accepted r.1.seen))) }
    ensures ledger { IfOk result (λ left. IfSome left (λ r. IsLedgerOf r.1.seen r.2)) }
{
    let work = RunList { ran: Trail::new() };
    let Ok((worker, mut senders)) = Worker::build(alloc, layout, work, 1) else {
        return Err(AllocError);
    };
    let Some(mut sender) = senders.pop() else {
        unreachable!()
    };
    sender.queue_tries(0, 1);
    sender.queue_tries(1, 1);
    let Ok((work, mut book)) = worker.destroy(9) else {
        return Ok(None);
    };
    let ledger = book.meet(&mut sender);
    book.legal();
    Ok(Some((work, book, ledger)))
}

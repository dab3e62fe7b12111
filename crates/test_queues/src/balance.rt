//! The books of queues with two senders.
ghost use Rattle.std.specs.Prelude.{◌≡◌};
ghost use Rattle.wq_ledger.specs.Book.{IsLedgerOf};

use wq_live::Sender;
use wq_value_worker::ValueBook;
use wq_values::ValueSender;
use wq_worker::{Book, Ledger, Totals, Unbalanced};

fn balance_pair(book: &Book, one: Ledger, other: Ledger) -> Result<Totals, Unbalanced>
    requires { IsLedgerOf book.now.seen one × IsLedgerOf book.now.seen other }
{
    book.balance([one, other].as_slice())
}

/// The two senders meet the book, and it balances.
pub(crate) fn balance_met(
    book: &mut Book,
    first: &mut Sender,
    second: &mut Sender,
) -> Result<Totals, Unbalanced>
    requires { (first.old.queue ≡ book.old.queue) × (second.old.queue ≡ book.old.queue) }
{
    let one = book.meet(first);
    let other = book.meet(second);
    balance_pair(book, one, other)
}

fn balance_value_pair<V: Drop>(
    book: &ValueBook<V>,
    one: Ledger,
    other: Ledger,
) -> Result<Totals, Unbalanced>
    requires { IsLedgerOf book.now.book.seen one × IsLedgerOf book.now.book.seen other }
{
    book.balance([one, other].as_slice())
}

/// The two senders of a queue whose items bring values meet its book, and it balances.
pub(crate) fn balance_values_met<V: Drop>(
    book: &mut ValueBook<V>,
    first: &mut ValueSender<V>,
    second: &mut ValueSender<V>,
) -> Result<Totals, Unbalanced>
    requires { (first.old.known.queue ≡ book.old.book.queue) × (second.old.known.queue ≡ book.old.book.queue) }
{
    let one = book.meet(first);
    let other = book.meet(second);
    balance_value_pair(book, one, other)
}

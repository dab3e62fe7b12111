//! Books of queues whose items bring values, and why they do not balance.
ghost use Rattle.wq_ledger.specs.Book.{IsLedgerOf};

use super::worker::{Team, destroy, new_team, queue};
use crate::expect::expect_same;
use wq_value_worker::{ValueBook, ValueFollow};
use wq_worker::{Ledger, Totals, Unbalanced};

type Balanced = Result<Totals, Unbalanced>;

/// Balances without the first ledger, with the second twice, and with each once.
fn balance_some<V: Drop>(
    book: &ValueBook<V>,
    first: Ledger,
    second: Ledger,
) -> (Balanced, Balanced, Balanced)
    requires { IsLedgerOf book.now.book.seen first × IsLedgerOf book.now.book.seen second }
{
    let missing = book.balance([second].as_slice());
    let twice = book.balance([first, second, second].as_slice());
    let once = book.balance([first, second].as_slice());
    (missing, twice, once)
}

/// A sender without a ledger and one with two are named, and else the counts balance.
#[test]
fn ledgers_of_values_balance(rt: HostRuntime) {
    let Team {
        worker,
        mut first,
        mut second,
    } = new_team(&rt, rt.alloc(), 4, ValueFollow::new());
    queue(&rt, &mut first, 0, 7u64);
    queue(&rt, &mut second, 3, 30);
    let (work, mut book) = destroy(&rt, worker, 9);
    expect_same(&rt, work.ran.as_slice(), [(0, 7), (3, 30)].as_slice());
    let first = book.meet(&mut first);
    let second = book.meet(&mut second);
    let totals = Totals {
        queued: 2,
        chained: 0,
        executed: 2,
        pending: 0,
        closed: 0,
        draining: 0,
        contended: 0,
    };
    let (missing, twice, once) = balance_some(&book, first, second);
    expect_same(&rt, missing, Err(Unbalanced::Missing(0)));
    expect_same(&rt, twice, Err(Unbalanced::Twice(1)));
    expect_same(&rt, once, Ok(totals));
    drop(book);
    drop(work);
}

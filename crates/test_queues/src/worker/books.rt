//! Books of ledgers, and why they do not balance.
ghost use Rattle.wq_ledger.specs.Book.{IsLedgerOf};

use crate::expect::{expect_each_words, expect_same};
use crate::seats::{QUEUED, WAKES, queue_item};
use crate::worker::team::{Fixed, destroy, new_team};
use wq_worker::{Book, Ledger, Totals, Unbalanced};

type Balanced = Result<Totals, Unbalanced>;

/// Balances without the first ledger, without it and with the second twice, with the second twice, and with each once.
fn balance_some(
    book: &Book,
    first: Ledger,
    second: Ledger,
) -> (Balanced, Balanced, Balanced, Balanced)
    requires { IsLedgerOf book.now.seen first × IsLedgerOf book.now.seen second }
{
    let missing = book.balance([second].as_slice());
    let missing_first = book.balance([second, second].as_slice());
    let twice = book.balance([first, second, second].as_slice());
    let once = book.balance([first, second].as_slice());
    (missing, missing_first, twice, once)
}

#[test]
fn words_of_faults(rt: HostRuntime) {
    let faults = [
        (Unbalanced::Missing(2), "sender 2 has no ledger"),
        (Unbalanced::Twice(3), "sender 3 has more than one ledger"),
        (Unbalanced::Saturated(4), "a count of sender 4 is saturated"),
    ];
    expect_each_words(&rt, rt.alloc(), faults.as_slice());
}

/// A sender without a ledger and one with two are named, the one with the lower number first, and else the counts balance.
#[test]
fn ledgers_balance(rt: HostRuntime) {
    let mut team = new_team(&rt, rt.alloc(), 4, Fixed::new());
    team.worker.adjust(|work: &mut Fixed| work.next = Some(2));
    expect_same(&rt, queue_item(&rt, &mut team.first, 0), WAKES);
    expect_same(&rt, queue_item(&rt, &mut team.second, 3), QUEUED);
    team.worker.meet(&mut team.first);
    let (work, mut book) = destroy(&rt, team.worker, 9);
    expect_same(&rt, work.order.as_slice(), [0, 3, 2].as_slice());
    let first = book.meet(&mut team.first);
    let second = book.meet(&mut team.second);
    let totals = Totals {
        queued: 2,
        chained: 1,
        executed: 3,
        pending: 0,
        closed: 0,
        draining: 0,
        contended: 0,
    };
    let (missing, missing_first, twice, once) = balance_some(&book, first, second);
    expect_same(&rt, missing, Err(Unbalanced::Missing(0)));
    expect_same(&rt, missing_first, Err(Unbalanced::Missing(0)));
    expect_same(&rt, twice, Err(Unbalanced::Twice(1)));
    expect_same(&rt, once, Ok(totals));
    drop(book);
    drop(team.first);
    drop(team.second);
}

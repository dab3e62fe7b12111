//! Ledgers that balance, or why they do not.
ghost use Rattle.std.specs.Prelude.{◌≡◌, ◌↔◌, [], ◌∷◌, All, IsTrue, MatchResult};
ghost use Rattle.wq_live.specs.Known.{Known};
ghost use Rattle.wq_live.specs.Counts.{owner_counts};
ghost use Rattle.wq_ledger.specs.Book.{book_of, IsLedgerOf, AreBookParts};
ghost use Rattle.wq_ledger.specs.Balance.{AreWhole, AreOwnerWhole, ledgers_of, IsFault, SumsMet, FaultsBelow, Balances, IsUnbalanced};

use crate::book::Ledger;
use crate::totals::Totals;
use thiserror::Error;
use wq_live::{OwnerCounts, SenderCounts};

/// Why ledgers do not balance: the first fault by sender number, and the worker's own sender comes last.
#[derive(Clone, Copy, Debug, PartialEq, Eq, Error)]
pub enum Unbalanced {
    /// The sender has no ledger.
    #[error("sender {0} has no ledger")]
    Missing(u32),
    /// The sender has more than one ledger.
    #[error("sender {0} has more than one ledger")]
    Twice(u32),
    /// A count of the sender is saturated, or, where it is the worker's own, one of the owner.
    #[error("a count of sender {0} is saturated")]
    Saturated(u32),
}

fn is_whole(counts: SenderCounts) -> bool
    ensures { IsTrue result ↔ AreWhole counts }
{
    counts.queued != u64::MAX
        && counts.pending != u64::MAX
        && counts.closed != u64::MAX
        && counts.draining != u64::MAX
        && counts.contended != u64::MAX
}

fn is_owner_whole(counts: OwnerCounts) -> bool
    ensures { IsTrue result ↔ AreOwnerWhole counts }
{
    counts.chained != u64::MAX && counts.chain_busy != u64::MAX && counts.ended != u64::MAX
}

// The only ledger of a sender.
fn only_ledger(ledgers: &[Ledger], number: u32) -> Result<Ledger, Unbalanced>
    ensures { MatchResult result (λ ledger. ledgers_of number ledgers.now ≡ ledger ∷ []) (λ fault. IsFault ledgers.now number fault) }
{
    let mut found = None;
    for ledger in ledgers {
        if ledger.number() == number {
            if found.is_some() {
                return Err(Unbalanced::Twice(number));
            }
            found = Some(*ledger);
        }
    }
    match found {
        Some(ledger) => Ok(ledger),
        None => Err(Unbalanced::Missing(number)),
    }
}

// The only ledger of a sender, with no count that is saturated.
fn whole_ledger(ledgers: &[Ledger], number: u32) -> Result<Ledger, Unbalanced>
    ensures { MatchResult result (λ ledger. (ledgers_of number ledgers.now ≡ ledger ∷ []) × AreWhole ledger.counts)
        (λ fault. IsFault ledgers.now number fault) }
{
    let ledger = only_ledger(ledgers, number)?;
    if !is_whole(ledger.counts()) {
        return Err(Unbalanced::Saturated(number));
    }
    Ok(ledger)
}

// The sums over the ledgers of all senders but this one.
fn sum_met(ledgers: &[Ledger], seat: u32, senders: u32) -> Result<Totals, Unbalanced>
    ensures { MatchResult result (SumsMet ledgers.now seat senders) (FaultsBelow ledgers.now seat senders) }
{
    let mut met = Totals::none();
    for number in 0..senders {
        if number != seat {
            let ledger = whole_ledger(ledgers, number)?;
            met = met.with(ledger.counts());
        }
    }
    Ok(met)
}

/// The sums of all counts of a book whose worker has this sender and this owner, by the ledgers of its other senders.
///
/// # Errors
/// `Missing`, `Twice` or `Saturated` of the first sender that has such a fault; `Saturated` of the worker's own number where one
/// of its counts is saturated, or one of the owner's.
pub fn sum_all(
    own: Ledger,
    owner: OwnerCounts,
    senders: u32,
    ledgers: &[Ledger],
) -> Result<Totals, Unbalanced>
    ensures outcome { (seat : Known) → owner ≡ owner_counts seat.seen → senders ≡ seat.layout.senders → AreBookParts seat own
        → All (IsLedgerOf seat.seen) ledgers.now
        → MatchResult result (Balances (book_of seat own) ledgers.now) (IsUnbalanced (book_of seat own) ledgers.now) }
{
    let number = own.number();
    let counts = own.counts();
    let met = sum_met(ledgers, number, senders)?;
    if !is_whole(counts) || !is_owner_whole(owner) {
        return Err(Unbalanced::Saturated(number));
    }
    Ok(met.with(counts).with_owner(owner))
}

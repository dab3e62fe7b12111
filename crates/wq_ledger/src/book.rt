//! What the senders of a queue that has run to the end have counted.
ghost use Rattle.std.specs.Prelude.{◌≡◌, [], All, MatchResult};
ghost use mathlib.Core.List.{IsPrefix};
ghost use Rattle.wq_words.specs.History.{accepted, begun, ended};
ghost use Rattle.wq_words.specs.Legal.{IsLegal, IsComplete};
ghost use Rattle.wq_words.specs.Headline.{KeepsHeadline};
ghost use Rattle.wq_words.specs.Seen.{owner_seat, Grows, own};
ghost use Rattle.wq_live.specs.Known.{Sees};
ghost use Rattle.wq_live.specs.Counts.{sender_counts};
ghost use Rattle.wq_live.specs.Laws.{IsStillEnd};
ghost use Rattle.wq_ledger.specs.Book.{IsLedgerOf, AreBookParts};
ghost use Rattle.wq_ledger.specs.Balance.{Balances, IsUnbalanced};

use crate::balance::{Unbalanced, sum_all};
use crate::totals::Totals;
use std::marker::Model;
use wq_live::{Owner, Sender, SenderCounts};

/// What one sender has counted. A book makes it: its own sender's when it is made, each other's by a meeting.
#[derive(Clone, Copy, Debug, PartialEq, Eq)]
pub struct Ledger {
    number: u32,
    counts: SenderCounts,
}

impl Model for Ledger {
    ghost use Rattle.wq_ledger.specs.Book.{LedgerState};

    ghost Value = { LedgerState };

    ghost view = { λ l. record { number = l.number; counts = l.counts } };

    ghost inverse = { λ s. record { number = s.number; counts = s.counts } };
}

impl Ledger {
    /// A sender's number with what it has counted. Whoever makes one by this call has to show to `balance` that it is of a
    /// sender that has met the book; those that `meet` gives are.
    pub fn of(number: u32, counts: SenderCounts) -> Ledger
        ensures number { result.number ≡ number }
        ensures counts { result.counts ≡ counts }
    {
        Ledger { number, counts }
    }

    /// The number of its sender.
    pub fn number(&self) -> u32
        ensures seat { result ≡ self.now.number }
    {
        self.number
    }

    /// What its sender had counted as it met the book.
    pub fn counts(&self) -> SenderCounts
        ensures counted { result ≡ self.now.counts }
    {
        self.counts
    }
}

/// The owner of a queue that is closed and has run to the end, and what the worker's own sender has counted.
#[derive(Drop)]
pub struct Book {
    owner: Owner,
    own: Ledger,
}

impl Model for Book {
    ghost use Rattle.wq_ledger.specs.Book.{BookState, book_of, AreBookParts};

    ghost Value = { BookState };

    ghost view = { λ b. book_of b.owner b.own };

    ghost invariant = { λ b. AreBookParts b.owner b.own };
}

impl Book {
    /// The book of a queue that has run to the end, of its owner and the worker's own sender, which have seen the same. Each
    /// other sender has to meet it, which gives the ledger that `balance` wants of it; that of a delay table after `dissolve`.
    pub fn new(owner: Owner, sender: &Sender) -> Book
        requires one { sender.now.queue ≡ owner.queue }
        requires complete { IsComplete owner.seen }
        requires both { sender.now.seen ≡ owner.seen }
        ensures queue { result.queue ≡ owner.queue }
        ensures layout { result.layout ≡ owner.layout }
        ensures seen { result.seen ≡ owner.seen }
        ensures number { result.own.number ≡ sender.now.number }
        ensures counts { result.own.counts ≡ sender_counts sender.now.number sender.now.seen }
    {
        owner.legal();
        let own = Ledger::of(sender.number(), sender.counts());
        Book { owner, own }
    }

    /// What its owner has seen is a legal history that has run to the end, so it keeps the headline: what was accepted was
    /// executed in its order, once, and one at a time, and all of it was. The worker's own sender has a ledger of this book.
    pub fn legal(&self)
        ensures legal { IsLegal self.now.layout self.now.seen }
        ensures complete { IsComplete self.now.seen }
        ensures headline { KeepsHeadline self.now.seen }
        ensures all_began { begun self.now.seen ≡ accepted self.now.seen }
        ensures all_ended { ended self.now.seen ≡ begun self.now.seen }
        ensures own_ledger { IsLedgerOf self.now.seen self.now.own }
    {
        // opens the book, whose invariant says this
        let _ = &self.owner;
    }

    /// The sender meets the owner, so that all that it queued is in the book. Answers what it has counted.
    pub fn meet(&mut self, sender: &mut Sender) -> Ledger
        requires { sender.old.queue ≡ self.old.queue }
        ensures made { IsLedgerOf self.new.seen result }
        ensures number { result.number ≡ sender.old.number }
        ensures counts { result.counts ≡ sender_counts sender.new.number sender.new.seen }
        ensures kept { (ledger : Ledger) → IsLedgerOf self.old.seen ledger → IsLedgerOf self.new.seen ledger }
        ensures same { (self.new.queue ≡ self.old.queue) × (self.new.layout ≡ self.old.layout) × (self.new.own ≡ self.old.own) }
        ensures owner { Grows owner_seat [] 0 self.old.seen self.new.seen }
        ensures sender { Sees [] 0 sender.old sender.new }
        ensures own { own sender.old.number sender.new.seen ≡ own sender.old.number sender.old.seen }
        ensures layout { sender.old.layout ≡ self.old.layout }
        ensures both { sender.new.seen ≡ self.new.seen }
        ensures last { IsStillEnd self.old.seen self.new.seen }
        ensures begins { IsPrefix sender.old.seen self.new.seen }
        ensures in_book { own sender.old.number self.new.seen ≡ own sender.old.number sender.old.seen }
    {
        sender.meet_owner(&mut self.owner);
        Ledger::of(sender.number(), sender.counts())
    }

    /// The sums of all counts, where each sender but the worker's has one ledger of this book and no count is saturated.
    ///
    /// # Errors
    /// The first sender that has no ledger, more than one, or a saturated count. The worker's own sender comes last, also for a
    /// saturated count of the owner.
    pub fn balance(&self, ledgers: &[Ledger]) -> Result<Totals, Unbalanced>
        requires { All (IsLedgerOf self.now.seen) ledgers.now }
        ensures outcome { MatchResult result (Balances self.now ledgers.now) (IsUnbalanced self.now ledgers.now) }
    {
        let senders = self.owner.layout().senders;
        sum_all(self.own, self.owner.counts(), senders, ledgers)
    }
}

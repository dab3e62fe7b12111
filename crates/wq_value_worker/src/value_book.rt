//! What the senders of a queue that has run to the end have counted, where its items bring values.
ghost use Rattle.std.specs.Prelude.{◌≡◌, ℕ, [], All, length, take, MatchResult};
ghost use mathlib.Core.List.{IsPrefix};
ghost use Rattle.wq_words.specs.History.{accepted, begun, ended};
ghost use Rattle.wq_words.specs.Legal.{IsLegal, IsComplete};
ghost use Rattle.wq_words.specs.Headline.{KeepsHeadline};
ghost use Rattle.wq_words.specs.Valued.{AreBrought, IsLegalWith, with_values};
ghost use Rattle.wq_words.specs.Seen.{owner_seat, Grows, own};
ghost use Rattle.wq_values.specs.Known.{Sees};
ghost use Rattle.wq_values.specs.KnownWith.{Learnt};
ghost use Rattle.wq_values.specs.Counts.{sender_counts};
ghost use Rattle.wq_values.specs.Laws.{IsStillEnd};
ghost use Rattle.wq_values.specs.OwnBrought.{own_brought};
ghost use Rattle.wq_ledger.specs.Book.{IsLedgerOf};
ghost use Rattle.wq_ledger.specs.Balance.{Balances, IsUnbalanced};

use std::marker::Model;
use wq_ledger::{Ledger, Totals, Unbalanced, sum_all};
use wq_values::{ValueOwner, ValueSender};

/// A `Book` of a queue whose items bring values. A clause sees by `book` what it is without values, and by `brought` what each
/// accepted number brought, in their order.
#[derive(Drop)]
pub struct ValueBook<V: Drop> {
    owner: ValueOwner<V>,
    own: Ledger,
}

impl<V: Drop> Model for ValueBook<V> {
    ghost use Rattle.wq_ledger.specs.Book.{book_of, AreBookParts};
    ghost use Rattle.wq_value_worker.specs.ValueBook.{ValueBookState};

    ghost Value = { ValueBookState V };

    ghost view = { λ b. record { book = book_of b.owner.known b.own; brought = b.owner.brought } };

    ghost invariant = { λ b. AreBookParts b.owner.known b.own };
}

impl<V: Drop> ValueBook<V> {
    /// The book of a queue that has run to the end, of its owner and the worker's own sender, which have seen the same. Each
    /// other sender has to meet it, which gives the ledger that `balance` wants of it.
    pub fn new(owner: ValueOwner<V>, sender: &ValueSender<V>) -> ValueBook<V>
        requires one { sender.now.known.queue ≡ owner.known.queue }
        requires complete { IsComplete owner.known.seen }
        requires both { sender.now.known.seen ≡ owner.known.seen }
        ensures queue { result.book.queue ≡ owner.known.queue }
        ensures layout { result.book.layout ≡ owner.known.layout }
        ensures seen { result.book.seen ≡ owner.known.seen }
        ensures number { result.book.own.number ≡ sender.now.known.number }
        ensures counts { result.book.own.counts ≡ sender_counts sender.now.known.number sender.now.known.seen }
        ensures brought { result.brought ≡ owner.brought }
    {
        owner.legal();
        let own = Ledger::of(sender.number(), sender.counts());
        ValueBook { owner, own }
    }

    /// What `Book::legal` says. What was brought is one for each accepted number, in order, and so one for each that began: an
    /// item brought a value, and no other number did. That an execution was handed its own value is said by `begin` of the owner.
    pub fn legal(&self)
        ensures legal { IsLegal self.now.book.layout self.now.book.seen }
        ensures complete { IsComplete self.now.book.seen }
        ensures headline { KeepsHeadline self.now.book.seen }
        ensures all_began { begun self.now.book.seen ≡ accepted self.now.book.seen }
        ensures all_ended { ended self.now.book.seen ≡ begun self.now.book.seen }
        ensures own_ledger { IsLedgerOf self.now.book.seen self.now.book.own }
        ensures values { IsLegalWith self.now.book.layout (with_values self.now.book.seen self.now.brought) }
        ensures handed { take (length (begun self.now.book.seen)) self.now.brought ≡ self.now.brought }
        ensures whole { AreBrought self.now.book.layout.items (accepted self.now.book.seen) self.now.brought }
    {
        self.owner.legal();
        // It is done, so all that was brought was handed out.
        let _ = self.owner.done();
    }

    /// The sender meets the owner, so that all that it queued is in the book. Answers what it has counted. Nothing more is brought,
    /// neither at all nor by any seat.
    pub fn meet(&mut self, sender: &mut ValueSender<V>) -> Ledger
        requires { sender.old.known.queue ≡ self.old.book.queue }
        ensures made { IsLedgerOf self.new.book.seen result }
        ensures number { result.number ≡ sender.old.known.number }
        ensures counts { result.counts ≡ sender_counts sender.new.known.number sender.new.known.seen }
        ensures kept { (ledger : Ledger) → IsLedgerOf self.old.book.seen ledger → IsLedgerOf self.new.book.seen ledger }
        ensures same { (self.new.book.queue ≡ self.old.book.queue)
            × (self.new.book.layout ≡ self.old.book.layout)
            × (self.new.book.own ≡ self.old.book.own) }
        ensures owner { Grows owner_seat [] 0 self.old.book.seen self.new.book.seen }
        ensures sender { Sees [] 0 sender.old.known sender.new.known }
        ensures own { own sender.old.known.number sender.new.known.seen ≡ own sender.old.known.number sender.old.known.seen }
        ensures layout { sender.old.known.layout ≡ self.old.book.layout }
        ensures both { sender.new.known.seen ≡ self.new.book.seen }
        ensures last { IsStillEnd self.old.book.seen self.new.book.seen }
        ensures begins { IsPrefix sender.old.known.seen self.new.book.seen }
        ensures in_book { own sender.old.known.number self.new.book.seen ≡ own sender.old.known.number sender.old.known.seen }
        ensures brought { self.new.brought ≡ self.old.brought }
        ensures of_each { (s : ℕ) → own_brought s self.new.book.seen self.new.brought ≡ own_brought s self.old.book.seen self.old.brought }
        ensures both_brought { sender.new.brought ≡ self.new.brought }
        ensures learnt { Learnt sender.old sender.new }
        ensures own_values { own_brought sender.old.known.number sender.new.known.seen sender.new.brought
            ≡ own_brought sender.old.known.number sender.old.known.seen sender.old.brought }
    {
        sender.meet_owner(&mut self.owner);
        Ledger::of(sender.number(), sender.counts())
    }

    /// The sums of all counts, where each sender but the worker's has one ledger of this book and no count is saturated.
    ///
    /// # Errors
    /// The first sender that has no ledger, more than one, or a saturated count. The worker's own sender comes last, also for a
    /// saturated count of the owner.
    pub fn balance(&self, ledgers: &[Ledger]) -> Result<Totals, Unbalanced>
        requires { All (IsLedgerOf self.now.book.seen) ledgers.now }
        ensures outcome { MatchResult result (Balances self.now.book ledgers.now) (IsUnbalanced self.now.book ledgers.now) }
    {
        let senders = self.owner.layout().senders;
        sum_all(self.own, self.owner.counts(), senders, ledgers)
    }
}

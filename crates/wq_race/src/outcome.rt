//! What a race did, and whether its book balances.
ghost use Rattle.std.specs.Prelude.{◌≡◌, ◌≢◌, [], ◌∷◌, ◌++◌, map, All, OnOk, OnErr, IfOk, MatchBool, string_bytes};
ghost use Rattle.wq_words.specs.History.{IsRunning};
ghost use Rattle.wq_words.specs.Legal.{IsLegal};
ghost use Rattle.wq_words.specs.Seen.{owner_seat, own};
ghost use Rattle.wq_live.specs.Known.{Sees};
ghost use Rattle.wq_ledger.specs.Book.{IsLedgerOf};
ghost use Rattle.wq_ledger.specs.Balance.{Balances, IsUnbalanced};
ghost use Rattle.wq_race.specs.Race.{HasRaced};
ghost use Rattle.wq_race.specs.Outcome.{outcome_line, yes_or_no as said, TellsOutcome, IsWhole, HasMet, AllKnown, HasEnded};
ghost use Rattle.wq_race.specs.Outcome.{HasHeard, ledger_of, IsTold, queued_sum, HasSettled};

use crate::run_counter::RunCounter;
use crate::team::Team;
use std::alloc::{AllocError, Global};
use std::sync::Wait;
use wq_live::Sender;
use wq_plan::Plan;
use wq_worker::{Book, Ledger, Totals, Unbalanced, Worker};

/// How many items were accepted and how many ran, the stop item left out, and whether the ledgers of all senders balance.
#[derive(Clone, Copy, Debug, PartialEq, Eq)]
pub struct Outcome {
    /// How many items all senders were answered `Queued` for.
    pub accepted: u128,
    /// How many items ran.
    pub ran: u128,
    /// Whether the ledgers of all senders balance with the book.
    pub is_balanced: bool,
}

/// The book meets a sender, whose ledger comes behind the others.
///
/// # Errors
/// Memory for the ledger's place was refused: the book and the sender have met, and the ledgers are as they were.
pub fn enter(
    book: &mut Book,
    ledgers: &mut Vec<Ledger>,
    sender: &mut Sender,
) -> Result<(), AllocError>
    requires one { sender.old.queue ≡ book.old.queue }
    requires made { All (IsLedgerOf book.old.seen) ledgers.old.items }
    ensures book { HasHeard book.old book.new }
    ensures sender { Sees [] 0 sender.old sender.new }
    ensures both { sender.new.seen ≡ book.new.seen }
    ensures made { OnOk result (All (IsLedgerOf book.new.seen) ledgers.new.items) }
    ensures ledger { OnOk result (ledgers.new.items ≡ ledgers.old.items ++ ledger_of sender.old ∷ []) }
    ensures unchanged { OnErr result (ledgers.new.items ≡ ledgers.old.items) }
    ensures told { own sender.old.number book.new.seen ≡ own sender.old.number sender.old.seen }
{
    let ledger = book.meet(sender);
    ledgers.push(ledger)?;
    Ok(())
}

/// A ledger for each of these senders.
///
/// # Errors
/// Memory for a ledger's place was refused: the book has met the senders up to that one's.
pub fn enter_all(
    book: &mut Book,
    ledgers: &mut Vec<Ledger>,
    senders: Vec<Sender>,
) -> Result<(), AllocError>
    requires one { All (λ s. s.queue ≡ book.old.queue) senders.items }
    requires none { ledgers.old.items ≡ [] }
    ensures book { HasHeard book.old book.new }
    ensures made { OnOk result (All (IsLedgerOf book.new.seen) ledgers.new.items) }
    ensures ledgers { OnOk result (ledgers.new.items ≡ map ledger_of senders.items) }
    ensures told { OnOk result (All (IsTold book.old.seen book.new.seen) senders.items) }
{
    for mut sender in senders {
        enter(book, ledgers, &mut sender)?;
    }
    Ok(())
}

// Each sender meets the worker: what it did comes before all that the worker does from now on.
fn meet_senders(worker: &mut Worker<RunCounter>, senders: &mut Vec<Sender>)
    requires one { All (λ s. s.queue ≡ worker.old.queue) senders.old.items }
    requires legal { IsLegal worker.old.layout worker.old.seen }
    ensures worker { HasMet worker.old worker.new }
    ensures senders { AllKnown worker.new.seen senders.old.items senders.new.items }
{
    for sender in senders.iter_mut() {
        worker.meet(sender);
    }
}

// Destroys the queue of a worker, again and again until nothing is left.
fn destroy<R: Wait>(rt: &R, mut worker: Worker<RunCounter>) -> (RunCounter, Book)
    requires seat { worker.number ≢ owner_seat }
    requires idle { ¬ IsRunning worker.seen }
    requires legal { IsLegal worker.layout worker.seen }
    ensures { HasEnded worker result.0 result.1 }
{
    for _ in rt.forever() {
        match worker.destroy(u32::MAX) {
            Ok((work, book)) => {
                book.legal();
                return (work, book);
            }
            Err(unfinished) => worker = unfinished.worker,
        }
    }
    unreachable!()
}

/// How many items these senders queued.
pub fn queued_by(senders: &[Sender]) -> u128
    ensures sum { result ≡ queued_sum senders.now }
{
    let mut queued = 0u128;
    for sender in senders {
        queued += u128::from(sender.counts().queued);
    }
    queued
}

// Whether the ledgers balance.
fn is_balanced(book: &Book, ledgers: &[Ledger]) -> bool
    requires { All (IsLedgerOf book.now.seen) ledgers.now }
    ensures { MatchBool result ((totals : Totals) × Balances book.now ledgers.now totals) ((fault : Unbalanced) × IsUnbalanced book.now ledgers.now fault) }
{
    match book.balance(ledgers) {
        Ok(_) => true,
        Err(_) => false,
    }
}

// The book meets these senders and then the program's, and has a ledger of each.
fn enter_team(
    book: &mut Book,
    ledgers: &mut Vec<Ledger>,
    senders: Vec<Sender>,
    program: &mut Sender,
) -> Result<(), AllocError>
    requires one { All (λ s. s.queue ≡ book.old.queue) senders.items }
    requires program { program.old.queue ≡ book.old.queue }
    requires none { ledgers.old.items ≡ [] }
    ensures { OnOk result (HasSettled book.old senders.items program.old book.new ledgers.new.items) }
{
    enter_all(book, ledgers, senders)?;
    enter(book, ledgers, program)?;
    book.legal();
    Ok(())
}

// The same, of a book and ledgers that are given back, and of a sender that is done with afterwards.
fn settle(
    mut book: Book,
    mut ledgers: Vec<Ledger>,
    senders: Vec<Sender>,
    mut program: Sender,
) -> Result<(Book, Vec<Ledger>), AllocError>
    requires one { All (λ s. s.queue ≡ book.queue) senders.items }
    requires program { program.queue ≡ book.queue }
    requires none { ledgers.items ≡ [] }
    ensures { IfOk result (λ met. HasSettled book senders.items program met.0 met.1.items) }
{
    enter_team(&mut book, &mut ledgers, senders, &mut program)?;
    Ok((book, ledgers))
}

fn yes_or_no(is: bool) -> &'static str
    ensures { result.now ≡ said is }
{
    if is { "yes" } else { "no" }
}

impl Outcome {
    /// One line: `accepted A ran R balanced yes`, or `balanced no`.
    ///
    /// # Errors
    /// Memory for the line was refused.
    #[tactic(auto, unfolding(crate::specs::Outcome::outcome_line))]
    pub fn write(self, out: &mut String) -> Result<(), AllocError>
        ensures line { OnOk result (string_bytes out.new ≡ string_bytes out.old ++ outcome_line self) }
    {
        let balanced = yes_or_no(self.is_balanced);
        writeln!(
            out,
            "accepted {} ran {} balanced {balanced}",
            self.accepted, self.ran
        )
    }

    /// Destroys the queue of a team that has run its race, and balances the book: the outcome, the book that the destroy left, and
    /// the ledgers of the plan's senders and of the program's.
    ///
    /// # Errors
    /// Memory for the ledgers was refused.
    pub fn of<R: Wait>(
        rt: &R,
        alloc: Global,
        team: Team,
    ) -> Result<(Outcome, Book, Vec<Ledger>), AllocError>
        requires run { (plan : Plan) × HasRaced plan team }
        ensures told { (plan : Plan) → HasRaced plan team
            → IfOk result (λ told. IsWhole plan told.0 × TellsOutcome plan team.worker told.1 told.2.items told.0) }
    {
        let ledgers = Vec::with_capacity(alloc, team.senders.len() + 1)?;
        let Team {
            mut worker,
            mut senders,
            program,
        } = team;
        meet_senders(&mut worker, &mut senders);
        let accepted = queued_by(&senders);
        let (work, book) = destroy(rt, worker);
        let ran = u128::from(work.count());
        let (book, ledgers) = settle(book, ledgers, senders, program)?;
        let is_balanced = is_balanced(&book, &ledgers);
        let outcome = Outcome {
            accepted,
            ran,
            is_balanced,
        };
        Ok((outcome, book, ledgers))
    }
}

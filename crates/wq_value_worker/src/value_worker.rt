//! A worker whose items bring values.
ghost use Rattle.std.specs.Prelude.{◌≡◌, ◌↔◌, ℕ, ◌+◌, ◌<◌, false, Some, None, [], ◌∷◌, All, map, length, IfOk, IfErr, IfNone, IsOk, IsTrue, MatchOption, MatchResult};
ghost use Rattle.std.specs.Fn.{FnOnceTakesAtMut, FnOnceReturnsAtMut};
ghost use mathlib.Core.List.{IsPrefix};
ghost use Rattle.wq_words.specs.declared.event.Event.TheVariants.{Close};
ghost use Rattle.wq_words.specs.History.{accepted, begun, ended, closed, running, Holds, IsRunning, IsClosed, IsShut, IsDraining};
ghost use Rattle.wq_words.specs.Legal.{IsLegal, IsComplete};
ghost use Rattle.wq_words.specs.Headline.{KeepsHeadline};
ghost use Rattle.wq_words.specs.Seen.{owner_seat, Grows, own};
ghost use Rattle.wq_words.specs.Valued.{IsLegalWith, with_values};
ghost use Rattle.wq_values.specs.OwnBrought.{own_brought};
ghost use Rattle.wq_values.specs.Known.{Sees, new_senders, AreNumbered};
ghost use Rattle.wq_values.specs.KnownWith.{Learnt, MatchesAccepted, knowing_nothing};
ghost use Rattle.wq_values.specs.Batch.{TakesAll};
ghost use Rattle.wq_values.specs.Rest.{HasRested, MayNotRest};
ghost use Rattle.wq_ledger.specs.Totals.{own_totals};
ghost use Rattle.wq_worker.specs.State.{items_among, IsSameWorker, Moves, IsMadeOf, IsNew};
ghost use Rattle.wq_worker.specs.declared.ran.Ran.TheVariants.{Nothing, Owing};
ghost use Rattle.wq_worker.specs.declared.drained.Drained.TheVariants.{Empty, TooLong};
ghost use Rattle.wq_value_worker.specs.Returned.{GivesBack, MayLeave, numbers_in};
ghost use Rattle.wq_value_worker.specs.ValueState.{owner_in, sender_in, ran_pairs, HasRunBegunPairs, HasRunPairs};
ghost use Rattle.wq_value_worker.specs.Deals.{DealsOut, DealsOutBy, BeginsValue, IsOwedPair, DealsInStep, DealsToEnd};
ghost use Rattle.wq_worker.specs.Step.{RunsBy, FindsNothing, LeavesRunning};
ghost use Rattle.wq_worker.specs.Rows.{RunsSomeBy, DrainsBy, ServesBy, Along};
ghost use Rattle.wq_worker.specs.Resting.{HasNoneLeft, rest_events, LeavesWork, IsReady, IsUnready};
ghost use Rattle.wq_worker.specs.Destroy.{IsBookOf, DestroysBy, LeavesUnfinishedBy};

use crate::value_book::ValueBook;
use crate::value_follow::ValueFollow;
use crate::value_steps::queue_pairs;
use crate::value_work::ValueWork;
use crossbeam_utils::sync::Parker;
use std::alloc::Global;
use std::marker::Model;
use std::sync::Wait;
use wq_ledger::Totals;
use wq_values::{Spins, ValueOwner, ValuePair, ValueSender, build_values};
use wq_words::Layout;
use wq_worker::{
    Drained, Ran, Station, Unbuilt, Unfinished, close_where_unclosed, drain, end_running, is_shut,
    left_of, rest, run_out, run_some, serve, take_next,
};

/// An owner and a sender of one queue whose items bring values, in one seat, and the work that runs the items with them, as
/// `Worker` for a plain queue. What a run asks for is queued with its value, and comes back to the work where it is not queued.
#[derive(Drop)]
pub struct ValueWorker<V: Drop, W: ValueWork<V>> {
    pair: ValuePair<V>,
    work: W,
    tries: u32,
    left: ValueFollow<V>,
    spins: Spins,
}

impl<V: Drop, W: ValueWork<V>> Model for ValueWorker<V, W> {
    ghost use Rattle.wq_value_worker.specs.ValueState.{ValueWorkerState, AreValueParts};
    ghost use Rattle.wq_value_worker.specs.Returned.{numbers_in};

    ghost Value = { ValueWorkerState V W };

    ghost view = { λ w. record {
      worker = record {
        queue = w.pair.known.queue;
        layout = w.pair.known.layout;
        number = w.pair.known.number;
        tries = w.tries;
        seen = w.pair.known.seen;
        unqueued = numbers_in w.left.pairs;
        work = w.work;
      };
      brought = w.pair.brought;
      unqueued = w.left.pairs;
    } };

    ghost invariant = { λ w. AreValueParts (W.log w.work) w.tries w.pair };
}

impl<V: Drop, W: ValueWork<V>> ValueWorker<V, W> {
    /// As `Worker::new`, of seats of a queue whose items bring values.
    pub fn new(
        owner: ValueOwner<V>,
        sender: ValueSender<V>,
        work: W,
        tries: u32,
    ) -> ValueWorker<V, W>
        requires one { sender.known.queue ≡ owner.known.queue }
        requires tries { 0 < tries }
        requires none_begun { begun owner.known.seen ≡ [] }
        requires unrun { W.log work ≡ [] }
        ensures parts { IsMadeOf owner.known sender.known work tries result.worker }
        ensures unqueued { result.unqueued ≡ [] }
        ensures owner { Grows owner_seat [] 0 owner.known.seen result.worker.seen }
        ensures sender { Grows sender.known.number [] 0 sender.known.seen result.worker.seen }
        ensures learnt { Learnt owner (owner_in result) × Learnt sender (sender_in result) }
        ensures legal { IsLegal result.worker.layout result.worker.seen }
        ensures idle { ¬ IsRunning result.worker.seen }
        ensures open { ¬ IsShut owner.known.seen → ¬ IsShut result.worker.seen }
    {
        let pair = ValuePair::join(owner, sender);
        ValueWorker {
            pair,
            work,
            tries,
            left: ValueFollow::new(),
            spins: Spins::default(),
        }
    }

    /// As `Worker::set_spins`.
    pub fn set_spins(&mut self, spins: Spins)
        ensures same { self.new ≡ self.old }
    {
        self.pair.set_spins(spins);
        self.spins = spins;
    }

    /// As `Worker::build`. Memory is taken for the values too.
    pub fn build(
        alloc: Global,
        layout: Layout,
        work: W,
        tries: u32,
    ) -> Result<(ValueWorker<V, W>, Vec<ValueSender<V>>), Unbuilt<W>>
        requires tries { 0 < tries }
        requires unrun { W.log work ≡ [] }
        ensures worker { IfOk result (λ r. IsNew layout work tries r.0.worker) }
        ensures senders { IfOk result (λ r. r.1.items ≡ map knowing_nothing (new_senders r.0.worker.queue layout r.0.worker.number)) }
        ensures one { IfOk result (λ r. All (λ s. s.known.queue ≡ r.0.worker.queue) r.1.items) }
        ensures layouts { IfOk result (λ r. All (λ s. s.known.layout ≡ layout) r.1.items) }
        ensures count { IfOk result (λ r. length r.1.items + 1 ≡ layout.senders) }
        ensures last { IfOk result (λ r. r.0.worker.number ≡ length r.1.items) }
        ensures numbers { IfOk result (λ r. AreNumbered (map (λ s. s.known) r.1.items)) }
        ensures unseen { IfOk result (λ r. All (λ s. s.known.seen ≡ []) r.1.items) }
        ensures free { IfOk result (λ r. All (λ s. (k : ℕ) → ¬ Holds s.known.seen s.known.number k) r.1.items) }
        ensures unqueued { IfOk result (λ r. r.0.unqueued ≡ []) }
        ensures idle { IfOk result (λ r. ¬ IsRunning r.0.worker.seen) }
        ensures open { IfOk result (λ r. ¬ IsShut r.0.worker.seen) }
        ensures refused { IfErr result (λ e. e.work ≡ work) }
    {
        match build_values(alloc, layout) {
            Ok((owner, mut senders)) => {
                let Some(sender) = senders.pop() else {
                    unreachable!()
                };
                Ok((ValueWorker::new(owner, sender, work, tries), senders))
            }
            Err(error) => Err(Unbuilt { work, error }),
        }
    }

    // Begins the oldest number and runs the work with the value that it brought.
    fn start(&mut self) -> Option<u32>
        requires { ¬ IsRunning self.old.worker.seen }
        ensures outcome { MatchOption result (FindsNothing self.old.worker self.new.worker)
            (λ k. BeginsValue W.given W.may W.takes self.old k self.new) }
        ensures pairs { IfNone result (self.new.unqueued ≡ self.old.unqueued) }
        ensures learnt { Learnt (owner_in self.old) (owner_in self.new) }
    {
        if take_next::<ValuePair<V>>(&mut self.pair).is_none() {
            return None;
        }
        let (number, value) = self.pair.begin();
        let Some(value) = value else {
            self.left = ValueFollow::new();
            return Some(number);
        };
        self.left = self.work.run(number, value);
        Some(number)
    }

    // Queues what is left of the pairs and ends the execution.
    fn finish(&mut self, number: u32) -> Ran
        requires { running self.old.worker.seen ≡ Some number }
        ensures runs { RunsBy (MayLeave W.may W.takes) (GivesBack W.takes) result self.old.worker self.new.worker }
        ensures some { result ≡ Nothing → ⊥ }
        ensures settles { DealsOut W.given W.may W.takes self.old self.new }
        ensures learnt { Learnt (owner_in self.old) (owner_in self.new) }
        ensures logged { W.log self.new.worker.work ≡ ran_pairs self.new }
        ensures owed { (k : ℕ) → result ≡ Owing k → IsOwedPair self.new }
    {
        let is_done = queue_pairs::<V, W>(
            &mut self.pair,
            &mut self.work,
            &mut self.left,
            self.tries,
        );
        if !is_done {
            return Ran::Owing(number);
        }
        end_running::<ValuePair<V>>(&mut self.pair);
        Ran::of(self.pair.layout(), number)
    }

    /// What the worker has seen is a legal history, so it keeps the headline: what was accepted is executed in its order,
    /// once at most, and one at a time. Each accepted item brought a value, no other number did, and the values in the
    /// order of the pushes are those in the order of the executions; that an execution was handed that very value is said
    /// by `run_one` and `logged`. Each accepted number has its place in what was brought. The worker's sender is one of its queue's.
    pub fn legal(&self)
        ensures legal { IsLegal self.now.worker.layout self.now.worker.seen }
        ensures headline { KeepsHeadline self.now.worker.seen }
        ensures values { IsLegalWith self.now.worker.layout (with_values self.now.worker.seen self.now.brought) }
        ensures matches { MatchesAccepted (owner_in self.now) }
        ensures low { self.now.worker.number < self.now.worker.layout.senders }
    {
        self.pair.legal();
    }

    /// The work has run the items that have begun, each with the value that its own queueing brought, in this order.
    pub fn logged(&self)
        ensures log { W.log self.now.worker.work ≡ ran_pairs self.now }
        ensures numbers { numbers_in (W.log self.now.worker.work) ≡ items_among self.now.worker.layout (begun self.now.worker.seen) }
    {
        self.pair.legal();
    }

    /// How large the queue is.
    pub fn layout(&self) -> Layout
        ensures size { result ≡ self.now.worker.layout }
    {
        self.pair.layout()
    }

    /// As `Worker::run_one`, with values. What the work asks for is queued, or chained, with its value, pair by pair; a pair whose
    /// item is pending, or whose number is no item, is given back to the work. Where a queueing is contended the execution is
    /// owed, and the next call goes on with that pair.
    pub fn run_one(&mut self) -> Ran
        ensures runs { RunsBy (MayLeave W.may W.takes) (GivesBack W.takes) result self.old.worker self.new.worker }
        ensures settles { DealsOutBy W.given W.may W.takes result self.old self.new }
        ensures learnt { Learnt (owner_in self.old) (owner_in self.new) }
        ensures owed { (k : ℕ) → result ≡ Owing k → IsOwedPair self.new }
        ensures none { result ≡ Nothing → HasNoneLeft self.new.worker.seen }
        ensures running { LeavesRunning result self.new.worker.seen }
        ensures open { ¬ IsShut self.old.worker.seen → ¬ IsShut self.new.worker.seen }
        ensures unclosed { ¬ IsClosed self.old.worker.seen → ¬ IsClosed self.new.worker.seen }
        ensures closed { IsClosed self.old.worker.seen → IsClosed self.new.worker.seen }
        ensures shut { IsShut self.old.worker.seen → IsShut self.new.worker.seen }
        ensures given { IsPrefix (W.given self.old.worker.work) (W.given self.new.worker.work) }
        ensures log_grows { IsPrefix (W.log self.old.worker.work) (W.log self.new.worker.work) }
        ensures same { IsSameWorker self.old.worker self.new.worker }
        ensures legal { IsLegal self.new.worker.layout self.new.worker.seen }
    {
        // For the proof: what the log was.
        self.logged();
        if let Some(number) = self.pair.running() {
            return self.finish(number);
        }
        let Some(number) = self.start() else {
            return Ran::Nothing;
        };
        self.finish(number)
    }

    /// As `Worker::ready`.
    pub fn ready(&mut self) -> Option<u32>
        ensures outcome { MatchOption result (IsUnready self.old.worker self.new.worker) (λ k. IsReady self.old.worker k self.new.worker) }
        ensures open { ¬ IsShut self.old.worker.seen → ¬ IsShut self.new.worker.seen }
        ensures unclosed { ¬ IsClosed self.old.worker.seen → ¬ IsClosed self.new.worker.seen }
        ensures pairs { self.new.unqueued ≡ self.old.unqueued }
        ensures learnt { Learnt (owner_in self.old) (owner_in self.new) }
        ensures same { IsSameWorker self.old.worker self.new.worker }
        ensures legal { IsLegal self.new.worker.layout self.new.worker.seen }
    {
        if self.pair.running().is_some() {
            return None;
        }
        take_next::<ValuePair<V>>(&mut self.pair)
    }

    /// As `Worker::rest`.
    pub fn rest(&mut self) -> bool
        requires open { ¬ IsShut self.old.worker.seen }
        requires none { HasNoneLeft self.old.worker.seen }
        ensures work { LeavesWork self.old.worker self.new.worker }
        ensures pairs { self.new.unqueued ≡ self.old.unqueued }
        ensures learnt { Learnt (owner_in self.old) (owner_in self.new) }
        ensures events { Moves (rest_events result) 0 self.old.worker self.new.worker }
        ensures open { ¬ IsShut self.new.worker.seen }
        ensures unclosed { ¬ IsClosed self.new.worker.seen }
        ensures none { HasNoneLeft self.new.worker.seen }
        ensures rested { IsTrue result → HasRested self.new.worker.seen }
        ensures refused { result ≡ false → MayNotRest self.new.worker.seen }
    {
        rest::<ValuePair<V>>(&mut self.pair)
    }

    /// As `Worker::run_some`. What each step asked for is dealt out as `run_one` says it of one, so what was brought and what was
    /// given back before begin what is now.
    pub fn run_some(&mut self, limit: u32) -> u32
        ensures deals { Along (DealsInStep W.given W.may W.takes) self.old self.new }
        ensures learnt { Learnt (owner_in self.old) (owner_in self.new) }
        ensures given { IsPrefix (W.given self.old.worker.work) (W.given self.new.worker.work) }
        ensures runs { RunsSomeBy (MayLeave W.may W.takes) (GivesBack W.takes) limit result self.old.worker self.new.worker }
        ensures open { ¬ IsShut self.old.worker.seen → ¬ IsShut self.new.worker.seen }
        ensures unclosed { ¬ IsClosed self.old.worker.seen → ¬ IsClosed self.new.worker.seen }
        ensures closed { IsClosed self.old.worker.seen → IsClosed self.new.worker.seen }
        ensures shut { IsShut self.old.worker.seen → IsShut self.new.worker.seen }
        ensures log_grows { IsPrefix (W.log self.old.worker.work) (W.log self.new.worker.work) }
        ensures same { IsSameWorker self.old.worker self.new.worker }
        ensures legal { IsLegal self.new.worker.layout self.new.worker.seen }
    {
        self.legal();
        self.logged();
        let ended = run_some::<ValueWorker<V, W>>(self, limit);
        self.logged();
        ended
    }

    /// As `Worker::close`.
    pub fn close(&mut self) -> u32
        requires unclosed { ¬ IsClosed self.old.worker.seen }
        ensures work { LeavesWork self.old.worker self.new.worker }
        ensures pairs { self.new.unqueued ≡ self.old.unqueued }
        ensures learnt { Learnt (owner_in self.old) (owner_in self.new) }
        ensures events { Moves (Close ∷ []) 0 self.old.worker self.new.worker }
        ensures takes { TakesAll Close result self.new.worker.seen }
        ensures closed { IsClosed self.new.worker.seen }
        ensures idle { ¬ IsRunning self.old.worker.seen → ¬ IsRunning self.new.worker.seen }
        ensures legal { IsLegal self.new.worker.layout self.new.worker.seen }
    {
        self.pair.close()
    }

    /// Whether the queue is closed.
    pub fn is_closed(&self) -> bool
        ensures closed { result ≡ closed self.now.worker.seen }
        ensures legal { IsLegal self.now.worker.layout self.now.worker.seen }
        ensures logged { HasRunBegunPairs W.log self.now }
    {
        // For the proof: what the log is.
        self.legal();
        self.logged();
        self.pair.is_closed()
    }

    /// As `Worker::is_draining`.
    pub fn is_draining(&self) -> bool
        ensures draining { IsTrue result ↔ IsDraining self.now.worker.seen }
        ensures else_open { result ≡ false → ¬ IsClosed self.now.worker.seen → ¬ IsShut self.now.worker.seen }
    {
        self.pair.is_draining()
    }

    /// As `Worker::running`.
    pub fn running(&self) -> Option<u32>
        ensures runs { result ≡ running self.now.worker.seen }
        ensures idle { result ≡ None → ¬ IsRunning self.now.worker.seen }
    {
        self.pair.running()
    }

    /// As `Worker::adjust`.
    pub fn adjust<F: FnOnce(&mut W)>(&mut self, f: F)
        requires callable { FnOnceTakesAtMut F.FnOnce f self.old.worker.work }
        requires keeps { (v : W) → FnOnceReturnsAtMut F.FnOnce f self.old.worker.work tt v → W.log v ≡ W.log self.old.worker.work }
        ensures work { FnOnceReturnsAtMut F.FnOnce f self.old.worker.work tt self.new.worker.work }
        ensures else_same { self.new ≡ record self.old { worker = record self.old.worker { work = self.new.worker.work } } }
    {
        f(&mut self.work);
    }

    /// As `Worker::meet`. The sender knows what was brought then.
    pub fn meet(&mut self, sender: &mut ValueSender<V>)
        requires { sender.old.known.queue ≡ self.old.worker.queue }
        ensures work { LeavesWork self.old.worker self.new.worker }
        ensures pairs { self.new.unqueued ≡ self.old.unqueued }
        ensures worker { Moves [] 0 self.old.worker self.new.worker }
        ensures learnt { Learnt (owner_in self.old) (owner_in self.new) × Learnt sender.old sender.new }
        ensures sender { Sees [] 0 sender.old.known sender.new.known }
        ensures own { own sender.old.known.number sender.new.known.seen ≡ own sender.old.known.number sender.old.known.seen }
        ensures own_values { own_brought sender.old.known.number sender.new.known.seen sender.new.brought
            ≡ own_brought sender.old.known.number sender.old.known.seen sender.old.brought }
        ensures layout { sender.old.known.layout ≡ self.old.worker.layout }
        ensures both { sender.new.known.seen ≡ self.new.worker.seen }
        ensures brought { sender.new.brought ≡ self.new.brought }
        ensures open { ¬ IsShut self.old.worker.seen → ¬ IsShut self.new.worker.seen }
        ensures unclosed { ¬ IsClosed self.old.worker.seen → ¬ IsClosed self.new.worker.seen }
        ensures idle { ¬ IsRunning self.old.worker.seen → ¬ IsRunning self.new.worker.seen }
        ensures none { HasNoneLeft self.old.worker.seen → HasNoneLeft self.new.worker.seen }
    {
        self.pair.meet(sender);
    }

    /// What the worker's own two seats have counted.
    pub fn counts(&self) -> Totals
        ensures counted { result ≡ own_totals self.now.worker.number self.now.worker.seen }
    {
        Totals::of(self.pair.sender_counts(), self.pair.owner_counts())
    }

    /// As `Worker::drain`, with the pairs of each step dealt out as by `run_one`.
    pub fn drain(&mut self, limit: u32) -> Drained
        ensures deals { Along (DealsInStep W.given W.may W.takes) self.old self.new }
        ensures learnt { Learnt (owner_in self.old) (owner_in self.new) }
        ensures given { IsPrefix (W.given self.old.worker.work) (W.given self.new.worker.work) }
        ensures drains { DrainsBy (MayLeave W.may W.takes) (GivesBack W.takes) limit result self.old.worker self.new.worker }
        ensures open { result ≡ Empty → ¬ IsClosed self.old.worker.seen → ¬ IsShut self.new.worker.seen }
        ensures shut { (left : ℕ) → result ≡ TooLong left → IsShut self.new.worker.seen }
        ensures none { result ≡ Empty → HasNoneLeft self.new.worker.seen }
        ensures ended { result ≡ Empty → IsPrefix (accepted self.old.worker.seen) (ended self.new.worker.seen) }
        ensures complete { result ≡ Empty → IsClosed self.old.worker.seen → IsComplete self.new.worker.seen }
        ensures unclosed { ¬ IsClosed self.old.worker.seen → ¬ IsClosed self.new.worker.seen }
        ensures log_grows { IsPrefix (W.log self.old.worker.work) (W.log self.new.worker.work) }
        ensures same { IsSameWorker self.old.worker self.new.worker }
        ensures legal { IsLegal self.new.worker.layout self.new.worker.seen }
    {
        self.legal();
        self.logged();
        let drained = drain::<ValueWorker<V, W>>(self, limit);
        self.logged();
        drained
    }

    /// As `Worker::serve`, with the pairs of each step dealt out as by `run_one`. Its senders, too, unpark it on `first`.
    pub fn serve<R: Wait>(&mut self, rt: &R, parker: &Parker)
        requires open { ¬ IsShut self.old.worker.seen }
        ensures deals { Along (DealsInStep W.given W.may W.takes) self.old self.new }
        ensures learnt { Learnt (owner_in self.old) (owner_in self.new) }
        ensures given { IsPrefix (W.given self.old.worker.work) (W.given self.new.worker.work) }
        ensures serves { ServesBy (MayLeave W.may W.takes) (GivesBack W.takes) self.old.worker self.new.worker }
        ensures open { ¬ IsShut self.new.worker.seen }
        ensures unclosed { ¬ IsClosed self.new.worker.seen }
        ensures idle { ¬ IsRunning self.new.worker.seen }
        ensures log_grows { IsPrefix (W.log self.old.worker.work) (W.log self.new.worker.work) }
        ensures same { IsSameWorker self.old.worker self.new.worker }
        ensures legal { IsLegal self.new.worker.layout self.new.worker.seen }
    {
        self.legal();
        self.logged();
        serve::<R, ValueWorker<V, W>>(rt, self, parker);
        self.logged();
    }

    // Takes a worker apart whose queue has run to the end.
    fn into_book(self) -> (W, ValueBook<V>)
        requires { IsComplete self.worker.seen }
        ensures work { result.0 ≡ self.worker.work }
        ensures book { IsBookOf self.worker result.1.book }
        ensures brought { result.1.brought ≡ self.brought }
        ensures ran { HasRunPairs W.log result.1.brought result.0 result.1.book }
    {
        let ValueWorker { pair, work, .. } = self;
        pair.legal();
        let (owner, sender) = pair.split();
        (work, ValueBook::new(owner, &sender))
    }

    /// As `Worker::destroy`: the work has run what was accepted, each item with the value that it brought, in order. The pairs of
    /// each step were dealt out as by `run_one`, up to the last, behind which nothing came: the book has the history of that step.
    pub fn destroy(mut self, limit: u32) -> Result<(W, ValueBook<V>), Unfinished<ValueWorker<V, W>>>
        ensures deals { MatchResult result (λ done. DealsToEnd W.given W.may W.takes self done.0 done.1.book done.1.brought)
            (λ unfinished. Along (DealsInStep W.given W.may W.takes) self unfinished.worker) }
        ensures learnt { MatchResult result (λ done. IsPrefix self.brought done.1.brought)
            (λ unfinished. Learnt (owner_in self) (owner_in unfinished.worker)) }
        ensures given { MatchResult result (λ done. IsPrefix (W.given self.worker.work) (W.given done.0))
            (λ unfinished. IsPrefix (W.given self.worker.work) (W.given unfinished.worker.worker.work)) }
        ensures outcome { MatchResult result
            (λ done. DestroysBy (HasRunPairs W.log done.1.brought) (MayLeave W.may W.takes) (GivesBack W.takes) limit self.worker done.0 done.1.book)
            (λ unfinished. LeavesUnfinishedBy (MayLeave W.may W.takes) (GivesBack W.takes) limit self.worker unfinished.worker.worker unfinished.left) }
        ensures done { IsComplete self.worker.seen → IsOk result }
    {
        self.legal();
        close_where_unclosed::<ValueWorker<V, W>>(&mut self);
        let left = run_out::<ValueWorker<V, W>>(&mut self, limit);
        if left > 0 {
            return Err(Unfinished { worker: self, left });
        }
        Ok(self.into_book())
    }
}

impl<V: Drop, W: ValueWork<V>> Station for ValueWorker<V, W> {
    type Work = W;

    type Book = ValueBook<V>;

    ghost state = { λ w. w.worker };

    ghost may = { MayLeave W.may W.takes };

    ghost gives = { GivesBack W.takes };

    ghost deals = { DealsInStep W.given W.may W.takes };

    ghost book = { λ b. b.book };

    ghost has_logged = { HasRunBegunPairs W.log };

    ghost has_run = { λ work b. HasRunPairs W.log b.brought work b.book };

    ghost has_brought = { λ w b. b.brought ≡ w.brought };

    fn legal(&self) {
        self.legal();
    }

    fn logged(&self) {
        self.legal();
        self.logged();
    }

    fn layout(&self) -> Layout {
        self.layout()
    }

    fn spins(&self) -> Spins {
        self.spins
    }

    fn waiting(&self) -> u32 {
        self.pair.waiting()
    }

    fn run_one(&mut self) -> Ran {
        self.run_one()
    }

    fn ready(&mut self) -> Option<u32> {
        // For the proof: where an execution is owed nothing moves, and what `deals` says is legal is the history as it was.
        self.legal();
        self.ready()
    }

    fn rest(&mut self) -> bool {
        self.rest()
    }

    fn is_closed(&self) -> bool {
        self.is_closed()
    }

    fn close(&mut self) -> u32 {
        self.close()
    }

    fn left(&self) -> u32 {
        left_of::<ValuePair<V>>(&self.pair)
    }

    fn drain_where_open(&mut self) {
        if is_shut::<ValuePair<V>>(&self.pair) {
            return;
        }
        self.pair.drain();
    }

    fn resume_where_draining(&mut self) {
        if self.pair.is_draining() {
            self.pair.resume();
        }
    }

    fn into_parts(self) -> (W, ValueBook<V>) {
        self.into_book()
    }
}

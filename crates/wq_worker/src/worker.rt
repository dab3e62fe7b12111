//! A worker.
ghost use Rattle.std.specs.Prelude.{◌≡◌, ◌↔◌, ℕ, ◌+◌, ◌<◌, false, Some, None, [], ◌∷◌, All, length, slice_index, IfOk, IfErr, IsOk, IsTrue, MatchOption, MatchResult};
ghost use mathlib.Core.List.{IsPrefix};
ghost use Rattle.std.specs.Fn.{FnOnceTakesAtMut, FnOnceReturnsAtMut};
ghost use Rattle.wq_words.specs.declared.event.Event.TheVariants.{Close};
ghost use Rattle.wq_words.specs.History.{accepted, begun, ended, closed, running, Holds, IsRunning, IsClosed, IsShut, IsDraining};
ghost use Rattle.wq_words.specs.Seen.{owner_seat, Grows, own};
ghost use Rattle.wq_live.specs.Known.{AreNumbered, Sees, new_senders};
ghost use Rattle.wq_live.specs.Answers.{IsContended};
ghost use Rattle.wq_live.specs.Batch.{TakesAll};
ghost use Rattle.wq_live.specs.Rest.{HasRested, MayNotRest};
ghost use Rattle.wq_words.specs.Legal.{IsLegal, IsComplete};
ghost use Rattle.wq_words.specs.Headline.{KeepsHeadline};
ghost use Rattle.wq_ledger.specs.Totals.{own_totals};
ghost use Rattle.wq_worker.specs.State.{items_among, IsSameWorker, Moves, IsMadeOf, IsNew};
ghost use Rattle.wq_worker.specs.declared.ran.Ran.TheVariants.{Nothing, Owing};
ghost use Rattle.wq_worker.specs.declared.drained.Drained.TheVariants.{Empty, TooLong};
ghost use Rattle.wq_worker.specs.Step.{Runs, FindsNothing, Begins, LeavesRunning};
ghost use Rattle.wq_worker.specs.Rows.{RunsSome, Drains, Serves};
ghost use Rattle.wq_worker.specs.Resting.{HasNoneLeft, rest_events, LeavesWork, IsReady, IsUnready};
ghost use Rattle.wq_worker.specs.Destroy.{IsBookOf, Destroys, LeavesUnfinished};

use crate::building::Unbuilt;
use crate::drained::{Drained, Unfinished, left_of};
use crate::ran::Ran;
use crate::serving::{close_where_unclosed, drain, run_out, run_some, serve};
use crate::station::Station;
use crate::steps::{begin_next, end_running, is_shut, queue_rest, rest, take_next};
use crate::work::{Follow, Work};
use crossbeam_utils::sync::Parker;
use std::alloc::Global;
use std::marker::Model;
use std::sync::Wait;
use wq_ledger::{Book, Totals};
use wq_live::{Owner, Pair, Sender, Spins, build};
use wq_words::Layout;

/// An owner and a sender of one queue, in one seat, and the work that runs its items. One that is dropped leaves what it took, and
/// all that is pushed after that, pending for good.
#[derive(Drop)]
pub struct Worker<W: Work> {
    pair: Pair,
    work: W,
    tries: u32,
    follow: Follow,
    at: usize,
    spins: Spins,
}

impl<W: Work> Model for Worker<W> {
    ghost use Rattle.std.specs.Prelude.{drop};
    ghost use Rattle.wq_worker.specs.State.{WorkerState, AreWorkerParts};

    ghost Value = { WorkerState W };

    ghost view = { λ w. record {
      queue = w.pair.queue;
      layout = w.pair.layout;
      number = w.pair.number;
      tries = w.tries;
      seen = w.pair.seen;
      unqueued = drop w.at w.follow.items;
      work = w.work;
    } };

    ghost invariant = { λ w. AreWorkerParts (W.log w.work) w.tries w.at w.follow.items w.pair };
}

impl<W: Work> Worker<W> {
    /// A worker of an owner that has begun nothing and a work that has run nothing. It queues what runs ask for by this
    /// sender, with so many tries.
    pub fn new(owner: Owner, sender: Sender, work: W, tries: u32) -> Worker<W>
        requires one { sender.queue ≡ owner.queue }
        requires tries { 0 < tries }
        requires none_begun { begun owner.seen ≡ [] }
        requires unrun { W.log work ≡ [] }
        ensures parts { IsMadeOf owner sender work tries result }
        ensures owner { Grows owner_seat [] 0 owner.seen result.seen }
        ensures sender { Grows sender.number [] 0 sender.seen result.seen }
        ensures legal { IsLegal result.layout result.seen }
        ensures idle { ¬ IsRunning result.seen }
        ensures open { ¬ IsShut owner.seen → ¬ IsShut result.seen }
    {
        let pair = Pair::join(owner, sender);
        Worker {
            pair,
            work,
            tries,
            follow: Follow::new(),
            at: 0,
            spins: Spins::default(),
        }
    }

    /// How long it gives way after a lost exchange, between the tries of one queueing, and after a short take where it serves. With one
    /// try no queueing gives way, and one that is owed is tried again at once: beside busy senders give a worker more.
    pub fn set_spins(&mut self, spins: Spins)
        ensures same { self.new ≡ self.old }
    {
        self.pair.set_spins(spins);
        self.spins = spins;
    }

    /// A worker of a new queue, with the last of its senders, and the other senders, each at its number, which have seen
    /// nothing. All memory that the queue needs is taken here; where it is refused the work is given back.
    pub fn build(
        alloc: Global,
        layout: Layout,
        work: W,
        tries: u32,
    ) -> Result<(Worker<W>, Vec<Sender>), Unbuilt<W>>
        requires tries { 0 < tries }
        requires unrun { W.log work ≡ [] }
        ensures worker { IfOk result (λ r. IsNew layout work tries r.0) }
        ensures senders { IfOk result (λ r. r.1.items ≡ new_senders r.0.queue layout r.0.number) }
        ensures one { IfOk result (λ r. All (λ s. s.queue ≡ r.0.queue) r.1.items) }
        ensures layouts { IfOk result (λ r. All (λ s. s.layout ≡ layout) r.1.items) }
        ensures count { IfOk result (λ r. length r.1.items + 1 ≡ layout.senders) }
        ensures numbers { IfOk result (λ r. AreNumbered r.1.items × (r.0.number ≡ length r.1.items)) }
        ensures unseen { IfOk result (λ r. All (λ s. s.seen ≡ []) r.1.items) }
        ensures free { IfOk result (λ r. All (λ s. (k : ℕ) → ¬ Holds s.seen s.number k) r.1.items) }
        ensures idle { IfOk result (λ r. ¬ IsRunning r.0.seen) }
        ensures open { IfOk result (λ r. ¬ IsShut r.0.seen) }
        ensures refused { IfErr result (λ e. e.work ≡ work) }
    {
        match build(alloc, layout) {
            Ok((owner, mut senders)) => {
                let Some(sender) = senders.pop() else {
                    unreachable!()
                };
                Ok((Worker::new(owner, sender, work, tries), senders))
            }
            Err(error) => Err(Unbuilt { work, error }),
        }
    }

    // Begins the oldest number and runs the work.
    fn start(&mut self) -> Option<u32>
        requires { ¬ IsRunning self.old.seen }
        ensures { MatchOption result (FindsNothing self.old self.new) (λ k. Begins W.may self.old k self.new) }
    {
        let begun = begin_next(&mut self.pair);
        let Some(number) = begun else {
            return None;
        };
        self.at = 0;
        if number < self.pair.layout().items {
            self.follow = self.work.run(number);
            return Some(number);
        }
        self.follow = Follow::new();
        Some(number)
    }

    // Queues what is left of the list and ends the execution.
    fn finish(&mut self, number: u32) -> Ran
        requires { running self.old.seen ≡ Some number }
        ensures runs { Runs W.may result self.old self.new }
        ensures some { result ≡ Nothing → ⊥ }
        ensures logged { W.log self.new.work ≡ items_among self.new.layout (begun self.new.seen) }
        ensures owed { (k : ℕ) → result ≡ Owing k → IsContended self.old.number (slice_index self.new.unqueued 0) self.old.tries self.new.seen }
    {
        let at = queue_rest(&mut self.pair, self.follow.as_slice(), self.at, self.tries);
        self.at = at;
        if at < self.follow.len() {
            return Ran::Owing(number);
        }
        end_running::<Pair>(&mut self.pair);
        Ran::of(self.pair.layout(), number)
    }

    /// What the worker has seen is a legal history, so it keeps the headline: what was accepted is executed in its order,
    /// once at most, and one at a time. The worker's sender is one of its queue's.
    pub fn legal(&self)
        ensures legal { IsLegal self.now.layout self.now.seen }
        ensures headline { KeepsHeadline self.now.seen }
        ensures low { self.now.number < self.now.layout.senders }
    {
        // opens the worker, whose invariant says this
        let _ = &self.pair;
    }

    /// The work has run the items that have begun, in this order.
    pub fn logged(&self)
        ensures log { W.log self.now.work ≡ items_among self.now.layout (begun self.now.seen) }
    {
        // opens the worker, whose invariant says this
        let _ = &self.pair;
    }

    /// How large the queue is.
    pub fn layout(&self) -> Layout
        ensures size { result ≡ self.now.layout }
    {
        self.pair.layout()
    }

    /// Executes the oldest number, after a take where nothing taken waits and the queue is open. What the work asks for is
    /// queued before the execution ends, by the worker's sender, or chained by the owner once the queue is shut. Where that
    /// is contended the execution is owed, and the next call goes on with it.
    pub fn run_one(&mut self) -> Ran
        ensures runs { Runs W.may result self.old self.new }
        ensures owed { (k : ℕ) → result ≡ Owing k → IsContended self.old.number (slice_index self.new.unqueued 0) self.old.tries self.new.seen }
        ensures none { result ≡ Nothing → HasNoneLeft self.new.seen }
        ensures running { LeavesRunning result self.new.seen }
        ensures open { ¬ IsShut self.old.seen → ¬ IsShut self.new.seen }
        ensures unclosed { ¬ IsClosed self.old.seen → ¬ IsClosed self.new.seen }
        ensures closed { IsClosed self.old.seen → IsClosed self.new.seen }
        ensures shut { IsShut self.old.seen → IsShut self.new.seen }
        ensures log_grows { IsPrefix (W.log self.old.work) (W.log self.new.work) }
        ensures same { IsSameWorker self.old self.new }
        ensures legal { IsLegal self.new.layout self.new.seen }
    {
        // For the proof: what the log was.
        self.logged();
        if let Some(number) = self.pair.running() {
            return self.finish(number);
        }
        let Some(number) = self.start() else {
            return Ran::Nothing;
        };
        self.finish(number)
    }

    /// Makes the take that `run_one` would make, and answers the oldest number that was taken and has not begun, which is what
    /// `run_one` executes next. `None` where an execution is owed, or where nothing waits.
    pub fn ready(&mut self) -> Option<u32>
        ensures outcome { MatchOption result (IsUnready self.old self.new) (λ k. IsReady self.old k self.new) }
        ensures open { ¬ IsShut self.old.seen → ¬ IsShut self.new.seen }
        ensures unclosed { ¬ IsClosed self.old.seen → ¬ IsClosed self.new.seen }
        ensures same { IsSameWorker self.old self.new }
        ensures legal { IsLegal self.new.layout self.new.seen }
    {
        if self.pair.running().is_some() {
            return None;
        }
        take_next::<Pair>(&mut self.pair)
    }

    /// Says once that the queue rests: true where all that was accepted has ended, nothing was pushed since the last take, drain or
    /// resume, and the queue did not rest already. The next queueing then answers `wakes`, if no take or drain comes before it.
    /// Where it answers false, run on: something was pushed, or nothing was taken since the last rest.
    ///
    /// A loop of one's own runs until `run_one` answers `Nothing`, rests, and parks where that answered true; its senders
    /// unpark it where their answer says `wakes`, once a rest and not once an item. No wake-up is missed then (this is not proved): a
    /// push before the rest makes the rest answer false, and the first push after it says `wakes`; what unparks a worker that has not
    /// parked yet keeps its next park from waiting.
    pub fn rest(&mut self) -> bool
        requires open { ¬ IsShut self.old.seen }
        requires none { HasNoneLeft self.old.seen }
        ensures work { LeavesWork self.old self.new }
        ensures events { Moves (rest_events result) 0 self.old self.new }
        ensures open { ¬ IsShut self.new.seen }
        ensures unclosed { ¬ IsClosed self.new.seen }
        ensures none { HasNoneLeft self.new.seen }
        ensures rested { IsTrue result → HasRested self.new.seen }
        ensures refused { result ≡ false → MayNotRest self.new.seen }
    {
        rest::<Pair>(&mut self.pair)
    }

    /// Executes up to so many numbers, and answers how many executions ended. It stops at the limit, after the stop item,
    /// where nothing waits, or where an execution is owed; the count does not tell these apart, as the answers of `run_one` do.
    /// It makes no pause: a loop of one's own over this call, or over an `Owner`, takes more at a time where it passes its `Spins`
    /// after fewer than `SHORT_TAKE` executions.
    pub fn run_some(&mut self, limit: u32) -> u32
        ensures runs { RunsSome W.may limit result self.old self.new }
        ensures open { ¬ IsShut self.old.seen → ¬ IsShut self.new.seen }
        ensures unclosed { ¬ IsClosed self.old.seen → ¬ IsClosed self.new.seen }
        ensures closed { IsClosed self.old.seen → IsClosed self.new.seen }
        ensures shut { IsShut self.old.seen → IsShut self.new.seen }
        ensures log_grows { IsPrefix (W.log self.old.work) (W.log self.new.work) }
        ensures same { IsSameWorker self.old self.new }
        ensures legal { IsLegal self.new.layout self.new.seen }
    {
        self.logged();
        let ended = run_some::<Worker<W>>(self, limit);
        self.logged();
        ended
    }

    /// Closes the queue, also one that drains, takes all that stands on the list, and answers how many that is.
    pub fn close(&mut self) -> u32
        requires unclosed { ¬ IsClosed self.old.seen }
        ensures work { LeavesWork self.old self.new }
        ensures events { Moves (Close ∷ []) 0 self.old self.new }
        ensures takes { TakesAll Close result self.new.seen }
        ensures closed { IsClosed self.new.seen }
        ensures idle { ¬ IsRunning self.old.seen → ¬ IsRunning self.new.seen }
        ensures legal { IsLegal self.new.layout self.new.seen }
    {
        self.pair.close()
    }

    /// Whether the queue is closed.
    pub fn is_closed(&self) -> bool
        ensures closed { result ≡ closed self.now.seen }
        ensures legal { IsLegal self.now.layout self.now.seen }
        ensures logged { W.log self.now.work ≡ items_among self.now.layout (begun self.now.seen) }
    {
        self.pair.is_closed()
    }

    /// Whether the queue drains: a drain came to its limit, or its owner had begun one before, and it has not ended.
    pub fn is_draining(&self) -> bool
        ensures draining { IsTrue result ↔ IsDraining self.now.seen }
        ensures else_open { result ≡ false → ¬ IsClosed self.now.seen → ¬ IsShut self.now.seen }
    {
        self.pair.is_draining()
    }

    /// The number that runs: an execution that is owed, and that the next step goes on with.
    pub fn running(&self) -> Option<u32>
        ensures runs { result ≡ running self.now.seen }
        ensures idle { result ≡ None → ¬ IsRunning self.now.seen }
    {
        self.pair.running()
    }

    /// Calls a closure on the work.
    pub fn adjust<F: FnOnce(&mut W)>(&mut self, f: F)
        requires callable { FnOnceTakesAtMut F.FnOnce f self.old.work }
        requires keeps { (v : W) → FnOnceReturnsAtMut F.FnOnce f self.old.work tt v → W.log v ≡ W.log self.old.work }
        ensures work { FnOnceReturnsAtMut F.FnOnce f self.old.work tt self.new.work }
        ensures else_same { self.new ≡ record self.old { work = self.new.work } }
    {
        f(&mut self.work);
    }

    /// The sender and both seats of the worker meet: afterwards each has seen all that they had seen.
    pub fn meet(&mut self, sender: &mut Sender)
        requires { sender.old.queue ≡ self.old.queue }
        ensures work { LeavesWork self.old self.new }
        ensures worker { Moves [] 0 self.old self.new }
        ensures sender { Sees [] 0 sender.old sender.new }
        ensures own { own sender.old.number sender.new.seen ≡ own sender.old.number sender.old.seen }
        ensures layout { sender.old.layout ≡ self.old.layout }
        ensures both { sender.new.seen ≡ self.new.seen }
        ensures open { ¬ IsShut self.old.seen → ¬ IsShut self.new.seen }
        ensures unclosed { ¬ IsClosed self.old.seen → ¬ IsClosed self.new.seen }
        ensures idle { ¬ IsRunning self.old.seen → ¬ IsRunning self.new.seen }
        ensures none { HasNoneLeft self.old.seen → HasNoneLeft self.new.seen }
    {
        self.pair.meet(sender);
    }

    /// What the worker's own two seats have counted.
    pub fn counts(&self) -> Totals
        ensures counted { result ≡ own_totals self.now.number self.now.seen }
    {
        Totals::of(self.pair.sender_counts(), self.pair.owner_counts())
    }

    /// Executes until nothing is left, or so many executions have ended (`drain_workqueue`). An open queue drains
    /// meanwhile: what senders queue is answered `Draining`, and what executions ask for is chained. Once nothing is left
    /// it takes pushes again; after `TooLong` it drains still, and the next call goes on. A closed queue stays closed. A
    /// stop item is executed with the rest, and nothing says that it ran: to stop a later `serve`, queue the stop item
    /// after the drain.
    pub fn drain(&mut self, limit: u32) -> Drained
        ensures drains { Drains W.may limit result self.old self.new }
        ensures open { result ≡ Empty → ¬ IsClosed self.old.seen → ¬ IsShut self.new.seen }
        ensures shut { (left : ℕ) → result ≡ TooLong left → IsShut self.new.seen }
        ensures none { result ≡ Empty → HasNoneLeft self.new.seen }
        ensures ended { result ≡ Empty → IsPrefix (accepted self.old.seen) (ended self.new.seen) }
        ensures complete { result ≡ Empty → IsClosed self.old.seen → IsComplete self.new.seen }
        ensures unclosed { ¬ IsClosed self.old.seen → ¬ IsClosed self.new.seen }
        ensures log_grows { IsPrefix (W.log self.old.work) (W.log self.new.work) }
        ensures same { IsSameWorker self.old self.new }
        ensures legal { IsLegal self.new.layout self.new.seen }
    {
        self.logged();
        let drained = drain::<Worker<W>>(self, limit);
        self.logged();
        drained
    }

    /// Executes until the stop item ran. It parks where nothing waits, so whoever queues something unparks it, where the answer says
    /// `first`. It never rests, so it is not enough to unpark it on `wakes`. It goes on at once where an execution is owed. Some
    /// time passes after a take of fewer than `SHORT_TAKE` numbers, and before it parks, so that a busy queue is taken from seldom
    /// and pays for no wake-up.
    pub fn serve<R: Wait>(&mut self, rt: &R, parker: &Parker)
        requires open { ¬ IsShut self.old.seen }
        ensures serves { Serves W.may self.old self.new }
        ensures open { ¬ IsShut self.new.seen }
        ensures unclosed { ¬ IsClosed self.new.seen }
        ensures idle { ¬ IsRunning self.new.seen }
        ensures log_grows { IsPrefix (W.log self.old.work) (W.log self.new.work) }
        ensures same { IsSameWorker self.old self.new }
        ensures legal { IsLegal self.new.layout self.new.seen }
    {
        self.logged();
        serve::<R, Worker<W>>(rt, self, parker);
        self.logged();
    }

    // Takes a worker apart whose queue has run to the end.
    fn into_book(self) -> (W, Book)
        requires { IsComplete self.seen }
        ensures work { result.0 ≡ self.work }
        ensures book { IsBookOf self result.1 }
        ensures logged { W.log result.0 ≡ items_among self.layout (accepted self.seen) }
    {
        let Worker { pair, work, .. } = self;
        let (owner, sender) = pair.split();
        (work, Book::new(owner, &sender))
    }

    /// Closes the queue where it is not closed, executes what is left, at most so many, and gives the work back with the book
    /// (`destroy_workqueue`). Where more is left it gives the worker back.
    pub fn destroy(mut self, limit: u32) -> Result<(W, Book), Unfinished<Worker<W>>>
        ensures outcome { MatchResult result (λ done. Destroys W.log W.may limit self done.0 done.1)
            (λ unfinished. LeavesUnfinished W.may limit self unfinished.worker unfinished.left) }
        ensures done { IsComplete self.seen → IsOk result }
    {
        close_where_unclosed::<Worker<W>>(&mut self);
        let left = run_out::<Worker<W>>(&mut self, limit);
        if left > 0 {
            return Err(Unfinished { worker: self, left });
        }
        Ok(self.into_book())
    }
}

impl<W: Work> Station for Worker<W> {
    type Work = W;

    type Book = Book;

    ghost state = { λ w. w };

    ghost may = { W.may };

    ghost use Rattle.wq_worker.specs.Step.{stays};

    ghost gives = { stays };

    ghost use Rattle.wq_worker.specs.Works.{WorksInStep};

    ghost deals = { WorksInStep W.may };

    ghost book = { λ b. b };

    ghost has_logged = { λ w. W.log w.work ≡ items_among w.layout (begun w.seen) };

    ghost use Rattle.wq_worker.specs.Destroy.{HasRunAccepted};

    ghost has_run = { HasRunAccepted W.log };

    ghost has_brought = { λ w b. Unit {0} };

    fn legal(&self) {
        self.legal();
    }

    fn logged(&self) {
        self.logged();
    }

    fn layout(&self) -> Layout {
        self.layout()
    }

    fn spins(&self) -> Spins {
        self.spins
    }

    fn waiting(&self) -> u32 {
        self.pair.waiting()
    }

    fn run_one(&mut self) -> Ran {
        self.run_one()
    }

    fn ready(&mut self) -> Option<u32> {
        self.ready()
    }

    fn rest(&mut self) -> bool {
        self.rest()
    }

    fn is_closed(&self) -> bool {
        self.is_closed()
    }

    fn close(&mut self) -> u32 {
        self.close()
    }

    fn left(&self) -> u32 {
        left_of::<Pair>(&self.pair)
    }

    fn drain_where_open(&mut self) {
        if is_shut::<Pair>(&self.pair) {
            return;
        }
        self.pair.drain();
    }

    fn resume_where_draining(&mut self) {
        if self.pair.is_draining() {
            self.pair.resume();
        }
    }

    fn into_parts(self) -> (W, Book) {
        self.into_book()
    }
}

//! A worker at work.
ghost use Rattle.std.specs.Prelude.{◌≡◌, ◌<◌, true, Contains};
ghost use Rattle.wq_words.specs.Numbers.{stop_number};
ghost use Rattle.wq_words.specs.History.{ended, IsClosed, IsRunning, IsDraining};
ghost use Rattle.wq_words.specs.Legal.{IsLegal};
ghost use Rattle.wq_words.specs.Headline.{KeepsHeadline};
ghost use Rattle.wq_worker.specs.Resting.{HasNoneLeft};
ghost use Rattle.wq_worker.specs.Rows.{Along, Closes};
ghost use Rattle.wq_worker.specs.Seats.{NothingWaits};
ghost use Rattle.wq_turn.specs.Drained.{IsDrained, ClosesAndWorks};
ghost use Rattle.wq_turn.specs.Owed.{IsOwed};
ghost use Rattle.wq_turn.specs.Steps.{SettlesOne, RunsOne, MakesProgress, WorksOn, EndsJust};
ghost use Rattle.wq_turn.specs.WorkerId.{worker_id};

use crate::gate::{Gate, NoGate};
use crate::noted::Noted;
use crate::served::ServedOf;
use std::marker::Model;
use wq_worker::{Ran, Station};

/// What a step came to.
pub(crate) enum Progress {
    /// An execution ended.
    Ended,
    /// An execution is owed.
    Owed,
    /// Nothing was left to do: the queue rests, or has run to its end.
    Done,
}

/// A worker at work: one that may owe an execution, with its queue in the hand of one thread.
#[derive(Drop)]
pub struct Runner<K: Station> {
    worker: Noted<K>,
    owes: bool,
}

impl<K: Station> Model for Runner<K> {
    ghost use Rattle.wq_words.specs.History.{IsDraining};
    ghost use Rattle.wq_turn.specs.Owed.{IsOwed};

    ghost Value = { K };

    ghost view = { λ r. r.worker };

    ghost invariant = { λ r. IsOwed r.owes (K.state r.worker).seen × (¬ IsDraining (K.state r.worker).seen) };
}

impl<K: Station> Runner<K> {
    /// Takes a worker that owes nothing to work.
    pub fn of(served: ServedOf<K>) -> Runner<K>
        ensures same { result ≡ served }
        ensures idle { ¬ IsRunning (K.state result).seen }
    {
        Runner {
            worker: served.worker,
            owes: false,
        }
    }

    /// What the worker has seen is a legal history, so the queue keeps the headline. The work has run the items that have
    /// begun, in this order. The queue does not drain.
    pub fn legal(&self)
        ensures legal { IsLegal (K.state self.now).layout (K.state self.now).seen }
        ensures headline { KeepsHeadline (K.state self.now).seen }
        ensures logged { K.has_logged self.now }
        ensures not_draining { ¬ IsDraining (K.state self.now).seen }
    {
        self.worker.legal();
    }

    /// True just where an execution is owed.
    pub fn owes(&self) -> bool
        ensures owed { IsOwed result (K.state self.now).seen }
    {
        self.owes
    }

    /// As `Served::count_stop`, of a worker that may owe an execution.
    pub fn count_stop(&mut self) -> bool
        ensures same { self.new ≡ self.old }
        ensures ran { result ≡ true → Contains (ended (K.state self.old).seen) (stop_number (K.state self.old).layout) }
    {
        self.worker.count_stop()
    }

    /// The worker at rest, where it owes nothing.
    pub fn into_served(self) -> ServedOf<K>
        requires { ¬ IsRunning (K.state self).seen }
        ensures same { result ≡ self }
    {
        ServedOf {
            worker: self.worker,
        }
    }

    // Rests, where nothing is left and the queue is open. Where that is refused something was pushed, since the worker has taken
    // after its last rest, and the next take finds it.
    fn rest(&mut self) -> Option<u32>
        requires waits { NothingWaits (K.state self.old).seen }
        requires none { HasNoneLeft (K.state self.old).seen }
        ensures settles { SettlesOne K.may K.gives result (K.state self.old) (K.state self.new) }
        ensures deals { Along K.deals self.old self.new }
    {
        if self.worker.is_closed() {
            return None;
        }
        if self.worker.rest() {
            return None;
        }
        self.worker.ready()
    }

    // Answers the number to be begun next. `None` where nothing is left to do.
    fn settle(&mut self) -> Option<u32>
        requires { ¬ IsRunning (K.state self.old).seen }
        ensures settles { SettlesOne K.may K.gives result (K.state self.old) (K.state self.new) }
        ensures deals { Along K.deals self.old self.new }
    {
        match self.worker.ready() {
            Some(number) => Some(number),
            None => self.rest(),
        }
    }

    // Executes the next number, or goes on with the one that is owed.
    fn execute<G: Gate>(&mut self, queue: u32, gate: &G) -> Progress
        requires { ¬ HasNoneLeft (K.state self.old).seen }
        ensures runs { RunsOne K.may K.gives result (K.state self.old) (K.state self.new) }
        ensures deals { Along K.deals self.old self.new }
    {
        match self.worker.run_one() {
            Ran::Item(item) => gate.after(queue, item),
            Ran::Barrier(_) => {}
            Ran::Stop => {}
            Ran::Owing(_) => {
                self.owes = true;
                return Progress::Owed;
            }
            Ran::Nothing => unreachable!(),
        }
        self.owes = false;
        Progress::Ended
    }

    // The number is about to be executed.
    fn pass_gate<G: Gate>(&self, queue: u32, number: u32, gate: &G) {
        if number < self.worker.layout().items {
            gate.before(queue, number);
        }
    }

    // One execution, or none where nothing is left to do.
    fn advance<G: Gate>(&mut self, queue: u32, gate: &G) -> Progress
        ensures progresses { MakesProgress K.may K.gives result (K.state self.old) (K.state self.new) }
        ensures deals { Along K.deals self.old self.new }
    {
        if self.owes {
            return self.execute(queue, gate);
        }
        let Some(number) = self.settle() else {
            return Progress::Done;
        };
        self.pass_gate(queue, number, gate);
        self.execute(queue, gate)
    }

    // The loop of `work`, of which the same is said. It is a function of its own so that `work` has each of its clauses from this
    // call alone, and wants no proof beside it.
    fn work_on<G: Gate>(&mut self, queue: u32, limit: u32, gate: &G) -> bool
        ensures works { WorksOn K.may K.gives limit result (K.state self.old) (K.state self.new) }
        ensures deals { Along K.deals self.old self.new }
    {
        for _ended in 0..limit {
            match self.advance(queue, gate) {
                Progress::Ended => {}
                Progress::Owed => return false,
                Progress::Done => return true,
            }
        }
        if self.owes {
            return false;
        }
        match self.settle() {
            Some(_) => false,
            None => true,
        }
    }

    /// Goes on with what is owed and with what waits, until nothing is left to do, but by no more executions than the limit. The
    /// gate is called with the queue's number before and after each execution of an item; an execution that is owed, and gone on
    /// with in a later call, has its first call of the gate in the earlier one.
    ///
    /// True where nothing is left to do: the last step was a rest that won, or the queue has run to its end, and no execution is
    /// owed. False where something is left: after just as many executions as the limit a number waits that was taken, or an
    /// execution is owed.
    pub fn work<G: Gate>(&mut self, queue: u32, limit: u32, gate: &G) -> bool
        ensures works { WorksOn K.may K.gives limit result (K.state self.old) (K.state self.new) }
        ensures deals { Along K.deals self.old self.new }
    {
        self.work_on(queue, limit, gate)
    }

    // Closes the queue where it is not closed.
    fn close(&mut self)
        ensures closes { Closes (K.state self.old) (K.state self.new) }
        ensures deals { Along K.deals self.old self.new }
        ensures same { worker_id (K.state self.new) ≡ worker_id (K.state self.old) }
        ensures closed { IsClosed (K.state self.new).seen }
        ensures idle { ¬ IsRunning (K.state self.old).seen → ¬ IsRunning (K.state self.new).seen }
    {
        if !self.worker.is_closed() {
            self.worker.close();
        }
    }

    /// Closes the queue where it is not closed, works on, by up to so many executions and with no gate, and answers how many numbers
    /// are left: some only after just as many executions as the limit.
    pub fn drain(&mut self, limit: u32) -> u32
        requires { ¬ IsRunning (K.state self.old).seen }
        ensures works { ClosesAndWorks K.may K.gives limit (K.state self.old) (K.state self.new) }
        ensures deals { Along K.deals self.old self.new }
        ensures same { worker_id (K.state self.new) ≡ worker_id (K.state self.old) }
        ensures left { IsDrained result (K.state self.new) }
        ensures executed { 0 < result → EndsJust limit (K.state self.old).seen (K.state self.new).seen }
        ensures idle { ¬ IsRunning (K.state self.new).seen }
    {
        self.close();
        self.work(0, limit, &NoGate);
        self.worker.left()
    }
}

//! A queue in hand.
ghost use Rattle.std.specs.Prelude.{◌≡◌, ◌<◌, MatchResult};
ghost use Rattle.wq_words.specs.History.{IsRunning, IsDraining};
ghost use Rattle.wq_words.specs.Legal.{IsLegal, IsComplete};
ghost use Rattle.wq_words.specs.Headline.{KeepsHeadline};
ghost use Rattle.wq_worker.specs.Rows.{Along};
ghost use Rattle.wq_pool.specs.Known.{IsSameTurn, turn_id};
ghost use Rattle.wq_pool.specs.Finished.{ArePartsOf};
ghost use Rattle.wq_turn.specs.Drained.{IsDrained, ClosesAndWorks};
ghost use Rattle.wq_turn.specs.Finished.{IsFinishedBy};
ghost use Rattle.wq_turn.specs.Owed.{IsOwed};
ghost use Rattle.wq_turn.specs.Steps.{Finishes, Pauses, EndsWithin, EndsJust};

use crate::slots::SlotSeat;
use std::marker::Model;
use wq_turn::{Gate, Runner, ServedOf};
use wq_worker::Station;

/// A queue that was picked, to be worked at. One that is dropped leaves its queue out of the pool for good.
#[derive(Drop)]
pub struct TurnOf<K: Station> {
    pub(crate) queue: u32,
    pub(crate) runner: Runner<K>,
    pub(crate) seat: SlotSeat<K>,
}

impl<K: Station> Model for TurnOf<K> {
    ghost use Rattle.wq_pool.specs.Known.{TurnState};

    ghost Value = { TurnState K };

    ghost use Rattle.wq_pool.specs.Views.{turn_view, IsTurn};

    ghost view = { turn_view };

    ghost invariant = { IsTurn K.state K.deals };
}

/// A queue that was worked at, to be put back. One that is dropped leaves its queue out of the pool for good.
#[derive(Drop)]
pub struct WorkedOf<K: Station> {
    pub(crate) queue: u32,
    pub(crate) served: ServedOf<K>,
    pub(crate) seat: SlotSeat<K>,
}

impl<K: Station> Model for WorkedOf<K> {
    ghost use Rattle.wq_pool.specs.Known.{TurnState};

    ghost Value = { TurnState K };

    ghost use Rattle.wq_pool.specs.Views.{worked_view, IsWorked};

    ghost view = { worked_view };

    ghost invariant = { IsWorked K.state K.deals };
}

impl<K: Station> TurnOf<K> {
    /// The number of the queue.
    pub fn queue(&self) -> u32
        ensures queue { result ≡ self.now.queue }
    {
        self.queue
    }

    /// What the worker has seen is a legal history, so the queue keeps the headline. The work has run the items that have
    /// begun, in this order. The queue does not drain.
    pub fn legal(&self)
        ensures legal { IsLegal (K.state self.now.worker).layout (K.state self.now.worker).seen }
        ensures headline { KeepsHeadline (K.state self.now.worker).seen }
        ensures logged { K.has_logged self.now.worker }
        ensures not_draining { ¬ IsDraining (K.state self.now.worker).seen }
    {
        self.runner.legal();
    }

    /// Serves the queue, by up to so many executions, until nothing is left to do: its rest won, or it has run to its end. Where
    /// more is left the turn is given back: after so many executions, or where one is owed.
    pub fn work<G: Gate>(mut self, limit: u32, gate: &G) -> Result<WorkedOf<K>, TurnOf<K>>
        ensures works { MatchResult result (λ worked. Finishes K.may K.gives limit (K.state self.worker) (K.state worked.worker))
            (λ turn. Pauses K.may K.gives limit (K.state self.worker) (K.state turn.worker)) }
        ensures ended { MatchResult result (λ worked. EndsWithin limit (K.state self.worker).seen (K.state worked.worker).seen)
            (λ turn. EndsWithin limit (K.state self.worker).seen (K.state turn.worker).seen) }
        ensures same { MatchResult result (λ worked. IsSameTurn K.state self worked) (λ turn. IsSameTurn K.state self turn) }
        ensures deals { MatchResult result (λ worked. Along K.deals self.worker worked.worker) (λ turn. Along K.deals self.worker turn.worker) }
    {
        if !self.runner.work(self.queue, limit, gate) {
            return Err(self);
        }
        let TurnOf {
            queue,
            runner,
            seat,
        } = self;
        Ok(WorkedOf {
            queue,
            served: runner.into_served(),
            seat,
        })
    }

    /// True just where an execution is owed.
    pub(crate) fn owes(&self) -> bool
        ensures { IsOwed result (K.state self.now.worker).seen }
    {
        self.runner.owes()
    }

    /// True at the first call after the queue's stop item has run, and at no other.
    pub(crate) fn count_stop(&mut self) -> bool
        ensures { self.new ≡ self.old }
    {
        self.runner.count_stop()
    }

    /// Closes the queue where it is not closed, executes up to so many numbers, and answers how many are left.
    pub(crate) fn drain(&mut self, limit: u32) -> u32
        requires { ¬ IsRunning (K.state self.old.worker).seen }
        ensures works { ClosesAndWorks K.may K.gives limit (K.state self.old.worker) (K.state self.new.worker) }
        ensures deals { Along K.deals self.old.worker self.new.worker }
        ensures same { IsSameTurn K.state self.old self.new }
        ensures left { IsDrained result (K.state self.new.worker) }
        ensures executed { 0 < result → EndsJust limit (K.state self.old.worker).seen (K.state self.new.worker).seen }
        ensures idle { ¬ IsRunning (K.state self.new.worker).seen }
    {
        self.runner.drain(limit)
    }

    /// A turn that owes nothing.
    pub(crate) fn into_worked(self) -> WorkedOf<K>
        requires { ¬ IsRunning (K.state self.worker).seen }
        ensures { result ≡ self }
    {
        let TurnOf {
            queue,
            runner,
            seat,
        } = self;
        WorkedOf {
            queue,
            served: runner.into_served(),
            seat,
        }
    }
}

impl<K: Station> WorkedOf<K> {
    /// The number of the queue.
    pub fn queue(&self) -> u32
        ensures queue { result ≡ self.now.queue }
    {
        self.queue
    }

    /// What the worker has seen is a legal history, so the queue keeps the headline. The work has run the items that have
    /// begun, in this order, nothing runs, and the queue does not drain.
    pub fn legal(&self)
        ensures legal { IsLegal (K.state self.now.worker).layout (K.state self.now.worker).seen }
        ensures headline { KeepsHeadline (K.state self.now.worker).seen }
        ensures logged { K.has_logged self.now.worker }
        ensures idle { ¬ IsRunning (K.state self.now.worker).seen }
        ensures not_draining { ¬ IsDraining (K.state self.now.worker).seen }
    {
        self.served.legal();
    }
}

impl<K: Station + Drop> WorkedOf<K> {
    /// The work and the book of a queue that has run to its end.
    pub(crate) fn into_parts(self) -> (K::Work, K::Book)
        requires { IsComplete (K.state self.worker).seen }
        ensures parts { ArePartsOf K.state K.book K.has_brought self.worker result }
        ensures finished { IsFinishedBy K.book K.has_run (turn_id K.state self) result }
    {
        self.served.into_parts()
    }
}

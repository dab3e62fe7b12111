//! A worker that owes nothing.
ghost use Rattle.std.specs.Prelude.{◌≡◌, true, Contains};
ghost use Rattle.wq_words.specs.Numbers.{stop_number};
ghost use Rattle.wq_words.specs.History.{ended, IsRunning, IsDraining};
ghost use Rattle.wq_words.specs.Legal.{IsLegal, IsComplete};
ghost use Rattle.wq_words.specs.Headline.{KeepsHeadline};
ghost use Rattle.wq_worker.specs.Destroy.{IsBookOf};
ghost use Rattle.wq_turn.specs.WorkerId.{worker_id};
ghost use Rattle.wq_turn.specs.Finished.{IsFinishedBy};

use crate::noted::Noted;
use std::marker::Model;
use wq_worker::{Station, Worker};

/// A worker that owes no execution, and whose queue does not drain, so that another thread can go on with its queue.
#[derive(Drop)]
pub struct ServedOf<K: Station> {
    pub(crate) worker: Noted<K>,
}

/// A plain worker that owes no execution: one whose items bring no values.
pub type Served<W> = ServedOf<Worker<W>>;

impl<K: Station> Model for ServedOf<K> {
    ghost use Rattle.wq_words.specs.History.{IsRunning, IsDraining};

    ghost Value = { K };

    ghost view = { λ s. s.worker };

    ghost invariant = { λ s. (¬ IsRunning (K.state s.worker).seen) × (¬ IsDraining (K.state s.worker).seen) };
}

impl<K: Station> ServedOf<K> {
    /// Takes a worker of which nothing runs, and whose queue does not drain.
    pub fn new(worker: K) -> ServedOf<K>
        requires idle { ¬ IsRunning (K.state worker).seen }
        requires not_draining { ¬ IsDraining (K.state worker).seen }
        ensures same { result ≡ worker }
    {
        ServedOf {
            worker: Noted::of(worker),
        }
    }

    /// The worker as one that is handed over now: a stop item that it ran before is not counted.
    pub fn anew(self) -> ServedOf<K>
        ensures same { result ≡ self }
    {
        ServedOf {
            worker: Noted::of(self.worker.into_worker()),
        }
    }

    /// What the worker has seen is a legal history, so the queue keeps the headline: what was accepted is executed in its
    /// order, once at most, and one at a time. The work has run the items that have begun, in this order, nothing runs, and the
    /// queue does not drain.
    pub fn legal(&self)
        ensures legal { IsLegal (K.state self.now).layout (K.state self.now).seen }
        ensures headline { KeepsHeadline (K.state self.now).seen }
        ensures logged { K.has_logged self.now }
        ensures idle { ¬ IsRunning (K.state self.now).seen }
        ensures not_draining { ¬ IsDraining (K.state self.now).seen }
    {
        self.worker.legal();
    }

    /// True at the first call after the queue's stop item has run, and at no other, so that one who adds these up counts each
    /// queue once. The stop items that ran before the worker was handed over are not counted. The worker stays as it was. True
    /// only where the stop item is among what has ended; that it is true then, and once, is in no clause.
    pub fn count_stop(&mut self) -> bool
        ensures same { self.new ≡ self.old }
        ensures ran { result ≡ true → Contains (ended (K.state self.old).seen) (stop_number (K.state self.old).layout) }
    {
        self.worker.count_stop()
    }

    /// The work of the worker, and the book, of a queue that has run to its end.
    pub fn into_parts(self) -> (K::Work, K::Book)
        requires { IsComplete (K.state self).seen }
        ensures work { result.0 ≡ (K.state self).work }
        ensures book { IsBookOf (K.state self) (K.book result.1) }
        ensures brought { K.has_brought self result.1 }
        ensures finished { IsFinishedBy K.book K.has_run (worker_id (K.state self)) result }
    {
        self.worker.legal();
        self.worker.into_worker().into_parts()
    }
}

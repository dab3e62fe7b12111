//! A worker that notes when its stop item has run.
ghost use Rattle.std.specs.Prelude.{◌≡◌, ◌⊎◌, [], ◌∷◌, true, false, Contains, MatchOption};
ghost use Rattle.wq_words.specs.Numbers.{stop_number};
ghost use Rattle.wq_words.specs.History.{closed, ended, IsClosed, IsShut};
ghost use Rattle.wq_words.specs.Legal.{IsLegal};
ghost use Rattle.wq_words.specs.Headline.{KeepsHeadline};
ghost use Rattle.wq_words.specs.declared.event.Event.TheVariants.{Close};
ghost use Rattle.wq_live.specs.Rest.{MayNotRest};
ghost use Rattle.wq_worker.specs.declared.ran.Ran.TheVariants.{Nothing, Stop};
ghost use Rattle.wq_worker.specs.Resting.{HasNoneLeft, rest_events, LeavesWork, IsReady, IsUnready};
ghost use Rattle.wq_worker.specs.State.{Moves};
ghost use Rattle.wq_worker.specs.Step.{RunsBy};
ghost use Rattle.wq_turn.specs.Drained.{IsDrained};
ghost use Rattle.wq_turn.specs.StopItem.{HasSeenStop};

use std::marker::Model;
use wq_words::Layout;
use wq_worker::{Ran, Station};

/// Whether a queue's stop item has run since its worker was handed over, and whether that has been counted.
#[derive(Clone, Copy, Debug, PartialEq, Eq)]
pub(crate) enum StopItem {
    Waits,
    Ran,
    Counted,
}

impl StopItem {
    // After a step with this answer.
    fn after(self, ran: Ran) -> StopItem
        ensures { HasSeenStop result → HasSeenStop self ⊎ (ran ≡ Stop) }
    {
        match (self, ran) {
            (StopItem::Waits, Ran::Stop) => StopItem::Ran,
            (same, _) => same,
        }
    }
}

/// A worker that notes when its stop item has run. Whoever steps it does so by these calls, so that none is missed.
#[derive(Drop)]
pub(crate) struct Noted<K: Station> {
    worker: K,
    stop_item: StopItem,
}

impl<K: Station> Model for Noted<K> {
    ghost use Rattle.wq_turn.specs.StopItem.{IsNoted};

    ghost Value = { K };

    ghost view = { λ n. n.worker };

    ghost invariant = { λ n. IsNoted n.stop_item (K.state n.worker) };
}

impl<K: Station> Noted<K> {
    /// A worker whose stop item was not seen to run.
    pub(crate) fn of(worker: K) -> Noted<K>
        ensures { result ≡ worker }
    {
        Noted {
            worker,
            stop_item: StopItem::Waits,
        }
    }

    pub(crate) fn into_worker(self) -> K
        ensures { result ≡ self }
    {
        self.worker
    }

    pub(crate) fn legal(&self)
        ensures legal { IsLegal (K.state self.now).layout (K.state self.now).seen }
        ensures headline { KeepsHeadline (K.state self.now).seen }
        ensures logged { K.has_logged self.now }
    {
        self.worker.legal();
        self.worker.logged();
    }

    pub(crate) fn layout(&self) -> Layout
        ensures { result ≡ (K.state self.now).layout }
    {
        self.worker.layout()
    }

    pub(crate) fn is_closed(&self) -> bool
        ensures closed { result ≡ closed (K.state self.now).seen }
        ensures legal { IsLegal (K.state self.now).layout (K.state self.now).seen }
    {
        self.worker.is_closed()
    }

    pub(crate) fn ready(&mut self) -> Option<u32>
        ensures outcome { MatchOption result (IsUnready (K.state self.old) (K.state self.new)) (λ k. IsReady (K.state self.old) k (K.state self.new)) }
        ensures deals { K.deals self.old self.new }
    {
        self.worker.ready()
    }

    pub(crate) fn rest(&mut self) -> bool
        requires open { ¬ IsShut (K.state self.old).seen }
        requires none { HasNoneLeft (K.state self.old).seen }
        ensures work { LeavesWork (K.state self.old) (K.state self.new) }
        ensures events { Moves (rest_events result) 0 (K.state self.old) (K.state self.new) }
        ensures open { ¬ IsShut (K.state self.new).seen }
        ensures none { HasNoneLeft (K.state self.new).seen }
        ensures refused { result ≡ false → MayNotRest (K.state self.new).seen }
        ensures deals { K.deals self.old self.new }
    {
        self.worker.rest()
    }

    pub(crate) fn run_one(&mut self) -> Ran
        ensures runs { RunsBy K.may K.gives result (K.state self.old) (K.state self.new) }
        ensures none { result ≡ Nothing → HasNoneLeft (K.state self.new).seen }
        ensures deals { K.deals self.old self.new }
    {
        let ran = self.worker.run_one();
        let stop_item = self.stop_item.after(ran);
        self.stop_item = stop_item;
        ran
    }

    pub(crate) fn close(&mut self)
        requires unclosed { ¬ IsClosed (K.state self.old).seen }
        ensures work { LeavesWork (K.state self.old) (K.state self.new) }
        ensures events { Moves (Close ∷ []) 0 (K.state self.old) (K.state self.new) }
        ensures deals { K.deals self.old self.new }
    {
        self.worker.close();
    }

    /// How many numbers of a closed queue are accepted and have not ended.
    pub(crate) fn left(&self) -> u32
        requires { IsClosed (K.state self.now).seen }
        ensures left { IsDrained result (K.state self.now) }
    {
        self.worker.legal();
        self.worker.left()
    }

    /// True at the first call after the stop item ran, and at no other.
    pub(crate) fn count_stop(&mut self) -> bool
        ensures same { self.new ≡ self.old }
        ensures ran { result ≡ true → Contains (ended (K.state self.old).seen) (stop_number (K.state self.old).layout) }
    {
        if self.stop_item != StopItem::Ran {
            return false;
        }
        self.stop_item = StopItem::Counted;
        true
    }
}

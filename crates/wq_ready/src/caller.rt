//! A caller of a ready queue.
ghost use Rattle.std.specs.Prelude.{◌≡◌, ◌<◌};
ghost use Rattle.wq_ready.specs.Legal.{IsReadyLegal};
ghost use Rattle.wq_ready.specs.Order.{KeepsOrder};

use crate::rule::PassPart;
use crossbeam_queue::Pass;
use std::marker::Model;

/// One who announces and picks. It may be moved to another thread.
#[derive(Drop)]
pub struct Caller {
    pub(crate) pass: Pass<u32, PassPart>,
    pub(crate) number: u32,
}

impl Model for Caller {
    ghost use Rattle.wq_ready.specs.Known.{CallerState};

    ghost Value = { CallerState };

    ghost use Rattle.wq_ready.specs.Views.{caller_view, Calls};

    ghost view = { caller_view };

    ghost invariant = { Calls };
}

impl Caller {
    /// Its number, which counts from 0.
    pub fn number(&self) -> u32
        ensures number { result ≡ self.now.number }
        ensures within { result < self.now.ready.size.callers }
    {
        self.number
    }

    /// What it has seen is a legal history of its ready queue, so what was announced is picked in its order, once at
    /// most.
    pub fn legal(&self)
        ensures legal { IsReadyLegal self.now.ready.size self.now.seen }
        ensures order { KeepsOrder self.now.ready.size self.now.seen }
    {
        // opens the caller, whose invariant says this
        let _ = &self.number;
    }
}

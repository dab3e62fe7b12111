//! The ready queue.
ghost use Rattle.std.specs.Prelude.{◌≡◌, ◌↔◌, ◌<◌, ◌≤◌, Err, IfOk, IfSome, All, length};
ghost use Rattle.crossbeam_queue.specs.Passes.{view, IsPassOf};
ghost use Rattle.wq_ready.specs.declared.ready_queue.AnnounceError.TheVariants.{NoQueue};
ghost use Rattle.wq_ready.specs.Rule.{opening_part, all_callers};
ghost use Rattle.wq_ready.specs.Known.{IsCallerOf, new_callers};
ghost use Rattle.wq_ready.specs.Answers.{Announces, Picks};

use crate::caller::Caller;
use crate::rule::{Announcing, HasSize, Numbers, Parts, PassPart, Picking, Sizes};
use crate::size::Size;
use crossbeam_queue::Pass;
use std::alloc::{AllocError, Global};
use std::marker::{Brand, Model};
use std::sync::Wait;
use thiserror::Error;

/// Why a queue was not announced.
#[derive(Clone, Copy, Debug, PartialEq, Eq, Error)]
pub enum AnnounceError {
    /// There is no queue of this number.
    #[error("no queue of this number")]
    NoQueue,
    /// As many announcements waited as there are queues.
    #[error("the ready queue was full")]
    Full,
}

/// Queues that were announced and wait to be picked, by their numbers. Threads share it by `&`. No call takes a lock, and
/// none but `new` takes memory.
#[derive(Drop)]
pub struct ReadyQueue {
    numbers: Numbers,
    size: Size,
}

impl Model for ReadyQueue {
    ghost use Rattle.wq_ready.specs.Known.{Identity};

    ghost Value = { Identity };

    ghost use Rattle.wq_ready.specs.Views.{ready_view, HasPlaces};

    ghost view = { ready_view };

    ghost invariant = { HasPlaces };
}

// Tells the first pass the size.
fn tell_size<B: HasSize>(numbers: &Numbers, pass: &mut Pass<u32, PassPart>, size: Size)
    requires size { (size ≡ B.size) × (0 < size.queues) }
    requires pass { IsPassOf numbers.now pass.old × (view pass.old ≡ opening_part) }
    ensures { IsPassOf numbers.now pass.new × (view pass.new ≡ all_callers size) }
{
    let _ = size;
    numbers.another::<Sizes<B>>(pass);
}

impl ReadyQueue {
    /// A ready queue in which nothing waits, and its callers, each at its number. They have seen nothing. All memory that it
    /// needs is taken here.
    ///
    /// # Errors
    /// No memory could be had.
    pub fn new(alloc: Global, size: Size) -> Result<(ReadyQueue, Vec<Caller>), AllocError>
        requires { 0 < size.queues }
        ensures size { IfOk result (λ r. r.0.size ≡ size) }
        ensures callers { IfOk result (λ r. r.1.items ≡ new_callers r.0 size.callers) }
        ensures ready { IfOk result (λ r. All (IsCallerOf r.0) r.1.items) }
        ensures count { IfOk result (λ r. length r.1.items ≡ size.callers) }
    {
        let (numbers, mut pass) = Numbers::ruled(alloc, size.queues as usize)?;
        tell_size::<Brand>(&numbers, &mut pass, size);
        let mut callers = Vec::new(alloc);
        for number in 0..size.callers {
            let pass = numbers.another::<Parts>(&mut pass);
            callers.push(Caller { pass, number })?;
        }
        Ok((ReadyQueue { numbers, size }, callers))
    }

    /// Announces a queue: it waits behind all that were announced before. A queue may be announced more than once.
    ///
    /// # Errors
    /// `NoQueue` exactly where the number is none of a queue. `Full` only where the ready queue could be full, by all that this
    /// caller has seen; what other callers do at the time bounds nothing here.
    pub fn announce<R: Wait>(
        &self,
        rt: &R,
        caller: &mut Caller,
        queue: u32,
    ) -> Result<(), AnnounceError>
        requires { IsCallerOf self.now caller.old }
        ensures no_queue { (result ≡ Err NoQueue) ↔ (self.now.size.queues ≤ queue) }
        ensures seen { Announces queue result caller.old caller.new }
        ensures caller { IsCallerOf self.now caller.new }
    {
        if queue >= self.size.queues {
            return Err(AnnounceError::NoQueue);
        }
        match self
            .numbers
            .push_as::<Announcing, R>(rt, &mut caller.pass, queue)
        {
            Ok(()) => Ok(()),
            Err(_) => Err(AnnounceError::Full),
        }
    }

    /// Takes the queue that was announced first. `None` only where the ready queue could be empty, by all that this caller has
    /// seen; what other callers do at the time bounds nothing here.
    pub fn pick<R: Wait>(&self, rt: &R, caller: &mut Caller) -> Option<u32>
        requires { IsCallerOf self.now caller.old }
        ensures queue { IfSome result (λ queue. queue < self.now.size.queues) }
        ensures seen { Picks result caller.old caller.new }
        ensures caller { IsCallerOf self.now caller.new }
    {
        self.numbers.pop_as::<Picking, R>(rt, &mut caller.pass)
    }
}

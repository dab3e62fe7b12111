//! Schedules, replayed on the machine.
ghost use Rattle.std.specs.Prelude.{◌⊎◌, IfOk, IfErr, OnOk};
ghost use Rattle.wq_words.specs.Legal.{IsLegal};
ghost use Rattle.wq_words.specs.Headline.{KeepsHeadline};
ghost use Rattle.wq_machine.specs.Schedule.{Leads, Leaves, StopsAt, IsFirstRefusal, LacksOpening};

use crate::machine::Core;
use crate::refusal::StepError;
use std::alloc::Global;
use thiserror::Error;
use wq_core::{Seat, Step};
use wq_words::Layout;

/// The first step of a schedule that was not made, counted from 0, and why.
#[derive(Clone, Copy, Debug, PartialEq, Eq, Error)]
#[error("step {at}: {why}")]
pub struct ReplayError {
    /// The place of the step, counted from 0.
    pub at: usize,
    /// Why it was not made.
    pub why: StepError,
}

/// The machine after all steps of a schedule, made one after another from the opening state. Whatever the schedule, what
/// has happened then is a legal history of the queue. Where no memory could be had for the opening state, `at` is 0.
pub fn replay(alloc: Global, layout: Layout, turns: &[(Seat, Step)]) -> Result<Core, ReplayError>
    ensures leaves { IfOk result (λ core. Leaves layout turns.now core) }
    ensures legal { IfOk result (λ core. IsLegal layout core.history) }
    ensures headline { IfOk result (λ core. KeepsHeadline core.history) }
    ensures refused { IfErr result (λ error. LacksOpening error.at error.why ⊎ IsFirstRefusal layout turns.now error.at error.why) }
{
    let mut core = match Core::new(alloc, layout) {
        Ok(core) => core,
        Err(_) => {
            return Err(ReplayError {
                at: 0,
                why: StepError::Memory,
            });
        }
    };
    match replay_on(&mut core, turns) {
        Ok(()) => Ok(core),
        Err(error) => Err(error),
    }
}

/// The steps of a schedule, made one after another on a machine that is there. After an error the machine is as the steps
/// before the refused one left it.
pub fn replay_on(core: &mut Core, turns: &[(Seat, Step)]) -> Result<(), ReplayError>
    ensures leads { OnOk result (Leads core.old turns.now core.new) }
    ensures stops { IfErr result (λ error. StopsAt core.old turns.now core.new error.at error.why) }
{
    for (at, (seat, step)) in turns.iter().enumerate() {
        match core.step(*seat, *step) {
            Ok(_) => {}
            Err(why) => return Err(ReplayError { at, why }),
        }
    }
    Ok(())
}

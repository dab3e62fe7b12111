//! The history that the steps of a schedule make.
ghost use Rattle.std.specs.Prelude.{◌≡◌, IfOk, OnOk, MatchOption};
ghost use Rattle.wq_core.specs.Machine.{opening, IsEnabled, after, reply_to};
ghost use Rattle.wq_core.specs.Made.{IsPlaced};
ghost use Rattle.wq_meaning.specs.ScheduleHistory.{Passes, AllPass, IsScheduleHistory};
ghost use Rattle.wq_text.specs.Schedule.{schedule_layout, turns_of};
ghost use Rattle.wq_words.specs.Legal.{IsLegal};

use std::alloc::{AllocError, Global};
use wq_core::{Reply, Seat, Step};
use wq_machine::{Core, StepError};
use wq_text::Schedule;
use wq_words::Event;

/// Gives the machine one step, and its reply. None where the machine does not allow it, which changes nothing.
pub(crate) fn try_step(core: &mut Core, seat: Seat, step: Step) -> Result<Option<Reply>, AllocError>
    requires { IsPlaced core.old.layout seat step }
    ensures same { OnOk result (core.new.layout ≡ core.old.layout) }
    ensures passes { OnOk result (Passes core.old (seat, step) core.new) }
    ensures tried { IfOk result (λ reply. MatchOption reply ((¬ IsEnabled core.old seat step) × (core.new ≡ core.old))
        (λ made. IsEnabled core.old seat step × (core.new ≡ after core.old seat step) × (made ≡ reply_to core.old seat step))) }
{
    match core.step(seat, step) {
        Ok(reply) => Ok(Some(reply)),
        Err(StepError::Memory) => Err(AllocError),
        Err(_) => Ok(None),
    }
}

/// The machine of a new queue behind the steps of a schedule.
fn replayed(alloc: Global, schedule: &Schedule) -> Result<Core, AllocError>
    ensures same { IfOk result (λ core. core.layout ≡ schedule_layout schedule.now) }
    ensures passed { IfOk result (λ core. AllPass (opening (schedule_layout schedule.now)) (turns_of schedule.now) core) }
{
    let mut core = Core::new(alloc, *schedule.layout())?;
    for (seat, step) in schedule.turns() {
        try_step(&mut core, *seat, *step)?;
    }
    Ok(core)
}

/// Gives the steps of a schedule in turn to the machine of a new queue, which passes over those that it does not allow, and gives
/// the events of those that were made, in order: the history of the run, which is legal. The only error is want of memory.
pub fn steps_history(alloc: Global, schedule: &Schedule) -> Result<Vec<Event>, AllocError>
    ensures history { IfOk result (λ events. IsScheduleHistory (schedule_layout schedule.now) (turns_of schedule.now) events.items) }
    ensures legal { IfOk result (λ events. IsLegal (schedule_layout schedule.now) events.items) }
{
    let core = replayed(alloc, schedule)?;
    core.sound();
    let mut events = Vec::new(alloc);
    events.extend_from_slice(core.history())?;
    Ok(events)
}

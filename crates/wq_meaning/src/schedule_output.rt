//! A schedule's run, from its steps to the bytes of its output.
ghost use Rattle.std.specs.Prelude.{◌≡◌, [], ◌++◌, IfOk, OnOk, string_bytes};
ghost use Rattle.wq_core.specs.Machine.{opening};
ghost use Rattle.wq_core.specs.Made.{IsPlaced};
ghost use Rattle.wq_meaning.specs.ScheduleOutput.{ending, GivesBehind, IsScheduleOutput, HasOneOutput};
ghost use Rattle.wq_text.specs.Schedule.{schedule_layout, turns_of};

use crate::error::RunError;
use crate::lines::{write_line, write_row};
use crate::replies::write_made;
use crate::schedule_history::try_step;
use std::alloc::{AllocError, Global};
use wq_core::{Seat, Step};
use wq_machine::Core;
use wq_text::Schedule;
use wq_words::Layout;

/// Gives the machine one step, and writes its line.
fn make_turn(
    core: &mut Core,
    layout: &Layout,
    seat: Seat,
    step: Step,
    out: &mut String,
) -> Result<(), AllocError>
    requires same { core.old.layout ≡ layout.now }
    requires placed { IsPlaced layout.now seat step }
    ensures same { OnOk result (core.new.layout ≡ layout.now) }
    ensures gives { OnOk result (GivesBehind core.old (seat, step) core.new (string_bytes out.old) (string_bytes out.new)) }
{
    match try_step(core, seat, step)? {
        Some(reply) => write_made(layout, step, reply, out),
        None => write_line("not enabled", out),
    }
}

/// Writes the last two lines: what was accepted, and what has begun.
fn write_ending(layout: &Layout, core: &Core, out: &mut String) -> Result<(), AllocError>
    requires same { core.now.layout ≡ layout.now }
    ensures written { OnOk result (string_bytes out.new ≡ string_bytes out.old ++ ending core.now) }
{
    write_row(layout, "accepted", &core.accepted()?, out)?;
    write_row(layout, "begun", &core.begun()?, out)
}

/// Gives the steps of a schedule in turn to the machine of a new queue, and writes the lines of its output.
fn write_output(core: &mut Core, schedule: &Schedule, out: &mut String) -> Result<(), AllocError>
    requires new { core.old ≡ opening (schedule_layout schedule.now) }
    requires empty { string_bytes out.old ≡ [] }
    ensures { OnOk result (IsScheduleOutput (schedule_layout schedule.now) (turns_of schedule.now) (string_bytes out.new)) }
{
    let layout = schedule.layout();
    for (seat, step) in schedule.turns() {
        make_turn(core, layout, *seat, *step, out)?;
    }
    write_ending(layout, core, out)
}

/// The output of a schedule, as text.
fn output_text(alloc: Global, schedule: &Schedule) -> Result<String, AllocError>
    ensures { IfOk result (λ text. IsScheduleOutput (schedule_layout schedule.now) (turns_of schedule.now) (string_bytes text)) }
{
    let mut core = Core::new(alloc, *schedule.layout())?;
    let mut out = String::new(alloc);
    write_output(&mut core, schedule, &mut out)?;
    Ok(out)
}

/// Gives the steps of a schedule in turn to the machine of a new queue, and gives the bytes of its output: for each step a
/// line of what it is answered (`llist_add`, `llist_del_all` and the PENDING bit, one atomic operation at a time), or `not
/// enabled` where the machine does not allow it, which changes nothing; and last the numbers that were accepted and those
/// that have begun, in order. The only error is want of memory.
pub fn run_steps(alloc: Global, schedule: &Schedule) -> Result<Vec<u8>, RunError>
    ensures output { IfOk result (λ bytes. IsScheduleOutput (schedule_layout schedule.now) (turns_of schedule.now) bytes.items) }
{
    match output_text(alloc, schedule) {
        Ok(text) => Ok(text.into_bytes()),
        Err(_) => Err(RunError::Memory),
    }
}

/// The output of a schedule is one: its definition leaves no choice. A law, which computes nothing.
pub fn one_output()
    ensures unique { HasOneOutput }
{}

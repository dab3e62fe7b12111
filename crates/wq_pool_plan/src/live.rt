//! `wqrun live`: a plan's bytes in, the line of its outcome out.
ghost use Rattle.std.specs.Prelude.{◌≡◌, ◌≢◌, ◌⊎◌, IfOk, IfErr, IfSome, string_bytes};
ghost use Rattle.wq_plan.specs.declared.plan_text.PlanError.{PlanError as Refusal};
ghost use Rattle.wq_plan.specs.PlanText.{SpellsPlan, IsNoPlan};
ghost use Rattle.wq_subcommand.specs.declared.failure.Failure.{Failure as Cause};
ghost use Rattle.wq_subcommand.specs.Failure.{status_of};
ghost use Rattle.wq_subcommand.specs.Ending.{Writes, Fails, IsUntouched, LacksOutput, IsUnmade};
ghost use Rattle.wq_pool_plan.specs.RaceReport.{Races, plan_read};

use crate::race::run_live;
use std::alloc::Global;
use std::io::{Read, Write};
use std::sync::Wait;
use std::thread::Threads;
use wq_plan::{MOST_PLAN_BYTES, Plan, PlanError, read_plan};
use wq_subcommand::{Failure, end, read_most};

// One byte more than a plan may have, so that a longer one is seen to be too long.
const PLAN_BYTES: u64 = MOST_PLAN_BYTES as u64 + 1;

// The plan that a text spells.
fn plan_of(alloc: Global, text: &[u8]) -> Result<Plan, Failure<PlanError>>
    ensures plan { IfOk result (SpellsPlan text.now) }
    ensures none { IfErr result (LacksOutput IsNoPlan text.now) }
{
    match read_plan(alloc, text) {
        Ok(plan) => Ok(plan),
        Err(PlanError::Memory) => Err(Failure::Memory),
        Err(refusal) => Err(Failure::Refused(refusal)),
    }
}

// The line of the outcome of a plan's text.
fn line_of<T: Threads + Wait + Sync>(
    rt: &T,
    alloc: Global,
    text: &[u8],
) -> Result<String, Failure<PlanError>>
    ensures line { IfOk result (λ line. Races text.now (string_bytes line)) }
    ensures none { IfErr result (LacksOutput IsNoPlan text.now) }
{
    let plan = plan_of(alloc, text)?;
    let Ok(outcome) = run_live(rt, alloc, plan) else {
        return Err(Failure::Memory);
    };
    let mut line = String::new(alloc);
    outcome.write(&mut line)?;
    Ok(line)
}

// The line of the outcome of the plan that a reader gives.
fn read_line<T: Threads + Wait + Sync, R: Read + Drop>(
    rt: &T,
    alloc: Global,
    reader: R,
) -> Result<Vec<u8>, Failure<PlanError>>
    ensures line { IfOk result (λ line. IfSome (R.remaining reader) (λ bytes. Races (plan_read bytes) line.items)) }
    ensures none { IfErr result (λ cause. IfSome (R.remaining reader) (λ bytes. IsUnmade IsNoPlan (plan_read bytes) cause)) }
{
    let text = read_most(alloc, reader, PLAN_BYTES)?;
    let line = line_of(rt, alloc, &text)?;
    Ok(line.into_bytes())
}

/// Runs the plan that the reader gives by live threads and writes the line of its outcome. The answer is the exit status: 0
/// where the line was written, 1 where the text was refused or a stream failed, 3 for want of memory or of a thread. Failures
/// are said on `faults`, a line each; where that cannot be written the status stays. Nothing is written before the race has
/// ended.
pub fn live_main<T: Threads + Wait + Sync, R: Read + Drop, W: Write, F: Write>(
    rt: &T,
    alloc: Global,
    reader: R,
    writer: &mut W,
    faults: &mut F,
) -> u8
    ensures written { result ≡ 0 → IfSome (R.remaining reader) (λ bytes. Writes Races (plan_read bytes) (W.contents writer.old) (W.contents writer.new)) }
    ensures failed { result ≢ 0 → (cause : Cause Refusal) × (result ≡ status_of cause) × IsUntouched cause writer.old writer.new
        × IfSome (R.remaining reader) (λ bytes. Fails Races IsNoPlan (plan_read bytes) (W.contents writer.old) (W.contents writer.new) cause) }
    ensures status { (result ≡ 0) ⊎ ((result ≡ 1) ⊎ (result ≡ 3)) }
{
    end(read_line(rt, alloc, reader), writer, faults)
}

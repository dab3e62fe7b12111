//! `wqrun steps`: a schedule's bytes in, its output's bytes out.
ghost use Rattle.std.specs.Prelude.{◌≡◌, ◌≢◌, ◌⊎◌, ◌+◌, IfSome, take};
ghost use Rattle.wq_text.specs.declared.fault.ScriptError.{ScriptError};
ghost use Rattle.wq_text.specs.TextLimits.{most_bytes};
ghost use Rattle.wq_subcommand.specs.declared.failure.Failure.{Failure as Cause};
ghost use Rattle.wq_subcommand.specs.Failure.{status_of};
ghost use Rattle.wq_subcommand.specs.Ending.{Writes, Fails, IsUntouched};
ghost use Rattle.wq_commands.specs.ScheduleReport.{Replays, HasNoOutput};

use crate::script::TEXT_BYTES;
use std::alloc::Global;
use std::io::{Read, Write};
use wq_script::{parse_steps, run_steps};
use wq_subcommand::{Failure, Subcommand, subcommand_main};

/// Replays a schedule; its output is a line for each step.
pub struct StepsCommand;

impl Subcommand for StepsCommand {
    ghost means = { Replays };

    ghost lacks = { HasNoOutput };

    ghost limit = { most_bytes + 1 };

    fn limit() -> u64 {
        TEXT_BYTES
    }

    fn output_of(&self, alloc: Global, text: &[u8]) -> Result<Vec<u8>, Failure> {
        let schedule = parse_steps(alloc, text)?;
        let output = run_steps(alloc, &schedule)?;
        Ok(output)
    }
}

/// Replays the schedule that the reader gives, and writes a line for each step. The answer is the exit status: 0 where the output
/// was written, 1 where the text was refused or a stream failed, 3 for want of memory. Failures are said on `faults`, a line each;
/// where that cannot be written the status stays. Nothing is written before the whole output stands.
pub fn steps_main<R: Read + Drop, W: Write, F: Write>(
    alloc: Global,
    reader: R,
    writer: &mut W,
    faults: &mut F,
) -> u8
    ensures written { result ≡ 0 → IfSome (R.remaining reader)
        (λ bytes. Writes Replays (take (most_bytes + 1) bytes) (W.contents writer.old) (W.contents writer.new)) }
    ensures failed { result ≢ 0 → (cause : Cause ScriptError) × (result ≡ status_of cause) × IsUntouched cause writer.old writer.new
        × IfSome (R.remaining reader)
        (λ bytes. Fails Replays HasNoOutput (take (most_bytes + 1) bytes) (W.contents writer.old) (W.contents writer.new) cause) }
    ensures status { (result ≡ 0) ⊎ ((result ≡ 1) ⊎ (result ≡ 3)) }
{
    subcommand_main(&StepsCommand, alloc, reader, writer, faults)
}

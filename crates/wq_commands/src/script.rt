//! `wqrun script`: a script's bytes in, its report's bytes out.
ghost use Rattle.std.specs.Prelude.{◌≡◌, ◌≢◌, ◌⊎◌, ◌+◌, IfSome, take};
ghost use Rattle.wq_text.specs.declared.fault.ScriptError.{ScriptError};
ghost use Rattle.wq_text.specs.TextLimits.{most_bytes};
ghost use Rattle.wq_subcommand.specs.declared.failure.Failure.{Failure as Cause};
ghost use Rattle.wq_subcommand.specs.Failure.{status_of};
ghost use Rattle.wq_subcommand.specs.Ending.{Writes, Fails, IsUntouched};
ghost use Rattle.wq_commands.specs.Report.{Reports, HasNoReport};

use std::alloc::Global;
use std::io::{Read, Write};
use wq_script::{parse, run};
use wq_subcommand::{Failure, Subcommand, subcommand_main};
use wq_text::MOST_BYTES;

// One byte more than a script or a schedule may have.
pub(crate) const TEXT_BYTES: u64 = MOST_BYTES as u64 + 1;

/// Runs a script; its output is the script's report.
pub struct ScriptCommand;

impl Subcommand for ScriptCommand {
    ghost means = { Reports };

    ghost lacks = { HasNoReport };

    ghost limit = { most_bytes + 1 };

    fn limit() -> u64 {
        TEXT_BYTES
    }

    fn output_of(&self, alloc: Global, text: &[u8]) -> Result<Vec<u8>, Failure> {
        let script = parse(alloc, text)?;
        let report = run(alloc, &script)?;
        Ok(report)
    }
}

/// Runs the script that the reader gives, and writes its report. The answer is the exit status: 0 where the report was written, 1
/// where the text was refused or a stream failed, 3 for want of memory. Failures are said on `faults`, a line each; where that
/// cannot be written the status stays. Nothing is written before the whole report stands.
pub fn script_main<R: Read + Drop, W: Write, F: Write>(
    alloc: Global,
    reader: R,
    writer: &mut W,
    faults: &mut F,
) -> u8
    ensures written { result ≡ 0 → IfSome (R.remaining reader)
        (λ bytes. Writes Reports (take (most_bytes + 1) bytes) (W.contents writer.old) (W.contents writer.new)) }
    ensures failed { result ≢ 0 → (cause : Cause ScriptError) × (result ≡ status_of cause) × IsUntouched cause writer.old writer.new
        × IfSome (R.remaining reader)
        (λ bytes. Fails Reports HasNoReport (take (most_bytes + 1) bytes) (W.contents writer.old) (W.contents writer.new) cause) }
    ensures status { (result ≡ 0) ⊎ ((result ≡ 1) ⊎ (result ≡ 3)) }
{
    subcommand_main(&ScriptCommand, alloc, reader, writer, faults)
}

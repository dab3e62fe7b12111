//! How a subcommand ends: its output is written, or it is said why there is none.
ghost use Rattle.std.specs.Prelude.{◌≡◌, ◌≢◌, ◌⊎◌, OnOk, IfErr, IsOkAnd, MatchResult};
ghost use Rattle.std.specs.Io.KnownBytes.{Appends};
ghost use Rattle.wq_subcommand.specs.declared.failure.Failure.{Failure as Cause};
ghost use Rattle.wq_subcommand.specs.declared.failure.Failure.TheVariants.{Unwritable};
ghost use Rattle.wq_subcommand.specs.Failure.{status_of};
ghost use Rattle.wq_subcommand.specs.Ending.{IsUntouched, WritesPart};

use crate::failure::Failure;
use crate::status::WRITTEN;
use std::fmt::Display;
use std::io::{ErrorKind, Write};

// Writes all of these bytes, as `write_all` does, of which no clause says what a writer that fails has taken.
fn write_whole<E, W: Write>(bytes: &[u8], writer: &mut W) -> Result<(), Failure<E>>
    ensures written { OnOk result (Appends (W.contents writer.old) (W.contents writer.new) bytes.now) }
    ensures failed { IfErr result (λ cause. (cause ≡ Unwritable) × WritesPart bytes.now (W.contents writer.old) (W.contents writer.new)) }
{
    let mut rest = bytes;
    for _ in 0..u64::MAX {
        if rest.is_empty() {
            return Ok(());
        }
        match writer.write(rest) {
            Ok(0) => return Err(Failure::Unwritable),
            Ok(count) => rest = &rest[count..],
            Err(error) => {
                if error.kind() != ErrorKind::Interrupted {
                    return Err(Failure::Unwritable);
                }
            }
        }
    }
    Err(Failure::Unwritable)
}

// Writes an output, where there is one. An empty one writes nothing; the writer is flushed.
fn write_output<E: Drop, W: Write>(
    output: Result<Vec<u8>, Failure<E>>,
    writer: &mut W,
) -> Result<(), Failure<E>>
    ensures written { OnOk result (IsOkAnd output (λ bytes. Appends (W.contents writer.old) (W.contents writer.new) bytes.items)) }
    ensures failed { IfErr result (λ cause. MatchResult output
        (λ bytes. (cause ≡ Unwritable) × WritesPart bytes.items (W.contents writer.old) (W.contents writer.new)) (λ failure. cause ≡ failure)
        × IsUntouched cause writer.old writer.new) }
{
    let output = output?;
    write_whole(&output, writer)?;
    if writer.flush().is_err() {
        return Err(Failure::Unwritable);
    }
    Ok(())
}

/// Writes an output, or says on `faults`, in a line, why there is none or why it could not be written. The answer is the exit
/// status: 0 where the output was written, else that of the failure. Where `faults` cannot be written the status stays.
pub fn end<E: Display + Drop, W: Write, F: Write>(
    output: Result<Vec<u8>, Failure<E>>,
    writer: &mut W,
    faults: &mut F,
) -> u8
    ensures written { result ≡ 0 → IsOkAnd output (λ bytes. Appends (W.contents writer.old) (W.contents writer.new) bytes.items) }
    ensures failed { result ≢ 0 → (cause : Cause E) × (result ≡ status_of cause) × MatchResult output
        (λ bytes. (cause ≡ Unwritable) × WritesPart bytes.items (W.contents writer.old) (W.contents writer.new)) (λ failure. cause ≡ failure)
        × IsUntouched cause writer.old writer.new }
    ensures status { (result ≡ 0) ⊎ ((result ≡ 1) ⊎ (result ≡ 3)) }
{
    match write_output(output, writer) {
        Ok(()) => WRITTEN,
        Err(failure) => {
            let status = failure.status();
            let _ = writeln!(faults, "{failure}");
            status
        }
    }
}

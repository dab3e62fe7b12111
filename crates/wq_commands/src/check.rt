//! `wqrun check`: a recording's bytes in, what is found of it out.
ghost use Rattle.std.specs.Prelude.{◌≡◌, ◌≢◌, ◌⊎◌, IfOk, IfErr, IfSome, IsOkAnd, MatchResult};
ghost use Rattle.wq_recording.specs.Checking.{IsFoundOf, IsRefusedFor};
ghost use Rattle.wq_text.specs.declared.fault.ScriptError.{ScriptError};
ghost use Rattle.wq_subcommand.specs.declared.failure.Failure.{Failure as Cause};
ghost use Rattle.wq_subcommand.specs.declared.failure.Failure.TheVariants.{Unwritable};
ghost use Rattle.wq_subcommand.specs.Failure.{status_of};
ghost use Rattle.wq_subcommand.specs.Ending.{Fails, IsUnmade, IsUntouched, WritesPart};
ghost use Rattle.wq_commands.specs.Judged.{WritesFinding, ReportsFinding, IsSaid, of_check_error};

use std::alloc::Global;
use std::io::{BufRead, Write};
use wq_recording::{CheckError, Finding, check};
use wq_subcommand::{Failure, NOT_LEGAL, WRITTEN, end};

// Why nothing was found.
fn failure_of(error: CheckError) -> Failure
    ensures { result ≡ of_check_error error }
{
    match error {
        CheckError::Read(error) => Failure::from(error),
        CheckError::Text(error) => Failure::from(error),
    }
}

// What is found of the recording that a reader gives.
fn read_finding<B: BufRead>(alloc: Global, reader: &mut B) -> Result<Finding, Failure>
    ensures found { IfOk result (λ finding. IfSome (B.remaining reader.old) (λ bytes. IsFoundOf bytes finding)) }
    ensures none { IfErr result (λ cause. IfSome (B.remaining reader.old) (λ bytes. IsUnmade IsRefusedFor bytes cause)) }
{
    check(alloc, reader).map_err(failure_of)
}

// Writes what was found, where something was. The answer is the exit status.
fn write_finding<W: Write, F: Write>(
    finding: Result<Finding, Failure>,
    wants_drained: bool,
    writer: &mut W,
    faults: &mut F,
) -> u8
    ensures said { (result ≡ 0) ⊎ (result ≡ 4) → IsOkAnd finding (IsSaid wants_drained result (W.contents writer.old) (W.contents writer.new)) }
    ensures failed { result ≢ 0 → result ≢ 4 → (cause : Cause ScriptError) × (result ≡ status_of cause) × MatchResult finding
        (λ found. (cause ≡ Unwritable) × WritesPart found.text.items (W.contents writer.old) (W.contents writer.new)) (λ failure. cause ≡ failure)
        × IsUntouched cause writer.old writer.new }
    ensures status { (result ≡ 0) ⊎ ((result ≡ 1) ⊎ ((result ≡ 3) ⊎ (result ≡ 4))) }
{
    match finding {
        Ok(
            Finding {
                text,
                is_legal,
                left,
                ..
            },
        ) => {
            let passes = is_legal && (!wants_drained || left == 0);
            let status = end(Ok::<_, Failure>(text), writer, faults);
            if status == WRITTEN && !passes {
                NOT_LEGAL
            } else {
                status
            }
        }
        Err(failure) => end(Err(failure), writer, faults),
    }
}

/// Reads the recording that the reader gives, up to the line that decides, and writes what is found of it. The answer is the
/// exit status: 0 where all is legal and, if asked for drained, nothing is left; 4 where that is not so; 1 where the text was
/// refused or a stream failed, 3 for want of memory, and then nothing is written, but that an output may break off. Failures are
/// said on `faults`, a line each; where that cannot be written the status stays.
pub fn check_main<B: BufRead + Drop, W: Write, F: Write>(
    alloc: Global,
    mut reader: B,
    wants_drained: bool,
    writer: &mut W,
    faults: &mut F,
) -> u8
    ensures judged { (result ≡ 0) ⊎ (result ≡ 4) → IfSome (B.remaining reader)
        (λ bytes. WritesFinding wants_drained bytes result (W.contents writer.old) (W.contents writer.new)) }
    ensures failed { result ≢ 0 → result ≢ 4 → (cause : Cause ScriptError) × (result ≡ status_of cause) × IsUntouched cause writer.old writer.new
        × IfSome (B.remaining reader) (λ bytes. Fails ReportsFinding IsRefusedFor bytes (W.contents writer.old) (W.contents writer.new) cause) }
    ensures status { (result ≡ 0) ⊎ ((result ≡ 1) ⊎ ((result ≡ 3) ⊎ (result ≡ 4))) }
{
    let finding = read_finding(alloc, &mut reader);
    write_finding(finding, wants_drained, writer, faults)
}

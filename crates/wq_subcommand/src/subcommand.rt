//! A subcommand that makes its output of a whole text: the text's bytes in, the output's bytes out.
ghost use Rattle.std.specs.Prelude.{◌≡◌, ◌≢◌, ◌⊎◌, ℕ, List, IfOk, IfErr, IfSome, take};
ghost use Rattle.wq_text.specs.declared.fault.ScriptError.{ScriptError};
ghost use Rattle.wq_subcommand.specs.declared.failure.Failure.{Failure as Cause};
ghost use Rattle.wq_subcommand.specs.Failure.{status_of};
ghost use Rattle.wq_subcommand.specs.Ending.{Writes, Fails, IsUntouched, LacksOutput, IsUnmade};

use crate::ending::end;
use crate::failure::Failure;
use crate::reading::read_most;
use std::alloc::Global;
use std::io::{Read, Write};

/// What one subcommand makes of a text.
pub trait Subcommand {
    // which outputs a text means
    ghost means: { List ℕ → List ℕ → Type 0 };

    // which refusals say that a text has none
    ghost lacks: { List ℕ → ScriptError → Type 0 };

    // how many bytes of a reader are read
    ghost limit: { ℕ };

    /// One byte more than a text may have, so that a longer one is seen to be too long.
    fn limit() -> u64
        ensures { result ≡ limit };

    /// The output of a text.
    ///
    /// # Errors
    /// Why the text has none: a refusal of it, or want of memory or of a thread, and nothing else.
    fn output_of(&self, alloc: Global, text: &[u8]) -> Result<Vec<u8>, Failure>
        ensures output { IfOk result (λ output. means text.now output.items) }
        ensures none { IfErr result (LacksOutput lacks text.now) };
}

// The output of the text that a reader gives.
fn read_output<S: Subcommand, R: Read + Drop>(
    subcommand: &S,
    alloc: Global,
    reader: R,
) -> Result<Vec<u8>, Failure>
    ensures output { IfOk result (λ output. IfSome (R.remaining reader) (λ bytes. S.means (take S.limit bytes) output.items)) }
    ensures none { IfErr result (λ cause. IfSome (R.remaining reader) (λ bytes. IsUnmade S.lacks (take S.limit bytes) cause)) }
{
    let text = read_most(alloc, reader, S::limit())?;
    subcommand.output_of(alloc, &text)
}

/// Does the subcommand on the text that the reader gives, and writes its output. The answer is the exit status: 0 where the output
/// was written, 1 where the text was refused or a stream failed, 3 for want of memory or of a thread. Failures are said on
/// `faults`, a line each; where that cannot be written the status stays. Nothing is written before the whole output stands.
pub fn subcommand_main<S: Subcommand, R: Read + Drop, W: Write, F: Write>(
    subcommand: &S,
    alloc: Global,
    reader: R,
    writer: &mut W,
    faults: &mut F,
) -> u8
    ensures written { result ≡ 0 → IfSome (R.remaining reader)
        (λ bytes. Writes S.means (take S.limit bytes) (W.contents writer.old) (W.contents writer.new)) }
    ensures failed { result ≢ 0 → (cause : Cause ScriptError) × (result ≡ status_of cause) × IsUntouched cause writer.old writer.new
        × IfSome (R.remaining reader) (λ bytes. Fails S.means S.lacks (take S.limit bytes) (W.contents writer.old) (W.contents writer.new) cause) }
    ensures status { (result ≡ 0) ⊎ ((result ≡ 1) ⊎ (result ≡ 3)) }
{
    end(read_output(subcommand, alloc, reader), writer, faults)
}

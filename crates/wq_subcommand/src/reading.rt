//! The bytes that a subcommand reads.
ghost use Rattle.std.specs.Prelude.{◌≡◌, IfOk, IfErr, IfSome, take};
ghost use Rattle.wq_subcommand.specs.Ending.{HasNoText};

use crate::failure::Failure;
use std::alloc::Global;
use std::io::Read;

/// Reads a text to its end, so many bytes at most. An error is one of reading: the reader failed, or memory was wanting.
pub fn read_most<E, R: Read + Drop>(
    alloc: Global,
    reader: R,
    most: u64,
) -> Result<Vec<u8>, Failure<E>>
    ensures text { IfOk result (λ text. IfSome (R.remaining reader) (λ bytes. text.items ≡ take most bytes)) }
    ensures none { IfErr result HasNoText }
{
    let mut text = Vec::new(alloc);
    reader.take(most).read_to_end(&mut text)?;
    Ok(text)
}

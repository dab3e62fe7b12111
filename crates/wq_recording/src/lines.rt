//! The lines of a reader's bytes, one at a time: no more of them is held than one line.
ghost use Rattle.std.specs.Prelude.{◌≡◌, ◌≢◌, ◌↔◌, ◌+◌, ◌-◌, ◌<◌, ◌≤◌, All, length, take, slice_index, false, IsTrue, IfOk, OnOk};
ghost use Rattle.std.specs.Io.{StartsWith, StopsAt, IsEmptyOrEndsWith, appended_bytes};
ghost use Rattle.std.specs.Io.KnownBytes.{Consumes};
ghost use Rattle.wq_recording.specs.Lines.{IsLineRead, EndsOrGoesOn, most_line_bytes};
ghost use Rattle.wq_recording.specs.LineOrRest.{IsLineOrRest};

use std::io;
use std::io::{BufRead, ErrorKind};

/// How many bytes a line may have before its LF.
pub(crate) const MOST_LINE_BYTES: usize = 4_096;

// How many of these bytes belong to a line with room for so many more: all through its LF.
fn part_len(bytes: &[u8], room: usize) -> usize
    ensures bound { result ≤ length bytes.now }
    ensures room { result ≤ room }
    ensures before { All (λ x. x ≢ 10) (take (result - 1) bytes.now) }
    ensures whole { result < length bytes.now → result < room → (0 < result) × (slice_index bytes.now (result - 1) ≡ 10) }
{
    let most = room.min(bytes.len());
    match bytes[..most].iter().position(|byte| *byte == b'\n') {
        Some(place) => place + 1,
        None => most,
    }
}

// Whether no byte is there, or the last is LF.
fn is_end(part: &[u8]) -> bool
    ensures { IsTrue result ↔ IsEmptyOrEndsWith part.now 10 }
{
    match part.last() {
        None => true,
        Some(byte) => *byte == b'\n',
    }
}

// A read that was interrupted is made again: the line goes on.
fn unless_interrupted(error: io::Error) -> io::Result<bool>
    ensures { IfOk result (λ done. done ≡ false) }
{
    if error.kind() == ErrorKind::Interrupted {
        Ok(false)
    } else {
        Err(error)
    }
}

// Appends what the reader has at hand of a line that is not whole. Whether it has come to its LF, to a byte too many, or to
// the end of the input.
fn append_part<B: BufRead>(reader: &mut B, line: &mut Vec<u8>) -> io::Result<bool>
    requires room { length line.old.items ≤ most_line_bytes + 1 }
    requires none { All (λ x. x ≢ 10) line.old.items }
    ensures room { length line.new.items ≤ most_line_bytes + 1 }
    ensures stops { StopsAt line.new.items 10 }
    ensures appends { StartsWith line.new.items line.old.items }
    ensures bytes { Consumes (B.remaining reader.old) (B.remaining reader.new) (appended_bytes line.old.items line.new.items) }
    ensures done { IfOk result (λ done. EndsOrGoesOn done line.new.items (B.remaining reader.old) (B.remaining reader.new)) }
{
    let bytes = match reader.fill_buf() {
        Ok(bytes) => bytes,
        Err(error) => return unless_interrupted(error),
    };
    let count = part_len(bytes, MOST_LINE_BYTES + 1 - line.len());
    let part = &bytes[..count];
    line.extend_from_slice(part)?;
    let is_end = is_end(part);
    let is_long = line.len() > MOST_LINE_BYTES;
    reader.consume(count);
    Ok(is_end | is_long)
}

/// Reads the next line with its LF in place of what `line` held; of a longer one the first 4,097 bytes, and of a last one that
/// has no LF what there is.
pub(crate) fn next_line<B: BufRead>(reader: &mut B, line: &mut Vec<u8>) -> io::Result<()>
    ensures line { OnOk result (IsLineRead line.new.items (B.remaining reader.old) (B.remaining reader.new)) }
    ensures bytes { OnOk result (Consumes (B.remaining reader.old) (B.remaining reader.new) line.new.items) }
{
    line.clear();
    for _ in 0..u64::MAX {
        if append_part(reader, line)? {
            return Ok(());
        }
    }
    Err(io::Error::from(ErrorKind::TimedOut))
}

/// What was read of a line.
#[derive(Clone, Copy)]
pub(crate) enum LineOrRest<'a> {
    /// A line, without its LF.
    Line(&'a [u8]),
    /// What no LF ends.
    Rest(&'a [u8]),
}

/// What was read.
pub(crate) fn line_or_rest(line: &[u8]) -> LineOrRest<'_>
    ensures { IsLineOrRest line.now result }
{
    match line.split_last() {
        Some((b'\n', text)) => LineOrRest::Line(text),
        _ => LineOrRest::Rest(line),
    }
}

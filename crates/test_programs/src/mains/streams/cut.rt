//! Streams that fail or are interrupted at some of their calls, and move a few bytes at each of the others.
use super::Row;
use std::alloc::Global;
use std::io::{Error, ErrorKind, Read, Result, Write};

const UNWRITABLE: &[u8] = b"output: Unwritable\n";

/// How many calls of a stream do not fail, first and after each failure, and why it fails.
#[derive(Clone, Copy)]
pub(super) struct Calls {
    pub(super) left: u32,
    pub(super) again: u32,
    pub(super) cause: ErrorKind,
}

impl Calls {
    /// Counts a call down, and fails where none are left: whoever passes over that finds the stream as it was.
    fn count(&mut self) -> Result<()> {
        if self.left == 0 {
            self.left = self.again;
            return Err(Error::from(self.cause));
        }
        self.left = self.left.wrapping_sub(1);
        Ok(())
    }
}

/// Gives a text at most so many bytes a call.
#[derive(Drop)]
pub(super) struct PieceReader<'a> {
    pub(super) rest: &'a [u8],
    pub(super) piece: usize,
    pub(super) calls: Calls,
}

impl Read for PieceReader<'_> {
    fn read(&mut self, buffer: &mut [u8]) -> Result<usize> {
        self.calls.count()?;
        let count = self.rest.len().min(buffer.len()).min(self.piece);
        buffer[..count].copy_from_slice(&self.rest[..count]);
        self.rest = &self.rest[count..];
        Ok(count)
    }
}

/// Takes at most so many bytes a call. A flush fails as a write does, but is not interrupted.
#[derive(Drop)]
pub(super) struct PieceWriter {
    pub(super) taken: Vec<u8>,
    piece: usize,
    calls: Calls,
}

impl PieceWriter {
    /// It takes all.
    pub(super) fn whole(alloc: Global) -> PieceWriter {
        Cut::Interrupted.writer(alloc, 0)
    }
}

impl Write for PieceWriter {
    fn write(&mut self, bytes: &[u8]) -> Result<usize> {
        self.calls.count()?;
        let count = bytes.len().min(self.piece);
        self.taken.extend_from_slice(&bytes[..count])?;
        Ok(count)
    }

    fn flush(&mut self) -> Result<()> {
        if matches!(self.calls.cause, ErrorKind::Interrupted) {
            return Ok(());
        }
        self.calls.count()
    }
}

/// How the streams of a run are cut.
#[derive(Clone, Copy)]
pub(super) enum Cut {
    /// A read fails, once.
    Unreadable,
    /// A read wants memory, once.
    NoMemory,
    /// A read is interrupted, once.
    Interrupted,
    /// A write or the flush fails, once.
    Unwritable,
    /// One call moves one byte, and the writer fails from a call on.
    Pieces,
    /// Each second write is interrupted, and the others take one byte.
    Halting,
    /// The writer takes nothing, and does not fail.
    Full,
}

/// What a run is to leave: its status, what it says of failures, and how much of the output it writes at least and at most.
#[derive(Clone, Copy)]
pub(super) struct Wanted {
    pub(super) status: u8,
    pub(super) faults: &'static [u8],
    pub(super) least: usize,
    pub(super) most: usize,
}

impl Wanted {
    fn failed(status: u8, faults: &'static [u8], least: usize, most: usize) -> Wanted {
        Wanted {
            status,
            faults,
            least,
            most,
        }
    }
}

impl Cut {
    /// Why a stream fails.
    fn cause(self) -> ErrorKind {
        match self {
            Cut::NoMemory => ErrorKind::OutOfMemory,
            Cut::Interrupted | Cut::Halting => ErrorKind::Interrupted,
            _ => ErrorKind::BrokenPipe,
        }
    }

    /// A reader of the text that fails after so many calls, where it is the reader that does.
    pub(super) fn reader(self, text: &[u8], calls: u32) -> PieceReader<'_> {
        let (piece, left) = match self {
            Cut::Unreadable | Cut::NoMemory | Cut::Interrupted => (8, calls),
            Cut::Pieces => (1, u32::MAX),
            _ => (usize::MAX, u32::MAX),
        };
        PieceReader {
            rest: text,
            piece,
            calls: Calls {
                left,
                again: u32::MAX,
                cause: self.cause(),
            },
        }
    }

    /// A writer that fails after so many calls, where it is the writer that does.
    pub(super) fn writer(self, alloc: Global, calls: u32) -> PieceWriter {
        let (piece, left, again) = match self {
            Cut::Unwritable => (8, calls, u32::MAX),
            Cut::Pieces => (1, calls, 0),
            Cut::Halting => (1, 0, 1),
            Cut::Full => (0, u32::MAX, u32::MAX),
            _ => (usize::MAX, u32::MAX, u32::MAX),
        };
        PieceWriter {
            taken: Vec::new(alloc),
            piece,
            calls: Calls {
                left,
                again,
                cause: self.cause(),
            },
        }
    }

    /// So many tries, each with one call more, meet each call of a run: behind the last of them none fails.
    pub(super) fn tries(self, row: &Row) -> u32 {
        match self {
            Cut::Unreadable | Cut::NoMemory => row.reads.saturating_add(1),
            Cut::Interrupted => row.reads,
            Cut::Unwritable => row.writes.saturating_add(2),
            Cut::Pieces => u32::try_from(row.output.len())
                .unwrap_or(u32::MAX)
                .saturating_add(3),
            Cut::Halting | Cut::Full => 1,
        }
    }

    /// What a run is to leave that is cut after so many calls.
    pub(super) fn wanted(self, row: &Row, calls: u32) -> Wanted {
        let whole = row.output.len();
        let taken = whole.min(calls as usize);
        match self {
            Cut::Unreadable if calls != row.reads => {
                Wanted::failed(1, b"file: Unreadable\n", 0, 0)
            }
            Cut::NoMemory if calls != row.reads => Wanted::failed(3, b"memory\n", 0, 0),
            Cut::Unwritable if calls < row.writes => Wanted::failed(1, UNWRITABLE, 0, whole),
            Cut::Pieces if calls as usize <= whole => Wanted::failed(1, UNWRITABLE, taken, taken),
            Cut::Full => Wanted::failed(1, UNWRITABLE, 0, 0),
            _ => Wanted::failed(row.status, b"", whole, whole),
        }
    }
}

//! Histories that are written as recordings, and read back; and readers that fail.
use crate::expect::expect_same;
use std::alloc::Global;
use std::io::{BufReader, Error, ErrorKind, Read, Result};
use std::process::Abort;
use wq_check::Cause;
use wq_recording::{CheckError, Violation, check, record_history};
use wq_words::Event::{Begin, Close, End, Hold, Push, Take};
use wq_words::{Event, Layout};

/// Of a queue of 2 items, 1 barrier and 1 sender: item 1 and the barrier are queued, and the item runs.
const LEGAL: &[Event] = &[
    Hold(0, 1),
    Push(0, 1),
    Take,
    Begin(1),
    Hold(0, 2),
    Push(0, 2),
    End(1),
    Close,
];

/// Its fourth event begins the item again.
const TWICE: &[Event] = &[Hold(0, 1), Push(0, 1), Begin(1), Begin(1), End(1), Close];

/// The text of a history.
fn written<R: Abort>(rt: &R, alloc: Global, history: &[Event]) -> Vec<u8> {
    let layout = Layout::new(2, 1, 1).expect(rt, "a layout");
    record_history(alloc, &layout, history).expect(rt, "memory")
}

#[test]
fn legal_history_reads_back(rt: HostRuntime) {
    let text = written(&rt, rt.alloc(), LEGAL);
    let mut rest = text.as_slice();
    let finding = check(rt.alloc(), &mut rest).expect(&rt, "a finding");
    expect_same(
        &rt,
        (finding.violation, finding.is_legal, finding.left),
        (None, true, 1),
    );
    expect_same(&rt, rest.len(), 0);
}

/// Its line is the eighth, behind the four of the header, and two lines stand behind it.
#[test]
fn violation_of_a_history_is_named(rt: HostRuntime) {
    let text = written(&rt, rt.alloc(), TWICE);
    let mut rest = text.as_slice();
    let finding = check(rt.alloc(), &mut rest).expect(&rt, "a finding");
    let violation = Violation {
        line: 8,
        cause: Cause::Runs(1),
    };
    expect_same(
        &rt,
        (finding.violation, finding.is_legal, finding.left),
        (Some(violation), false, 1),
    );
    expect_same(&rt, rest, b"o end 1\no close\n".as_slice());
}

/// Gives a text, and fails behind it.
#[derive(Drop)]
struct Failing<'a> {
    rest: &'a [u8],
    cause: ErrorKind,
}

impl Read for Failing<'_> {
    fn read(&mut self, buffer: &mut [u8]) -> Result<usize> {
        let count = self.rest.len().min(buffer.len());
        if count == 0 {
            return Err(Error::from(self.cause));
        }
        buffer[..count].copy_from_slice(&self.rest[..count]);
        self.rest = &self.rest[count..];
        Ok(count)
    }
}

/// The kind of the error with which the check of a reader ends.
fn kind_of<R: Abort>(rt: &R, alloc: Global, reader: Failing<'_>) -> Option<ErrorKind> {
    let mut reader = BufReader::new(alloc, reader).expect(rt, "memory");
    match check(alloc, &mut reader) {
        Err(CheckError::Read(error)) => Some(error.kind()),
        _ => None,
    }
}

/// A reader fails behind these bytes, with each of two errors.
fn fail_behind<R: Abort>(rt: &R, alloc: Global, rest: &[u8]) {
    for cause in [ErrorKind::BrokenPipe, ErrorKind::TimedOut] {
        let reader = Failing { rest, cause };
        expect_same(rt, kind_of(rt, alloc, reader), Some(cause));
    }
}

/// Of a reader that fails at once, within a line, and behind one.
#[test]
fn readers_error_comes_back(rt: HostRuntime) {
    let texts: &[&[u8]] = &[b"", b"trace", b"trace 1\nitems 2\n"];
    for rest in texts {
        fail_behind(&rt, rt.alloc(), rest);
    }
}

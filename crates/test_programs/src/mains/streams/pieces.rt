//! Streams that give and take one byte a call, that are interrupted, that never end, and that take nothing, under each of the mains.
use super::cut::{Calls, Cut, PieceReader, PieceWriter};
use super::{Main, check_cut, run};
use crate::expect::expect_same;
use std::alloc::Global;
use std::io::ErrorKind;
use std::process::Abort;
use std::sync::Wait;
use std::thread::Threads;

/// One call writes one byte, and one more flushes. What was taken before a call that fails is just that much of the output.
#[test]
fn one_byte_a_call(rt: HostRuntime) {
    check_cut(&rt, rt.alloc(), Cut::Pieces);
}

/// What is said of a text that is this byte so many times, of which each read gives one and the one behind the last fails.
fn is_refused<T: Abort + Threads + Wait + Sync>(
    rt: &T,
    alloc: Global,
    main: Main,
    byte: u8,
    bytes: u32,
    said: &str,
) -> bool {
    let text = Vec::from_elem(alloc, byte, bytes as usize).expect(rt, "memory");
    let mut output = PieceWriter::whole(alloc);
    let mut faults = PieceWriter::whole(alloc);
    let reader = PieceReader {
        rest: text.as_slice(),
        piece: 1,
        calls: Calls {
            left: bytes,
            again: 0,
            cause: ErrorKind::BrokenPipe,
        },
    };
    let status = run(rt, alloc, main, reader, &mut output, &mut faults);
    status == 1 && faults.taken.as_slice() == said.as_bytes() && output.taken.is_empty()
}

/// A text without an end is read to one byte more than it may have, and no further; of a recording so is a line.
#[test]
fn texts_without_an_end(rt: HostRuntime) {
    for &(main, byte, bytes, said) in &[
        (Main::Script, b'\n', 1_048_577, "line 1: Size\n"),
        (Main::Script, b'\n', 1_048_576, "file: Unreadable\n"),
        (Main::Steps, b'\n', 1_048_577, "line 1: Size\n"),
        (Main::Steps, b'\n', 1_048_576, "file: Unreadable\n"),
        (Main::Live, b'\n', 65_537, "plan: Size\n"),
        (Main::Live, b'\n', 65_536, "file: Unreadable\n"),
        (Main::Check, b'#', 4_097, "line 1: Size\n"),
        (Main::Check, b'#', 4_096, "file: Unreadable\n"),
        (Main::Check, b'\n', 1, "line 1: Version\n"),
    ] {
        assert!(rt;
            is_refused(&rt, rt.alloc(), main, byte, bytes, said),
            "{bytes} {said}"
        );
    }
}

/// A write that is interrupted is made again, and nothing is lost or written twice.
#[test]
fn writer_is_interrupted(rt: HostRuntime) {
    check_cut(&rt, rt.alloc(), Cut::Halting);
}

/// A writer that takes nothing is not written to for ever.
#[test]
fn writer_takes_nothing(rt: HostRuntime) {
    check_cut(&rt, rt.alloc(), Cut::Full);
    let mut output = Cut::Full.writer(rt.alloc(), 0);
    let mut faults = Cut::Full.writer(rt.alloc(), 0);
    let reader = Cut::Full.reader(b"", 0);
    let status = run(
        &rt,
        rt.alloc(),
        Main::Script,
        reader,
        &mut output,
        &mut faults,
    );
    expect_same(&rt, status, 1);
}

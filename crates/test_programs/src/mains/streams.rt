//! Streams that fail at one call alone, each in turn, under each of the mains.
mod cut;
mod pieces;

use crate::expect::expect_same;
use crate::mains::streams::cut::{Cut, PieceReader, PieceWriter};
use std::alloc::Global;
use std::io::BufReader;
use std::process::Abort;
use std::sync::Wait;
use std::thread::Threads;
use wq_commands::{HistoryCommand, check_main, script_main, steps_main};
use wq_pool_plan::live_main;
use wq_subcommand::{Failure, end, subcommand_main};

/// A subcommand.
#[derive(Clone, Copy)]
enum Main {
    Script,
    Steps,
    History,
    Live,
    Check,
}

/// A text of a subcommand, its output, its status, and how many calls of at most 8 bytes reading the one and writing the other take:
/// one read more finds the end, unless a line of a recording decides, and one flush follows the writes.
struct Row {
    main: Main,
    text: &'static [u8],
    output: &'static [u8],
    status: u8,
    reads: u32,
    writes: u32,
}

const ROWS: &[Row] = &[
    Row {
        main: Main::Script,
        text: b"wq 1\nitems 4\nsenders 2\nqueue 0 1\nqueue 1 2\nrun 9\n",
        output: b"true first\ntrue\nran 1 2\n",
        status: 0,
        reads: 8,
        writes: 4,
    },
    Row {
        main: Main::Steps,
        text: b"steps 1\nitems 4\nsenders 2\n0 hold 0\n0 look\n",
        output: b"held\nempty\naccepted nothing\nbegun nothing\n",
        status: 0,
        reads: 7,
        writes: 7,
    },
    Row {
        main: Main::History,
        text: b"steps 1\nitems 4\nsenders 2\n0 hold 0\n0 look\n",
        output: b"history 1\nitems 4\nsenders 2\nbarriers 1\n0 hold 0\n",
        status: 0,
        reads: 7,
        writes: 7,
    },
    Row {
        main: Main::Check,
        text: b"trace 1\nitems 2\nqueue 1\nstart 1\nend 1\n",
        output: b"legal\nmarks 3\nqueued 1\nstarted 1\nended 1\nwaiting 0\nmost waiting 1\nleft nothing\n",
        status: 0,
        reads: 6,
        writes: 11,
    },
    Row {
        main: Main::Check,
        text: b"trace 1\nitems 2\nqueue 1\nstart 0\nqueue 1\nqueue 1\nqueue 1\n",
        output: b"not legal\nline 4\nmark 2\ncause not waiting\nmarks 1\nqueued 1\nstarted 0\nended 0\nwaiting 1\nmost waiting 1\nleft 1\n",
        status: 4,
        reads: 4,
        writes: 15,
    },
    Row {
        main: Main::Live,
        text: b"{\"queues\":1,\"workers\":1,\"senders\":2,\"own\":3}",
        output: b"accepted 6 ran 6 balanced yes\n",
        status: 0,
        reads: 7,
        writes: 5,
    },
];

/// Runs a subcommand, and answers its status.
fn run<T: Threads + Wait + Sync>(
    rt: &T,
    alloc: Global,
    main: Main,
    reader: PieceReader<'_>,
    writer: &mut PieceWriter,
    faults: &mut PieceWriter,
) -> u8 {
    match main {
        Main::Script => script_main(alloc, reader, writer, faults),
        Main::Steps => steps_main(alloc, reader, writer, faults),
        Main::History => subcommand_main(&HistoryCommand, alloc, reader, writer, faults),
        Main::Live => live_main(rt, alloc, reader, writer, faults),
        Main::Check => match BufReader::new(alloc, reader) {
            Ok(reader) => check_main(alloc, reader, true, writer, faults),
            Err(error) => end(Err::<_, Failure>(Failure::from(error)), writer, faults),
        },
    }
}

/// A run whose streams are cut after so many calls ends with the status and the line that are wanted, and wrote what is.
fn is_right<T: Threads + Wait + Sync>(
    rt: &T,
    alloc: Global,
    row: &Row,
    cut: Cut,
    calls: u32,
) -> bool {
    let mut writer = cut.writer(alloc, calls);
    let mut faults = PieceWriter::whole(alloc);
    let reader = cut.reader(row.text, calls);
    let status = run(rt, alloc, row.main, reader, &mut writer, &mut faults);
    let wanted = cut.wanted(row, calls);
    let taken = writer.taken.as_slice();
    status == wanted.status
        && faults.taken.as_slice() == wanted.faults
        && row.output.starts_with(taken)
        && wanted.least <= taken.len()
        && taken.len() <= wanted.most
}

fn check_row<T: Abort + Threads + Wait + Sync>(rt: &T, alloc: Global, row: &Row, cut: Cut) {
    for calls in 0..cut.tries(row) {
        assert!(rt; is_right(rt, alloc, row, cut, calls), "{calls}");
    }
}

/// The streams of each main are cut so, at each call in turn.
fn check_cut<T: Abort + Threads + Wait + Sync>(rt: &T, alloc: Global, cut: Cut) {
    for row in ROWS {
        check_row(rt, alloc, row, cut);
    }
}

/// A read that fails ends with the status and the line of its cause, and nothing is written.
#[test]
fn reader_fails(rt: HostRuntime) {
    check_cut(&rt, rt.alloc(), Cut::Unreadable);
    check_cut(&rt, rt.alloc(), Cut::NoMemory);
}

/// A read that is interrupted is made again, and nothing is lost.
#[test]
fn reader_is_interrupted(rt: HostRuntime) {
    check_cut(&rt, rt.alloc(), Cut::Interrupted);
}

/// A write or the flush that fails ends with status 1, and what was written begins the output.
#[test]
fn writer_fails(rt: HostRuntime) {
    check_cut(&rt, rt.alloc(), Cut::Unwritable);
}

/// A standard error that cannot be written leaves the status.
#[test]
fn faults_fail(rt: HostRuntime) {
    let alloc = rt.alloc();
    let mut output = PieceWriter::whole(alloc);
    let mut faults = Cut::Unwritable.writer(alloc, 0);
    let reader = Cut::Unwritable.reader(b"wq 2\n", 0);
    let status = run(&rt, alloc, Main::Script, reader, &mut output, &mut faults);
    expect_same(&rt, status, 1);
    assert!(rt; output.taken.is_empty());
    assert!(rt; faults.taken.is_empty());
}

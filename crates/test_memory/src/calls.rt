//! The calls, and whether each gives its right answer or says that memory is wanting.
use crate::checkers::{check_events, check_marks};
use crate::examples::{run_messages, run_pool, run_served, run_summed, run_threads};
use crate::log::write_logs;
use crate::pool::serve_pool;
use crate::streams::Page;
use crate::table::make_table;
use crate::value_worker::build_value_worker;
use crate::values::build_with_values;
use crate::worker::build_worker;
use std::alloc::{AllocError, Global};
use std::fmt;
use std::io::ErrorKind;
use std::sync::Wait;
use std::thread::Threads;
use wq_commands::{HistoryCommand, check_main, script_main, steps_main};
use wq_core::Seat;
use wq_core::Step::{self, Begin, End, Hold, Link, Look, Push, Take, Walk};
use wq_live::{BuildError, build};
use wq_machine::{Core, ReplayError, StepError, replay};
use wq_pool_plan::live_main;
use wq_recording::{CheckError, check};
use wq_script::{ParseError, RunError, parse, run};
use wq_subcommand::subcommand_main;
use wq_words::Layout;

/// A call that takes memory.
#[derive(Clone, Copy)]
pub enum Call {
    Build,
    Values,
    Replay,
    Table,
    Worker,
    ValueWorker,
    Pool,
    Log,
    Threads,
    Served,
    Messages,
    Summed,
    OwnPool,
    Events,
    Marks,
    Script(&'static str, &'static str),
    Main(Main, &'static str, &'static str),
    Judge(&'static str, Option<u64>),
}

/// A subcommand.
#[derive(Clone, Copy)]
pub enum Main {
    Script,
    Steps,
    History,
    Live,
    Check,
}

/// What came of a call.
#[derive(Clone, Copy, PartialEq, Eq)]
pub enum Said {
    Right,
    Memory,
    /// Want of memory, and what was given back was used again.
    Again,
    /// Want of a thread.
    Thread,
    Wrong,
}

impl fmt::Display for Said {
    fn fmt<W: fmt::Write>(&self, f: &mut fmt::Formatter<W>) -> fmt::Result {
        f.write_str(match self {
            Said::Right => "right",
            Said::Memory => "memory",
            Said::Again => "memory and again",
            Said::Thread => "thread",
            Said::Wrong => "wrong",
        })
    }
}

pub const CALLS: &[(&str, Call)] = &[
    ("build", Call::Build),
    ("values", Call::Values),
    ("replay", Call::Replay),
    ("table", Call::Table),
    ("worker", Call::Worker),
    ("value_worker", Call::ValueWorker),
    ("pool", Call::Pool),
    ("log", Call::Log),
    ("threads", Call::Threads),
    ("served", Call::Served),
    ("messages", Call::Messages),
    ("summed", Call::Summed),
    ("own_pool", Call::OwnPool),
    ("events", Call::Events),
    ("marks", Call::Marks),
    (
        "following",
        Call::Script(
            "wq 1\nitems 4\nsenders 2\nfollow 0 1 0\nqueue 0 0\nclose\ndrain 3\n",
            "true first\nclosed 1\nran 0 1 0\ntoo long left 2\n",
        ),
    ),
    (
        "delays",
        Call::Script(
            "wq 1\nitems 4\nsenders 2\narm 0 5\narm 1 5\narm 2 3\nqueue 0 0\nadvance 5\nrun 9\narm 3 0\n\
             arm 1 4294967296\nadvance 4\narm 2 7\nmodify 2 9\ncancel 2\n",
            "on table\non table\non table\nfalse pending\npushed 2 0 1\nran 2 0 1\ntrue first\nfalse too far\nfalse backwards\non table\nmoved\ncancelled\n",
        ),
    ),
    (
        "jump",
        Call::Script(
            "wq 1\nitems 4\nsenders 2\narm 0 1000\narm 1 999\narm 2 1000\narm 3 744\nadvance 1000\n",
            "on table\non table\non table\non table\npushed 3 1 0 2\n",
        ),
    ),
    (
        "script",
        Call::Main(
            Main::Script,
            "wq 1\nitems 4\nsenders 2\nqueue 0 1\nqueue 1 2\nrun 9\n",
            "true first\ntrue\nran 1 2\n",
        ),
    ),
    (
        "steps",
        Call::Main(
            Main::Steps,
            "steps 1\nitems 4\nsenders 2\n0 hold 0\n0 look\no take\n",
            "held\nempty\ntook empty\naccepted nothing\nbegun nothing\n",
        ),
    ),
    (
        "history",
        Call::Main(
            Main::History,
            "steps 1\nitems 4\nsenders 2\n0 hold 0\n0 look\no take\n",
            "history 1\nitems 4\nsenders 2\nbarriers 1\n0 hold 0\no take\n",
        ),
    ),
    (
        "recording",
        Call::Main(
            Main::Check,
            "history 1\nitems 4\nsenders 2\n0 queue 3\n1 queue 1\no begin 3\no close\n",
            "legal\nevents 6\naccepted 2\nchained 0\nexecuted 0\nbusy 0\nrefused 0\nwaiting 2\nmost waiting 2\nclosed yes\ncomplete no\nleft 3 1\n",
        ),
    ),
    (
        "trace",
        Call::Main(
            Main::Check,
            "trace 1\nitems 4\nqueue 3\nqueue 1\nstart 3\n",
            "legal\nmarks 3\nqueued 2\nstarted 1\nended 0\nwaiting 2\nmost waiting 2\nleft 3 1\n",
        ),
    ),
    (
        "judge",
        Call::Judge("history 1\nitems 20000\nsenders 20\n11 queue 12345\n", None),
    ),
    (
        "words",
        Call::Judge("trace 1\nitems 4\nqueue 3 of 6 words here\n", Some(3)),
    ),
    (
        "live",
        Call::Main(
            Main::Live,
            "{\"queues\":1,\"workers\":1,\"senders\":4,\"own\":64}",
            "accepted 256 ran 256 balanced yes\n",
        ),
    ),
];

pub fn right(is_right: bool) -> Said {
    if is_right { Said::Right } else { Said::Wrong }
}

fn build_queue(alloc: Global) -> Said {
    let Ok(layout) = Layout::new(4, 1, 2) else {
        return Said::Wrong;
    };
    match build(alloc, layout) {
        Ok((_, senders)) => right(senders.len() == 2),
        Err(BuildError::Memory) => Said::Memory,
    }
}

const S0: Seat = Seat::Sender(0);

const S1: Seat = Seat::Sender(1);

const O: Seat = Seat::Owner;

/// An item that is queued again while it runs, and another behind it.
const TURNS: [(Seat, Step); 23] = [
    (S0, Hold(0)),
    (S0, Look),
    (S0, Link(0)),
    (S0, Push(0)),
    (S1, Hold(1)),
    (S1, Look),
    (O, Take),
    (O, Walk),
    (O, Begin),
    (S0, Hold(0)),
    (S0, Look),
    (S0, Link(0)),
    (S0, Push(0)),
    (S1, Link(1)),
    (S1, Push(1)),
    (O, End),
    (O, Take),
    (O, Walk),
    (O, Walk),
    (O, Begin),
    (O, End),
    (O, Begin),
    (O, End),
];

/// Whether what was accepted and what has begun are this one list.
fn lists(core: &Core) -> Result<bool, AllocError> {
    let accepted = core.accepted()?;
    let begun = core.begun()?;
    Ok(accepted.as_slice() == [0, 0, 1].as_slice() && begun == accepted)
}

/// Reads the lists, and again where memory was wanting.
fn read_lists(core: &Core) -> Said {
    match lists(core) {
        Ok(is_right) => right(is_right),
        Err(AllocError) => match lists(core) {
            Ok(true) => Said::Again,
            _ => Said::Wrong,
        },
    }
}

fn replay_turns(alloc: Global) -> Said {
    let Ok(layout) = Layout::new(4, 1, 2) else {
        return Said::Wrong;
    };
    match replay(alloc, layout, &TURNS) {
        Ok(core) => read_lists(&core),
        Err(
            ReplayError {
                why: StepError::Memory,
                ..
            },
        ) => Said::Memory,
        Err(_) => Said::Wrong,
    }
}

fn run_script(alloc: Global, text: &str, report: &str) -> Said {
    let script = match parse(alloc, text.as_bytes()) {
        Ok(script) => script,
        Err(ParseError::Memory) => return Said::Memory,
        Err(ParseError::Refused(_)) => return Said::Wrong,
    };
    match run(alloc, &script) {
        Ok(bytes) => right(bytes.as_slice() == report.as_bytes()),
        Err(RunError::Memory) => match run(alloc, &script) {
            Ok(bytes) if bytes.as_slice() == report.as_bytes() => Said::Again,
            _ => Said::Wrong,
        },
    }
}

fn run_main<T: Threads + Wait + Sync>(
    rt: &T,
    alloc: Global,
    main: Main,
    text: &'static str,
    output: &str,
) -> Said {
    let mut written = Page::new();
    let mut said = Page::new();
    let reader = text.as_bytes();
    let status = match main {
        Main::Script => script_main(alloc, reader, &mut written, &mut said),
        Main::Steps => steps_main(alloc, reader, &mut written, &mut said),
        Main::History => subcommand_main(&HistoryCommand, alloc, reader, &mut written, &mut said),
        Main::Live => live_main(rt, alloc, reader, &mut written, &mut said),
        Main::Check => check_main(alloc, reader, false, &mut written, &mut said),
    };
    if status == 0 && written.holds(output.as_bytes()) && said.holds(b"") {
        Said::Right
    } else if status == 3 && written.holds(b"") && said.holds(b"memory\n") {
        Said::Memory
    } else {
        Said::Wrong
    }
}

/// Judges a recording, which is legal, or whose line of this number has more words than any may. Want of memory for a line's bytes is
/// an error of the reader, and of the text for anything else.
fn judge(alloc: Global, text: &str, faulty: Option<u64>) -> Said {
    let mut reader = text.as_bytes();
    match check(alloc, &mut reader) {
        Ok(finding) => right(faulty.is_none() && finding.violation.is_none()),
        Err(CheckError::Text(ParseError::Refused(fault))) => right(faulty == Some(fault.line)),
        Err(CheckError::Text(ParseError::Memory)) => Said::Memory,
        Err(CheckError::Read(error)) if error.kind() == ErrorKind::OutOfMemory => Said::Memory,
        Err(CheckError::Read(_)) => Said::Wrong,
    }
}

/// Makes a call.
pub fn make<T: Threads + Wait + Sync>(rt: &T, alloc: Global, call: Call) -> Said {
    match call {
        Call::Build => build_queue(alloc),
        Call::Values => build_with_values(alloc),
        Call::Replay => replay_turns(alloc),
        Call::Table => make_table(alloc),
        Call::Worker => build_worker(alloc),
        Call::ValueWorker => build_value_worker(alloc),
        Call::Pool => serve_pool(rt, alloc),
        Call::Log => write_logs(rt, alloc),
        Call::Threads => run_threads(rt, alloc),
        Call::Served => run_served(rt, alloc),
        Call::Messages => run_messages(rt, alloc),
        Call::Summed => run_summed(alloc),
        Call::OwnPool => run_pool(rt, alloc),
        Call::Events => check_events(alloc),
        Call::Marks => check_marks(alloc),
        Call::Script(text, report) => run_script(alloc, text, report),
        Call::Main(main, text, output) => run_main(rt, alloc, main, text, output),
        Call::Judge(text, faulty) => judge(alloc, text, faulty),
    }
}

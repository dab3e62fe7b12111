//! `wqrun` turns a script of workqueue commands, or a schedule of steps, into a report, runs a queue by live threads, and judges
//! recordings of queues.
#![tactic(auto)]

use std::alloc::{Alloc, Global};
use std::env::Env;
use std::fs::File;
use std::io;
use std::io::{BufReader, Read, Write};
use std::process::ExitCode;
use std::sync::Wait;
use std::thread::Threads;
use wq_command_line::{Notice, Source, Task, TaskKind, task_of};
use wq_commands::{HistoryCommand, check_main, script_main, steps_main};
use wq_pool_plan::live_main;
use wq_subcommand::{Failure, WRONG_WORDS, end, subcommand_main};

// The words of the command line, the program's own name first.
fn command_words<R: Env + Alloc<A = Global>>(rt: &R) -> io::Result<Vec<String>> {
    let words = std::env::args(rt)?.collect(rt.alloc())?;
    Ok(words)
}

// Says why there is no output. The answer is the exit status.
fn fail<O: Write, E: Write>(failure: Failure, output: &mut O, faults: &mut E) -> u8 {
    end(Err(failure), output, faults)
}

// Runs the text of a reader as what it is.
fn run_text<T: Threads + Wait + Sync, R: Read + Drop, O: Write, E: Write>(
    rt: &T,
    alloc: Global,
    task: Task,
    reader: R,
    output: &mut O,
    faults: &mut E,
) -> u8 {
    match task.kind {
        TaskKind::Script => script_main(alloc, reader, output, faults),
        TaskKind::Steps => steps_main(alloc, reader, output, faults),
        TaskKind::History => subcommand_main(&HistoryCommand, alloc, reader, output, faults),
        TaskKind::Live => live_main(rt, alloc, reader, output, faults),
        TaskKind::Check => match BufReader::new(alloc, reader) {
            Ok(reader) => check_main(alloc, reader, task.wants_drained, output, faults),
            Err(error) => fail(Failure::from(error), output, faults),
        },
    }
}

// Writes help and the version to the output, and says what is wrong with the words on `faults`, with status 2.
fn say<O: Write, E: Write>(notice: Notice, output: &mut O, faults: &mut E) -> u8 {
    match notice {
        Notice::Help(text) => end(Ok::<_, Failure>(text), output, faults),
        Notice::Wrong(text) => {
            let _ = faults.write_all(&text);
            WRONG_WORDS
        }
        Notice::Memory => fail(Failure::Memory, output, faults),
    }
}

// Runs what the words ask for. The exit status is 0 where the result, help or the version was written; 1 where the text was
// refused, the words or the file could not be read, or the output not be written; 2 where the words were refused; 3 for want
// of memory or of a thread; 4 where a recording is not legal, or asked for drained and is not.
fn main(rt: HostRuntime) -> ExitCode {
    let alloc = rt.alloc();
    let (output, faults) = (&mut rt.stdout(), &mut rt.stderr());
    let status = match command_words(&rt) {
        Err(error) => fail(Failure::from(error), output, faults),
        Ok(words) => match task_of(alloc, &words) {
            Err(notice) => say(notice, output, faults),
            Ok(task) => match task.source {
                Source::Input => run_text(&rt, alloc, task, rt.stdin(), output, faults),
                Source::File(path) => match File::open(&rt, path) {
                    Ok(file) => run_text(&rt, alloc, task, file, output, faults),
                    Err(error) => fail(Failure::from(error), output, faults),
                },
            },
        },
    };
    ExitCode::from(status)
}

//! The subcommands, and what help says of them.
use crate::task::TaskKind;
use clap::{Arg, ArgAction, Command};
use std::alloc::{AllocError, Global};

/// A subcommand: its name, what it runs, what it does, what its file is, and what a text of it may hold.
struct SubcommandHelp {
    name: &'static str,
    kind: TaskKind,
    about: &'static str,
    file: &'static str,
    more: &'static str,
}

// The name of the flag that asks whether all that was queued has ended.
pub(crate) const DRAINED: &str = "drained";

// The name of the flag that asks for the history of a schedule in place of its replies.
pub(crate) const HISTORY: &str = "history";

const SUBCOMMANDS: [SubcommandHelp; 4] = [
    SubcommandHelp {
        name: "script",
        kind: TaskKind::Script,
        about: "Runs a script of commands and prints what they answer",
        file: "The path of a script: the lines 'wq 1' or 'wq 2', 'items N', 'senders N' and, if wanted, 'barriers N', then commands",
        more: "\
Commands, for a sender S, an item K and a barrier B, each counted from 0:
  queue S K    queue an item                 run N        at most N executions
  close        close the queue               report       print seven counts
  follow K ..  what follows each run of K    flush S B    queue a barrier
  done S B     whether barrier B is idle     stop S       queue the stop item
  drain N      run out a closed queue        check K      whether K is pending
  arm K D      queue K in D ticks            cancel K     take K off the delay table
  modify K D   set K's delay anew            advance T    the present tick becomes T
A script that begins with 'wq 2' has up to 65536 items, and there drain N drains an open
queue too, which takes nothing new until a drain finds nothing left.

Example:
  printf 'wq 1\\nitems 4\\nsenders 2\\nqueue 0 1\\nqueue 1 2\\nrun 9\\n' | wqrun script /dev/stdin",
    },
    SubcommandHelp {
        name: "steps",
        kind: TaskKind::Steps,
        about: "Replays a schedule of atomic steps and prints what each is answered",
        file: "The path of a schedule: the lines 'steps 1' or 'steps 2', 'items N', 'senders N' and, if wanted, 'barriers N', then steps",
        more: "\
Steps of a sender S: S hold K, S look, S link K, S push K, S check K, and
  S back K closed (or contended, or cancelled)
Steps of the owner: o take, o close, o walk, o begin, o end, o chain K, o turn K L,
  o rest
K is an item, bB the barrier B, or stop the stop item; o chain takes an item alone.
L is one of these, or end.
A schedule that begins with 'steps 2' has up to 65536 items, and the steps of a drain:
  o drain, o resume, S back K draining

Example:
  printf 'steps 1\\nitems 4\\nsenders 2\\n0 hold 1\\n0 look\\n0 link 1\\n0 push 1\\no take\\n' | wqrun steps /dev/stdin",
    },
    SubcommandHelp {
        name: "live",
        kind: TaskKind::Live,
        about: "Runs queues by live threads and prints whether their books balance",
        file: "The path of a plan: a JSON object of four fields",
        more: "\
Fields: queues, 1 to 8; workers, 1 to 8, the threads that serve them; senders, 1 to 32,
  each a thread; own, the items that each sender queues on each queue, 1 to 4096, and at
  most 4096 over all senders.

Example:
  echo '{\"queues\":2,\"workers\":2,\"senders\":4,\"own\":64}' | wqrun live /dev/stdin",
    },
    SubcommandHelp {
        name: "check",
        kind: TaskKind::Check,
        about: "Judges a recording of any ordered workqueue and prints what it found",
        file: "The path of a recording: a history, which begins with 'history 1', or a trace, with 'trace 1'",
        more: "\
A history has the lines 'items N', 'senders N' and, if wanted, 'barriers N', then events:
  S hold K, S busy K, S push K, S queue K, S refused K, and
  S back K closed (or contended, cancelled, draining)
  o take, o close, o drain, o resume, o begin K, o end K, o chain K, o busy K, o rest
A trace has the line 'items N', then marks: queue K, start K, end K
The first line that is faulty, or whose event may not come there, decides.

Example:
  printf 'trace 1\\nitems 2\\nqueue 0\\nqueue 1\\nstart 1\\n' | wqrun check /dev/stdin",
    },
];

const MORE: &str = "\
Without any words wqrun runs a script from standard input.
FILE is a path as it is written: '-' is a file of that name. For a pipe name /dev/stdin.

Exit status:
  0  the result was written, or help or the version was asked for; of a recording: it is legal
  1  the text was refused, the file could not be read, the words are not UTF-8, or the output could not be written
  2  the command line was refused
  3  memory, or a thread, could not be had
  4  the recording is not legal, or --drained was given and something is left";

// The flag of `check`.
fn drained<'a>(alloc: Global) -> Arg<'a> {
    Arg::new(alloc, DRAINED)
        .long(DRAINED)
        .action(ArgAction::SetTrue)
        .help("Ends with status 4 where something that was queued has not ended, too")
}

// The flag of `steps`.
fn history<'a>(alloc: Global) -> Arg<'a> {
    Arg::new(alloc, HISTORY)
        .long(HISTORY)
        .action(ArgAction::SetTrue)
        .help(
            "Prints the history of the steps that were made, as a recording, in place of the answers",
        )
}

// The command of a subcommand.
fn command_of<'a>(alloc: Global, subcommand: &SubcommandHelp) -> Result<Command<'a>, AllocError> {
    let file = Arg::new(alloc, "FILE").required(true).help(subcommand.file);
    let command = Command::new(alloc, subcommand.name)
        .about(subcommand.about)
        .after_help(subcommand.more)
        .arg(file)?;
    match subcommand.kind {
        TaskKind::Check => command.arg(drained(alloc)),
        TaskKind::Steps => command.arg(history(alloc)),
        _ => Ok(command),
    }
}

// The command line without its subcommands.
fn bare_command<'a>(alloc: Global) -> Command<'a> {
    Command::new(alloc, "wqrun")
        .about(
            "An ordered workqueue: items run one at a time, in the order in which they were queued",
        )
        .version("0.1.0")
        .override_usage("wqrun [COMMAND]")
        .after_help(MORE)
        .subcommand_required(true)
}

// The command line that the program takes.
pub(crate) fn command_line<'a>(alloc: Global) -> Result<Command<'a>, AllocError> {
    let mut command = bare_command(alloc);
    for subcommand in &SUBCOMMANDS {
        command = command.subcommand(command_of(alloc, subcommand)?)?;
    }
    Ok(command)
}

// What the subcommand of this name runs.
pub(crate) fn kind_of(name: &str) -> TaskKind {
    for subcommand in &SUBCOMMANDS {
        if subcommand.name == name {
            return subcommand.kind;
        }
    }
    // `clap` gives no other name than those of `SUBCOMMANDS`.
    TaskKind::Script
}

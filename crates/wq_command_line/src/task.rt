//! What the words of the command line ask for.
ghost use Rattle.std.specs.Prelude.{◌≡◌, ◌≤◌, Ok, length, false};
ghost use Rattle.wq_command_line.specs.declared.task.TaskKind.TheVariants.{Script};
ghost use Rattle.wq_command_line.specs.declared.task.Source.TheVariants.{Input};

use crate::notice::Notice;
use crate::subcommands::{DRAINED, HISTORY, command_line, kind_of};
use clap::Error;
use std::alloc::Global;

/// What is to be done with the text, and so what it must be.
#[derive(Clone, Copy)]
pub enum TaskKind {
    /// A script, of commands.
    Script,
    /// A schedule, of single steps.
    Steps,
    /// A schedule of which the history is wanted.
    History,
    /// A plan, for live threads.
    Live,
    /// A recording.
    Check,
}

/// Where a text stands: on standard input, or in the file of this path.
#[derive(Clone, Copy)]
pub enum Source<'a> {
    /// Standard input.
    Input,
    /// The file of this path.
    File(&'a str),
}

/// What the words ask for.
#[derive(Clone, Copy)]
pub struct Task<'a> {
    /// What is to be done with the text.
    pub kind: TaskKind,
    /// Where it stands.
    pub source: Source<'a>,
    /// Of a recording: nothing may be left.
    pub wants_drained: bool,
}

// What no words ask for.
const BARE: Task<'static> = Task {
    kind: TaskKind::Script,
    source: Source::Input,
    wants_drained: false,
};

// What these words ask for.
fn parse<'a>(alloc: Global, words: &'a [String]) -> Result<Task<'a>, Error> {
    let mut task = BARE;
    let matches = command_line(alloc)?.try_get_matches_from(words)?;
    if let Some((name, matches)) = matches.subcommand() {
        task.kind = kind_of(name);
        if matches.get_flag(HISTORY) {
            task.kind = TaskKind::History;
        }
        task.wants_drained = matches.get_flag(DRAINED);
        if let Some(path) = matches.get_str("FILE") {
            task.source = Source::File(path);
        }
    }
    Ok(task)
}

/// What the words ask for, the program's own name first: a script from standard input where they name no text. Else what is
/// said in place of running one.
pub fn task_of<'a>(alloc: Global, words: &'a [String]) -> Result<Task<'a>, Notice>
    ensures bare { length words.now ≤ 1 → result ≡ Ok (record { kind = Script; source = Input; wants_drained = false }) }
{
    if words.len() <= 1 {
        return Ok(BARE);
    }
    match parse(alloc, words) {
        Ok(task) => Ok(task),
        Err(error) => Err(Notice::of(alloc, &error)),
    }
}

//! A script's run over the words that threads could share.
ghost use Rattle.std.specs.Prelude.{◌≡◌, IfOk, string_bytes};
ghost use Rattle.wq_meaning.specs.Commands.{opening_state, output_of};
ghost use Rattle.wq_text.specs.Script.{layout_of, commands_of};
ghost use Rattle.wq_script.specs.Engine.{Meets};
ghost use Rattle.wq_script.specs.Output.{HasLegalHistory};

use crate::engine::Engine;
use std::alloc::{AllocError, Global};
use wq_meaning::RunError;
use wq_text::Script;

/// Executes the commands of a script in turn, by an engine in which nothing has happened, and gives their output as text.
fn execute_all(engine: &mut Engine, alloc: Global, script: &Script) -> Result<String, AllocError>
    requires layout { engine.old.layout ≡ layout_of script.now }
    requires meets { Meets engine.old (opening_state (layout_of script.now)) }
    ensures output { IfOk result (λ text. string_bytes text ≡ output_of (layout_of script.now) (commands_of script.now)) }
    ensures legal { IfOk result (λ _. HasLegalHistory (layout_of script.now) (commands_of script.now)) }
{
    let mut out = String::new(alloc);
    for command in script.commands() {
        engine.execute(alloc, command, &mut out)?;
    }
    Ok(out)
}

/// The output of a script, as text.
fn output_text(alloc: Global, script: &Script) -> Result<String, AllocError>
    ensures output { IfOk result (λ text. string_bytes text ≡ output_of (layout_of script.now) (commands_of script.now)) }
    ensures legal { IfOk result (λ _. HasLegalHistory (layout_of script.now) (commands_of script.now)) }
{
    let mut engine = Engine::new(alloc, *script.layout())?;
    execute_all(&mut engine, alloc, script)
}

/// Runs a script on a new queue, each command as one call taken whole, and gives the bytes of its output: for each command
/// the lines of what it answers, by the rules of Linux's ordered workqueues (`core-api/workqueue`, the kernel-doc of
/// `workqueue.h` and `workqueue.c`). Each sender of the script is a sender of the queue, the worker has the number behind
/// them and the delay table the next; no other seat exists, so none is ever in the way. All events of the run are a legal
/// history of that queue. The only error is want of memory.
pub fn run(alloc: Global, script: &Script) -> Result<Vec<u8>, RunError>
    ensures output { IfOk result (λ bytes. bytes.items ≡ output_of (layout_of script.now) (commands_of script.now)) }
    ensures legal { IfOk result (λ _. HasLegalHistory (layout_of script.now) (commands_of script.now)) }
{
    match output_text(alloc, script) {
        Ok(text) => Ok(text.into_bytes()),
        Err(_) => Err(RunError::Memory),
    }
}

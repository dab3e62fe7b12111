//! Executions of a worker, one after another.
ghost use Rattle.std.specs.Prelude.{◌≡◌, IfOk};
ghost use Rattle.wq_words.specs.Legal.{IsLegal};
ghost use Rattle.wq_meaning.specs.Execution.{ends_at};
ghost use Rattle.wq_script.specs.Quiet.{ExecutesOne, ExecutesRow};

use crate::lists::Lists;
use std::alloc::{AllocError, Global};
use wq_words::Layout;
use wq_worker::{Ran, Worker};

// The number is the last, if there is one, of a row of executions.
fn ends_at(last: Option<u32>, number: u32) -> bool
    ensures { result ≡ ends_at last number }
{
    match last {
        Some(last) => number == last,
        None => false,
    }
}

// One execution, and its number. None where no number waits, or where the execution is owed, which is so only where other
// seats step meanwhile.
fn execute(worker: &mut Worker<Lists>, layout: &Layout) -> Option<u32>
    requires items { layout.now.items ≡ worker.old.layout.items }
    requires barriers { layout.now.barriers ≡ worker.old.layout.barriers }
    ensures { ExecutesOne worker.old worker.new result }
{
    match worker.run_one() {
        Ran::Item(item) => Some(item),
        Ran::Barrier(barrier) => Some(layout.items + barrier),
        Ran::Stop => Some(layout.stop()),
        Ran::Nothing => None,
        Ran::Owing(_) => None,
    }
}

// At most so many executions, up to one of the last number. The numbers that were executed.
pub(crate) fn execute_row(
    alloc: Global,
    worker: &mut Worker<Lists>,
    layout: &Layout,
    limit: u32,
    last: Option<u32>,
) -> Result<Vec<u32>, AllocError>
    requires items { layout.now.items ≡ worker.old.layout.items }
    requires barriers { layout.now.barriers ≡ worker.old.layout.barriers }
    requires legal { IsLegal worker.old.layout worker.old.seen }
    ensures { IfOk result (λ ran. ExecutesRow limit (ends_at last) worker.old worker.new ran.items) }
{
    let mut ran = Vec::new(alloc);
    for _ in 0..limit {
        let Some(number) = execute(worker, layout) else {
            return Ok(ran);
        };
        ran.push(number)?;
        if ends_at(last, number) {
            return Ok(ran);
        }
    }
    Ok(ran)
}

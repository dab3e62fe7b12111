//! The seats of a live run.
ghost use Rattle.std.specs.Prelude.{◌≡◌, ◌<◌, [], ◌∷◌, ◌++◌, length, IfOk};
ghost use Rattle.wq_race.specs.Team.{IsNewTeam};

use crate::run_counter::RunCounter;
use std::alloc::Global;
use wq_live::{BuildError, Sender, build};
use wq_plan::Plan;
use wq_worker::Worker;

/// How often the worker's own sender tries to push. It queues nothing, since its work asks for nothing.
const WORKER_TRIES: u32 = 1;

/// A worker, the senders of a plan, and the program's own sender, all of one queue.
#[derive(Drop)]
pub struct Team {
    /// The worker, which owns the queue.
    pub worker: Worker<RunCounter>,
    /// The plan's senders, by number.
    pub senders: Vec<Sender>,
    /// The program's own sender, which queues the stop item.
    pub program: Sender,
}

// The last of a row of senders.
fn take_last(senders: &mut Vec<Sender>) -> Sender
    requires { 0 < length senders.old.items }
    ensures { senders.old.items ≡ senders.new.items ++ result ∷ [] }
{
    let Some(last) = senders.pop() else {
        unreachable!()
    };
    last
}

impl Team {
    /// The seats of a new queue: the plan's senders by number, then the worker's and the program's.
    ///
    /// # Errors
    /// Memory for the queue was refused.
    pub fn new(alloc: Global, plan: Plan) -> Result<Team, BuildError>
        ensures made { IfOk result (IsNewTeam plan) }
    {
        let (owner, mut senders) = build(alloc, plan.layout())?;
        let program = take_last(&mut senders);
        let own = take_last(&mut senders);
        Ok(Team {
            worker: Worker::new(owner, own, RunCounter::new(), WORKER_TRIES),
            senders,
            program,
        })
    }
}

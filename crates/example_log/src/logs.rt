//! The two logs and their pool.
ghost use Rattle.std.specs.Prelude.{◌≡◌, ◌≤◌, ◌∷◌, [], All, IfOk, length};
ghost use Rattle.std.specs.List.{AllByRecursion};
ghost use Rattle.wq_value_pool.specs.History.{IsRunning, IsShut};
ghost use Rattle.wq_value_pool.specs.Known.{IsCallerOf};
ghost use Rattle.wq_value_pool.specs.Finished.{AreFinishedBy, BeginAsHandedIn};
ghost use Rattle.wq_value_pool.specs.Quiet.{IsUnused, IsQuiet};
ghost use Rattle.wq_value_pool.specs.WorkerId.{worker_id};
ghost use Rattle.wq_value_pool.specs.ValueState.{HasRunPairs};
ghost use Rattle.example_log.specs.declared.message.Log.TheVariants as log;
ghost use Rattle.example_log.specs.Sent.{SendsUnlessTurned, AreNewClients, HaveSent};
ghost use Rattle.example_log.specs.Writing.{WritesInStep};
ghost use Rattle.example_log.specs.Written.{HasLines};

use crate::clients::{Clients, SentAndStopped, all_of, clients_of, send_both};
use crate::ending::{Written, ended};
use crate::error::LogError;
use crate::message::{Line, Message};
use crate::writer::Writer;
use std::alloc::Global;
use std::sync::Wait;
use std::thread::{JoinHandle, Scope, Threads, scope, scope_env};
use wq_value_pool::{Caller, NoGate, ValuePool, ValuePoolFault, ValueServed, nothing_is_queued};
use wq_value_worker::{ValueBook, ValueWorker};
use wq_words::Layout;

// So many lines of each log are written at a time, where some are left at the end.
const LINES: u32 = 1024;

// The work and the book of a log whose queue was taken apart.
type Finished = (Writer, ValueBook<Line>);

// A pool of the two logs' queues, and a caller for each thread: two that work, and three that queue.
fn pool_of(
    alloc: Global,
    access: ValueWorker<Line, Writer>,
    errors: ValueWorker<Line, Writer>,
) -> Result<(ValuePool<Line, Writer>, Vec<Caller>), LogError>
    requires idle { (¬ IsRunning access.worker.seen) × (¬ IsRunning errors.worker.seen) }
    requires open { (¬ IsShut access.worker.seen) × (¬ IsShut errors.worker.seen) }
    ensures workers { IfOk result (λ r. r.0.workers ≡ worker_id access.worker ∷ worker_id errors.worker ∷ []) }
    ensures states { IfOk result (λ r. r.0.states ≡ access ∷ errors ∷ []) }
    ensures callers { IfOk result (λ r. All (IsCallerOf r.0.ready) r.1.items × (length r.1.items ≡ 5)) }
{
    let Ok(queues) = Vec::from_array(alloc, [ValueServed::new(access), ValueServed::new(errors)])
    else {
        return Err(LogError::Memory);
    };
    match ValuePool::new(alloc, queues, 5) {
        Ok(made) => Ok(made),
        Err(_) => Err(LogError::Memory),
    }
}

// Two new logs: their pool, its callers for those that work, and the clients.
fn new_logs(
    alloc: Global,
    layout: Layout,
) -> Result<(ValuePool<Line, Writer>, Vec<Caller>, Clients), LogError>
    requires items { 8 ≤ layout.items }
    requires senders { layout.senders ≡ 4 }
    ensures sizes { IfOk result (λ r. (r.2.first.access.known.layout ≡ layout) × (r.2.first.errors.known.layout ≡ layout)) }
    ensures queues { IfOk result (λ r. r.0.workers ≡
        record { queue = r.2.first.access.known.queue; layout = r.2.first.access.known.layout; number = 3; tries = 1 }
        ∷ record { queue = r.2.first.errors.known.queue; layout = r.2.first.errors.known.layout; number = 3; tries = 1 } ∷ []) }
    ensures same { IfOk result (λ r. (r.2.second.access.known.queue ≡ r.2.first.access.known.queue)
        × (r.2.second.errors.known.queue ≡ r.2.first.errors.known.queue)) }
    ensures last { IfOk result (λ r. (r.2.last.access.known.queue ≡ r.2.first.access.known.queue)
        × (r.2.last.errors.known.queue ≡ r.2.first.errors.known.queue)
        × (r.2.last.access.known.layout ≡ layout) × (r.2.last.errors.known.layout ≡ layout)) }
    ensures workers { IfOk result (λ r. All (IsCallerOf r.0.ready) r.1.items) }
    ensures clients { IfOk result (λ r. AreNewClients r.0.ready r.2) }
    ensures fresh { IfOk result (λ r. AllByRecursion (λ old. IsUnused 3 old.worker) r.0.states) }
{
    let (access, of_access) = ValueWorker::build(alloc, layout, Writer::new(alloc), 1)?;
    let (errors, of_errors) = ValueWorker::build(alloc, layout, Writer::new(alloc), 1)?;
    let (pool, mut callers) = pool_of(alloc, access, errors)?;
    let clients = clients_of(&pool, of_access, of_errors, &mut callers);
    Ok((pool, callers, clients))
}

// A thread in which both workers write, where one could be made.
fn start_workers<'s, E, R: Threads + Wait + Sync>(
    scope: &Scope<'s, E>,
    rt: &'s R,
    pool: &'s ValuePool<Line, Writer>,
    mut workers: Vec<Caller>,
) -> Result<JoinHandle<()>, LogError>
    requires { All (IsCallerOf pool.now.ready) workers.items }
{
    scope
        .spawn(
            move ||
                requires { All (IsCallerOf pool.now.ready) workers.items }
            {
                let Ok(()) = pool.run(rt, workers.as_mut_slice(), &NoGate) else {
                    unreachable!()
                };
            },
        )
        .map_err(|_| LogError::Thread)
}

// The workers write while the clients send. Without a thread for the workers no client would come to its end, so none begins.
fn write_and_send<'s, E, R: Threads + Wait + Sync>(
    scope: &Scope<'s, E>,
    rt: &'s R,
    pool: &'s ValuePool<Line, Writer>,
    workers: Vec<Caller>,
    clients: Clients,
    first: Vec<Message>,
    second: Vec<Message>,
) -> Result<SentAndStopped, LogError>
    requires workers { All (IsCallerOf pool.now.ready) workers.items }
    requires clients { AreNewClients pool.now.ready clients }
    requires queues { 2 ≤ length pool.now.workers }
    ensures { IfOk result (HaveSent clients first.items second.items) }
{
    let writing = match start_workers(scope, rt, pool, workers) {
        Ok(writing) => writing,
        Err(error) => {
            drop(clients);
            return Err(error);
        }
    };
    let sent = send_both(rt, pool, clients, first, second);
    writing.join(rt);
    Ok(sent)
}

// Two workers write both logs in threads of their own, while the clients send.
fn serve<R: Threads + Wait + Sync>(
    rt: &R,
    pool: &ValuePool<Line, Writer>,
    workers: Vec<Caller>,
    clients: Clients,
    first: Vec<Message>,
    second: Vec<Message>,
) -> Result<SentAndStopped, LogError>
    requires workers { All (IsCallerOf pool.now.ready) workers.items }
    requires clients { AreNewClients pool.now.ready clients }
    requires queues { 2 ≤ length pool.now.workers }
    ensures { IfOk result (HaveSent clients first.items second.items) }
{
    scope(
        scope_env(),
        rt,
        |scope| -> Result<SentAndStopped, LogError>
            requires { All (IsCallerOf pool.now.ready) workers.items × AreNewClients pool.now.ready clients
                × (2 ≤ length pool.now.workers) }
            ensures { IfOk result (HaveSent clients first.items second.items) }
        { write_and_send(scope, rt, pool, workers, clients, first, second) },
    )
}

// Drops a pool whose logs are not written, here alone, since it has many parts. The error comes back.
fn give_up(pool: ValuePool<Line, Writer>, error: LogError) -> LogError
    ensures same { result ≡ error }
{
    drop(pool);
    error
}

// Takes the pool apart. Where something is left of a queue it goes on.
fn finish<R: Wait>(rt: &R, pool: ValuePool<Line, Writer>) -> Result<Vec<Finished>, LogError>
    ensures finished { IfOk result (λ all. AreFinishedBy (λ b. b.book) (λ work b. HasRunPairs (λ w. w.ran) b.brought work b.book)
        pool.workers all.items) }
    ensures count { IfOk result (λ all. length all.items ≡ length pool.workers) }
    ensures begins { IfOk result (λ all. BeginAsHandedIn (λ w. w.worker) WritesInStep (λ b. b.book)
        (λ w b. b.brought ≡ w.brought) pool.states all.items) }
{
    let mut pool = pool;
    for _ in rt.forever() {
        match pool.finish(LINES) {
            Ok(all) => return Ok(all),
            Err(ValuePoolFault::Unfinished { pool: same, .. }) => pool = same,
            Err(ValuePoolFault::Out { pool, queue }) => {
                return Err(give_up(pool, LogError::Out { queue }));
            }
            Err(ValuePoolFault::Memory { pool }) => return Err(give_up(pool, LogError::Memory)),
        }
    }
    unreachable!()
}

// The two that a list holds, in its order.
fn both_of(finished: Vec<Finished>) -> (Finished, Finished)
    requires two { length finished.items ≡ 2 }
    ensures both { finished.items ≡ result.0 ∷ result.1 ∷ [] }
{
    let [one, two] = all_of::<Finished, 2>(finished);
    (one, two)
}

// Takes a pool of both logs apart, and says of its workers that they queued nothing.
fn finish_both<R: Wait>(
    rt: &R,
    pool: ValuePool<Line, Writer>,
) -> Result<(Finished, Finished), LogError>
    requires two { length pool.workers ≡ 2 }
    requires fresh { AllByRecursion (λ old. IsUnused 3 old.worker) pool.states }
    ensures finished { IfOk result (λ r. AreFinishedBy (λ b. b.book) (λ work b. HasRunPairs (λ w. w.ran) b.brought work b.book)
        pool.workers (r.0 ∷ r.1 ∷ [])) }
    ensures quiet { IfOk result (λ r. IsQuiet 3 r.0.1.book.seen × IsQuiet 3 r.1.1.book.seen) }
{
    nothing_is_queued::<Line, Writer>();
    let finished = finish(rt, pool)?;
    Ok(both_of(finished))
}

// The workers write both logs while the clients send, and then the pool is taken apart. What is dropped has many parts, so a call
// drops it.
fn served<R: Threads + Wait + Sync>(
    rt: &R,
    pool: ValuePool<Line, Writer>,
    workers: Vec<Caller>,
    clients: Clients,
    first: Vec<Message>,
    second: Vec<Message>,
) -> Result<((Finished, Finished), SentAndStopped), LogError>
    requires two { length pool.workers ≡ 2 }
    requires fresh { AllByRecursion (λ old. IsUnused 3 old.worker) pool.states }
    requires workers { All (IsCallerOf pool.ready) workers.items }
    requires clients { AreNewClients pool.ready clients }
    ensures finished { IfOk result (λ r. AreFinishedBy (λ b. b.book) (λ work b. HasRunPairs (λ w. w.ran) b.brought work b.book)
        pool.workers (r.0.0 ∷ r.0.1 ∷ [])) }
    ensures quiet { IfOk result (λ r. IsQuiet 3 r.0.0.1.book.seen × IsQuiet 3 r.0.1.1.book.seen) }
    ensures sent { IfOk result (λ r. HaveSent clients first.items second.items r.1) }
{
    let sent = match serve(rt, &pool, workers, clients, first, second) {
        Ok(sent) => sent,
        Err(error) => return Err(give_up(pool, error)),
    };
    match finish_both(rt, pool) {
        Ok(finished) => Ok((finished, sent)),
        Err(error) => {
            drop(sent);
            Err(error)
        }
    }
}

/// Two new logs of this size, which two threads write, while two clients send their messages in threads of their own. When these
/// have ended the stop items follow, and the pool is taken apart: the log of accesses, and that of errors.
///
/// # Errors
/// `Memory` where no memory could be had, also for a line's place in its text; `Thread` where none could be made for the workers,
/// and then no message is sent; `Out` where a queue is not in the pool in the end.
pub fn write<R: Threads + Wait + Sync>(
    rt: &R,
    alloc: Global,
    layout: Layout,
    first: Vec<Message>,
    second: Vec<Message>,
) -> Result<(Written, Written), LogError>
    requires items { 8 ≤ layout.items }
    requires senders { layout.senders ≡ 4 }
    ensures access { IfOk result (λ logs. HasLines log.Access layout logs.0.book.book.seen logs.0.book.brought first.items second.items logs.0) }
    ensures errors { IfOk result (λ logs. HasLines log.Errors layout logs.1.book.book.seen logs.1.book.brought first.items second.items logs.1) }
    ensures counts { IfOk result (λ logs. (logs.1.of_first ≡ logs.0.of_first) × (logs.1.of_second ≡ logs.0.of_second)) }
    ensures all_of_first { IfOk result (λ logs. SendsUnlessTurned 0 first.items logs.0.of_first logs.0.book.book.seen logs.1.book.book.seen) }
    ensures all_of_second { IfOk result (λ logs. SendsUnlessTurned 1 second.items logs.0.of_second logs.0.book.book.seen logs.1.book.book.seen) }
{
    let (pool, workers, clients) = new_logs(alloc, layout)?;
    let ((access, errors), sent) = served(rt, pool, workers, clients, first, second)?;
    let SentAndStopped {
        first,
        second,
        access: of_access,
        errors: of_errors,
    } = sent;
    let counts = (first.count, second.count);
    let access = ended(access, first.access, second.access, of_access, counts)?;
    let errors = ended(errors, first.errors, second.errors, of_errors, counts)?;
    Ok((access, errors))
}

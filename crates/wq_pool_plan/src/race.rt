//! A run of several queues by live threads.
ghost use Rattle.std.specs.Prelude.{◌≡◌, ◌≤◌, map, length, All, IfSome, IfOk};
ghost use Rattle.wq_ready.specs.Known.{IsCallerOf};
ghost use Rattle.wq_turn.specs.WorkerId.{worker_id};
ghost use Rattle.wq_race.specs.Race.{AllQueued};
ghost use Rattle.wq_race.specs.Outcome.{IsWhole, TellsRace};
ghost use Rattle.wq_pool_plan.specs.Race.{IsLone, AreCallersOf, IsGroupFor, MayRun, AreGroupThreads, AllGroupsQueued, AllStopped, HaveRun};
ghost use Rattle.wq_pool_plan.specs.Outcome.{TellsPlan};

use crate::outcome::{balance_all, finish};
use crate::sending::{queue_group, stop_all};
use crate::teams::{Group, Teams, turned};
use std::alloc::{AllocError, Global};
use std::snapshot::Snapshot;
use std::sync::Wait;
use std::thread::{JoinHandle, Promise, PromisedHandle, Scope, Threads, scope, scope_env};
use wq_live::Sender;
use wq_plan::Plan;
use wq_pool::{Caller, NoGate, Pool, PoolError, Served};
use wq_race::{Outcome, RaceError, RunCounter, join_wanted, run_plan};

/// A thread gives back the group that it was given, whose senders have each queued their own items: so many.
#[derive(Drop)]
struct QueuesGroup {
    group: Snapshot<Group>,
    own: u32,
}

impl Promise<Group> for QueuesGroup {
    ghost kept_by = { λ given back. AllQueued given.own given.group.value.senders.items back.senders.items };
}

/// The callers of a pool: those of its workers, of the plan's senders, and of the program.
#[derive(Drop)]
struct Callers {
    workers: Vec<Caller>,
    senders: Vec<Caller>,
    program: Caller,
}

/// A pool of a plan's queues, of which all threads have ended, and the senders: the plan's by queue and number, and the program's
/// by queue.
#[derive(Drop)]
pub struct Raced {
    /// The pool, of as many queues as the plan has.
    pub pool: Pool<RunCounter>,
    /// The plan's senders, a group for each queue.
    pub by_queue: Vec<Group>,
    /// The program's senders, one of each queue.
    pub programs: Vec<Sender>,
}

// A pool of these queues, and its callers.
fn make_pool(
    alloc: Global,
    served: Vec<Served<RunCounter>>,
    plan: Plan,
) -> Result<(Pool<RunCounter>, Callers), RaceError>
    requires { length served.items ≡ plan.queues }
    ensures workers { IfOk result (λ made. made.0.workers ≡ map worker_id served.items) }
    ensures callers { IfOk result (λ made. AreCallersOf made.0.ready plan.senders made.1) }
    ensures threads { IfOk result (λ made. length made.1.workers.items ≡ plan.workers) }
{
    let (pool, mut callers) = match Pool::new(alloc, served, plan.workers + plan.senders + 1) {
        Ok(made) => made,
        Err(PoolError::NoQueue) => unreachable!(),
        Err(PoolError::Memory) => return Err(RaceError::Memory),
    };
    let Some(program) = callers.pop() else {
        unreachable!()
    };
    let senders = callers.split_off(plan.workers as usize)?;
    let callers = Callers {
        workers: callers,
        senders,
        program,
    };
    Ok((pool, callers))
}

// A thread in which the pool runs, where one could be made.
fn start_workers<'s, E, R: Threads + Wait + Sync>(
    scope: &Scope<'s, E>,
    rt: &'s R,
    pool: &'s Pool<RunCounter>,
    mut workers: Vec<Caller>,
) -> Option<JoinHandle<()>>
    requires { All (IsCallerOf pool.now.ready) workers.items }
{
    scope
        .spawn(
            move ||
                requires { All (IsCallerOf pool.now.ready) workers.items }
            {
                let _ = pool.run(rt, &mut workers, &NoGate);
            },
        )
        .ok()
}

// A thread for the senders of one number, where one could be made.
fn start_group<'s, E, R: Wait + Sync>(
    scope: &Scope<'s, E>,
    rt: &'s R,
    pool: &'s Pool<RunCounter>,
    caller: Caller,
    group: Group,
    own: u32,
) -> Option<PromisedHandle<Group, QueuesGroup>>
    requires caller { IsCallerOf pool.now.ready caller }
    requires ready { IsGroupFor own pool.now group }
    ensures { IfSome result (λ handle. (handle.promise.group.value ≡ group) × (handle.promise.own ≡ own)) }
{
    let given = QueuesGroup {
        group: Snapshot::of(&group),
        own,
    };
    scope
        .spawn_with(
            given,
            move ||
                requires { IsCallerOf pool.now.ready caller × IsGroupFor own pool.now group }
            { queue_group(rt, pool, caller, group, own) },
        )
        .ok()
}

// A thread for each group, up to the first that could not be made. There is room for their handles before the first of them.
fn start_groups<'s, E, R: Wait + Sync>(
    scope: &Scope<'s, E>,
    rt: &'s R,
    alloc: Global,
    pool: &'s Pool<RunCounter>,
    mut callers: Vec<Caller>,
    groups: Vec<Group>,
    own: u32,
) -> Result<Vec<PromisedHandle<Group, QueuesGroup>>, AllocError>
    requires callers { All (IsCallerOf pool.now.ready) callers.items }
    requires enough { length groups.items ≤ length callers.items }
    requires ready { All (IsGroupFor own pool.now) groups.items }
    ensures few { IfOk result (λ handles. length handles.items ≤ length groups.items) }
    ensures given { IfOk result (λ handles. AreGroupThreads own groups.items handles.items) }
{
    let mut handles = Vec::with_capacity(alloc, groups.len())?;
    for group in groups {
        let Some(caller) = callers.pop() else {
            unreachable!()
        };
        let Some(handle) = start_group(scope, rt, pool, caller, group, own) else {
            return Ok(handles);
        };
        handles.push_reserved(handle);
    }
    Ok(handles)
}

// The senders of each number queue their own items in a thread. Where a thread could not be made, those that were made go to
// their end. All have ended afterwards.
fn run_groups<'s, E, R: Threads + Wait + Sync>(
    scope: &Scope<'s, E>,
    rt: &'s R,
    alloc: Global,
    pool: &'s Pool<RunCounter>,
    callers: Vec<Caller>,
    groups: Vec<Group>,
    own: u32,
) -> Result<Vec<Group>, RaceError>
    requires callers { All (IsCallerOf pool.now.ready) callers.items }
    requires enough { length groups.items ≤ length callers.items }
    requires ready { All (IsGroupFor own pool.now) groups.items }
    ensures { IfOk result (λ back. AllGroupsQueued own groups.items back.items) }
{
    let count = groups.len();
    let handles = start_groups(scope, rt, alloc, pool, callers, groups, own)?;
    join_wanted(rt, handles, count)
}

// The pool runs, and meanwhile the senders queue. When they have ended the stop items are queued, and then all have ended.
fn run_threads<'s, E, R: Threads + Wait + Sync>(
    scope: &Scope<'s, E>,
    rt: &'s R,
    alloc: Global,
    pool: &'s Pool<RunCounter>,
    callers: Callers,
    groups: Vec<Group>,
    mut programs: Vec<Sender>,
    own: u32,
) -> Result<(Vec<Group>, Vec<Sender>), RaceError>
    requires { MayRun own pool.now callers groups.items programs.items }
    ensures groups { IfOk result (λ back. AllGroupsQueued own groups.items back.0.items) }
    ensures programs { IfOk result (λ back. AllStopped programs.items back.1.items) }
{
    let Callers {
        workers,
        senders,
        program,
    } = callers;
    let running = start_workers(scope, rt, pool, workers);
    let groups = run_groups(scope, rt, alloc, pool, senders, groups, own);
    stop_all(rt, pool, program, &mut programs);
    let Some(running) = running else {
        return Err(RaceError::Thread);
    };
    running.join(rt);
    Ok((groups?, programs))
}

// The threads of a pool, in a scope of their own.
fn run_scope<R: Threads + Wait + Sync>(
    rt: &R,
    alloc: Global,
    pool: &Pool<RunCounter>,
    callers: Callers,
    groups: Vec<Group>,
    programs: Vec<Sender>,
    own: u32,
) -> Result<(Vec<Group>, Vec<Sender>), RaceError>
    requires { MayRun own pool.now callers groups.items programs.items }
    ensures groups { IfOk result (λ back. AllGroupsQueued own groups.items back.0.items) }
    ensures programs { IfOk result (λ back. AllStopped programs.items back.1.items) }
{
    scope(
        scope_env(),
        rt,
        |scope| -> Result<(Vec<Group>, Vec<Sender>), RaceError>
            requires { MayRun own pool.now callers groups.items programs.items }
            ensures { IfOk result (λ back. AllGroupsQueued own groups.items back.0.items × AllStopped programs.items back.1.items) }
        { run_threads(scope, rt, alloc, pool, callers, groups, programs, own) },
    )
}

/// Runs the threads of a plan over a pool. The senders of one number are a thread, which queues their own items on each queue in
/// turn, in order, once each, and announces the queue where that wakes it. Meanwhile the pool's workers serve. When all senders
/// have ended the stop item of each queue is queued, and the pool runs until each has run.
///
/// # Errors
/// Want of memory, or of a thread: those that were made have then gone to their end.
pub fn run_teams<R: Threads + Wait + Sync>(
    rt: &R,
    alloc: Global,
    plan: Plan,
) -> Result<Raced, RaceError>
    ensures have_run { IfOk result (HaveRun plan) }
{
    let Teams {
        served,
        programs,
        groups,
    } = Teams::new(alloc, plan)?;
    let (pool, callers) = make_pool(alloc, served, plan)?;
    let (groups, programs) = run_scope(rt, alloc, &pool, callers, groups, programs, plan.own)?;
    let by_queue = turned(alloc, groups, plan.queues)?;
    Ok(Raced {
        pool,
        by_queue,
        programs,
    })
}

// Runs a plan over a pool.
fn run_pool<R: Threads + Wait + Sync>(
    rt: &R,
    alloc: Global,
    plan: Plan,
) -> Result<Outcome, RaceError>
    ensures { IfOk result (TellsPlan plan) }
{
    let Raced {
        pool,
        by_queue,
        programs,
    } = run_teams(rt, alloc, plan)?;
    let finished = finish(rt, pool)?;
    Ok(balance_all(alloc, finished, by_queue, programs)?)
}

/// Runs a plan by live threads: one queue with one worker as `run_plan` does, and any other plan over a pool. Each sender is a
/// thread that queues its own items on each queue in turn, in order, once each, and announces the queue where that wakes it.
/// Meanwhile the pool's workers serve. When all senders have ended the stop item of each queue is queued, and when it has run
/// everywhere each queue is taken apart and its book balanced.
///
/// # Errors
/// Want of memory, or of a thread: those that were made have then gone to their end.
pub fn run_live<R: Threads + Wait + Sync>(
    rt: &R,
    alloc: Global,
    plan: Plan,
) -> Result<Outcome, RaceError>
    ensures whole { IsLone plan → IfOk result (IsWhole plan) }
    ensures told { IsLone plan → IfOk result (TellsRace plan) }
    ensures pooled { ¬ IsLone plan → IfOk result (TellsPlan plan) }
    ensures same { IfOk result (λ outcome. outcome.accepted ≡ outcome.ran) }
{
    if plan.queues == 1 && plan.workers == 1 {
        return run_plan(rt, alloc, plan);
    }
    run_pool(rt, alloc, plan)
}

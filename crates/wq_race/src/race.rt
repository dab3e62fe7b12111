//! A run of a queue by live threads.
ghost use Rattle.std.specs.Prelude.{◌≡◌, ◌≢◌, ◌+◌, ◌*◌, ◌^◌, ◌<◌, ◌≤◌, [], ◌∷◌, length, IfSome, IfOk, All};
ghost use Rattle.wq_words.specs.History.{IsRunning, IsShut};
ghost use Rattle.wq_words.specs.Seen.{owner_seat};
ghost use Rattle.wq_words.specs.declared.answer.Answer.TheVariants.{Contended};
ghost use Rattle.wq_race.specs.Race.{items_at, HasQueued, HasStopped, IsStopAnswer, HasServed, AreThreads, AllQueued, HasRun, HasRaced};
ghost use Rattle.wq_race.specs.Team.{IsNewTeam};
ghost use Rattle.wq_race.specs.Outcome.{IsWhole, TellsRace};

use crate::outcome::Outcome;
use crate::run_counter::RunCounter;
use crate::team::Team;
use crate::threads::join_wanted;
use crossbeam_utils::sync::{Parker, Unparker};
use std::alloc::{AllocError, Global};
use std::snapshot::Snapshot;
use std::sync::Wait;
use std::thread::{Promise, PromisedHandle, Scope, Threads, scope, scope_env};
use thiserror::Error;
use wq_live::{Answer, BuildError, Sender};
use wq_plan::Plan;
use wq_worker::Worker;

/// Why a race has no outcome.
#[derive(Clone, Copy, Debug, PartialEq, Eq, Error)]
pub enum RaceError {
    /// Memory could not be had.
    #[error("memory")]
    Memory,
    /// A thread could not be made.
    #[error("no thread")]
    Thread,
}

impl From<AllocError> for RaceError {
    fn from(_: AllocError) -> RaceError {
        RaceError::Memory
    }
}

impl From<BuildError> for RaceError {
    fn from(_: BuildError) -> RaceError {
        RaceError::Memory
    }
}

/// A thread gives back the sender that it was given, which has queued its own items: so many.
#[derive(Drop)]
struct QueuesOwn {
    sender: Snapshot<Sender>,
    own: u32,
}

impl Promise<Sender> for QueuesOwn {
    ghost kept_by = { λ given back. HasQueued (items_at given.sender.value.number given.own) given.sender.value back };
}

/// A thread gives back the worker that it was given, which has served.
#[derive(Drop)]
pub struct ServesQueue(Snapshot<Worker<RunCounter>>);

impl Promise<Worker<RunCounter>> for ServesQueue {
    ghost kept_by = { λ given back. HasServed given.0.value back };
}

/// The thread of the worker, where one could be made.
pub type Serving = Option<PromisedHandle<Worker<RunCounter>, ServesQueue>>;

/// Queues an item, and wakes the worker where it is the first on an empty list: a worker that serves takes the rest with it.
pub fn queue_item<R: Wait>(rt: &R, sender: &mut Sender, item: u32, unparker: &Unparker)
    requires { item < sender.old.layout.items }
    ensures queued { HasQueued (item ∷ []) sender.old sender.new }
{
    if let Answer::Queued { first: true, .. } = sender.queue(rt, item) {
        unparker.unpark();
    }
}

// Queues the sender's own items in order, once each.
fn queue_own<R: Wait>(rt: &R, mut sender: Sender, own: u32, unparker: Unparker) -> Sender
    requires { sender.number * own + own ≤ sender.layout.items }
    ensures { HasQueued (items_at sender.number own) sender result }
{
    let first = sender.number() * own;
    for item in first..first + own {
        queue_item(rt, &mut sender, item, &unparker);
    }
    sender
}

// Serves until the stop item ran.
fn serve<R: Wait>(rt: &R, mut worker: Worker<RunCounter>, parker: Parker) -> Worker<RunCounter>
    requires seat { worker.number ≢ owner_seat }
    requires open { ¬ IsShut worker.seen }
    requires idle { ¬ IsRunning worker.seen }
    ensures { HasServed worker result }
{
    worker.serve(rt, &parker);
    worker
}

// Tries to queue the stop item, so often that it is queued.
fn try_stop(program: &mut Sender) -> Answer
    ensures few { HasStopped (2 * 2 ^ 32) program.old program.new }
    ensures answer { IsStopAnswer result program.old program.new }
{
    for _ in 0..u32::MAX {
        match program.request_stop(u32::MAX) {
            Answer::Contended => {}
            answer => return answer,
        }
    }
    program.request_stop(u32::MAX)
}

/// Queues the stop item, by the program's sender. Where all tries were in vain it waits for ever, since nothing could stop the
/// worker. The answer is that of the last try.
pub fn queue_stop<R: Wait>(rt: &R, program: &mut Sender) -> Answer
    ensures few { HasStopped (2 * 2 ^ 32) program.old program.new }
    ensures answer { IsStopAnswer result program.old program.new }
    ensures settled { result ≢ Contended }
{
    let answer = try_stop(program);
    if answer == Answer::Contended {
        for _ in rt.forever() {}
        unreachable!()
    }
    answer
}

/// Queues the stop item, and wakes the worker. The answer is that of `queue_stop`.
pub fn stop<R: Wait>(rt: &R, program: &mut Sender, unparker: &Unparker) -> Answer
    ensures few { HasStopped (2 * 2 ^ 32) program.old program.new }
    ensures answer { IsStopAnswer result program.old program.new }
    ensures settled { result ≢ Contended }
{
    let answer = queue_stop(rt, program);
    unparker.unpark();
    answer
}

// A thread for a sender, where one could be made.
fn start_sender<'s, E, R: Wait + Sync>(
    scope: &Scope<'s, E>,
    rt: &'s R,
    sender: Sender,
    own: u32,
    unparker: &Unparker,
) -> Option<PromisedHandle<Sender, QueuesOwn>>
    requires { sender.number * own + own ≤ sender.layout.items }
    ensures { IfSome result (λ handle. (handle.promise.sender.value ≡ sender) × (handle.promise.own ≡ own)) }
{
    let unparker = unparker.clone().ok()?;
    let given = QueuesOwn {
        sender: Snapshot::of(&sender),
        own,
    };
    scope
        .spawn_with(
            given,
            move ||
                requires { sender.number * own + own ≤ sender.layout.items }
            { queue_own(rt, sender, own, unparker) },
        )
        .ok()
}

// A thread for the worker, where one could be made.
fn start_worker<'s, E, R: Wait + Sync>(
    scope: &Scope<'s, E>,
    rt: &'s R,
    worker: Worker<RunCounter>,
    parker: Parker,
) -> Serving
    requires seat { worker.number ≢ owner_seat }
    requires open { ¬ IsShut worker.seen }
    requires idle { ¬ IsRunning worker.seen }
    ensures { IfSome result (λ handle. handle.promise.0.value ≡ worker) }
{
    let given = ServesQueue(Snapshot::of(&worker));
    scope
        .spawn_with(
            given,
            move ||
                requires { (worker.number ≢ owner_seat) × (¬ IsShut worker.seen) × (¬ IsRunning worker.seen) }
            { serve(rt, worker, parker) },
        )
        .ok()
}

// A thread for each sender, up to the first that could not be made. There is room for their handles before the first of them.
fn start_senders<'s, E, R: Wait + Sync>(
    scope: &Scope<'s, E>,
    rt: &'s R,
    alloc: Global,
    senders: Vec<Sender>,
    own: u32,
    unparker: &Unparker,
) -> Result<Vec<PromisedHandle<Sender, QueuesOwn>>, AllocError>
    requires { All (λ s. s.number * own + own ≤ s.layout.items) senders.items }
    ensures few { IfOk result (λ handles. length handles.items ≤ length senders.items) }
    ensures given { IfOk result (λ handles. AreThreads own senders.items handles.items) }
{
    let mut handles = Vec::with_capacity(alloc, senders.len())?;
    for sender in senders {
        let Some(handle) = start_sender(scope, rt, sender, own, unparker) else {
            return Ok(handles);
        };
        handles.push_reserved(handle);
    }
    Ok(handles)
}

// Each sender queues its own items in a thread. Where a thread could not be made, those that were made go to their end. All
// have ended afterwards.
fn run_senders<'s, E, R: Threads + Wait + Sync>(
    scope: &Scope<'s, E>,
    rt: &'s R,
    alloc: Global,
    senders: Vec<Sender>,
    own: u32,
    unparker: &Unparker,
) -> Result<Vec<Sender>, RaceError>
    requires { All (λ s. s.number * own + own ≤ s.layout.items) senders.items }
    ensures { IfOk result (λ back. AllQueued own senders.items back.items) }
{
    let count = senders.len();
    let handles = start_senders(scope, rt, alloc, senders, own, unparker)?;
    join_wanted(rt, handles, count)
}

/// The worker serves in a thread, and meanwhile the senders queue in theirs, which have all ended afterwards. The program's own
/// sender has done nothing, so the worker serves on until that queues the stop item.
///
/// # Errors
/// In place of the senders: want of memory, or of a thread for one of them.
pub fn queue_all<'s, E, R: Threads + Wait + Sync>(
    scope: &Scope<'s, E>,
    rt: &'s R,
    alloc: Global,
    plan: Plan,
    team: Team,
    parker: Parker,
    unparker: &Unparker,
) -> (Serving, Result<Vec<Sender>, RaceError>, Sender)
    requires { IsNewTeam plan team }
    ensures serving { IfSome result.0 (λ handle. handle.promise.0.value ≡ team.worker) }
    ensures queued { IfOk result.1 (λ back. AllQueued plan.own team.senders.items back.items) }
    ensures program { result.2 ≡ team.program }
{
    let Team {
        worker,
        senders,
        program,
    } = team;
    let serving = start_worker(scope, rt, worker, parker);
    let senders = run_senders(scope, rt, alloc, senders, plan.own, unparker);
    (serving, senders, program)
}

// The senders queue, and the worker serves until the stop item, which is queued when all senders have ended.
fn run_threads<'s, E, R: Threads + Wait + Sync>(
    scope: &Scope<'s, E>,
    rt: &'s R,
    alloc: Global,
    plan: Plan,
    team: Team,
    parker: Parker,
    unparker: &Unparker,
) -> Result<Team, RaceError>
    requires { IsNewTeam plan team }
    ensures raced { IfOk result (HasRaced plan) }
    ensures team { IfOk result (HasRun plan.own team) }
{
    let (serving, senders, mut program) = queue_all(scope, rt, alloc, plan, team, parker, unparker);
    stop(rt, &mut program, unparker);
    let Some(serving) = serving else {
        return Err(RaceError::Thread);
    };
    let worker = serving.join(rt);
    match senders {
        Ok(senders) => Ok(Team {
            worker,
            senders,
            program,
        }),
        Err(error) => Err(error),
    }
}

/// The threads of a team, in a scope of their own: the senders queue, and the worker serves until the stop item, which is queued
/// when all senders have ended.
///
/// # Errors
/// Want of memory, or of a thread: those that were made have then gone to their end.
pub fn run_team<R: Threads + Wait + Sync>(
    rt: &R,
    alloc: Global,
    plan: Plan,
    team: Team,
) -> Result<Team, RaceError>
    requires { IsNewTeam plan team }
    ensures raced { IfOk result (HasRaced plan) }
    ensures team { IfOk result (HasRun plan.own team) }
{
    let parker = Parker::new(alloc)?;
    let unparker = parker.unparker().clone()?;
    scope(
        scope_env(),
        rt,
        |scope| -> Result<Team, RaceError>
            requires { IsNewTeam plan team }
            ensures { IfOk result (λ back. HasRaced plan back × HasRun plan.own team back) }
        { run_threads(scope, rt, alloc, plan, team, parker, &unparker) },
    )
}

/// Runs a plan on one queue with one worker, whatever its `queues` and `workers`. Each sender is a thread that queues its own
/// items in order, once each, and wakes the worker, which serves in a thread of its own until the stop item; that is queued when
/// all senders have ended. The queue is then destroyed.
///
/// # Errors
/// Want of memory, or of a thread: those that were made have then gone to their end.
pub fn run_plan<R: Threads + Wait + Sync>(
    rt: &R,
    alloc: Global,
    plan: Plan,
) -> Result<Outcome, RaceError>
    ensures whole { IfOk result (IsWhole plan) }
    ensures told { IfOk result (TellsRace plan) }
{
    let team = Team::new(alloc, plan)?;
    let team = run_team(rt, alloc, plan, team)?;
    let (outcome, _book, _ledgers) = Outcome::of(rt, alloc, team)?;
    Ok(outcome)
}

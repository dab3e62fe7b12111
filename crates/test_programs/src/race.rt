//! That a race runs: what its threads do beside what the contracts say.
ghost use Rattle.wq_race.specs.Team.{IsNewTeam};

use crate::expect::{expect_each_words, expect_same};
use crate::looks::{LOOKS, finds};
use crossbeam_utils::sync::Parker;
use std::alloc::Global;
use std::process::Abort;
use std::sync::Wait;
use std::thread::{Scope, Threads, scope, scope_env};
use std::time::{Duration, Instant};
use wq_live::Sender;
use wq_plan::Plan;
use wq_pool_plan::{Raced, run_teams};
use wq_race::{RaceError, Serving, Team, queue_all, queue_item, run_team, stop};

const PLAN: Plan = Plan {
    queues: 1,
    workers: 1,
    senders: 4,
    own: 8,
};

fn team_of<R: Abort>(rt: &R, alloc: Global, plan: Plan) -> Team
    ensures { IsNewTeam plan result }
{
    match Team::new(alloc, plan) {
        Ok(team) => team,
        Err(error) => panic!(rt; "{error}"),
    }
}

/// Want of memory and want of a thread have words of their own.
#[test]
fn words_of_errors(rt: HostRuntime) {
    let rows = [
        (RaceError::Memory, "memory"),
        (RaceError::Thread, "no thread"),
    ];
    expect_each_words(&rt, rt.alloc(), rows.as_slice());
}

/// The worker itself executes each sender's own items and the stop item, before its queue is destroyed.
#[test]
fn worker_runs_all(rt: HostRuntime) {
    for turn in 0..10u32 {
        let team = team_of(&rt, rt.alloc(), PLAN);
        match run_team(&rt, rt.alloc(), PLAN, team) {
            Ok(team) => {
                expect_same(&rt, (turn, team.worker.counts().executed), (turn, 33));
                drop(team);
            }
            Err(error) => panic!(rt; "{error}"),
        }
    }
}

/// The workers of a pool themselves execute each sender's own items and the stop items: nothing is left for its end.
#[test]
fn pool_runs_all(rt: HostRuntime) {
    let plan = Plan {
        queues: 3,
        workers: 2,
        senders: 4,
        own: 8,
    };
    match run_teams(&rt, rt.alloc(), plan) {
        Ok(Raced { pool, .. }) => {
            let finished = pool.finish(0).expect(&rt, "nothing is left");
            expect_same(&rt, finished.len(), 3);
            drop(finished);
        }
        Err(error) => panic!(rt; "{error}"),
    }
}

fn queue_first<R: Abort + Wait>(rt: &R, sender: &mut Sender, parker: &Parker) {
    assert!(rt; 0 < sender.layout().items);
    queue_item(rt, sender, 0, parker.unparker());
}

/// A queueing wakes whoever parks: a park after it returns at once.
#[test]
fn a_queueing_wakes(rt: HostRuntime) {
    let parker = Parker::new(rt.alloc()).expect(&rt, "memory");
    let before = Instant::now(&rt).expect(&rt, "a clock");
    let mut team = team_of(&rt, rt.alloc(), PLAN);
    queue_first(&rt, &mut team.program, &parker);
    parker.park_timeout(&rt, Duration::from_secs(20));
    let elapsed = before.elapsed(&rt).expect(&rt, "a clock");
    assert!(rt; elapsed < Duration::from_secs(20));
    drop(team);
}

/// Whether item 0, which was queued, has begun, within so many looks.
fn has_begun<R: Abort>(rt: &R, program: &mut Sender, looks: u32) -> bool {
    finds(looks, || {
        assert!(rt; 0 < program.layout().items);
        !program.is_pending(0)
    })
}

/// Joins a worker, where its thread could be made.
fn executed_by<R: Abort + Threads>(rt: &R, serving: Serving) -> u128 {
    match serving {
        Some(serving) => serving.join(rt).counts().executed,
        None => panic!(rt; "no thread"),
    }
}

/// Whether the worker began item 0 while the stop item was withheld, within so many looks after all senders had ended, and how many
/// executions it made in all.
fn run_withheld<'s, E, R: Abort + Threads + Wait + Sync>(
    scope: &Scope<'s, E>,
    rt: &'s R,
    alloc: Global,
    plan: Plan,
    team: Team,
    parker: Parker,
    looks: u32,
) -> (bool, u128)
    requires { IsNewTeam plan team }
{
    let Ok(unparker) = parker.unparker().clone() else {
        panic!(rt; "memory")
    };
    let (serving, senders, mut program) = queue_all(
        scope, rt, alloc, plan, team, parker, &unparker,
    );
    if let Err(error) = senders {
        panic!(rt; "{error}");
    }
    let has_begun = has_begun(rt, &mut program, looks);
    stop(rt, &mut program, &unparker);
    drop(program);
    (has_begun, executed_by(rt, serving))
}

/// Runs a plan, with the stop item withheld.
fn run_in_scope<R: Abort + AllocGlobal + Threads + Wait + Sync>(
    rt: &R,
    plan: Plan,
    looks: u32,
) -> (bool, u128) {
    let team = team_of(rt, rt.alloc(), plan);
    let Ok(parker) = Parker::new(rt.alloc()) else {
        panic!(rt; "memory")
    };
    scope(
        scope_env(),
        rt,
        |scope| -> (bool, u128)
            requires { IsNewTeam plan team }
        { run_withheld(scope, rt, rt.alloc(), plan, team, parker, looks) },
    )
}

/// Senders wake the worker, which does not wait for the stop item.
#[test]
fn worker_runs_before_the_stop(rt: HostRuntime) {
    let (has_begun, executed) = run_in_scope(&rt, PLAN, LOOKS);
    assert!(rt; has_begun);
    expect_same(&rt, executed, 33);
}

/// The worker runs while the senders queue: in some of 20 turns it has begun their first item when all of them have ended. In
/// a turn it may come late, where the machine is busy.
#[test]
fn worker_runs_beside_the_senders(rt: HostRuntime) {
    let mut begun = 0u32;
    for _ in 0..20u32 {
        let plan = Plan {
            queues: 1,
            workers: 1,
            senders: 4,
            own: 1024,
        };
        let (has_begun, executed) = run_in_scope(&rt, plan, 1);
        expect_same(&rt, executed, 4097);
        if has_begun {
            begun = begun.wrapping_add(1);
        }
    }
    assert!(rt; begun > 0);
}

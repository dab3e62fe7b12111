//! The seats of a plan's queues.
ghost use Rattle.std.specs.Prelude.{◌≡◌, ◌+◌, [], length, All, OnOk, IfOk};
ghost use Rattle.wq_race.specs.Team.{IsNewTeam};
ghost use Rattle.wq_pool_plan.specs.Teams.{AreDealt, AreTurned, AreTeams};

use std::alloc::{AllocError, Global};
use wq_live::{BuildError, Sender};
use wq_plan::Plan;
use wq_pool::Served;
use wq_race::{RunCounter, Team};

/// A row of senders: those of one number, by queue, until their threads have ended, and in a `Raced` those of one queue, by number.
#[derive(Drop)]
pub struct Group {
    /// The senders, in that order.
    pub senders: Vec<Sender>,
}

/// The workers and the program's own senders, by queue, and the plan's senders, a group for each number.
#[derive(Drop)]
pub(crate) struct Teams {
    pub(crate) served: Vec<Served<RunCounter>>,
    pub(crate) programs: Vec<Sender>,
    pub(crate) groups: Vec<Group>,
}

// Groups without a sender, each with room for so many.
fn empty_groups(alloc: Global, count: u32, room: usize) -> Result<Vec<Group>, AllocError>
    ensures count { IfOk result (λ groups. length groups.items ≡ count) }
    ensures empty { IfOk result (λ groups. All (λ group. group.senders.items ≡ []) groups.items) }
{
    let mut groups = Vec::with_capacity(alloc, count as usize)?;
    for _ in 0..count {
        let senders = Vec::with_capacity(alloc, room)?;
        groups.push(Group { senders })?;
    }
    Ok(groups)
}

// One more sender for each group.
fn deal(groups: &mut [Group], senders: Vec<Sender>) -> Result<(), AllocError>
    requires { length senders.items ≡ length groups.old }
    ensures { OnOk result (AreDealt senders.items groups.old groups.new) }
{
    let mut place = 0usize;
    for sender in senders {
        groups[place].senders.push(sender)?;
        place += 1;
    }
    Ok(())
}

/// The senders of these groups by their places there: the first group has the first of each.
pub(crate) fn turned(
    alloc: Global,
    groups: Vec<Group>,
    count: u32,
) -> Result<Vec<Group>, AllocError>
    requires { All (λ group. length group.senders.items ≡ count) groups.items }
    ensures { IfOk result (λ turned. AreTurned count groups.items turned.items) }
{
    let mut turned = empty_groups(alloc, count, groups.len())?;
    for group in groups {
        deal(&mut turned, group.senders)?;
    }
    Ok(turned)
}

impl Teams {
    // No queue yet, and room for the plan's.
    fn none(alloc: Global, plan: Plan) -> Result<Teams, AllocError>
        ensures none { IfOk result (λ teams. teams.served.items ≡ []) }
        ensures teams { IfOk result (AreTeams plan) }
    {
        let queues = plan.queues as usize;
        Ok(Teams {
            served: Vec::with_capacity(alloc, queues)?,
            programs: Vec::with_capacity(alloc, queues)?,
            groups: empty_groups(alloc, plan.senders, queues)?,
        })
    }

    // The seats of one more queue.
    fn add(&mut self, team: Team) -> Result<(), AllocError>
        requires { (plan : Plan) × AreTeams plan self.old × IsNewTeam plan team }
        ensures count { OnOk result (length self.new.served.items ≡ length self.old.served.items + 1) }
        ensures teams { OnOk result ((plan : Plan) → AreTeams plan self.old → IsNewTeam plan team → AreTeams plan self.new) }
    {
        let Team {
            worker,
            senders,
            program,
        } = team;
        self.served.push(Served::new(worker))?;
        self.programs.push(program)?;
        deal(&mut self.groups, senders)?;
        Ok(())
    }

    /// The seats of new queues.
    pub(crate) fn new(alloc: Global, plan: Plan) -> Result<Teams, BuildError>
        ensures count { IfOk result (λ teams. length teams.served.items ≡ plan.queues) }
        ensures teams { IfOk result (AreTeams plan) }
    {
        let mut teams = Teams::none(alloc, plan)?;
        for _ in 0..plan.queues {
            let team = Team::new(alloc, plan)?;
            teams.add(team)?;
        }
        Ok(teams)
    }
}

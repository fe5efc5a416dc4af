//! The agents at their desks, driven by workers.
ghost use Rattle.std.specs.Prelude.{◌≡◌, ◌<◌, ◌^◌, List, All, length, map, true, IfOk};
ghost use Rattle.tc_policy.specs.declared.grants.Grant.{Grant};
ghost use Rattle.tc_sched.specs.Clients.{Client};
ghost use Rattle.tc_site.specs.Desks.{AgentState, desk_of};
ghost use Rattle.tc_site.specs.Sites.{AreOfSite, KitState};
ghost use Rattle.tc_workers.specs.Crews.{AreAtDesks, AreLeft, CanDrive, HasRows, ended_of};

use std::alloc::Global;
use std::sync::Wait;
use std::thread::Threads;
use tc_config::AgentConf;
use tc_desk::{Gate, Warden};
use tc_lists::NoMemory;
use tc_policy::Roles;
use tc_sched::{Actor, drive_called};
use tc_site::{AgentDesk, DeskKit, EndedDesk, Site};

/// Drives the agents of a site, from their first asks on, until each has ended or waits. Their desks
/// have ended then.
pub(crate) fn drive_all<R: Threads + Wait + Sync, G: Gate + Sync>(
    rt: &R,
    alloc: Global,
    site: &Site<Roles>,
    kits: Vec<DeskKit<Roles>>,
    agents: &[AgentConf],
    workers: usize,
    gate: &G,
) -> Result<Vec<EndedDesk<Roles>>, NoMemory>
    requires workers { 0 < workers }
    requires kits { AreOfSite (λ (k : KitState (List Grant)). k.site)
        (λ (k : KitState (List Grant)). k.agent) site.now kits.items }
    requires can { CanDrive site.now agents.now }
    ensures { IfOk result (λ ended.
        AreLeft ⟦<Roles as Warden>⟧.permits site.now agents.now ended.items) }
{
    let mut crew = at_desks(alloc, site, kits, agents)?;
    let roll = Some(site.roll());
    drive_called(rt, &mut crew, alloc, site.names(), workers, gate, roll)?;
    end_all(alloc, crew)
}

// Each agent at a desk, with its scripts.
fn at_desks<'a>(
    alloc: Global,
    site: &'a Site<Roles>,
    kits: Vec<DeskKit<Roles>>,
    agents: &'a [AgentConf],
) -> Result<Vec<Actor<'a, AgentDesk<'a, Roles>>>, NoMemory>
    requires kits { AreOfSite (λ (k : KitState (List Grant)). k.site)
        (λ (k : KitState (List Grant)). k.agent) site.now kits.items }
    requires whole { length agents.now ≡ length kits.items }
    requires few { length agents.now < 2 ^ 32 }
    ensures { IfOk result (λ crew.
        AreAtDesks ⟦<Roles as Warden>⟧.permits site.now agents.now crew.items) }
{
    let mut crew = Vec::with_capacity(alloc, kits.len())?;
    for kit in kits {
        let agent = crew.len();
        let desk = AgentDesk::new(alloc, site, kit);
        crew.push(Actor::new(desk, agent as u32, agents[agent].scripts.items()))?;
    }
    Ok(crew)
}

// Ends the desks.
fn end_all<'a>(
    alloc: Global,
    crew: Vec<Actor<'a, AgentDesk<'a, Roles>>>,
) -> Result<Vec<EndedDesk<Roles>>, NoMemory>
    requires free { All (λ (c : Client (AgentState (List Grant))). (desk_of c.desk).free ≡ true)
        crew.items }
    ensures ended { IfOk result (λ ended. ended.items ≡ map ended_of crew.entry.items) }
    ensures rows { IfOk result (λ _. All HasRows crew.entry.items) }
{
    let mut ended = Vec::with_capacity(alloc, crew.len())?;
    for member in crew {
        ended.push(member.finish().end())?;
    }
    Ok(ended)
}

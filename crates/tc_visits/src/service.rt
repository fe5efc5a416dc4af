//! The service of a configuration, from its opened centres to its settled logs.
ghost use Rattle.std.specs.List.{list_any};
ghost use Rattle.std.specs.Prelude.{◌≡◌, ◌<◌, ◌++◌, All, length, map, not, IfOk, OnErr};
ghost use Rattle.tc_desk.specs.Logs.{rows_of};
ghost use Rattle.tc_runner.specs.Cores.{histories};
ghost use Rattle.tc_runner.specs.Runs.{HasCores, IsFresh};
ghost use Rattle.tc_visits.specs.Service.{IsServiceBy, MayUseDoor, door_of, lacked_memory};
ghost use Rattle.tc_visits.specs.Serving.{AreKitsOf, desk_left, desk_unused};
ghost use Rattle.tc_visits.specs.Visits.{IsVisit, VisitState};

use crate::served::{Served, serve_all};
use crate::visits::Visit;
use std::alloc::Global;
use std::sync::Wait;
use tc_desk::Warden;
use tc_io::{Door, Link};
use tc_lists::NoMemory;
use tc_policy::Roles;
use tc_runner::Opened;
use tc_session::SessionEnd;
use tc_site::{AgentDesk, Closed, DeskKit, EndedDesk, Site};

/// What came of a service.
#[derive(Drop)]
pub struct Service {
    /// The centres and the logs, as they are at its end.
    pub run: Opened,
    /// Whether each agent had a connection.
    pub all: bool,
    /// Whether each session found memory to its end.
    pub enough: bool,
}

/// Serves the agents of a configuration, whose centres have just been opened, over the connections
/// that a door accepts, all in this thread, until all sessions have ended.
///
/// The connections are the agents', in order. After the first that can't be accepted none is. Then
/// the centres are closed, and the logs settled. No script is run. Where memory ends nothing is
/// left of the run.
pub fn serve<R: Wait, D: Door>(
    rt: &R,
    alloc: Global,
    opened: Opened,
    door: &mut D,
) -> Result<Service, NoMemory>
    requires fresh { IsFresh opened }
    ensures plan { IfOk result (λ s. s.run.plan ≡ opened.plan) }
    ensures service { IfOk result (λ s. IsServiceBy (door_of D.opened D.door_faults door.old)
        (door_of D.opened D.door_faults door.new) s.all s.enough opened.plan
        (histories opened.plan s.run.cores.items) (rows_of s.run.logs.items)) }
    ensures cores { IfOk result (λ s. HasCores s.run) }
    ensures door { OnErr result (MayUseDoor (length opened.plan.agents)
        (door_of D.opened D.door_faults door.old) (door_of D.opened D.door_faults door.new)) }
{
    if opened.plan.agents().is_empty() {
        return Ok(Service {
            run: opened,
            all: true,
            enough: true,
        });
    }
    serve_some(rt, alloc, opened, door)
}

// The same, where there are agents.
fn serve_some<R: Wait, D: Door>(
    rt: &R,
    alloc: Global,
    opened: Opened,
    door: &mut D,
) -> Result<Service, NoMemory>
    requires some { 0 < length opened.plan.agents }
    requires fresh { IsFresh opened }
    ensures plan { IfOk result (λ s. s.run.plan ≡ opened.plan) }
    ensures service { IfOk result (λ s. IsServiceBy (door_of D.opened D.door_faults door.old)
        (door_of D.opened D.door_faults door.new) s.all s.enough opened.plan
        (histories opened.plan s.run.cores.items) (rows_of s.run.logs.items)) }
    ensures cores { IfOk result (λ s. HasCores s.run) }
    ensures door { OnErr result (MayUseDoor (length opened.plan.agents)
        (door_of D.opened D.door_faults door.old) (door_of D.opened D.door_faults door.new)) }
{
    let Opened { plan, cores, .. } = opened;
    let names = plan.copy_centres(alloc)?;
    let roles = plan.roles().copy(alloc)?;
    let (site, kits) = Site::of_cores(alloc, names, cores, plan.agents(), roles)?;
    let Served { visits, idle } = serve_all(rt, alloc, &site, door, kits)?;
    let all = idle.is_empty();
    let enough = found_memory(&visits);
    let ended = end_all(alloc, &site, visits, idle)?;
    let mut closed = site.close(alloc, ended)?;
    closed.settle(alloc, plan.centres())?;
    let Closed { cores, logs } = closed;
    let run = Opened { plan, cores, logs };
    Ok(Service { run, all, enough })
}

// Whether each session found memory to its end.
fn found_memory<L: Link>(visits: &[Visit<L>]) -> bool
    ensures { result ≡ not (list_any (λ (v : VisitState). lacked_memory v.end) visits.now) }
{
    for visit in visits {
        if lacked(visit) {
            return false;
        }
    }
    true
}

// Whether a session has ended for want of memory.
fn lacked<L: Link>(visit: &Visit<L>) -> bool
    ensures { result ≡ lacked_memory visit.now.end }
{
    match visit.end() {
        SessionEnd::NoMemory => true,
        SessionEnd::Quit
        | SessionEnd::EndOfInput
        | SessionEnd::ReadFault
        | SessionEnd::WriteFault
        | SessionEnd::LineTooLong => false,
    }
}

// The desks that the agents leave, in order: those of the visits, and one for each idle kit.
fn end_all<L: Link + Drop>(
    alloc: Global,
    site: &Site<Roles>,
    visits: Vec<Visit<L>>,
    idle: Vec<DeskKit<Roles>>,
) -> Result<Vec<EndedDesk<Roles>>, NoMemory>
    requires { AreKitsOf site.now idle.items }
    ensures ended { IfOk result (λ ended. ended.items
        ≡ map desk_left visits.items ++ map desk_unused idle.items) }
    ensures visits { IfOk result
        (λ ended. All (IsVisit ⟦<Roles as Warden>⟧.permits) visits.items) }
{
    let mut ended = Vec::with_capacity(alloc, visits.len() + idle.len())?;
    for visit in visits {
        ended.push(visit.into_desk())?;
    }
    for kit in idle {
        ended.push(end_unused(alloc, site, kit))?;
    }
    Ok(ended)
}

// The desk of an idle kit, which ends at once.
fn end_unused(alloc: Global, site: &Site<Roles>, kit: DeskKit<Roles>) -> EndedDesk<Roles>
    requires { kit.site ≡ site.now }
    ensures { result ≡ desk_unused kit }
{
    AgentDesk::new(alloc, site, kit).end()
}

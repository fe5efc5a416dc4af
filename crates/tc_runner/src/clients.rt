//! Clients: how far each agent has come.
ghost use Rattle.std.specs.Prelude.{◌≡◌, ◌<◌, Some, length, slice_get, IfOk};
ghost use Rattle.tc_desk.specs.Asks.{ScriptStep, steps_of};
ghost use Rattle.tc_runner.specs.Clients.{AreClients, IsClient, IsLog, WaitsAt};
ghost use Rattle.tc_desk.specs.Logs.{rows_of};
ghost use Rattle.tc_runner.specs.Cores.{Goes};

use crate::plans::Plan;
use std::alloc::Global;
use tc_asks::Asker;
use tc_centre::Core;
use tc_config::AgentConf;
use tc_desk::{LogRow, has_pending};
use tc_lists::NoMemory;
use tc_model::Script;

/// How far an agent has come: what it asks next, or where it waits.
#[derive(Drop)]
pub(crate) struct Client {
    pub(crate) agent: u32,
    pub(crate) asker: Asker,
    /// The place of the centre at which the last ask is pending, if it is.
    pub(crate) waits: Option<u32>,
}

/// A client for each agent.
pub(crate) fn clients(
    alloc: Global,
    plan: &Plan,
    cores: &[Core],
    logs: &[Vec<LogRow>],
) -> Result<Vec<Client>, NoMemory>
    requires { Goes plan.now cores.now (rows_of logs.now) }
    ensures { IfOk result (λ clients. AreClients plan.now.agents (rows_of logs.now) clients.items) }
{
    let agents = plan.agents();
    let mut clients = Vec::with_capacity(alloc, agents.len())?;
    for agent in 0..agents.len() {
        clients.push(client_of(alloc, agent as u32, &agents[agent], &logs[agent])?)?;
    }
    Ok(clients)
}

// The client of one agent.
fn client_of(alloc: Global, agent: u32, a: &AgentConf, log: &[LogRow]) -> Result<Client, NoMemory>
    requires { IsLog a.now.scripts log.now }
    ensures { IfOk result (IsClient agent a.now.scripts log.now) }
{
    let scripts = a.scripts.items();
    Ok(Client {
        agent,
        asker: Asker::new(alloc, scripts)?,
        waits: waits(scripts, log),
    })
}

// Where the last ask is pending, if it is.
fn waits(scripts: &[Script], log: &[LogRow]) -> Option<u32>
    requires { IsLog scripts.now log.now }
    ensures { WaitsAt scripts.now log.now result }
{
    if !has_pending(log) {
        return None;
    }
    Some(centre_of(scripts, log.len() - 1))
}

// The centre of the item at this place of the scripts, counted from 0.
fn centre_of(scripts: &[Script], place: usize) -> u32
    requires { place < length (steps_of scripts.now) }
    ensures { (step : ScriptStep) → slice_get (steps_of scripts.now) place ≡ Some step
        → step.item.centre ≡ result }
{
    let mut left = place;
    for script in scripts {
        let items = script.items();
        if left < items.len() {
            return items[left].centre;
        }
        left -= items.len();
    }
    unreachable!()
}

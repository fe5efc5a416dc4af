//! The centres of a configuration, as they are opened.
ghost use Rattle.std.specs.Prelude.{◌≡◌, ◌<◌, [], All, length, map, IfOk};
ghost use Rattle.tc_config.specs.Configurations.{IsCentre};
ghost use Rattle.tc_desk.specs.Logs.{rows_of};
ghost use Rattle.tc_runner.specs.Plans.{AreAgentNames, fresh_core, fresh_cores, names_of};
ghost use Rattle.tc_runner.specs.Runs.{IsFresh};

use crate::plans::Plan;
use std::alloc::Global;
use std::snapshot::Snapshot;
use tc_centre::Core;
use tc_config::{AgentConf, CentreConf, Config, agent_names, centre_names};
use tc_desk::LogRow;
use tc_lists::NoMemory;
use tc_term::Name;

/// A configuration whose centres are opened: the plan, a core for each centre, and a log for each
/// agent.
#[derive(Drop)]
pub struct Opened {
    pub plan: Plan,
    pub cores: Vec<Core>,
    pub logs: Vec<Vec<LogRow>>,
}

/// Opens the centres of a configuration. Where there is no agent, none is opened.
///
/// Clauses and tuples are moved to the cores. The names of the agents are copied for each centre.
pub fn open(alloc: Global, config: Config) -> Result<Opened, NoMemory>
    ensures plan { IfOk result (λ opened. opened.plan ≡ config) }
    ensures fresh { IfOk result IsFresh }
{
    let whole = Snapshot::of(&config);
    let (centres, society) = config.into_parts();
    let names = centre_names(alloc, &centres)?;
    let agents = society.agents.items();
    let logs = empty_logs(alloc, agents.len())?;
    let cores = cores(alloc, agents, centres)?;
    let plan = Plan::new(names, society, whole);
    Ok(Opened { plan, cores, logs })
}

// A core for each centre; none, where there is no agent.
fn cores(
    alloc: Global,
    agents: &[AgentConf],
    centres: Vec<CentreConf>,
) -> Result<Vec<Core>, NoMemory>
    requires names { AreAgentNames (names_of agents.now) }
    requires centres { All IsCentre centres.items }
    ensures { IfOk result (λ cores. cores.items ≡ fresh_cores agents.now centres.items) }
{
    if agents.is_empty() {
        return Ok(Vec::new(alloc));
    }
    each_core(alloc, agents, centres)
}

// A core for each centre.
fn each_core(
    alloc: Global,
    agents: &[AgentConf],
    centres: Vec<CentreConf>,
) -> Result<Vec<Core>, NoMemory>
    requires some { 0 < length agents.now }
    requires names { AreAgentNames (names_of agents.now) }
    requires centres { All IsCentre centres.items }
    ensures { IfOk result
        (λ cores. cores.items ≡ map (fresh_core (names_of agents.now)) centres.items) }
{
    let mut cores = Vec::with_capacity(alloc, centres.len())?;
    for centre in centres {
        cores.push(core(alloc, agents, centre)?)?;
    }
    Ok(cores)
}

// The core of a centre.
fn core(alloc: Global, agents: &[AgentConf], centre: CentreConf) -> Result<Core, NoMemory>
    requires some { 0 < length agents.now }
    requires names { AreAgentNames (names_of agents.now) }
    requires centre { IsCentre centre }
    ensures { IfOk result (λ core. core ≡ fresh_core (names_of agents.now) centre) }
{
    let names = agent_names(alloc, agents)?;
    Core::new(
        alloc,
        centre.name,
        names,
        centre.budget,
        centre.clauses,
        centre.tuples.into_vec(),
    )
}

// So many logs without a row.
fn empty_logs(alloc: Global, count: usize) -> Result<Vec<Vec<LogRow>>, NoMemory>
    ensures count { IfOk result (λ logs. length logs.items ≡ count) }
    ensures empty { IfOk result (λ logs. All (λ log. log ≡ []) (rows_of logs.items)) }
{
    let mut logs = Vec::with_capacity(alloc, count)?;
    for _ in 0..count {
        logs.push(Vec::new(alloc))?;
    }
    Ok(logs)
}

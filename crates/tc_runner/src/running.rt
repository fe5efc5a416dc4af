//! Steps of all agents.
ghost use Rattle.std.specs.Prelude.{◌≡◌, ◌<◌, ◌≤◌, true, false, IfNone, IfOk, IfSome, OnOk};
ghost use Rattle.tc_config.specs.Good.{IsGood};
ghost use Rattle.tc_model.specs.Choices.{TheFirst};
ghost use Rattle.tc_runner.specs.Clients.{AreClients, left_in};
ghost use Rattle.tc_desk.specs.Logs.{rows_of};
ghost use Rattle.tc_runner.specs.Cores.{Goes, histories};
ghost use Rattle.tc_runner.specs.Runs.{IsGoodRun, MayGoOn};

use crate::clients::{Client, clients};
use crate::opening::Opened;
use crate::plans::Plan;
use crate::steps::step;
use std::alloc::Global;
use tc_bells::Roll;
use tc_centre::Core;
use tc_desk::{Gate, LogRow};
use tc_lists::NoMemory;

/// Goes on with a run that has come so far, until each agent has ended, or waits.
pub fn go_on<G: Gate>(alloc: Global, mut run: Opened, gate: &G) -> Result<Opened, NoMemory>
    requires { MayGoOn run }
    ensures plan { IfOk result (λ left. left.plan ≡ run.plan) }
    ensures good { IfOk result IsGoodRun }
    ensures goes { IfOk result MayGoOn }
{
    finish(alloc, &run.plan, &mut run.cores, &mut run.logs, gate)?;
    Ok(run)
}

/// Goes on with the scripts of all agents until each has ended, or waits.
///
/// The agents take a step in turn, in order, over and over, until none of them moved. One that waits
/// looks once, and again where its request was answered. The gate is passed before each ask. Where
/// memory ends the run stops amid a step, and could go on.
pub fn finish<G: Gate>(
    alloc: Global,
    plan: &Plan,
    cores: &mut [Core],
    logs: &mut [Vec<LogRow>],
    gate: &G,
) -> Result<(), NoMemory>
    requires { Goes plan.now cores.old (rows_of logs.old) }
    ensures good { OnOk result
        (IsGood TheFirst plan.now (histories plan.now cores.new) (rows_of logs.new)) }
    ensures goes { Goes plan.now cores.new (rows_of logs.new) }
{
    let mut clients = clients(alloc, plan, cores, logs)?;
    let roll = Roll::new(alloc, clients.len())?;
    while turns(alloc, plan, &mut clients, cores, logs, gate, &roll)? {}
    Ok(())
}

// One step of each agent that is called, and where none of them moved, of each agent. Whether one
// moved.
fn turns<G: Gate>(
    alloc: Global,
    plan: &Plan,
    clients: &mut [Client],
    cores: &mut [Core],
    logs: &mut [Vec<LogRow>],
    gate: &G,
    roll: &Roll,
) -> Result<bool, NoMemory>
    requires goes { Goes plan.now cores.old (rows_of logs.old) }
    requires clients { AreClients plan.now.agents (rows_of logs.old) clients.old }
    ensures goes { Goes plan.now cores.new (rows_of logs.new) }
    ensures clients { AreClients plan.now.agents (rows_of logs.new) clients.new }
    ensures less { IfOk result (λ moved. moved ≡ true
        → left_in plan.now.agents (rows_of logs.new) < left_in plan.now.agents (rows_of logs.old)) }
    ensures good { IfOk result (λ moved. moved ≡ false
        → IsGood TheFirst plan.now (histories plan.now cores.new) (rows_of logs.new)) }
{
    if sweep(alloc, plan, clients, cores, logs, gate, roll, false)? {
        return Ok(true);
    }
    sweep(alloc, plan, clients, cores, logs, gate, roll, true)
}

// One step of each agent, or of those alone that are called, in order. Whether one moved.
fn sweep<G: Gate>(
    alloc: Global,
    plan: &Plan,
    clients: &mut [Client],
    cores: &mut [Core],
    logs: &mut [Vec<LogRow>],
    gate: &G,
    roll: &Roll,
    all: bool,
) -> Result<bool, NoMemory>
    requires goes { Goes plan.now cores.old (rows_of logs.old) }
    requires clients { AreClients plan.now.agents (rows_of logs.old) clients.old }
    ensures goes { Goes plan.now cores.new (rows_of logs.new) }
    ensures clients { AreClients plan.now.agents (rows_of logs.new) clients.new }
    ensures most { IfOk result (λ _. left_in plan.now.agents (rows_of logs.new)
        ≤ left_in plan.now.agents (rows_of logs.old)) }
    ensures less { IfOk result (λ moved. moved ≡ true
        → left_in plan.now.agents (rows_of logs.new) < left_in plan.now.agents (rows_of logs.old)) }
    ensures good { IfOk result (λ moved. all ≡ true → moved ≡ false
        → IsGood TheFirst plan.now (histories plan.now cores.new) (rows_of logs.new)) }
{
    let agents = plan.agents();
    let mut moved = false;
    let mut place = 0;
    while let Some(agent) = next_agent(place, agents.len(), roll, all) {
        let (client, log) = (&mut clients[agent], &mut logs[agent]);
        if step(alloc, plan, &agents[agent], client, cores, log, gate, roll)? {
            moved = true;
        } else {
            roll.strike(agent);
        }
        place = agent + 1;
    }
    Ok(moved)
}

// The first agent from this place on, or the first that is called.
fn next_agent(place: usize, count: usize, roll: &Roll, all: bool) -> Option<usize>
    ensures some { IfSome result (λ agent. (place ≤ agent) × (agent < count)) }
    ensures each { IfSome result (λ agent. all ≡ true → agent ≡ place) }
    ensures none { IfNone result (all ≡ true → count ≤ place) }
{
    if !all {
        return roll.next(place, count);
    }
    if place < count {
        return Some(place);
    }
    None
}

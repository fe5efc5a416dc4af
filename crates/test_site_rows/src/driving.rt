//! Agents with scripts at the desks of a site, driven by workers to their ends.
ghost use Rattle.std.specs.Prelude.{◌≡◌, ◌<◌, All, IfOk, List, length};
ghost use Rattle.tc_policy.specs.declared.grants.Grant.{Grant};
ghost use Rattle.tc_sched.specs.Steps.{IsReady};
ghost use Rattle.tc_site.specs.Desks.{desk_of};
ghost use Rattle.tc_site.specs.Sites.{AreOfSite, KitState, roles_of};
ghost use Rattle.tc_workers.specs.Crews.{AreAtDesks, CanDrive};

use crate::logs::append_log;
use anyhow::anyhow;
use std::alloc::Global;
use std::sync::Wait;
use std::thread::Threads;
use tc_config::{AgentConf, Config, read_config};
use tc_desk::{Desk, NoGate, Warden};
use tc_lists::NoMemory;
use tc_policy::Roles;
use tc_sched::{Actor, Step, drive};
use tc_site::{AgentDesk, DeskKit, Site};
use tc_term::Name;

/// An agent that takes a tuple and then puts another, and an agent that puts the first.
const TAKER_AND_PUTTER: &[u8] = b"centre(c). role(r). grant(r,c,in). grant(r,c,out). \
agent(a,r). agent(b,r). script(a,[c ? in(p(X)), c ? out(q(X))]). script(b,[c ? out(p(1))]).";

/// What the first agent's log tells, and the second's, once each has ended.
const LOGS: &[u8] = b"1 c tuple p(1)\n2 c done\nended\n1 c done\nended\n";

/// A configuration, its site, and a kit for each agent.
#[derive(Drop)]
struct Setting {
    config: Config,
    site: Site<Roles>,
    kits: Vec<DeskKit<Roles>>,
}

/// Drives both agents with so many workers, and appends the title and whether each has ended with the
/// rows that it was to have.
pub fn report_driving<R: Threads + Wait + Sync>(
    rt: &R,
    alloc: Global,
    workers: usize,
    title: &[u8],
    into: &mut Vec<u8>,
) -> anyhow::Result<()>
    requires { 0 < workers }
{
    let Ok(config) = read_config(alloc, TAKER_AND_PUTTER) else {
        return Err(anyhow!("the configuration was not read"));
    };
    if config.agents().is_empty() {
        return Err(anyhow!("the configuration has no agent"));
    }
    let seen = driven(rt, alloc, setting_of(alloc, config)?, workers)?;
    into.extend_from_slice(title)?;
    if seen.as_slice() == LOGS {
        into.extend_from_slice(b"each has ended, and a step more says so: right\n")?;
        return Ok(());
    }
    into.extend_from_slice(b"wrong\n")?;
    into.extend_from_slice(&seen)?;
    Ok(())
}

// The site of a configuration that has an agent.
fn setting_of(alloc: Global, config: Config) -> Result<Setting, NoMemory>
    requires some { 0 < length config.agents }
    ensures kits { IfOk result (λ s. AreOfSite (λ (k : KitState (List Grant)). k.site)
        (λ (k : KitState (List Grant)). k.agent) s.site s.kits.items) }
    ensures can { IfOk result (λ s. CanDrive s.site s.config.agents) }
{
    let (site, kits) = Site::new(alloc, &config, config.roles().copy(alloc)?)?;
    Ok(Setting { config, site, kits })
}

// Drives the agents at their desks. What each log then tells, and what a step more of its agent says.
fn driven<R: Threads + Wait + Sync>(
    rt: &R,
    alloc: Global,
    setting: Setting,
    workers: usize,
) -> anyhow::Result<Vec<u8>>
    requires workers { 0 < workers }
    requires kits { AreOfSite (λ (k : KitState (List Grant)). k.site)
        (λ (k : KitState (List Grant)). k.agent) setting.site setting.kits.items }
    requires can { CanDrive setting.site setting.config.agents }
{
    let Setting { config, site, kits } = setting;
    let mut crew = at_desks(alloc, &site, kits, config.agents())?;
    drive(rt, &mut crew, alloc, site.names(), workers, &NoGate)?;
    Ok(last_steps(rt, alloc, site.names(), crew)?)
}

// Each agent at a desk, with its scripts.
fn at_desks<'a>(
    alloc: Global,
    site: &'a Site<Roles>,
    kits: Vec<DeskKit<Roles>>,
    agents: &'a [AgentConf],
) -> anyhow::Result<Vec<Actor<'a, AgentDesk<'a, Roles>>>>
    requires kits { AreOfSite (λ (k : KitState (List Grant)). k.site)
        (λ (k : KitState (List Grant)). k.agent) site.now kits.items }
    requires whole { site.now.roles ≡ roles_of agents.now }
    ensures { IfOk result (λ crew.
        AreAtDesks ⟦<Roles as Warden>⟧.permits site.now agents.now crew.items) }
{
    let mut crew = Vec::with_capacity(alloc, kits.len())?;
    let mut agents = agents.iter();
    for kit in kits {
        let Some(agent) = agents.next() else {
            return Err(anyhow!("a kit is no agent's"));
        };
        let Ok(place) = u32::try_from(crew.len()) else {
            return Err(anyhow!("the agents are too many"));
        };
        let desk = AgentDesk::new(alloc, site, kit);
        crew.push(Actor::new(desk, place, agent.scripts.items()))?;
    }
    Ok(crew)
}

// Makes one step more of each actor: the rows of its log, and what the step said.
fn last_steps<'a, R: Wait>(
    rt: &R,
    alloc: Global,
    names: &[Name],
    crew: Vec<Actor<'a, AgentDesk<'a, Roles>>>,
) -> Result<Vec<u8>, NoMemory>
    requires { All (IsReady desk_of 1 names.now) crew.items }
{
    let mut text = Vec::new(alloc);
    for mut member in crew {
        let step = member.step(rt, alloc, names, &NoGate)?;
        append_log(alloc, member.finish().log(), &mut text)?;
        text.extend_from_slice(told(step))?;
    }
    Ok(text)
}

// What a step says, as a line.
fn told(step: Step) -> &'static [u8] {
    match step {
        Step::Moved => b"moved\n",
        Step::Blocked => b"blocked\n",
        Step::Ended => b"ended\n",
    }
}

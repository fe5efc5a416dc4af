//! A run of a configuration on many threads.
ghost use Rattle.std.specs.Prelude.{◌≡◌, ◌<◌, length, IfOk};
ghost use Rattle.tc_runner.specs.Runs.{IsFresh, IsGoodRun, MayGoOn};

use crate::crew::drive_all;
use std::alloc::Global;
use std::sync::Wait;
use std::thread::Threads;
use tc_desk::{Gate, NoGate};
use tc_lists::NoMemory;
use tc_runner::{Opened, go_on};
use tc_site::{Closed, Site};

/// Runs the scripts of a configuration's agents, from their first asks to their ends.
///
/// The agents are dealt out to so many workers, each a thread. Once each has ended or waits, the
/// centres are closed: an agent whose request was answered meanwhile goes on there, in this thread.
/// The gate is passed before each ask of the workers.
pub fn work<R: Threads + Wait + Sync, G: Gate + Sync>(
    rt: &R,
    alloc: Global,
    opened: Opened,
    workers: usize,
    gate: &G,
) -> Result<Opened, NoMemory>
    requires workers { 0 < workers }
    requires fresh { IsFresh opened }
    ensures plan { IfOk result (λ run. run.plan ≡ opened.plan) }
    ensures good { IfOk result IsGoodRun }
    ensures goes { IfOk result MayGoOn }
{
    if opened.plan.agents().is_empty() {
        return go_on(alloc, opened, &NoGate);
    }
    let left = shared(rt, alloc, opened, workers, gate)?;
    go_on(alloc, left, &NoGate)
}

// How far the workers bring the run of some agents, at centres that they share.
fn shared<R: Threads + Wait + Sync, G: Gate + Sync>(
    rt: &R,
    alloc: Global,
    opened: Opened,
    workers: usize,
    gate: &G,
) -> Result<Opened, NoMemory>
    requires workers { 0 < workers }
    requires some { 0 < length opened.plan.agents }
    requires fresh { IsFresh opened }
    ensures plan { IfOk result (λ left. left.plan ≡ opened.plan) }
    ensures goes { IfOk result MayGoOn }
{
    let Opened { plan, cores, .. } = opened;
    let names = plan.copy_centres(alloc)?;
    let roles = plan.roles().copy(alloc)?;
    let agents = plan.agents();
    let (site, kits) = Site::of_cores(alloc, names, cores, agents, roles)?;
    let ended = drive_all(rt, alloc, &site, kits, agents, workers, gate)?;
    let Closed { cores, logs } = site.close(alloc, ended)?;
    Ok(Opened { plan, cores, logs })
}

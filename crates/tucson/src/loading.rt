//! The workload of a number of agents, run; and the summary of that.
ghost use Rattle.std.specs.Prelude.{◌≡◌, ◌≤◌, ◌++◌, IfErr, IfOk, Some};
ghost use Rattle.std.specs.Prelude.{drop, length, map};
ghost use Rattle.tc_config.specs.Good.{IsGood};
ghost use Rattle.tc_config.specs.Texts.{IsRefused, Spells};
ghost use Rattle.tc_config.specs.declared.configs.CentreConf.{CentreConf};
ghost use Rattle.tc_io.specs.Faults.{Counts};
ghost use Rattle.tc_io.specs.Sinks.{sink_of};
ghost use Rattle.tc_io.specs.Sources.{SourceState};
ghost use Rattle.tc_load.specs.Counts.{counted_in};
ghost use Rattle.tc_load.specs.Workload.{load_text};
ghost use Rattle.tc_model.specs.Choices.{TheFirst};
ghost use Rattle.tc_visits.specs.Service.{DoorState};
ghost use Rattle.tucson.specs.Answer.{IsOutcomeOf, IsTextOf};
ghost use Rattle.tucson.specs.Ending.{Returns, WritesDue};
ghost use Rattle.tucson.specs.Reading.{IsStopFor};
ghost use Rattle.tucson.specs.Texts.{core_count, load_summary};
ghost use Rattle.tucson.specs.declared.limits.TheConstants.{MOST_AGENTS};

use crate::command::Command;
use crate::limits::USUAL_WORKERS;
use crate::reading::{Stop, read_text};
use crate::refusing::stopped;
use crate::running::run_config;
use crate::status::Status;
use crate::writing::{is_blocked, status_of_run, typed_histories, typed_logs, written};
use std::alloc::Global;
use std::sync::Wait;
use std::thread::Threads;
use tc_centre::Core;
use tc_config::{CentreConf, Config};
use tc_desk::Gate;
use tc_io::Sink;
use tc_lists::NoMemory;
use tc_load::{count_of, counted_in, load_text, print_summary};
use tc_runner::Opened;

/// Runs the workload of so many agents, drawn from this start, on the usual number of workers, and
/// writes what its centres have counted.
///
/// It is a call of the command for that, and leaves any source and any door as they are. Contracts
/// leave open that the workload's own text is refused as a configuration; it never was.
pub fn load_main<R: Threads + Wait + Sync, K: Sink, G: Gate + Sync>(
    rt: &R,
    alloc: Global,
    agents: u32,
    start: u64,
    sink: &mut K,
    gate: &G,
) -> Status
    requires some { 1 ≤ agents }
    requires few { agents ≤ MOST_AGENTS }
    ensures { (source : SourceState) → (door : DoorState) → Returns (record {
      command = Some (Command.Load agents start);
      source = source;
      source_after = source;
      sink = sink_of K.taken K.write_faults K.sure sink.old;
      sink_after = sink_of K.taken K.write_faults K.sure sink.new;
      door = door;
      door_after = door;
    }) result }
{
    match workload(alloc, agents, start) {
        Ok(config) => load(rt, alloc, agents, start, config, sink, gate),
        Err(stop) => stopped(alloc, stop, sink),
    }
}

// The configuration of a workload.
fn workload(alloc: Global, agents: u32, start: u64) -> Result<Config, Stop>
    ensures found { IfOk result (Spells (load_text agents start)) }
    ensures stopped { IfErr result (IsStopFor IsRefused (load_text agents start)) }
{
    let mut text = Vec::new(alloc);
    load_text(alloc, agents, start, &mut text)?;
    read_text(alloc, &text)
}

// Runs the configuration of a workload, and writes the summary of that.
fn load<R: Threads + Wait + Sync, K: Sink, G: Gate + Sync>(
    rt: &R,
    alloc: Global,
    agents: u32,
    start: u64,
    config: Config,
    sink: &mut K,
    gate: &G,
) -> Status
    ensures tells { WritesDue
        (IsOutcomeOf (IsGood TheFirst config) (load_summary agents start config))
        (sink_of K.taken K.write_faults K.sure sink.old)
        (sink_of K.taken K.write_faults K.sure sink.new) result }
    ensures writes { Counts (result ≡ Status.WriteFault)
        (K.write_faults sink.old) (K.write_faults sink.new) }
    ensures reads { result ≡ Status.ReadFault → ⊥ }
{
    match summary(rt, alloc, agents, start, config, gate) {
        Ok((blocked, text)) => written(status_of_run(blocked), &text, sink),
        Err(_) => Status::NoMemory,
    }
}

// Runs the configuration of a workload: whether some agent waits at the end, and the summary.
fn summary<R: Threads + Wait + Sync, G: Gate + Sync>(
    rt: &R,
    alloc: Global,
    agents: u32,
    start: u64,
    config: Config,
    gate: &G,
) -> Result<(bool, Vec<u8>), NoMemory>
    ensures { IfOk result (λ r.
        IsTextOf (IsGood TheFirst config) (load_summary agents start config) r.0 r.1.items) }
{
    let first = first_counts(alloc, config.centres())?;
    let run = run_config(rt, alloc, USUAL_WORKERS, config, gate)?;
    let counts = last_counts(alloc, &first, &run.cores)?;
    typed_histories(&run.plan, &run.cores);
    typed_logs(&run.logs);
    let blocked = is_blocked(&run.logs);
    let mut text = Vec::new(alloc);
    print_summary(alloc, agents, start, &counts, blocked, &mut text)?;
    Ok((blocked, text))
}

// What each centre has counted before the run.
fn first_counts(alloc: Global, centres: &[CentreConf]) -> Result<Vec<Option<i64>>, NoMemory>
    ensures { IfOk result (λ counts.
        counts.items ≡ map (λ (s : CentreConf). counted_in s.tuples) centres.now) }
{
    let mut counts = Vec::with_capacity(alloc, centres.len())?;
    for centre in centres {
        counts.push(counted_in(centre.tuples.items()))?;
    }
    Ok(counts)
}

// What each centre has counted behind the run: one that isn't opened what it had before.
fn last_counts(
    alloc: Global,
    first: &[Option<i64>],
    cores: &[Core],
) -> Result<Vec<Option<i64>>, NoMemory>
    requires { length cores.now ≤ length first.now }
    ensures { IfOk result (λ counts. counts.items
        ≡ map core_count cores.now ++ drop (length cores.now) first.now) }
{
    let mut counts = Vec::with_capacity(alloc, first.len())?;
    for core in cores {
        counts.push(core_count(core))?;
    }
    counts.extend_from_slice(&first[cores.len()..])?;
    Ok(counts)
}

// What a centre has counted: the number of its first tuple `count(V)`.
fn core_count(core: &Core) -> Option<i64>
    ensures { result ≡ core_count core.now }
{
    for place in 0..core.tuples() {
        if let Some(tuple) = core.tuple(place) {
            let number = count_of(tuple);
            if number.is_some() {
                return number;
            }
        }
    }
    None
}

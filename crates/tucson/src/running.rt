//! A configuration, read to its end and run.
ghost use Rattle.std.specs.Prelude.{◌≡◌, ◌<◌, ◌≤◌, IfOk, Some};
ghost use Rattle.tc_config.specs.Good.{IsGood};
ghost use Rattle.tc_io.specs.Faults.{Counts};
ghost use Rattle.tc_io.specs.Sinks.{sink_of};
ghost use Rattle.tc_io.specs.Sources.{source_of};
ghost use Rattle.tc_model.specs.Choices.{TheFirst};
ghost use Rattle.tc_runner.specs.Runs.{HasCores, IsGoodRun};
ghost use Rattle.tc_visits.specs.Service.{DoorState};
ghost use Rattle.tucson.specs.Answer.{IsOutcomeOf};
ghost use Rattle.tucson.specs.Ending.{Returns, WritesDue};
ghost use Rattle.tucson.specs.Texts.{whole_text};
ghost use Rattle.tucson.specs.declared.limits.TheConstants.{MOST_WORKERS};

use crate::command::Command;
use crate::reading::read_source_by;
use crate::refusing::stopped;
use crate::status::Status;
use crate::writing::write_run;
use std::alloc::Global;
use std::mem;
use std::sync::Wait;
use std::thread::Threads;
use tc_config::Config;
use tc_desk::Gate;
use tc_io::{Sink, Source};
use tc_lists::NoMemory;
use tc_runner::{Opened, go_on, open};
use tc_workers::work;

/// Reads a configuration, runs the scripts of its agents on so many workers,
/// and writes what came of it.
///
/// It is a call of the command to run on so many, and leaves any door as it is.
pub fn run_main<R: Threads + Wait + Sync, S: Source, K: Sink, G: Gate + Sync>(
    rt: &R,
    alloc: Global,
    workers: usize,
    source: &mut S,
    sink: &mut K,
    gate: &G,
) -> Status
    requires some { 1 ≤ workers }
    requires few { workers ≤ MOST_WORKERS }
    ensures { (door : DoorState) → Returns (record {
      command = Some (Command.Run workers);
      source = source_of S.left S.read_faults S.sure source.old;
      source_after = source_of S.left S.read_faults S.sure source.new;
      sink = sink_of K.taken K.write_faults K.sure sink.old;
      sink_after = sink_of K.taken K.write_faults K.sure sink.new;
      door = door;
      door_after = door;
    }) result }
{
    match read_source_by(rt, alloc, workers, source) {
        Ok(config) => run(rt, alloc, workers, config, sink, gate),
        Err(stop) => stopped(alloc, stop, sink),
    }
}

// Runs a configuration, and writes what came of it.
fn run<R: Threads + Wait + Sync, K: Sink, G: Gate + Sync>(
    rt: &R,
    alloc: Global,
    workers: usize,
    config: Config,
    sink: &mut K,
    gate: &G,
) -> Status
    requires { 0 < workers }
    ensures tells { WritesDue (IsOutcomeOf (IsGood TheFirst config) (whole_text config))
        (sink_of K.taken K.write_faults K.sure sink.old)
        (sink_of K.taken K.write_faults K.sure sink.new) result }
    ensures writes { Counts (result ≡ Status.WriteFault)
        (K.write_faults sink.old) (K.write_faults sink.new) }
    ensures reads { result ≡ Status.ReadFault → ⊥ }
{
    match run_config(rt, alloc, workers, config, gate) {
        Ok(run) => {
            let status = write_run(rt, alloc, workers, &run, sink);
            // The process ends next. To give back each row would take a sixteenth of a run.
            mem::forget(run);
            status
        }
        Err(_) => Status::NoMemory,
    }
}

/// A run of the configuration, from its first ask to its end.
pub fn run_config<R: Threads + Wait + Sync, G: Gate + Sync>(
    rt: &R,
    alloc: Global,
    workers: usize,
    config: Config,
    gate: &G,
) -> Result<Opened, NoMemory>
    requires { 0 < workers }
    ensures plan { IfOk result (λ run. run.plan ≡ config) }
    ensures good { IfOk result IsGoodRun }
    ensures cores { IfOk result HasCores }
{
    let opened = open(alloc, config)?;
    if workers == 1 {
        return go_on(alloc, opened, gate);
    }
    work(rt, alloc, opened, workers, gate)
}

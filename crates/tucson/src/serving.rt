//! A configuration, read to its end, whose agents are served over connections.
ghost use Rattle.std.specs.Prelude.{◌≡◌, ◌≤◌, IfOk, OnErr, Some, length};
ghost use Rattle.tc_io.specs.Faults.{Counts};
ghost use Rattle.tc_io.specs.Sinks.{sink_of};
ghost use Rattle.tc_io.specs.Sources.{source_of};
ghost use Rattle.tc_runner.specs.Runs.{HasCores};
ghost use Rattle.tc_visits.specs.Service.{DoorState, MayUseDoor, door_of};
ghost use Rattle.tucson.specs.Answer.{IsOutcomeOfService};
ghost use Rattle.tucson.specs.Ending.{Returns, WritesDue};
ghost use Rattle.tucson.specs.Serving.{IsServed};
ghost use Rattle.tucson.specs.Status.{status_of_service};

use crate::command::Command;
use crate::limits::USUAL_WORKERS;
use crate::reading::read_source;
use crate::refusing::stopped;
use crate::status::Status;
use crate::writing::{is_blocked, status_of_run, write_whole};
use std::alloc::Global;
use std::sync::Wait;
use std::thread::Threads;
use tc_config::Config;
use tc_io::{Door, Sink, Source};
use tc_lists::NoMemory;
use tc_runner::open;
use tc_visits::Service;

/// Reads a configuration, listens at a port, serves the agents over the connections that the door
/// accepts, the first agent over the first, and writes what came of it once all sessions have
/// ended.
///
/// It is a call of the command for that. The agents' scripts aren't run. Where the door fails, the
/// agents that have a connection are served all the same.
pub fn serve_main<R: Threads + Wait + Sync, S: Source, K: Sink, D: Door>(
    rt: &R,
    alloc: Global,
    port: u16,
    source: &mut S,
    sink: &mut K,
    door: &mut D,
) -> Status
    requires { 1 ≤ port }
    ensures { Returns (record {
      command = Some (Command.Serve port);
      source = source_of S.left S.read_faults S.sure source.old;
      source_after = source_of S.left S.read_faults S.sure source.new;
      sink = sink_of K.taken K.write_faults K.sure sink.old;
      sink_after = sink_of K.taken K.write_faults K.sure sink.new;
      door = door_of D.opened D.door_faults door.old;
      door_after = door_of D.opened D.door_faults door.new;
    }) result }
{
    match read_source(alloc, source) {
        Ok(config) => serve(rt, alloc, port, config, sink, door),
        Err(stop) => stopped(alloc, stop, sink),
    }
}

// Listens, serves the agents of a configuration, and writes what came of it.
fn serve<R: Threads + Wait + Sync, K: Sink, D: Door>(
    rt: &R,
    alloc: Global,
    port: u16,
    config: Config,
    sink: &mut K,
    door: &mut D,
) -> Status
    ensures tells { WritesDue (IsOutcomeOfService (door_of D.opened D.door_faults door.old)
        (door_of D.opened D.door_faults door.new) config)
        (sink_of K.taken K.write_faults K.sure sink.old)
        (sink_of K.taken K.write_faults K.sure sink.new) result }
    ensures memory { result ≡ Status.NoMemory → MayUseDoor (length config.agents)
        (door_of D.opened D.door_faults door.old) (door_of D.opened D.door_faults door.new) }
    ensures writes { Counts (result ≡ Status.WriteFault)
        (K.write_faults sink.old) (K.write_faults sink.new) }
    ensures reads { result ≡ Status.ReadFault → ⊥ }
{
    if door.listen(port).is_err() {
        return Status::NetFault;
    }
    match service(rt, alloc, config, door) {
        Ok(service) => write_service(rt, alloc, &service, sink),
        Err(_) => Status::NoMemory,
    }
}

// A service of the agents of a configuration, from the first connection to the last end.
fn service<R: Threads + Wait + Sync, D: Door>(
    rt: &R,
    alloc: Global,
    config: Config,
    door: &mut D,
) -> Result<Service, NoMemory>
    ensures plan { IfOk result (λ s. s.run.plan ≡ config) }
    ensures served { IfOk result (IsServed (door_of D.opened D.door_faults door.old)
        (door_of D.opened D.door_faults door.new)) }
    ensures cores { IfOk result (λ s. HasCores s.run) }
    ensures door { OnErr result (MayUseDoor (length config.agents)
        (door_of D.opened D.door_faults door.old) (door_of D.opened D.door_faults door.new)) }
{
    let opened = open(alloc, config)?;
    tc_visits::serve(rt, alloc, opened, door)
}

// Writes the histories and the logs of a service.
fn write_service<R: Threads + Sync, K: Sink>(
    rt: &R,
    alloc: Global,
    service: &Service,
    sink: &mut K,
) -> Status
    requires { HasCores service.now.run }
    ensures tells { (door : DoorState) → (after : DoorState) → IsServed door after service.now
        → WritesDue (IsOutcomeOfService door after service.now.run.plan)
        (sink_of K.taken K.write_faults K.sure sink.old)
        (sink_of K.taken K.write_faults K.sure sink.new) result }
    ensures writes { Counts (result ≡ Status.WriteFault)
        (K.write_faults sink.old) (K.write_faults sink.new) }
    ensures reads { result ≡ Status.ReadFault → ⊥ }
{
    let blocked = is_blocked(&service.run.logs);
    let status = status_of_service(service.all, service.enough, blocked);
    write_whole(
        rt,
        alloc,
        USUAL_WORKERS,
        status,
        &service.run,
        blocked,
        sink,
    )
}

// The status of a service: want of memory comes first, and then a fault of the door.
fn status_of_service(all: bool, enough: bool, blocked: bool) -> Status
    ensures { result ≡ status_of_service all enough blocked }
{
    match (enough, all) {
        (false, _) => Status::NoMemory,
        (true, false) => Status::NetFault,
        (true, true) => status_of_run(blocked),
    }
}

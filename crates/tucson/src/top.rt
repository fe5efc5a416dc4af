//! The top call.
ghost use Rattle.std.specs.Prelude.{map, Option};
ghost use Rattle.tc_io.specs.Sinks.{sink_of};
ghost use Rattle.tc_io.specs.Sources.{source_of};
ghost use Rattle.tc_visits.specs.Service.{door_of};
ghost use Rattle.tucson.specs.Commands.{IsCommandOf};
ghost use Rattle.tucson.specs.Ending.{Returns};

use crate::command::{Command, command_of};
use crate::loading::load_main;
use crate::running::run_main;
use crate::serving::serve_main;
use crate::status::Status;
use crate::verifying::verify_main;
use crate::writing::written;
use std::alloc::Global;
use std::sync::Wait;
use std::thread::Threads;
use tc_desk::Gate;
use tc_io::{Door, Sink, Source};

const USAGE: &[u8] = b"usage: tucson run [--workers N] | verify | load N SEED | serve PORT\n";

/// Does what the words ask for.
///
/// `run` reads a configuration, runs the scripts of its agents, dealt out to so many workers, and
/// writes the histories of its centres and the logs of its agents. `load` does so with a workload
/// of so many agents, drawn from a start, and writes what each centre has counted. `serve` reads a
/// configuration, serves its agents over connections, and writes their histories and logs.
/// `verify` reads a configuration, a line `%%` and a text, and writes `yes` where the text is that
/// of a run of the configuration, whatever was chosen in it, or else the first place at which it
/// isn't. It runs nothing.
///
/// However threads interleave, under `Ended` and `Blocked` what the others write holds for each
/// centre one history that is a run from its configured state, and every reply in the logs is the
/// one that this run gives; each served call of a script stands in it once, in script order. Under
/// `Blocked` some agent still waits. The gate is passed before each ask of a script, but for those
/// that are made once the workers have ended; no clause speaks of it.
pub fn tucson<R: Threads + Wait + Sync, S: Source, K: Sink, G: Gate + Sync, D: Door>(
    rt: &R,
    alloc: Global,
    words: &[Vec<u8>],
    source: &mut S,
    sink: &mut K,
    gate: &G,
    door: &mut D,
) -> Status
    // The words ask for a command or for none, and the call returns as one for that does: it ends
    // as its status says and as words and input decide, and each fault of reading, of writing and
    // of the door is told.
    ensures { (command : Option Command) × IsCommandOf (map (λ w. w.items) words.now) command
        × Returns (record {
          command = command;
          source = source_of S.left S.read_faults S.sure source.old;
          source_after = source_of S.left S.read_faults S.sure source.new;
          sink = sink_of K.taken K.write_faults K.sure sink.old;
          sink_after = sink_of K.taken K.write_faults K.sure sink.new;
          door = door_of D.opened D.door_faults door.old;
          door_after = door_of D.opened D.door_faults door.new;
        }) result }
{
    match command_of(words) {
        Some(Command::Run { workers }) => run_main(rt, alloc, workers, source, sink, gate),
        Some(Command::Load { agents, start }) => load_main(rt, alloc, agents, start, sink, gate),
        Some(Command::Serve { port }) => serve_main(rt, alloc, port, source, sink, door),
        Some(Command::Verify) => verify_main(alloc, source, sink),
        None => written(Status::Usage, USAGE, sink),
    }
}

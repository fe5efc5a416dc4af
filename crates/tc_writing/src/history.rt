//! Histories and logs, handed on line by line.
ghost use Rattle.std.specs.Prelude.{◌≡◌, ◌<◌, [], All, OnOk, length};
ghost use Rattle.tc_model.specs.Calls.{id_of};
ghost use Rattle.tc_histline.specs.Text.{end_text, entry_text};
ghost use Rattle.tc_histtext.specs.Text.{history_text};
ghost use Rattle.tc_histline.specs.declared.versions.Version.TheVariants.{Two};
ghost use Rattle.tc_histline.specs.Text.{row_text, version_text};
ghost use Rattle.tc_histtext.specs.Text.{log_text};
ghost use Rattle.tc_histline.specs.Headings.{heading_text};
ghost use Rattle.tc_io.specs.Flow.{HandsOn, flow};

use crate::lines::Lines;
use crate::pieces::spill;
use crate::waves::write_by;
use std::alloc::Global;
use std::thread::Threads;
use tc_desk::LogRow;
use tc_histtext::{Heading, Version, print_end, print_heading, print_version};
use tc_io::{Sink, SinkFault, write_kept};
use tc_model::Entry;
use tc_term::Name;

/// Hands on the first line.
#[tactic(auto, using(tc_io::proofs::Flows::kept_first))]
pub fn write_version<K: Sink>(sink: &mut K, kept: &mut Vec<u8>) -> Result<(), SinkFault>
    ensures { HandsOn (version_text Two)
        (flow K.taken K.write_faults K.sure sink.old kept.old.items)
        (flow K.taken K.write_faults K.sure sink.new kept.new.items) result }
{
    print_version(Version::Two, kept)?;
    spill(sink, kept)
}

/// Hands on the history of a centre, by its name and the names of all agents. So many workers print
/// it, where it is long.
pub fn write_history<R: Threads + Sync, K: Sink>(
    rt: &R,
    alloc: Global,
    workers: usize,
    agents: &[Name],
    centre: &Name,
    history: &[Entry],
    sink: &mut K,
    kept: &mut Vec<u8>,
) -> Result<(), SinkFault>
    requires workers { 0 < workers }
    requires agents { All (λ e. (id_of e).agent < length agents.now) history.now }
    ensures { HandsOn (history_text agents.now centre.now history.now)
        (flow K.taken K.write_faults K.sure sink.old kept.old.items)
        (flow K.taken K.write_faults K.sure sink.new kept.new.items) result }
{
    print_heading(alloc, Heading::Centre, centre, kept)?;
    spill(sink, kept)?;
    write_by(
        rt,
        alloc,
        workers,
        Lines::Entries(agents, history),
        sink,
        kept,
    )
}

/// Hands on the log of an agent. So many workers print it, where it is long.
pub fn write_log<R: Threads + Sync, K: Sink>(
    rt: &R,
    alloc: Global,
    workers: usize,
    agent: &Name,
    log: &[LogRow],
    sink: &mut K,
    kept: &mut Vec<u8>,
) -> Result<(), SinkFault>
    requires { 0 < workers }
    ensures { HandsOn (log_text Two agent.now log.now)
        (flow K.taken K.write_faults K.sure sink.old kept.old.items)
        (flow K.taken K.write_faults K.sure sink.new kept.new.items) result }
{
    print_heading(alloc, Heading::Agent, agent, kept)?;
    spill(sink, kept)?;
    write_by(rt, alloc, workers, Lines::Rows(log), sink, kept)
}

/// Hands on the last line, and writes all that is kept.
#[tactic(auto, using(tc_io::proofs::Flows::kept_first))]
pub fn write_end<K: Sink>(blocked: bool, sink: &mut K, kept: &mut Vec<u8>) -> Result<(), SinkFault>
    ensures hands { HandsOn (end_text blocked)
        (flow K.taken K.write_faults K.sure sink.old kept.old.items)
        (flow K.taken K.write_faults K.sure sink.new kept.new.items) result }
    ensures empty { OnOk result (kept.new.items ≡ []) }
{
    print_end(blocked, kept)?;
    write_kept(sink, kept)
}

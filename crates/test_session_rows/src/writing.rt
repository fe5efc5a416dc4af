//! What is left of a site, as text.
use std::alloc::Global;
use std::thread::Threads;
use tc_centre::Core;
use tc_config::AgentConf;
use tc_desk::has_pending;
use tc_histtext::{Version, print_row};
use tc_io::{SinkFault, SureSink};
use tc_lists::{NoMemory, append_number};
use tc_site::Closed;
use tc_writing::{write_end, write_history, write_log, write_version};

/// Appends the text of the histories and the logs of these agents.
pub fn append_text<R: Threads + Sync>(
    rt: &R,
    alloc: Global,
    agents: &[AgentConf],
    closed: &Closed,
    into: &mut Vec<u8>,
) -> Result<(), SinkFault> {
    let mut sink = SureSink::new(alloc);
    let mut kept = Vec::new(alloc);
    write_version(&mut sink, &mut kept)?;
    for core in &closed.cores {
        write_core(rt, alloc, core, &mut sink, &mut kept)?;
    }
    for (agent, log) in agents.iter().zip(&closed.logs) {
        write_log(rt, alloc, 1, &agent.name, log, &mut sink, &mut kept)?;
    }
    let blocked = closed.logs.iter().any(|log| has_pending(log));
    write_end(blocked, &mut sink, &mut kept)?;
    into.extend_from_slice(sink.taken())?;
    Ok(())
}

// Hands on the history of a core.
fn write_core<R: Threads + Sync>(
    rt: &R,
    alloc: Global,
    core: &Core,
    sink: &mut SureSink,
    kept: &mut Vec<u8>,
) -> Result<(), SinkFault> {
    write_history(
        rt,
        alloc,
        1,
        core.agents(),
        core.name(),
        core.history(),
        sink,
        kept,
    )
}

/// Appends how many entries each history has, and the rows of the log at this place, in the second
/// version.
pub fn append_brief(
    alloc: Global,
    closed: &Closed,
    place: usize,
    into: &mut Vec<u8>,
) -> Result<(), NoMemory> {
    for core in &closed.cores {
        into.extend_from_slice(b"entries: ")?;
        append_number(core.history().len() as u64, into)?;
        into.extend_from_slice(b"\n")?;
    }
    let Some(log) = closed.logs.get(place) else {
        return Ok(());
    };
    for row in log {
        print_row(alloc, Version::Two, row, into)?;
    }
    Ok(())
}

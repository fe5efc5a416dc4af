//! Worked rows of tuple centres that threads share.
//!
//! Each row makes a centre of its own, runs a thread for each agent, and holds what came of that
//! against what was worked out by hand. A line says whether it was right; where it wasn't, what was
//! seen stands behind. What is printed is the same however the threads come.
#![tactic(auto)]

mod calls;
mod fault;
mod lists;
mod moves;
mod outcomes;
mod playing;
mod stage;
mod texts;
mod together;
mod waiting;

use calls::{report_holding, report_polls, report_taking, report_turns};
use tc_io::{StdSink, write_all};
use waiting::report_waiting;

fn main(rt: HostRuntime) -> anyhow::Result<()> {
    let alloc = rt.alloc();
    let mut told = Vec::new(alloc);
    report_taking(&rt, alloc, &mut told)?;
    report_turns(&rt, alloc, &mut told)?;
    report_polls(&rt, alloc, &mut told)?;
    report_holding(&rt, alloc, &mut told)?;
    report_waiting(&rt, alloc, &mut told)?;
    write_all(&mut StdSink::new(rt.stdout()), &told)?;
    Ok(())
}

//! Worked rows of agents at the desks of a site.
//!
//! Each row sets a site up from a configuration, and holds what came of its agents against what was
//! worked out by hand. A line says whether it was right. What is printed is the same however the
//! threads come.
#![tactic(auto)]

mod driving;
mod holding;
mod logs;
mod pairs;
mod polling;

use driving::report_driving;
use holding::report_holding;
use polling::report_polling;
use tc_io::{StdSink, write_all};

fn main(rt: HostRuntime) -> anyhow::Result<()> {
    let alloc = rt.alloc();
    let mut told = Vec::new(alloc);
    report_holding(&rt, alloc, &mut told)?;
    report_polling(&rt, alloc, &mut told)?;
    report_driving(&rt, alloc, 1, b"agents a and b, 1 worker: ", &mut told)?;
    report_driving(&rt, alloc, 2, b"agents a and b, 2 workers: ", &mut told)?;
    write_all(&mut StdSink::new(rt.stdout()), &told)?;
    Ok(())
}

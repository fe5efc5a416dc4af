//! Runs whole configurations with one to 64 workers, and holds every text against a check of its own,
//! and against `verify`, which has to say the same.
//!
//! The check is that of test_run_check, which shares no code with what serves calls.
//!
//! What is run, a line for each run:
//!
//! | Runs | Show |
//! |---|---|
//! | configurations drawn from a seed | that texts are right where calls meet, wait and are answered |
//! | the same with reactions | that cascades are right: fired and failed, over the budget, replaced |
//! | rings, locks, pairs and a meeting | that logs which don't depend on the order of calls stay the same |
//! | philosophers, a counter and a barrier | the same where reactions do the work |
//! | two agents and a gate | that agents of two workers go on side by side |
//! | texts that are damaged | that the check and `verify` tell each damage |
//! | 1,000 agents at 64 centres | the same as the first, at size |
//! | the table on standard input | that rows worked out by hand for one worker are right with several too |
//!
//! In that table a configuration stands behind each line `%% NAME`, and before the first a comment.
#![tactic(auto)]

mod both;
mod damage;
mod gates;
mod harm;
mod lines;
mod report;
mod rows;
mod running;

use harm::report_damage;
use report::{report_crowd, report_drawn, report_fixed, report_gate, report_rows};
use tc_io::{StdSink, StdSource, read_all, write_all};

/// The most bytes that a table may have.
const MOST_BYTES: usize = 1 << 20;

fn main(rt: HostRuntime) -> anyhow::Result<()> {
    let alloc = rt.alloc();
    let table = read_all(alloc, &mut StdSource::new(rt.stdin()), MOST_BYTES)?;
    let mut told = Vec::new(alloc);
    report_drawn(&rt, alloc, &mut told)?;
    report_fixed(&rt, alloc, &mut told)?;
    report_gate(&rt, alloc, &mut told)?;
    report_damage(&rt, alloc, &mut told)?;
    report_crowd(&rt, alloc, &mut told)?;
    report_rows(&rt, alloc, &table, &mut told)?;
    write_all(&mut StdSink::new(rt.stdout()), &told)?;
    Ok(())
}

//! Reads a table of histories, and prints of each which entries may come next, and what they leave.
//!
//! A row is the line `%% NAME`, then the budget behind `%budget`, the clauses behind `%clauses` and
//! the tuples, with a dot behind each, behind `%tuples`; each of these lines may be missing. Entries
//! follow, of the agent a, with their items. Its answer is `yes` or `no` for each entry, where those
//! that may not come next are passed over, and the tuples that are left.
//!
//! What the table shows beyond what is proved: that the tables of calls and of answers, cascades and
//! bodies at any choice say what is meant, and that calls answer where memory is ample. Which
//! entries may come next was worked out by hand.
#![tactic(auto)]

mod centre;
mod entries;
mod printing;
mod rows;

use printing::print_row;
use rows::rows;
use tc_io::{StdSink, StdSource, read_all, write_all};

/// The most bytes that a table may have.
const MOST_BYTES: usize = 1 << 20;

fn main(rt: HostRuntime) -> anyhow::Result<()> {
    let alloc = rt.alloc();
    let table = read_all(alloc, &mut StdSource::new(rt.stdin()), MOST_BYTES)?;
    let mut told = Vec::new(alloc);
    for row in rows(alloc, &table)? {
        print_row(alloc, &row, &mut told)?;
    }
    write_all(&mut StdSink::new(rt.stdout()), &told)?;
    Ok(())
}

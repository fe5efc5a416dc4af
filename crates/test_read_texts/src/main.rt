//! Reads a table of texts back, and prints of each whether it is one, or which line is first at
//! fault.
//!
//! A row is the line `%% NAME`, then the names of centres behind `%centres` and those of agents
//! behind `%agents`, and then the lines of the text. Behind `%bytes` stand bytes in which `\n` is an
//! LF and `\0` a NUL, and which the text goes on with.
//!
//! What the table shows beyond what is proved: that the definition of a text says what is meant, and
//! that reading answers where memory is ample. Which line is at fault was worked out by hand.
#![tactic(auto)]

mod rows;

use rows::{print_row, rows};
use tc_io::{StdSink, StdSource, read_all, write_all};

/// The most bytes that a table may have.
const MOST_BYTES: usize = 1 << 20;

fn main(rt: HostRuntime) -> anyhow::Result<()> {
    let alloc = rt.alloc();
    let table = read_all(alloc, &mut StdSource::new(rt.stdin()), MOST_BYTES)?;
    let mut told = Vec::new(alloc);
    for row in rows(alloc, &table)? {
        print_row(alloc, &row, &mut told)?;
    }
    write_all(&mut StdSink::new(rt.stdout()), &told)?;
    Ok(())
}

//! Reads a table of inputs of `verify` and `audit`, and prints of each its verdict as the text of a
//! run, and that as the text of a service.
//!
//! A row is the line `== NAME`, and then the lines of the input: a configuration, a line `%%` and a
//! text. What stands behind `%end ` is a last line without an end.
//!
//! What the table shows beyond what is proved: that the definitions of a run, of a service and of
//! their texts say what is meant, and that verdicts come where memory is ample. They were worked out
//! by hand.
#![tactic(auto)]

mod rows;

use rows::{print_row, rows};
use tc_io::{StdSink, StdSource, read_all, write_all};

/// The most bytes that a table may have.
const MOST_BYTES: usize = 1 << 20;

fn main(rt: HostRuntime) -> anyhow::Result<()> {
    let alloc = rt.alloc();
    let table = read_all(alloc, &mut StdSource::new(rt.stdin()), MOST_BYTES)?;
    let mut told = Vec::new(alloc);
    for row in rows(alloc, &table)? {
        print_row(alloc, &row, &mut told)?;
    }
    write_all(&mut StdSink::new(rt.stdout()), &told)?;
    Ok(())
}

//! Prints a workload whole, and of some others the length and the code of the text, and the summary
//! of a run in which each centre has counted what was drawn. Then it prints what some tuples have
//! counted.
//!
//! What the rows show beyond what is proved: that the words are those of the generator in use
//! elsewhere, that the definitions of the texts say what is meant, and that calls answer where
//! memory is ample. The rows were worked out by a program in another language.
#![tactic(auto)]

mod rows;

use rows::{print_counted, print_row, print_unfinished};
use tc_io::{StdSink, write_all};
use tc_load::load_text;

fn main(rt: HostRuntime) -> anyhow::Result<()> {
    let alloc = rt.alloc();
    let mut into = Vec::new(alloc);
    load_text(alloc, 1, 42, &mut into)?;
    for (agents, start) in [(1, 42), (2, 7), (100, 7), (1000, 1)] {
        print_row(alloc, agents, start, &mut into)?;
    }
    print_unfinished(alloc, &mut into)?;
    print_counted(alloc, &mut into)?;
    write_all(&mut StdSink::new(rt.stdout()), &into)?;
    Ok(())
}

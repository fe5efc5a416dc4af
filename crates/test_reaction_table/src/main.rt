//! Prints a table of reactions and of texts of clauses, with what comes of each.
//!
//! The table stands on standard input. Each of its rows is a clause, and is printed as it is written,
//! with its answer behind it as a comment:
//!
//! | Row | Answer |
//! |---|---|
//! | `tuples(T,..)`, or `tuples` for none | none: these are the tuples from here on, oldest first |
//! | `request(OP(T))`, `success(OP(T))`, `failure(OP(T))` | none: this is the event from here on |
//! | `reaction(Head,Body)`, or with a guard | the body's item, its events, the tuples that it leaves |
//! | `text(P,..)` | how many clauses the text is, or which one is faulty, and why |
//! | `printed` | the clauses of the last good text, as they are printed |
//! | `triggered` | the numbers of those of them that the event triggers |
//!
//! A part P of a text is an atom, and `P*N` stands for it N times. Each body runs over the tuples
//! anew, in the name of the agent ann at the centre desk, whether or not its guard holds.
//!
//! What the table shows beyond what is proved: that the definitions of goals, bodies, events and
//! faulty clauses say what is meant, row by row, and that calls answer where memory is ample. Its
//! answers were worked out by hand, and then compared with what the program prints.
#![tactic(auto)]

mod answers;
mod events;
mod rows;
mod stage;

use stage::answered;
use tc_io::{StdSink, StdSource, read_all, write_all};

/// The most bytes that a table may have.
const MOST_BYTES: usize = 1 << 20;

fn main(rt: HostRuntime) -> anyhow::Result<()> {
    let text = read_all(rt.alloc(), &mut StdSource::new(rt.stdin()), MOST_BYTES)?;
    let table = answered(rt.alloc(), &text)?;
    write_all(&mut StdSink::new(rt.stdout()), &table)?;
    Ok(())
}

//! Prints a table of texts, terms, equations, bags and calculations, with what comes of each.
//!
//! The table stands on standard input. Each of its rows is a clause, and is printed as it is written,
//! with its answer behind it as a comment:
//!
//! | Row | Answer |
//! |---|---|
//! | `read(P,..)` | the term that the text is, or why it is none |
//! | `clauses(P,..)` | how many clauses the text is, and the place behind the last one; or why it is none |
//! | `canonical(P,..)` | the place behind the canonical text at the front, and its template |
//! | `unquoted(P,..)` | the place behind the quoted text at the front, and the numbers of its bytes |
//! | `name(P,..)`, `quoted(P,..)` | the text as a name is printed, and as quoted |
//! | `bytes(N,..)` | the numbers of the bytes as which the name of these bytes is printed |
//! | `order(A,B)` | how two names are ordered |
//! | `print(T)` | the canonical text of a term |
//! | `fits(T)`, `tuple(T)`, `template(T)` | whether a term is within the limits, as a tuple, as a template |
//! | `matches(T,U)`, `agrees(T,U)` | whether a template, and its key, match a tuple |
//! | `eval(T)`, `compare(M,N)` | the value of a tuple, and which comparisons of two numbers hold |
//! | `equations(N,S,..)` | what comes of each of these steps in a store of N variables |
//! | `bag(S,..)` | what comes of each of these steps in an empty bag |
//!
//! A part P of a text is an atom; `P*N` stands for it N times, and `count(P,M,N)` for it before each
//! number from M up to N, without N. What a term T may stand for, `terms` has; the steps S have
//! `equations` and `bags`. An answer of more than 200 bytes is cut.
//!
//! What the table shows beyond what is proved: that the definitions of texts, terms, equations and
//! numbers say what is meant, row by row, and that calls answer where memory is ample. Its answers
//! were worked out by hand, and then compared with what the program prints.
#![tactic(auto)]

mod answers;
mod bags;
mod equations;
mod names;
mod numbers;
mod readings;
mod sample;
mod table;
mod terms;

use table::answered;
use tc_io::{StdSink, StdSource, read_all, write_all};

/// The most bytes that a table may have.
const MOST_BYTES: usize = 1 << 20;

fn main(rt: HostRuntime) -> anyhow::Result<()> {
    let text = read_all(rt.alloc(), &mut StdSource::new(rt.stdin()), MOST_BYTES)?;
    let table = answered(rt.alloc(), &text)?;
    write_all(&mut StdSink::new(rt.stdout()), &table)?;
    Ok(())
}

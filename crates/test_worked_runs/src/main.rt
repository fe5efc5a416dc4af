//! Runs whole configurations, and prints how each has ended and what it has written.
//!
//! The configurations stand in a table on standard input, one behind another. These lines of it say
//! how one is run; to who reads it as a configuration they are comments:
//!
//! | Line | Says |
//! |---|---|
//! | `%% NAME` | the configuration of this name begins behind this line |
//! | `%words WORD ..` | these are the words of the call, and not `run --workers 1` |
//! | `%also N ..` | `run --workers N` ends with the same status and text, for each N |
//! | `%logs N ..` | it ends with the same status and logs, the lines from the first `agent` on |
//! | `%repeat N TEXT` | here TEXT stands N times, a line each, with its number for each `#` |
//! | `%bytes BYTES` | here these bytes stand, in which `\n` is an LF, and `\0` a zero byte |
//! | `%read PIECE N` | a read gives PIECE bytes at most, and the Nth fails |
//! | `%write PIECE N` | a write takes PIECE bytes at most, and the Nth fails |
//! | `%link BYTES` | the door's next connection gives these bytes, in which `\n` is an LF |
//! | `%refuse N` | the door's Nth call fails: the first one listens, and each other accepts |
//! | `%show logs` | the logs alone are printed, for they don't depend on the order of calls |
//!
//! In a row of `verify` a line `%%` and a text stand behind the configuration.
//!
//! What stands before the first configuration is a comment of the table. Behind the end of a row
//! stands with which of these numbers of workers it was the same. With one where it wasn't, how it
//! ended is printed as an end of its own.
//!
//! What the table shows beyond what is proved: that the definitions of configurations, runs,
//! services and texts say what is meant, that calls end where memory is ample, and that a text, or
//! its logs, is the same with any number of workers where it doesn't depend on the order of calls.
//! What is written was worked out by hand, and then compared with what the program prints.
#![tactic(auto)]

mod calls;
mod ends;
mod rows;

use calls::print_row;
use rows::rows;
use tc_io::{StdSink, StdSource, read_all, write_all};

/// The most bytes that a table may have.
const MOST_BYTES: usize = 1 << 20;

fn main(rt: HostRuntime) -> anyhow::Result<()> {
    let alloc = rt.alloc();
    let table = read_all(alloc, &mut StdSource::new(rt.stdin()), MOST_BYTES)?;
    let mut ends = Vec::new(alloc);
    for row in rows(alloc, &table)? {
        print_row(&rt, alloc, &row, &mut ends)?;
    }
    write_all(&mut StdSink::new(rt.stdout()), &ends)?;
    Ok(())
}

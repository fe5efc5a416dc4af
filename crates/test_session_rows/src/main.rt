//! Plays sessions at the desks of sites, and prints what was replied and what has come of them.
//!
//! The rows stand in a table on standard input, one behind another. These lines say which sessions
//! a row has; all others are its configuration, whose scripts aren't run:
//!
//! | Line | Says |
//! |---|---|
//! | `%% NAME` | the row of this name begins behind this line |
//! | `%session AGENT BYTES` | a session of this agent, over a link that gives these bytes |
//! | `%more N BYTES` | the link before gives these bytes N times behind the others |
//! | `%repeat N LINE` | this line N times |
//! | `%reads N` | each read of the last session fails once; one gives N bytes at most |
//! | `%writes N` | the same of its writes, of which one takes N bytes at most |
//! | `%brief` | the last session alone is told, and in short what has come of all |
//!
//! In BYTES, `\n` is an LF, `\r` a CR, `\0` a zero byte, `\s` a blank and `\\` a backslash; and `#`
//! is the number of the repetition, from 1, as in a line that is repeated.
//!
//! The sessions of a row are played one after another, at desks that stay: what a session begins
//! with is what the agent's session before has left. Then the site is closed, and its logs are
//! settled. Of each session stands whose it was, how it has ended and what was written to its link,
//! and behind the last one the text of the histories and logs. In a brief row stand in the place of
//! that how many entries each history has, and the log of the last session's agent, in the version
//! that tells how full a centre was.
//!
//! A row is played in pieces of 4,096 bytes, read and written, and then in pieces of 7, 2 and 1;
//! where that comes to the same, a line says so. A row whose reads or writes fail is played once
//! for each, and at last without a failure. What stands before the first row is a comment.
//!
//! What the table shows beyond what is proved: that the definitions of lines, replies and sessions
//! say what is meant, and that sessions come to their ends where memory is ample. What is written
//! was worked out by hand, and then compared with what the program prints.
#![tactic(auto)]

mod desks;
mod playing;
mod printing;
mod rows;
mod writing;

use printing::print_row;
use rows::rows;
use tc_io::{StdSink, StdSource, read_all, write_all};

/// The most bytes that a table may have.
const MOST_BYTES: usize = 1 << 20;

fn main(rt: HostRuntime) -> anyhow::Result<()> {
    let alloc = rt.alloc();
    let table = read_all(alloc, &mut StdSource::new(rt.stdin()), MOST_BYTES)?;
    let mut told = Vec::new(alloc);
    for row in rows(alloc, &table)? {
        print_row(&rt, alloc, &row, &mut told)?;
    }
    write_all(&mut StdSink::new(rt.stdout()), &told)?;
    Ok(())
}

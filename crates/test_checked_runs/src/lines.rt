//! The lines that are printed on runs.
use crate::both::{Said, said_of};
use crate::running::Ran;
use std::alloc::Global;
use tc_lists::{NoMemory, append_number};
use test_run_check::{Fault, append_all};

/// Appends what is run, how it has ended, and whether its text is right.
pub fn append_line(
    alloc: Global,
    name: &[u8],
    workers: u64,
    configuration: &[u8],
    ran: &Ran,
    into: &mut Vec<u8>,
) -> Result<(), Fault> {
    append_all(&[name, b", "], into)?;
    append_workers(workers, into)?;
    into.extend_from_slice(b": status ")?;
    append_number(u64::from(ran.status), into)?;
    into.extend_from_slice(b", ")?;
    append_verdict(alloc, configuration, ran, into)
}

/// Appends a number of workers.
pub fn append_workers(workers: u64, into: &mut Vec<u8>) -> Result<(), NoMemory> {
    append_number(workers, into)?;
    into.extend_from_slice(if workers == 1 {
        b" worker"
    } else {
        b" workers"
    })
}

/// Appends whether a text is right, or else what is wrong.
pub fn append_verdict(
    alloc: Global,
    configuration: &[u8],
    ran: &Ran,
    into: &mut Vec<u8>,
) -> Result<(), Fault> {
    append_said(said_of(alloc, configuration, &ran.text, ran.status)?, into)?;
    Ok(())
}

/// Appends what is said of a text.
pub fn append_said(said: Said, into: &mut Vec<u8>) -> Result<(), NoMemory> {
    match said {
        Said::Right => into.extend_from_slice(b"checked"),
        Said::Wrong(why) => append_all(&[b"wrong: ", why.as_bytes()], into),
        Said::Apart => into.extend_from_slice(b"verify says otherwise than the check"),
    }
}

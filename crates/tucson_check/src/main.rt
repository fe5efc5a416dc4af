//! Checks a configuration on standard input, and tells its fault as a person looks for it.
//!
//! Whether there is a fault, which clause is faulty and why, `tc_config` says, as a run does. The
//! rest finds the place, and says what would be right.
#![tactic(auto)]

mod clauses;
mod faults;
mod items;
mod phases;
mod reactions;
mod report;
mod shapes;
mod sorts;
mod unknown;
mod warnings;

use faults::fault_of;
use report::{append_fault, append_summary};
use std::alloc::Global;
use std::process::ExitCode;
use tc_config::{ConfigCause, ConfigFault, MOST_BYTES, read_config};
use tc_io::{InputFault, SinkFault, StdSink, StdSource, read_all, write_all};
use tc_lists::NoMemory;
use warnings::append_warnings;

const GOOD: u8 = 0;

const WRITE_FAULT: u8 = 1;

const REFUSED: u8 = 2;

const READ_FAULT: u8 = 5;

const NO_MEMORY: u8 = 6;

fn main(rt: HostRuntime) -> ExitCode {
    let alloc = rt.alloc();
    let mut said = Vec::new(alloc);
    let status = match read_all(alloc, &mut StdSource::new(rt.stdin()), MOST_BYTES) {
        Ok(text) => check(alloc, &text, &mut said),
        Err(InputFault::TooLong) => { refuse(alloc, b"", 0, ConfigCause::Length, &mut said) }
        Err(InputFault::Failed) => Ok(READ_FAULT),
        Err(InputFault::NoMemory) => Err(NoMemory),
    };
    let Ok(status) = status else {
        return ExitCode::from(NO_MEMORY);
    };
    match write_all(&mut StdSink::new(rt.stdout()), &said) {
        Ok(()) => ExitCode::from(status),
        Err(SinkFault::Failed) => ExitCode::from(WRITE_FAULT),
        Err(SinkFault::NoMemory) => ExitCode::from(NO_MEMORY),
    }
}

// Says what is to be said of a text, with the status.
fn check(alloc: Global, text: &[u8], said: &mut Vec<u8>) -> Result<u8, NoMemory> {
    match read_config(alloc, text) {
        Ok(config) => {
            append_summary(&config, said)?;
            append_warnings(alloc, text, &config, said)?;
            Ok(GOOD)
        }
        Err(ConfigFault::Bad { clause, cause }) => refuse(alloc, text, clause, cause, said),
        Err(ConfigFault::NoMemory) => Err(NoMemory),
    }
}

// Says what is wrong with a clause.
fn refuse(
    alloc: Global,
    text: &[u8],
    clause: u32,
    cause: ConfigCause,
    said: &mut Vec<u8>,
) -> Result<u8, NoMemory> {
    let fault = fault_of(alloc, text, clause, cause)?;
    append_fault(alloc, text, &fault, said)?;
    Ok(REFUSED)
}

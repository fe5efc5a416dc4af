//! Makes a page for a browser of the text of a run on standard input.
//!
//! What bytes are a text, `tc_histtext` says; other bytes are refused on standard error by the first
//! line that is at fault, and nothing is written on standard output.
#![tactic(auto)]

use std::alloc::Global;
use std::process::ExitCode;
use tc_histtext::{TextFault, read_text};
use tc_io::{InputFault, SinkFault, StdSink, StdSource, read_all, write_all};
use tc_lists::{NoMemory, append_number};
use tc_page::{append_page, names_in_headings};

const GOOD: u8 = 0;

const WRITE_FAULT: u8 = 1;

const REFUSED: u8 = 2;

const READ_FAULT: u8 = 5;

const NO_MEMORY: u8 = 6;

/// The most bytes that a text may have: no browser opens a page of more.
const MOST_BYTES: usize = 1 << 28;

// What is written of the input: the page, or on standard error why there is none.
#[derive(Drop)]
struct Said {
    page: Vec<u8>,
    fault: Vec<u8>,
}

fn main(rt: HostRuntime) -> ExitCode {
    let alloc = rt.alloc();
    let mut said = Said {
        page: Vec::new(alloc),
        fault: Vec::new(alloc),
    };
    let status = match read_all(alloc, &mut StdSource::new(rt.stdin()), MOST_BYTES) {
        Ok(text) => page(alloc, &text, &mut said),
        Err(InputFault::TooLong) => refuse_length(&mut said),
        Err(InputFault::Failed) => Ok(READ_FAULT),
        Err(InputFault::NoMemory) => Err(NoMemory),
    };
    let Ok(status) = status else {
        return ExitCode::from(NO_MEMORY);
    };
    let _ = write_all(&mut StdSink::new(rt.stderr()), &said.fault);
    match write_all(&mut StdSink::new(rt.stdout()), &said.page) {
        Ok(()) => ExitCode::from(status),
        Err(SinkFault::Failed) => ExitCode::from(WRITE_FAULT),
        Err(SinkFault::NoMemory) => ExitCode::from(NO_MEMORY),
    }
}

// Makes the page of a text, or says which line is at fault, with the status.
fn page(alloc: Global, bytes: &[u8], said: &mut Said) -> Result<u8, NoMemory> {
    let (centres, agents) = names_in_headings(alloc, bytes)?;
    match read_text(alloc, bytes, &centres, &agents) {
        Ok(text) => {
            append_page(alloc, &centres, &agents, &text, &mut said.page)?;
            Ok(GOOD)
        }
        Err(TextFault::Line(line)) => refuse(line, said),
        Err(TextFault::NoMemory) => Err(NoMemory),
    }
}

// Says that a line is at fault.
fn refuse(line: usize, said: &mut Said) -> Result<u8, NoMemory> {
    said.fault.extend_from_slice(b"line ")?;
    append_number(line as u64, &mut said.fault)?;
    said.fault.extend_from_slice(b" is no line of the text\n")?;
    Ok(REFUSED)
}

// Says that the text is too long.
fn refuse_length(said: &mut Said) -> Result<u8, NoMemory> {
    said.fault.extend_from_slice(b"the text has more than ")?;
    append_number(MOST_BYTES as u64, &mut said.fault)?;
    said.fault.extend_from_slice(b" bytes\n")?;
    Ok(REFUSED)
}

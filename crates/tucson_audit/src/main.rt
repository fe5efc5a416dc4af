//! Whether a text on standard input is that of a service of the configuration before it, as far as it
//! tells, or the first place at which it isn't.
//!
//! Reads a configuration, a line `%%` and a text, as `verify` of the top call does. What they come
//! to, `judge` of tc_verify says, whose clauses hold for every input; here it is read and written.
#![tactic(auto)]

use std::alloc::Global;
use std::env;
use std::process::ExitCode;
use tc_config::{ConfigCause, refused_text};
use tc_io::{InputFault, SinkFault, StdSink, StdSource, read_all, write_all};
use tc_lists::{NoMemory, Seq};
use tc_verify::{Judgement, Question, Verdict, judge};

/// The most bytes that an input may have.
const MOST_INPUT: usize = 268_435_456;

const YES: u8 = 0;

const WRITE_FAULT: u8 = 1;

const REFUSED: u8 = 2;

const NO: u8 = 4;

const READ_FAULT: u8 = 5;

const NO_MEMORY: u8 = 6;

const USAGE: u8 = 7;

fn main(rt: HostRuntime) -> ExitCode {
    if !is_asked(&rt) {
        return ExitCode::from(USAGE);
    }
    let alloc = rt.alloc();
    let answer = match read_all(alloc, &mut StdSource::new(rt.stdin()), MOST_INPUT) {
        Ok(input) => answer_to(alloc, &input),
        Err(InputFault::TooLong) => refusal(alloc, 0, ConfigCause::Length),
        Err(InputFault::Failed) => return ExitCode::from(READ_FAULT),
        Err(InputFault::NoMemory) => Err(NoMemory),
    };
    let Ok((status, line)) = answer else {
        return ExitCode::from(NO_MEMORY);
    };
    match write_all(&mut StdSink::new(rt.stdout()), line.items()) {
        Ok(()) => ExitCode::from(status),
        Err(SinkFault::Failed) => ExitCode::from(WRITE_FAULT),
        Err(SinkFault::NoMemory) => ExitCode::from(NO_MEMORY),
    }
}

// Whether the one word is `audit`.
fn is_asked(rt: &HostRuntime) -> bool {
    let Ok(args) = env::args(rt) else {
        return false;
    };
    let mut words = args.skip(1);
    let Some(word) = words.next() else {
        return false;
    };
    word.as_bytes() == b"audit".as_slice() && words.next().is_none()
}

// The status and the line for an input.
fn answer_to(alloc: Global, input: &[u8]) -> Result<(u8, Seq<u8>), NoMemory> {
    match judge(alloc, Question::Service, input)? {
        Judgement::Judged(Verdict::Yes, line) => Ok((YES, line)),
        Judgement::Judged(_, line) => Ok((NO, line)),
        Judgement::Refused { clause, cause } => refusal(alloc, clause, cause),
    }
}

// Those where the configuration is refused.
fn refusal(alloc: Global, clause: u32, cause: ConfigCause) -> Result<(u8, Seq<u8>), NoMemory> {
    let line = refused_text(alloc, clause, cause)?;
    Ok((REFUSED, Seq::new(line)))
}

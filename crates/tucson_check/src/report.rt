//! What is written of a faulty text, and of one without a fault.
use crate::faults::Fault;
use std::alloc::Global;
use tc_config::{Config, cause_text};
use tc_lists::{NoMemory, append_number};
use tc_places::append_excerpt;

/// Appends what a person is to know of a fault.
pub fn append_fault(
    alloc: Global,
    text: &[u8],
    fault: &Fault,
    into: &mut Vec<u8>,
) -> Result<(), NoMemory> {
    append_clause(
        fault.clause as usize,
        fault.first_line,
        fault.last_line,
        into,
    )?;
    into.extend_from_slice(cause_text(fault.cause))?;
    into.push(b'\n')?;
    if let Some(mark) = fault.finding.mark {
        append_excerpt(alloc, text, fault.span.from, mark, into)?;
    }
    into.extend_from_slice(&fault.finding.advice)?;
    into.push(b'\n')?;
    Ok(())
}

/// Appends a clause's number and lines, up to where is said what is the matter with it.
pub fn append_clause(
    number: usize,
    first_line: usize,
    last_line: usize,
    into: &mut Vec<u8>,
) -> Result<(), NoMemory> {
    into.extend_from_slice(b"clause ")?;
    append_number(number as u64, into)?;
    if number == 0 {
        return into.extend_from_slice(b": ");
    }
    if first_line == last_line {
        into.extend_from_slice(b", line ")?;
        append_number(first_line as u64, into)?;
    } else {
        into.extend_from_slice(b", lines ")?;
        append_number(first_line as u64, into)?;
        into.extend_from_slice(b" to ")?;
        append_number(last_line as u64, into)?;
    }
    into.extend_from_slice(b": ")
}

/// Appends the summary of a text without a fault.
pub fn append_summary(config: &Config, into: &mut Vec<u8>) -> Result<(), NoMemory> {
    append_count(config.centres().len(), b"centre", into)?;
    append_count(config.role_names().len(), b"role", into)?;
    append_count(config.agents().len(), b"agent", into)?;
    append_count(items_in(config), b"item", into)?;
    into.extend_from_slice(b"no fault\n")
}

// How many items all scripts have.
fn items_in(config: &Config) -> usize {
    let mut count: usize = 0;
    for agent in config.agents() {
        for script in agent.scripts.items() {
            count = count.saturating_add(script.items().len());
        }
    }
    count
}

fn append_count(count: usize, word: &[u8], into: &mut Vec<u8>) -> Result<(), NoMemory> {
    append_number(count as u64, into)?;
    into.push(b' ')?;
    into.extend_from_slice(word)?;
    if count != 1 {
        into.push(b's')?;
    }
    into.extend_from_slice(b", ")
}

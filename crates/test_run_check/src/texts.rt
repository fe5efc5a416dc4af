//! Texts, put together from parts.
use std::alloc::Global;
use tc_lists::{NoMemory, append_number};
use tc_print::print_term;
use tc_term::{Term, fits};

/// Appends parts, one behind another.
pub fn append_all(parts: &[&[u8]], into: &mut Vec<u8>) -> Result<(), NoMemory> {
    for part in parts {
        into.extend_from_slice(part)?;
    }
    Ok(())
}

/// Appends a text, a number and a text.
pub fn append_count(
    before: &[u8],
    count: usize,
    behind: &[u8],
    into: &mut Vec<u8>,
) -> Result<(), NoMemory> {
    into.extend_from_slice(before)?;
    append_number(count as u64, into)?;
    into.extend_from_slice(behind)
}

/// Appends the canonical text of a term: of one beyond the limits, nothing.
pub fn append_term(alloc: Global, term: &Term, into: &mut Vec<u8>) -> Result<(), NoMemory> {
    if fits(term) {
        print_term(alloc, term, into)?;
    }
    Ok(())
}

/// Puts an element behind the others.
pub fn append<T: Drop>(list: &mut Vec<T>, element: T) -> Result<(), NoMemory> {
    list.push(element)?;
    Ok(())
}

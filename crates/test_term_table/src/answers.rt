//! Pieces of answers.
use std::alloc::Global;
use tc_lists::{NoMemory, append_number};
use tc_print::print_term;
use tc_term::{Pattern, Term, fits};

/// What stands before an answer.
pub const BEGIN: &[u8] = b"\n    %";

// The most bytes of a text that is not cut, and how many are left of one that is.
const MOST_BYTES: usize = 200;

const LEFT: usize = 40;

/// Appends a word for what holds, and one for what doesn't.
pub fn append_truth(holds: bool, into: &mut Vec<u8>) -> Result<(), NoMemory> {
    into.extend_from_slice(if holds { b"yes" } else { b"no" })
}

/// Appends the canonical text of a term that is within the limits; one that is long is cut.
pub fn append_term(alloc: Global, term: &Term, into: &mut Vec<u8>) -> Result<(), NoMemory> {
    if !fits(term) {
        return into.extend_from_slice(b"too big");
    }
    let mut text = Vec::new(alloc);
    print_term(alloc, term, &mut text)?;
    append_cut(&text, into)
}

/// Appends a template, and how many variables it has where its text is cut.
pub fn append_template(
    alloc: Global,
    template: &Pattern,
    into: &mut Vec<u8>,
) -> Result<(), NoMemory> {
    append_term(alloc, template.term(), into)?;
    if template.vars() > 2 {
        into.extend_from_slice(b", of ")?;
        append_number(u64::from(template.vars()), into)?;
        into.extend_from_slice(b" variables")?;
    }
    Ok(())
}

/// Appends a text, or its front and its length where it is long.
pub fn append_cut(text: &[u8], into: &mut Vec<u8>) -> Result<(), NoMemory> {
    if text.len() <= MOST_BYTES {
        return into.extend_from_slice(text);
    }
    into.extend_from_slice(&text[..LEFT.min(text.len())])?;
    into.extend_from_slice(b".. in ")?;
    append_number(text.len() as u64, into)?;
    into.extend_from_slice(b" bytes")
}

/// Appends the numbers of bytes.
pub fn append_bytes(bytes: &[u8], into: &mut Vec<u8>) -> Result<(), NoMemory> {
    let mut between: &[u8] = b"";
    for byte in bytes {
        into.extend_from_slice(between)?;
        append_number(u64::from(*byte), into)?;
        between = b" ";
    }
    Ok(())
}

/// Appends a place.
pub fn append_place(place: usize, into: &mut Vec<u8>) -> Result<(), NoMemory> {
    into.extend_from_slice(b"up to ")?;
    append_number(place as u64, into)
}

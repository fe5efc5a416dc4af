//! What texts are read as.
use crate::answers::{append_bytes, append_place, append_template};
use std::alloc::Global;
use tc_lists::append_number;
use tc_read::{ReadFault, read_canonical, read_clause, read_quoted, read_term};
use tc_term::Term;
use test_texts::text_of;

/// The term that the whole text is.
pub fn print_reading(alloc: Global, parts: &[Term], into: &mut Vec<u8>) -> anyhow::Result<()> {
    match read_term(alloc, &text_of(alloc, parts)?) {
        Ok(template) => Ok(append_template(alloc, &template, into)?),
        Err(fault) => print_fault(fault, into),
    }
}

// Why a text is no term.
fn print_fault(fault: ReadFault, into: &mut Vec<u8>) -> anyhow::Result<()> {
    let (cause, place): (&[u8], usize) = match fault {
        ReadFault::Syntax(place) => (b"no term from ", place),
        ReadFault::WideInt(place) => (b"too wide a number at ", place),
        ReadFault::TooMany(place) => (b"too many variables from ", place),
        ReadFault::TooBig(place) => (b"too big from ", place),
        ReadFault::NoMemory => return Err(anyhow::Error::from(fault)),
    };
    into.extend_from_slice(cause)?;
    append_number(place as u64, into)?;
    Ok(())
}

/// How many clauses a text is, and the place behind the last.
pub fn print_clauses(alloc: Global, parts: &[Term], into: &mut Vec<u8>) -> anyhow::Result<()> {
    match clauses_of(alloc, &text_of(alloc, parts)?) {
        Ok((number, behind)) => {
            append_number(number, into)?;
            into.extend_from_slice(b" clauses ")?;
            append_place(behind, into)?;
            Ok(())
        }
        Err(fault) => print_fault(fault, into),
    }
}

// How many clauses a text is, and the place behind the last; 0 where it has none.
fn clauses_of(alloc: Global, text: &[u8]) -> Result<(u64, usize), ReadFault> {
    let mut number: u64 = 0;
    let mut from = 0;
    while let Some((_, behind)) = read_clause(alloc, text, from)? {
        number = number.saturating_add(1);
        from = behind;
    }
    Ok((number, from))
}

/// The template whose canonical text stands at the front, and the place behind it.
pub fn print_canonical(alloc: Global, parts: &[Term], into: &mut Vec<u8>) -> anyhow::Result<()> {
    let text = text_of(alloc, parts)?;
    match read_canonical(alloc, &text, 0)? {
        Some((template, behind)) => {
            append_place(behind, into)?;
            into.extend_from_slice(b" ")?;
            append_template(alloc, &template, into)?;
        }
        None => into.extend_from_slice(b"none")?,
    }
    Ok(())
}

/// The bytes whose quoted text stands at the front, and the place behind it.
pub fn print_unquoted(alloc: Global, parts: &[Term], into: &mut Vec<u8>) -> anyhow::Result<()> {
    let text = text_of(alloc, parts)?;
    match read_quoted(alloc, &text, 0)? {
        Some((bytes, behind)) => {
            append_place(behind, into)?;
            into.extend_from_slice(b" ")?;
            append_bytes(&bytes, into)?;
        }
        None => into.extend_from_slice(b"none")?,
    }
    Ok(())
}

//! The texts that rows name.
use anyhow::anyhow;
use std::alloc::Global;
use tc_lists::append_number;
use tc_term::Term;

/// The most times that a text may be repeated.
const MOST_TIMES: i64 = 1_000_000;

/// Name and arguments of a term; of a number and of a variable none.
pub fn parts(term: &Term) -> (&[u8], &[Term]) {
    match term {
        Term::Atom(name) => (name.bytes(), &[]),
        Term::Comp(name, args) => (name.bytes(), args.items()),
        Term::Int(_) | Term::Var(_) => (b"", &[]),
    }
}

/// The texts that the terms stand for, one behind another: an atom's name; `P*N`, the text P so many
/// times; `count(P,M,N)`, the text P before each number from M up to N, without N.
pub fn text_of(alloc: Global, terms: &[Term]) -> anyhow::Result<Vec<u8>> {
    let mut text = Vec::new(alloc);
    for term in terms {
        append_part(term, &mut text)?;
    }
    Ok(text)
}

// Appends the text that a term stands for.
fn append_part(term: &Term, into: &mut Vec<u8>) -> anyhow::Result<()> {
    if let Term::Atom(part) = term {
        into.extend_from_slice(part.bytes())?;
        return Ok(());
    }
    match parts(term) {
        (b"*", [Term::Atom(part), Term::Int(times)]) => repeat(part.bytes(), *times, into),
        (b"count", [Term::Atom(part), Term::Int(first), Term::Int(end)]) => {
            count(part.bytes(), *first, *end, into)
        }
        _ => Err(anyhow!("a row has no text")),
    }
}

/// Appends the text so many times, which are at most a million.
pub fn repeat(part: &[u8], times: i64, into: &mut Vec<u8>) -> anyhow::Result<()> {
    if times > MOST_TIMES {
        return Err(anyhow!("a text is too long"));
    }
    for _ in 0..times {
        into.extend_from_slice(part)?;
    }
    Ok(())
}

// Appends the text before each number from the first one up to the end.
fn count(part: &[u8], first: i64, end: i64, into: &mut Vec<u8>) -> anyhow::Result<()> {
    for number in first..end {
        into.extend_from_slice(part)?;
        append_number(number.unsigned_abs(), into)?;
    }
    Ok(())
}

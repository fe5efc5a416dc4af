//! Names: how they are kept, printed and ordered.
use crate::answers::append_bytes;
use anyhow::anyhow;
use std::alloc::Global;
use std::cmp::Ordering;
use tc_print::{print_name, print_quoted};
use tc_term::{Name, Term};
use test_texts::text_of;

/// A text as a name is printed.
pub fn print_name_of(alloc: Global, parts: &[Term], into: &mut Vec<u8>) -> anyhow::Result<()> {
    let bytes = text_of(alloc, parts)?;
    let name = Name::new(alloc, &bytes)?;
    if !is_kept(alloc, &name, &bytes)? {
        return Err(anyhow!("a name has other bytes"));
    }
    print_name(alloc, &name, into)?;
    Ok(())
}

// Whether a name has these bytes, as its copy has and the name that is made of them.
fn is_kept(alloc: Global, name: &Name, bytes: &[u8]) -> anyhow::Result<bool> {
    let copy = name.copy(alloc)?;
    let other = Name::from_vec(alloc, bytes.to_vec(alloc)?)?;
    Ok(name.bytes() == bytes && copy == *name && other == *name)
}

/// A text as it is printed in quotes.
pub fn print_quoted_of(alloc: Global, parts: &[Term], into: &mut Vec<u8>) -> anyhow::Result<()> {
    print_quoted(alloc, &text_of(alloc, parts)?, into)?;
    Ok(())
}

/// The numbers of the bytes as which the name of these bytes is printed.
pub fn print_bytes(alloc: Global, numbers: &[Term], into: &mut Vec<u8>) -> anyhow::Result<()> {
    let mut bytes = Vec::new(alloc);
    for number in numbers {
        let Term::Int(byte) = number else {
            return Err(anyhow!("a byte is a number"));
        };
        bytes.push(u8::try_from(*byte)?)?;
    }
    let mut text = Vec::new(alloc);
    print_name(alloc, &Name::from_vec(alloc, bytes)?, &mut text)?;
    append_bytes(&text, into)?;
    Ok(())
}

/// How two names are ordered.
pub fn print_order(names: &[Term], into: &mut Vec<u8>) -> anyhow::Result<()> {
    let [Term::Atom(left), Term::Atom(right)] = names else {
        return Err(anyhow!("two names are ordered"));
    };
    let word: &[u8] = match left.cmp(right) {
        Ordering::Less => b"below",
        Ordering::Equal => b"equal",
        Ordering::Greater => b"above",
    };
    into.extend_from_slice(word)?;
    Ok(())
}

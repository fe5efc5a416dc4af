//! What is found: a place, and a sentence that says what would be right.
use crate::spans::{Span, column, is_letter_start, line_number};
use std::alloc::Global;
use tc_lists::{NoMemory, append_number};

/// The most bytes of a name that a sentence shows.
const MOST_SHOWN: usize = 60;

/// Where a fault is, if that is known, and what would be right.
#[derive(Drop)]
pub struct Finding {
    pub mark: Option<Span>,
    pub advice: Vec<u8>,
}

/// A finding at a place. Its sentence is the pattern, in which each `~` is the next of the names, in
/// quotes, and each `@` the next as it is.
pub fn found(
    alloc: Global,
    mark: Span,
    pattern: &[u8],
    names: &[&[u8]],
) -> Result<Finding, NoMemory> {
    Ok(Finding {
        mark: Some(mark),
        advice: sentence(alloc, pattern, names)?,
    })
}

/// The same with two names.
pub fn found_two<'n>(
    alloc: Global,
    mark: Span,
    pattern: &[u8],
    first: &'n [u8],
    second: &'n [u8],
) -> Result<Finding, NoMemory> {
    found(alloc, mark, pattern, &[first, second])
}

/// A finding whose place isn't known.
pub fn found_nowhere(alloc: Global, pattern: &[u8]) -> Result<Finding, NoMemory> {
    Ok(Finding {
        mark: None,
        advice: sentence(alloc, pattern, &[])?,
    })
}

/// The same bytes. Names that live for different times go into one list through this.
pub fn lent(bytes: &[u8]) -> &[u8] {
    bytes
}

/// The pattern with its names.
pub fn sentence(alloc: Global, pattern: &[u8], names: &[&[u8]]) -> Result<Vec<u8>, NoMemory> {
    let mut text = Vec::new(alloc);
    let mut left = names.iter();
    for byte in pattern {
        match byte {
            b'~' => {
                text.push(b'`')?;
                append_shown(left.next().copied().unwrap_or(&[]), &mut text)?;
                text.push(b'`')?;
            }
            b'@' => append_shown(left.next().copied().unwrap_or(&[]), &mut text)?,
            _ => text.push(*byte)?,
        }
    }
    Ok(text)
}

// Appends the front of a name, without bytes that a terminal would take for an order.
fn append_shown(name: &[u8], text: &mut Vec<u8>) -> Result<(), NoMemory> {
    append_visible(name.get(..MOST_SHOWN).unwrap_or(name), text)?;
    if name.len() > MOST_SHOWN {
        text.extend_from_slice(b"..")?;
    }
    Ok(())
}

/// Appends bytes, with a blank for each that can't be seen. A letter of UTF-8 whose beginning isn't
/// there is left out.
pub fn append_visible(bytes: &[u8], text: &mut Vec<u8>) -> Result<(), NoMemory> {
    let mut begun = false;
    for byte in bytes {
        begun = begun || is_letter_start(*byte);
        if *byte < 32 || *byte == 127 {
            text.push(b' ')?;
        } else if begun {
            text.push(*byte)?;
        }
    }
    Ok(())
}

/// The words for a place: its line and its column.
pub fn place_words(alloc: Global, text: &[u8], place: usize) -> Result<Vec<u8>, NoMemory> {
    let mut words = Vec::new(alloc);
    words.extend_from_slice(b"line ")?;
    append_number(line_number(text, place) as u64, &mut words)?;
    words.extend_from_slice(b", column ")?;
    append_number(column(text, place) as u64, &mut words)?;
    Ok(words)
}

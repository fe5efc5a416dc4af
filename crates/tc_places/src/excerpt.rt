//! A line of the text with a mark below it.
use crate::advice::{append_visible, place_words};
use crate::spans::{Span, letters, line_end, line_start, part};
use std::alloc::Global;
use tc_lists::NoMemory;

/// How much of a line is shown before a mark, and behind its beginning.
const BEFORE: usize = 70;

const BEHIND: usize = 50;

/// How many lines of a clause are shown before the marked one.
const MOST_LINES: usize = 2;

/// Appends the lines of a clause that begins at `from`, up to the marked one, and the mark.
pub fn append_excerpt(
    alloc: Global,
    text: &[u8],
    from: usize,
    mark: Span,
    into: &mut Vec<u8>,
) -> Result<(), NoMemory> {
    append_lines_before(text, from, mark.from, into)?;
    let start = line_start(text, mark.from).max(from);
    let end = line_end(text, mark.from);
    let shown = Span {
        from: start.max(mark.from.saturating_sub(BEFORE)),
        to: end.min(mark.from.saturating_add(BEHIND)),
    };
    append_line(text, shown, start, end, into)?;
    let cut: usize = if shown.from > start { 4 } else { 2 };
    let before = letters(part(
        text,
        Span {
            from: shown.from,
            to: mark.from,
        },
    ));
    append_times(b' ', before.saturating_add(cut), into)?;
    let marked = letters(part(
        text,
        Span {
            from: mark.from,
            to: mark.to.min(shown.to),
        },
    ));
    append_times(b'^', marked.max(1), into)?;
    into.push(b' ')?;
    into.extend_from_slice(&place_words(alloc, text, mark.from)?)?;
    into.push(b'\n')?;
    Ok(())
}

// Appends the last lines of a clause before that of a place.
fn append_lines_before(
    text: &[u8],
    from: usize,
    place: usize,
    into: &mut Vec<u8>,
) -> Result<(), NoMemory> {
    let own = line_start(text, place);
    let mut start = own;
    for _ in 0..MOST_LINES {
        start = line_start(text, start.saturating_sub(1)).max(from);
    }
    for _ in 0..MOST_LINES {
        if start >= own {
            break;
        }
        let end = line_end(text, start);
        let shown = Span {
            from: start,
            to: end.min(start.saturating_add(BEFORE + BEHIND)),
        };
        append_line(text, shown, start, end, into)?;
        start = end.saturating_add(1);
    }
    Ok(())
}

// Appends the part of a line that is shown, with dots where more of it stands.
fn append_line(
    text: &[u8],
    shown: Span,
    start: usize,
    end: usize,
    into: &mut Vec<u8>,
) -> Result<(), NoMemory> {
    if shown.from > start {
        into.extend_from_slice(b"  ..")?;
    } else {
        into.extend_from_slice(b"  ")?;
    }
    append_visible(part(text, shown), into)?;
    if shown.to < end {
        into.extend_from_slice(b"..")?;
    }
    into.push(b'\n')?;
    Ok(())
}

// Appends a byte so many times.
fn append_times(byte: u8, times: usize, into: &mut Vec<u8>) -> Result<(), NoMemory> {
    for _ in 0..times {
        into.push(byte)?;
    }
    Ok(())
}

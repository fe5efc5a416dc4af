//! What would be right where no token begins.
use crate::advice::{Finding, found};
use crate::spans::{Span, front, rest};
use crate::stuck::comment_advice;
use std::alloc::Global;
use tc_lists::NoMemory;

/// What would be right at a byte with which no token begins.
pub fn byte_advice(alloc: Global, text: &[u8], mark: Span) -> Result<Finding, NoMemory> {
    let pattern: &[u8] = match rest(text, mark.from) {
        [b'#' | b';' | b'!', ..] => return comment_advice(alloc, text, mark),
        [b'\'', inside @ ..] => return quote_advice(alloc, mark, inside),
        [b'.', after @ ..] => stop_words(text, mark, after),
        [b'/', b'*', ..] => b"the comment has no end: `*/` is missing",
        [b'"', ..] => b"text stands in single quotes: 'text'",
        [b':', ..] => b"`:` stands in `=:=` alone; a reaction is written reaction(EVENT,BODY)",
        [b'{' | b'}', ..] => b"brackets are ( ) and [ ]",
        [b'/', ..] => b"numbers are divided by `//`, and `%` begins a comment",
        [b'\\', ..] => b"a backslash stands in quotes, and in `\\=` and `=\\=`",
        [byte, ..] if *byte >= 128 => {
            b"letters beyond those of ASCII stand only in quotes and comments"
        }
        _ => b"this byte stands only in quotes and comments",
    };
    found(alloc, mark, pattern, &[])
}

// What is wrong with a full stop before these bytes.
fn stop_words(text: &[u8], mark: Span, after: &[u8]) -> &'static [u8] {
    let is_behind_digit = match front(text, mark.from) {
        [.., last] => last.is_ascii_digit(),
        [] => false,
    };
    match after {
        [next, ..] if is_behind_digit && next.is_ascii_digit() => {
            b"numbers are whole: there is no decimal point"
        }
        _ => b"behind the full stop of a clause stands a blank or the end of the line",
    }
}

// What is wrong with a quote before these bytes.
fn quote_advice(alloc: Global, mark: Span, inside: &[u8]) -> Result<Finding, NoMemory> {
    let mut escaped = false;
    let mut place = mark.to;
    for byte in inside {
        let is_known = matches!(*byte, b'\'' | b'\\' | b'n' | b't');
        if escaped && !is_known && *byte >= 32 {
            let at = Span {
                from: place.saturating_sub(1),
                to: place.saturating_add(1),
            };
            return found(
                alloc,
                at,
                b"in quotes `\\'`, `\\\\`, `\\n` and `\\t` are written with a backslash, and no other",
                &[],
            );
        }
        if *byte < 32 {
            break;
        }
        escaped = !escaped && *byte == b'\\';
        place = place.saturating_add(1);
    }
    found(
        alloc,
        mark,
        b"the quote isn't closed on its line; a quote in quotes is written twice",
        &[],
    )
}

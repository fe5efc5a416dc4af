//! Tokens with their places, as the reader of clauses sees them.
use crate::spans::{Span, rest};
use tc_term::{is_variable_start, is_word};

/// What a token is.
#[derive(Clone, Copy, Debug, PartialEq, Eq)]
pub enum Kind {
    Name,
    Quoted,
    Variable,
    Number,
    Symbol,
    Open,
    Close,
    OpenList,
    CloseList,
    Comma,
    Bar,
    /// The full stop of a clause.
    End,
    /// A byte with which no token begins.
    Other,
}

/// A token, and whether no layout stands before it.
#[derive(Clone, Copy, Debug)]
pub struct Token {
    pub kind: Kind,
    pub span: Span,
    pub direct: bool,
}

/// The first token from a place on; `None` where nothing but layout is left.
pub fn next_token(text: &[u8], from: usize) -> Option<Token> {
    let at = behind_layout(text, from);
    match rest(text, at) {
        [] => None,
        [first, after @ ..] => {
            let (kind, length) = kind_of(*first, after);
            Some(Token {
                kind,
                span: Span {
                    from: at,
                    to: at.saturating_add(length),
                },
                direct: at == from,
            })
        }
    }
}

/// Where the clause ends that begins at a place: behind its full stop, or else behind its last token.
pub fn clause_end(text: &[u8], from: usize) -> usize {
    let mut at = from;
    for _ in from..text.len() {
        let Some(token) = next_token(text, at) else {
            break;
        };
        at = token.span.to;
        if token.kind == Kind::End || token.kind == Kind::Other {
            break;
        }
    }
    at
}

/// Where the last token ends before the full stop of a clause.
pub fn last_end(text: &[u8], whole: Span) -> usize {
    let mut at = whole.from;
    for _ in whole.from..whole.to {
        match next_token(text, at) {
            Some(token) if token.span.to < whole.to => at = token.span.to,
            _ => break,
        }
    }
    at
}

/// The place behind the layout that stands at a place.
pub fn behind_layout(text: &[u8], from: usize) -> usize {
    let mut at = from;
    for _ in from..text.len() {
        let length = piece_length(rest(text, at));
        if length == 0 {
            break;
        }
        at = at.saturating_add(length);
    }
    at
}

// How long a first piece of layout is; 0 where there is none.
fn piece_length(text: &[u8]) -> usize {
    match text {
        [b' ' | b'\t' | b'\n' | b'\r', ..] => 1,
        [b'%', after @ ..] => {
            let line = after.iter().take_while(|byte| **byte != b'\n').count();
            line.saturating_add(1)
        }
        [b'/', b'*', after @ ..] => comment_length(after),
        _ => 0,
    }
}

// How long a comment is whose inside and end these bytes begin with; 0 where it has no end.
fn comment_length(inside: &[u8]) -> usize {
    let mut before = 0;
    for (at, byte) in inside.iter().enumerate() {
        if before == b'*' && *byte == b'/' {
            return at.saturating_add(3);
        }
        before = *byte;
    }
    0
}

// What the token is that begins with this byte before those, and how long it is.
fn kind_of(first: u8, after: &[u8]) -> (Kind, usize) {
    if first.is_ascii_lowercase() {
        return (Kind::Name, word_length(after));
    }
    if is_variable_start(first) {
        return (Kind::Variable, word_length(after));
    }
    if first.is_ascii_digit() {
        let digits = after
            .iter()
            .take_while(|byte| byte.is_ascii_digit())
            .count();
        return (Kind::Number, digits.saturating_add(1));
    }
    match first {
        b'(' => (Kind::Open, 1),
        b')' => (Kind::Close, 1),
        b'[' => (Kind::OpenList, 1),
        b']' => (Kind::CloseList, 1),
        b',' => (Kind::Comma, 1),
        b'|' => (Kind::Bar, 1),
        b'.' if is_behind_end(after) => (Kind::End, 1),
        b'\'' => quoted(after),
        _ => symbol(first, after),
    }
}

// The length of a word whose first byte is left out here.
fn word_length(after: &[u8]) -> usize {
    let more = after.iter().take_while(|byte| is_word(**byte)).count();
    more.saturating_add(1)
}

// Whether a full stop before these bytes ends a clause.
fn is_behind_end(after: &[u8]) -> bool {
    after.is_empty() || piece_length(after) > 0
}

// The symbol that begins with this byte before those.
fn symbol(first: u8, after: &[u8]) -> (Kind, usize) {
    let length = match (first, after) {
        (b'=', [b':', b'=', ..]) => 3,
        (b'=', [b'\\', b'=', ..]) => 3,
        (b'=', [b'<', ..]) => 2,
        (b'>', [b'=', ..]) => 2,
        (b'\\', [b'=', ..]) => 2,
        (b'/', [b'/', ..]) => 2,
        (b'=' | b'>' | b'<' | b'+' | b'-' | b'*' | b'?', _) => 1,
        _ => return (Kind::Other, 1),
    };
    (Kind::Symbol, length)
}

// What stands at a place between quotes.
#[derive(Clone, Copy, PartialEq, Eq)]
enum Between {
    Bytes,
    Quote,
    Escape,
}

// The quoted token whose first quote is left out here, or that quote alone where nothing closes it.
fn quoted(after: &[u8]) -> (Kind, usize) {
    match quoted_length(after) {
        Some(length) => (Kind::Quoted, length.saturating_add(1)),
        None => (Kind::Other, 1),
    }
}

// How long the inside of a quoted token is, with the quote that closes it.
fn quoted_length(after: &[u8]) -> Option<usize> {
    let mut best = None;
    let mut between = Between::Bytes;
    for (at, byte) in after.iter().enumerate() {
        match (between, *byte) {
            (Between::Quote, b'\'') => {
                best = Some(at);
                between = Between::Bytes;
            }
            (Between::Quote, _) => return Some(at),
            (Between::Escape, b'\'' | b'\\' | b'n' | b't') => between = Between::Bytes,
            (Between::Escape, _) => return best,
            (Between::Bytes, b'\'') => between = Between::Quote,
            (Between::Bytes, b'\\') => between = Between::Escape,
            (Between::Bytes, byte) => {
                if byte < 32 {
                    return best;
                }
            }
        }
    }
    if between == Between::Quote {
        return Some(after.len());
    }
    best
}

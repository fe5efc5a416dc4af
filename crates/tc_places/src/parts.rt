//! The parts of a term by their places in the text.
use crate::spans::{Span, part};
use crate::tokens::{Kind, Token, next_token};
use crate::words::TESTS;
use std::alloc::Global;
use tc_lists::NoMemory;

/// How a token changes how many brackets are open.
fn depth_behind(depth: usize, kind: Kind) -> usize {
    match kind {
        Kind::Open | Kind::OpenList => depth.saturating_add(1),
        Kind::Close | Kind::CloseList => depth.saturating_sub(1),
        _ => depth,
    }
}

/// What stands inside the brackets, where the span is a term in brackets, a list, or a name with
/// its arguments.
pub fn inside(text: &[u8], span: Span) -> Option<Span> {
    let open = first_bracket(text, span)?;
    let mut depth: usize = 1;
    let mut at = open.span.to;
    for _ in at..span.to {
        let token = next_token(text, at)?;
        depth = depth_behind(depth, token.kind);
        at = token.span.to;
        if depth == 0 {
            let inner = Span {
                from: open.span.to,
                to: token.span.from,
            };
            return if at == span.to { Some(inner) } else { None };
        }
    }
    None
}

// The bracket that is the first token of a span, or the second behind a name.
fn first_bracket(text: &[u8], span: Span) -> Option<Token> {
    let first = next_token(text, span.from)?;
    if depth_behind(0, first.kind) == 1 {
        return Some(first);
    }
    let second = next_token(text, first.span.to)?;
    if second.kind == Kind::Open && second.direct {
        Some(second)
    } else {
        None
    }
}

/// The parts of a span between commas that stand in no brackets there. A bar is taken for a comma.
pub fn split(alloc: Global, text: &[u8], span: Span) -> Result<Vec<Span>, NoMemory> {
    let mut parts = Vec::new(alloc);
    let mut depth = 0;
    let mut at = span.from;
    let mut piece: Option<Span> = None;
    for _ in span.from..span.to {
        let Some(token) = next_token(text, at) else {
            break;
        };
        if token.span.to > span.to {
            break;
        }
        at = token.span.to;
        if depth == 0 && (token.kind == Kind::Comma || token.kind == Kind::Bar) {
            push_piece(piece, token, &mut parts)?;
            piece = None;
        } else {
            depth = depth_behind(depth, token.kind);
            piece = Some(joined(piece, token));
        }
    }
    if let Some(last) = piece {
        parts.push(last)?;
    }
    Ok(parts)
}

// Appends the piece before a comma.
fn push_piece(piece: Option<Span>, comma: Token, into: &mut Vec<Span>) -> Result<(), NoMemory> {
    into.push(piece.unwrap_or(comma.span))?;
    Ok(())
}

// A piece with a token behind it.
fn joined(piece: Option<Span>, token: Token) -> Span {
    match piece {
        Some(span) => Span {
            from: span.from,
            to: token.span.to,
        },
        None => token.span,
    }
}

/// The arguments of a name.
pub fn arguments(alloc: Global, text: &[u8], span: Span) -> Result<Vec<Span>, NoMemory> {
    match inside(text, span) {
        Some(inner) => split(alloc, text, inner),
        None => Ok(Vec::new(alloc)),
    }
}

/// One of the arguments of a name, by its place from 0; or the whole, where there is none.
pub fn argument(alloc: Global, text: &[u8], span: Span, place: usize) -> Result<Span, NoMemory> {
    let parts = arguments(alloc, text, span)?;
    Ok(parts.get(place).copied().unwrap_or(span))
}

/// The parts of a body or a guard under commas, and under the brackets round them.
pub fn leaves(alloc: Global, text: &[u8], span: Span) -> Result<Vec<Span>, NoMemory> {
    let mut leaves = Vec::new(alloc);
    let mut left = Vec::new(alloc);
    left.push(span)?;
    let most = span.to.saturating_sub(span.from).saturating_mul(2);
    for _ in 0..most {
        let Some(next) = left.pop() else {
            break;
        };
        let parts = split(alloc, text, next)?;
        if parts.len() > 1 {
            for part in parts.iter().rev() {
                left.push(*part)?;
            }
        } else if let Some(inner) = group(text, next) {
            left.push(inner)?;
        } else {
            leaves.push(next)?;
        }
    }
    Ok(leaves)
}

// What stands inside round brackets, where the span is a term in them.
fn group(text: &[u8], span: Span) -> Option<Span> {
    let first = next_token(text, span.from)?;
    if first.kind != Kind::Open {
        return None;
    }
    inside(text, span)
}

/// The first token of a span.
pub fn first_of(text: &[u8], span: Span) -> Span {
    match next_token(text, span.from) {
        Some(token) => token.span,
        None => span,
    }
}

/// The first token of a span that is this word or symbol and stands in no brackets there.
pub fn find(text: &[u8], span: Span, word: &[u8]) -> Option<Span> {
    let mut depth = 0;
    let mut at = span.from;
    for _ in span.from..span.to {
        let token = next_token(text, at)?;
        if depth == 0 && part(text, token.span) == word {
            return Some(token.span);
        }
        depth = depth_behind(depth, token.kind);
        at = token.span.to;
    }
    None
}

/// The first variable of a span.
pub fn first_variable(text: &[u8], span: Span) -> Option<Span> {
    let mut at = span.from;
    for _ in span.from..span.to {
        let token = next_token(text, at)?;
        if token.kind == Kind::Variable && token.span.to <= span.to {
            return Some(token.span);
        }
        at = token.span.to;
    }
    None
}

/// Whether a guard may stand at a place: its first word is a test's, in brackets or not.
pub fn begins_guard(text: &[u8], from: usize) -> bool {
    let mut at = from;
    for _ in 0..4 {
        let Some(token) = next_token(text, at) else {
            return false;
        };
        if token.kind != Kind::Open {
            return TESTS.iter().any(|word| *word == part(text, token.span));
        }
        at = token.span.to;
    }
    false
}

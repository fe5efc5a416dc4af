//! What a line asks.
ghost use Rattle.std.specs.Prelude.{◌≡◌, IfNone, IfOk, IfSome, Err};
ghost use Rattle.tc_term.specs.TreeView.{tree_of};
ghost use Rattle.tc_lines.specs.Requests.{AsksNothing, IsRequest, IsWord, request_term};

use crate::asked::read_asked;
use std::alloc::Global;
use tc_lists::NoMemory;
use tc_model::{Ask, line_of};
use tc_read::{ReadFault, read_term};
use tc_term::{Name, Term};
use thiserror::Error;

/// What a line asks.
#[derive(Drop)]
pub enum LineAsk {
    /// So much of the centre of this name.
    Call(Name, Ask),
    /// Whether the pending ask has its reply.
    Poll,
    /// The reply of the pending ask, when it comes.
    Wait,
    /// The end of the session.
    Quit,
}

/// Why a line asks nothing.
#[derive(Clone, Copy, Debug, PartialEq, Eq, Drop, Error)]
pub enum BadLine {
    /// It is no term.
    #[error("the line is no term")]
    Syntax,
    /// A number in it, its variables or the term itself are beyond the limits.
    #[error("the line is beyond the limits of a term")]
    Size,
    /// It is a term that asks nothing.
    #[error("the line asks nothing")]
    Shape,
    /// Memory has run out.
    #[error("memory has run out")]
    NoMemory,
}

/// What the line asks, without the LF behind it and a CR before that.
///
/// Takes time linear in the length of the line.
pub fn read_line_request(alloc: Global, line: &[u8]) -> Result<LineAsk, BadLine>
    ensures { IsRequest line.now result }
{
    match read_asked(alloc, line) {
        Some(asked) => asked,
        None => read_any_request(alloc, line),
    }
}

// What the line asks, however it is written.
#[tactic(auto, using(crate::proofs::Asking::beyond_the_limits))]
fn read_any_request(alloc: Global, line: &[u8]) -> Result<LineAsk, BadLine>
    ensures { IsRequest line.now result }
{
    match read_term(alloc, line) {
        Ok(pattern) => match request_of(alloc, pattern.into_term()) {
            Ok(Some(asked)) => Ok(asked),
            Ok(None) => Err(BadLine::Shape),
            Err(_) => Err(BadLine::NoMemory),
        },
        Err(ReadFault::Syntax(_)) => Err(BadLine::Syntax),
        Err(ReadFault::WideInt(_)) => Err(BadLine::Size),
        Err(ReadFault::TooMany(_)) => Err(BadLine::Size),
        Err(ReadFault::TooBig(_)) => Err(BadLine::Size),
        Err(ReadFault::NoMemory) => Err(BadLine::NoMemory),
    }
}

// The request that is written so, if one is.
fn request_of(alloc: Global, t: Term) -> Result<Option<LineAsk>, NoMemory>
    ensures some { IfOk result (λ found. IfSome found (λ asked. tree_of t ≡ request_term asked)) }
    ensures none { IfOk result (λ found. IfNone found (AsksNothing (tree_of t))) }
{
    if let Some(word) = word_of(&t) {
        return Ok(Some(word));
    }
    let found = line_of(alloc, t)?;
    match found {
        Some(line) => Ok(Some(LineAsk::Call(line.centre, line.ask))),
        None => Ok(None),
    }
}

// The request that is a word alone, if the term is one.
fn word_of(t: &Term) -> Option<LineAsk>
    ensures some { IfSome result (λ asked. tree_of t.now ≡ request_term asked) }
    ensures none { IfNone result (IsWord (tree_of t.now) → ⊥) }
{
    let Term::Atom(name) = t else {
        return None;
    };
    if name.bytes() == b"poll".as_slice() {
        Some(LineAsk::Poll)
    } else if name.bytes() == b"wait".as_slice() {
        Some(LineAsk::Wait)
    } else if name.bytes() == b"quit".as_slice() {
        Some(LineAsk::Quit)
    } else {
        None
    }
}

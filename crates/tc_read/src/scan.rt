//! The tokens of a text, or of a clause, with what ends them.
ghost use Rattle.std.specs.Prelude.{◌≡◌, true, IfOk, IsTrue, ◌↔◌};
ghost use Rattle.tc_term.specs.Layouts.{IsBehindEnd};
ghost use Rattle.tc_read.specs.Scan.{IsClauseEnd, StandsNext, IsScanned};

use crate::layout::{behind_layout, behind_piece, next_byte};
use crate::lexeme::Lexeme;
use crate::longest::longest;
use crate::scanner::Scanner;
use std::alloc::Global;
use tc_lists::NoMemory;

/// What ends the tokens: the end of the text, the `.` at this place, or this place, where no token
/// begins.
#[derive(Clone, Copy)]
pub enum Stop {
    TextEnd,
    ClauseEnd(usize),
    NoToken(usize),
}

/// What stands next: an end, or a token with its place, whether no layout stands before it, and
/// what stands behind it.
#[derive(Clone, Copy)]
pub enum Found<'a> {
    End(Stop),
    Token(Lexeme<'a>, usize, bool, &'a [u8]),
}

/// The tokens and what was gathered from them, and what ends them.
#[derive(Drop)]
pub struct Scanned<'a> {
    pub gathered: Scanner<'a>,
    pub stop: Stop,
}

/// Whether a `.` that ends a clause stands here, where clauses are read.
fn is_end(text: &[u8], clauses: bool) -> bool
    ensures { IsTrue result ↔ ((clauses ≡ true) × IsClauseEnd text.now) }
{
    if !clauses {
        return false;
    }
    match next_byte(text) {
        None => false,
        Some((first, after)) => first == b'.' && is_behind_end(after),
    }
}

fn is_behind_end(after: &[u8]) -> bool
    ensures { IsTrue result ↔ IsBehindEnd after.now }
{
    match next_byte(after) {
        None => true,
        Some(_) => match behind_piece(after) {
            Some(_) => true,
            None => false,
        },
    }
}

/// What stands next in the rest of a text of this size.
#[inline(always)]
fn find<'a>(rest: &'a [u8], size: usize, clauses: bool) -> Found<'a>
    ensures { StandsNext clauses size rest.now result }
{
    let start = behind_layout(rest);
    let place = size.saturating_sub(start.len());
    if start.is_empty() {
        return Found::End(Stop::TextEnd);
    }
    if is_end(start, clauses) {
        return Found::End(Stop::ClauseEnd(place));
    }
    match longest(start) {
        None => Found::End(Stop::NoToken(place)),
        Some((lexeme, after)) => Found::Token(lexeme, place, rest.len() == start.len(), after),
    }
}

/// The tokens at the front of the rest of a text of this size.
pub fn scan<'a>(
    alloc: Global,
    text: &'a [u8],
    size: usize,
    clauses: bool,
) -> Result<Scanned<'a>, NoMemory>
    ensures { IfOk result (λ r. IsScanned clauses size text.now r) }
{
    let mut gathered = Scanner::new(alloc)?;
    let mut rest = text;
    loop {
        match find(rest, size, clauses) {
            Found::End(stop) => return Ok(Scanned { gathered, stop }),
            Found::Token(lexeme, place, direct, after) => {
                gathered.add(lexeme, place, direct)?;
                rest = after;
            }
        }
    }
}

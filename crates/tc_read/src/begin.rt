//! The steps of the parser where a term is awaited.
ghost use Rattle.std.specs.Prelude.{◌≡◌, IfOk, IsTrue, map};
ghost use Rattle.tc_read.specs.Frames.{IsMove, opened};
ghost use Rattle.tc_read.specs.Kept.{kept};
ghost use Rattle.tc_read.specs.Machine.{begin, listed, minus, named, signed};
ghost use Rattle.tc_read.specs.Views.{meant, sign_view, token_view, unquoted};

use crate::build::{atom, integer, variable};
use crate::compound::nil;
use crate::cursor::{called, closed_list, direct_integer};
use crate::frames::{Frame, Move, Stack, awaited, held};
use crate::operators::symbol_name;
use crate::tokens::{Sign, Token, Tokens};
use std::alloc::Global;
use tc_lists::NoMemory;
use tc_term::Name;

/// What a byte stands for behind a quote or a backslash.
pub fn meant(byte: u8) -> u8
    ensures { result ≡ meant byte }
{
    match byte {
        b'n' => b'\n',
        b't' => b'\t',
        _ => byte,
    }
}

/// What the bytes between quotes stand for.
pub fn unquoted(alloc: Global, inside: &[u8]) -> Result<Vec<u8>, NoMemory>
    ensures { IfOk result (λ bytes. bytes.items ≡ unquoted inside.now) }
{
    let mut bytes = Vec::with_capacity(alloc, inside.len())?;
    let mut paired = false;
    for byte in inside {
        if paired {
            bytes.push(meant(*byte))?;
            paired = false;
        } else if *byte == b'\'' || *byte == b'\\' {
            paired = true;
        } else {
            bytes.push(*byte)?;
        }
    }
    Ok(bytes)
}

/// A step where this token and these stand.
#[inline(always)]
pub fn begin<'a>(alloc: Global, stack: &mut Stack, token: Token<'a>, rest: Tokens<'a>) -> Move<'a>
    ensures { IfOk result
        (λ r. IsMove (begin kept (opened stack.old) (token_view token.entry)
        (map token_view rest.now)) stack.new r) }
{
    match token {
        Token::Variable(number) => held(stack, variable(number), 0, rest),
        Token::Integer {
            direct: _,
            value,
            place,
        } => held(stack, integer(false, value, place), 0, rest),
        Token::Word(name) => word(alloc, stack, name, rest),
        Token::Quoted(inside) => quoted(alloc, stack, inside, rest),
        Token::Symbol(sign) => signed(alloc, stack, sign, rest),
        Token::OpenList => listed(alloc, stack, rest),
        Token::Open(_) => awaited(stack, Frame::Group, rest),
        Token::Close => Ok(None),
        Token::CloseList => Ok(None),
        Token::Comma => Ok(None),
        Token::Bar => Ok(None),
    }
}

/// A step behind a name that stands as it is.
#[inline(always)]
fn word<'a>(alloc: Global, stack: &mut Stack, name: &[u8], rest: Tokens<'a>) -> Move<'a>
    ensures { IfOk result
        (λ r. IsMove (named kept (opened stack.old) name.now (map token_view rest.now))
        stack.new r) }
{
    named(stack, Name::new(alloc, name)?, rest)
}

/// A step behind a quoted name. It mostly stands as it is between its quotes.
#[inline(always)]
fn quoted<'a>(alloc: Global, stack: &mut Stack, inside: &[u8], rest: Tokens<'a>) -> Move<'a>
    ensures { IfOk result
        (λ r. IsMove (named kept (opened stack.old) (unquoted inside.now)
        (map token_view rest.now)) stack.new r) }
{
    if is_plain(inside) {
        word(alloc, stack, inside, rest)
    } else {
        escaped(alloc, stack, inside, rest)
    }
}

/// Whether the bytes between quotes stand for themselves.
#[inline(always)]
fn is_plain(inside: &[u8]) -> bool
    ensures { IsTrue result → unquoted inside.now ≡ inside.now }
{
    for byte in inside {
        if *byte == b'\'' || *byte == b'\\' {
            return false;
        }
    }
    true
}

/// A step behind a quoted name, byte by byte.
fn escaped<'a>(alloc: Global, stack: &mut Stack, inside: &[u8], rest: Tokens<'a>) -> Move<'a>
    ensures { IfOk result
        (λ r. IsMove (named kept (opened stack.old) (unquoted inside.now)
        (map token_view rest.now)) stack.new r) }
{
    let name = Name::from_vec(alloc, unquoted(alloc, inside)?)?;
    named(stack, name, rest)
}

/// A step behind a name: its arguments come, or it is an atom.
#[inline(always)]
fn named<'a>(stack: &mut Stack, name: Name, rest: Tokens<'a>) -> Move<'a>
    ensures { IfOk result
        (λ r. IsMove (named kept (opened stack.old) name (map token_view rest.now))
        stack.new r) }
{
    match called(rest) {
        Some(after) => awaited(stack, Frame::Args(name, 0), after),
        None => held(stack, atom(name), 0, rest),
    }
}

/// A step behind a symbol: its arguments come, or it is a minus before a term.
fn signed<'a>(alloc: Global, stack: &mut Stack, sign: Sign, rest: Tokens<'a>) -> Move<'a>
    ensures { IfOk result
        (λ r. IsMove (signed kept (opened stack.old) (sign_view sign)
        (map token_view rest.now)) stack.new r) }
{
    match called(rest) {
        Some(after) => {
            let name = Name::new(alloc, symbol_name(sign))?;
            awaited(stack, Frame::Args(name, 0), after)
        }
        None => match sign {
            Sign::Minus => minus(stack, rest),
            _ => Ok(None),
        },
    }
}

/// A step behind a minus that no bracket follows: a negative number, or a term whose minus it is.
fn minus<'a>(stack: &mut Stack, rest: Tokens<'a>) -> Move<'a>
    ensures { IfOk result
        (λ r. IsMove (minus kept (opened stack.old) (map token_view rest.now)) stack.new r) }
{
    match direct_integer(rest) {
        Some((size, place, after)) => held(stack, integer(true, size, place), 0, after),
        None => awaited(stack, Frame::Negated, rest),
    }
}

/// A step behind an opening square bracket: an empty list, or elements come.
fn listed<'a>(alloc: Global, stack: &mut Stack, rest: Tokens<'a>) -> Move<'a>
    ensures { IfOk result
        (λ r. IsMove (listed kept (opened stack.old) (map token_view rest.now)) stack.new r) }
{
    match closed_list(rest) {
        Some(after) => held(stack, nil(alloc)?, 0, after),
        None => awaited(stack, Frame::Elements(0), rest),
    }
}

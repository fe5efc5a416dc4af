//! The parser: one pass over the tokens, with a stack of what stands open.
ghost use Rattle.std.specs.Prelude.{IfOk, map};
ghost use Rattle.tc_read.specs.Frames.{IsMove, opened, opened_in, standing, tokens_left};
ghost use Rattle.tc_read.specs.Kept.{kept};
ghost use Rattle.tc_read.specs.Machine.{Awaits, step};
ghost use Rattle.tc_read.specs.Parsed.{IsParsed};
ghost use Rattle.tc_read.specs.Settled.{IsSettled};
ghost use Rattle.tc_read.specs.Views.{token_view};

use crate::begin::begin;
use crate::close::go_on;
use crate::cursor::next;
use crate::frames::{Move, Stack, State, Step};
use crate::measured::Item;
use crate::tokens::Tokens;
use std::alloc::Global;
use tc_lists::NoMemory;

/// Where steps lead that begin where a term has been read: the tokens are no term, or a term is
/// awaited, or all is read.
#[derive(Clone, Copy)]
pub enum Settled<'a> {
    Refused,
    Awaits(Step<'a>),
    Ends,
}

/// A step where a term is awaited.
#[inline(always)]
fn begun<'a>(alloc: Global, stack: &mut Stack, tokens: Tokens<'a>) -> Move<'a>
    ensures { IfOk result
        (λ r. IsMove (step kept (opened stack.old) Awaits (map token_view tokens.now))
        stack.new r) }
{
    match next(tokens) {
        None => Ok(None),
        Some((first, after)) => begin(alloc, stack, first, after),
    }
}

/// The steps from here on, until a term is awaited again or none is left.
#[inline(always)]
fn go_on_all<'a>(alloc: Global, stack: &mut Stack, from: Step<'a>) -> Result<Settled<'a>, NoMemory>
    ensures { IfOk result
        (λ r. IsSettled (opened_in from.entry.state stack.old) (standing from.entry.state stack.old)
        (tokens_left from.entry) stack.new r) }
{
    let mut now = from;
    loop {
        match now.state {
            State::Awaits => return Ok(Settled::Awaits(now)),
            State::Ends => return Ok(Settled::Ends),
            State::Holds(priority) => match go_on(alloc, stack, priority, now.rest)? {
                None => return Ok(Settled::Refused),
                Some(next) => now = next,
            },
        }
    }
}

/// The term that the tokens are, if they are one.
pub fn parse<'a>(alloc: Global, tokens: Tokens<'a>) -> Result<Option<Item>, NoMemory>
    ensures { IfOk result (λ r. IsParsed (map token_view tokens.now) r) }
{
    let mut stack = Stack::new(alloc)?;
    let mut now = Step {
        state: State::Awaits,
        rest: tokens,
    };
    loop {
        let first = match begun(alloc, &mut stack, now.rest)? {
            None => return Ok(None),
            Some(first) => first,
        };
        now = match go_on_all(alloc, &mut stack, first)? {
            Settled::Refused => return Ok(None),
            Settled::Awaits(next) => next,
            Settled::Ends => return Ok(Some(stack.pop_item())),
        };
    }
}

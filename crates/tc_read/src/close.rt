//! The steps of the parser where a term has been read.
ghost use Rattle.std.specs.Prelude.{◌≡◌, IfNone, IfOk, IfSome, [], MatchOption, None, Some, map};
ghost use Rattle.std.specs.Prelude.{suc, ℕ};
ghost use Rattle.tc_read.specs.declared.frames.Frame.{Frame};
ghost use Rattle.tc_read.specs.declared.frames.Stack.{Stack};
ghost use Rattle.tc_read.specs.Frames.{IsMove, close_in, frames_of, items_of, opened_below, top};
ghost use Rattle.tc_read.specs.Kept.{kept};
ghost use Rattle.tc_read.specs.Machine.{close, close_all, close_group, fitting, go_on, limit};
ghost use Rattle.tc_read.specs.Machine.{rest_of};
ghost use Rattle.tc_read.specs.Views.{operator_view, token_view};

use crate::compound::{between, cell, compound, list, negated, nil};
use crate::cursor::{Delimiter, delimited, next};
use crate::frames::{Frame, Move, Stack, State, Step, awaited, held, limit};
use crate::operators::{MINUS_PRIORITY, Operator, infix};
use crate::tokens::{Token, Tokens};
use std::alloc::Global;
use tc_lists::NoMemory;
use tc_term::Name;

/// The operator at the front, and what follows it, where a term of this priority may stand left of
/// it in the innermost open place.
#[inline(always)]
fn fitting<'a>(stack: &Stack, priority: u16, tokens: Tokens<'a>) -> Option<(Operator, Tokens<'a>)>
    ensures { MatchOption result
        (fitting (limit (opened_below stack.now)) priority (map token_view tokens.now) ≡ None)
        (λ r. (fitting (limit (opened_below stack.now)) priority (map token_view tokens.now)
        ≡ Some (operator_view r.0))
        × (map token_view r.1.now ≡ rest_of (map token_view tokens.now))) }
{
    let (token, after) = next(tokens)?;
    let operator = infix(token)?;
    if priority <= operator.left && operator.priority <= limit(stack) {
        Some((operator, after))
    } else {
        None
    }
}

/// A step to the next argument or element, where a comma follows the last item and is no operator.
#[inline(always)]
fn another<'a>(stack: &mut Stack, tokens: Tokens<'a>) -> Option<Step<'a>>
    ensures next { IfSome result (λ r. (priority : ℕ) → IsMove
        (go_on kept (opened_below stack.old) (top (items_of stack.old)) priority
        (map token_view tokens.now)) stack.new (Some r)) }
    ensures same { IfNone result (frames_of stack.new ≡ frames_of stack.old) }
    ensures items { items_of stack.new ≡ items_of stack.old }
{
    match next(tokens) {
        Some((Token::Comma, rest)) => {
            if stack.count_item() {
                Some(Step {
                    state: State::Awaits,
                    rest,
                })
            } else {
                None
            }
        }
        _ => None,
    }
}

/// A step behind the last item, of this priority.
#[inline(always)]
pub fn go_on<'a>(alloc: Global, stack: &mut Stack, priority: u16, tokens: Tokens<'a>) -> Move<'a>
    ensures { IfOk result
        (λ r. IsMove (go_on kept (opened_below stack.old) (top (items_of stack.old)) priority
        (map token_view tokens.now)) stack.new r) }
{
    match another(stack, tokens) {
        Some(step) => Ok(Some(step)),
        None => go_on_from(alloc, stack, priority, tokens),
    }
}

/// The same, by the operator that follows, or by the end of the innermost open place.
#[inline(always)]
fn go_on_from<'a>(alloc: Global, stack: &mut Stack, priority: u16, tokens: Tokens<'a>) -> Move<'a>
    ensures { IfOk result
        (λ r. IsMove (go_on kept (opened_below stack.old) (top (items_of stack.old)) priority
        (map token_view tokens.now)) stack.new r) }
{
    match fitting(stack, priority, tokens) {
        Some((operator, rest)) => awaited(stack, Frame::Between(operator), rest),
        None => close(alloc, stack, tokens),
    }
}

/// A step where the last item is whole in the innermost open place.
#[inline(always)]
fn close<'a>(alloc: Global, stack: &mut Stack, tokens: Tokens<'a>) -> Move<'a>
    ensures { IfOk result
        (λ r. IsMove (close kept (opened_below stack.old) (top (items_of stack.old))
        (map token_view tokens.now)) stack.new r) }
{
    match stack.pop_frame() {
        None => Ok(close_all(tokens)),
        Some(Frame::Between(operator)) => close_between(alloc, stack, operator, tokens),
        Some(Frame::Negated) => close_negated(alloc, stack, tokens),
        Some(Frame::Group) => Ok(close_group(tokens)),
        Some(Frame::Args(name, count)) => close_argument(alloc, stack, name, count, tokens),
        Some(Frame::Elements(count)) => close_element(alloc, stack, count, tokens),
        Some(Frame::Tail(count)) => close_tail(alloc, stack, count, tokens),
    }
}

/// The end, where no tokens are left.
fn close_all<'a>(tokens: Tokens<'a>) -> Option<Step<'a>>
    ensures { (stack : Stack) → frames_of stack ≡ []
        → IsMove (close_all kept (top (items_of stack)) (map token_view tokens.now)) stack
        result }
{
    if tokens.is_empty() {
        Some(Step {
            state: State::Ends,
            rest: tokens,
        })
    } else {
        None
    }
}

/// The end of an operator's right side.
fn close_between<'a>(
    alloc: Global,
    stack: &mut Stack,
    operator: Operator,
    tokens: Tokens<'a>,
) -> Move<'a>
    ensures { IfOk result
        (λ r. IsMove (close_in (Frame.Between operator) stack.old (map token_view tokens.now))
        stack.new r) }
{
    let right = stack.pop_item();
    let left = stack.pop_item();
    let item = between(alloc, operator, left, right)?;
    held(stack, item, operator.priority, tokens)
}

/// The end of a term behind its minus.
fn close_negated<'a>(alloc: Global, stack: &mut Stack, tokens: Tokens<'a>) -> Move<'a>
    ensures { IfOk result
        (λ r. IsMove (close_in Frame.Negated stack.old (map token_view tokens.now)) stack.new r) }
{
    let of = stack.pop_item();
    let item = negated(alloc, of)?;
    held(stack, item, MINUS_PRIORITY, tokens)
}

/// The closing of a round bracket.
fn close_group<'a>(tokens: Tokens<'a>) -> Option<Step<'a>>
    ensures { (stack : Stack) → IsMove
        (close_group kept (opened_below stack) (top (items_of stack)) (map token_view tokens.now))
        stack result }
{
    match delimited(tokens) {
        Some((Delimiter::Close, rest)) => Some(Step {
            state: State::Holds(0),
            rest,
        }),
        _ => None,
    }
}

/// The closing of a compound, or its next argument.
fn close_argument<'a>(
    alloc: Global,
    stack: &mut Stack,
    name: Name,
    count: usize,
    tokens: Tokens<'a>,
) -> Move<'a>
    ensures { IfOk result
        (λ r. IsMove (close_in (Frame.Args name count) stack.old (map token_view tokens.now))
        stack.new r) }
{
    match delimited(tokens) {
        Some((Delimiter::Close, rest)) => {
            let item = compound(alloc, name, count, stack)?;
            held(stack, item, 0, rest)
        }
        Some((Delimiter::Comma, rest)) => {
            awaited(stack, Frame::Args(name, one_more(count)?), rest)
        }
        _ => Ok(None),
    }
}

/// The closing of a list, its tail, or its next element.
fn close_element<'a>(alloc: Global, stack: &mut Stack, count: usize, tokens: Tokens<'a>) -> Move<'a>
    ensures { IfOk result
        (λ r. IsMove (close_in (Frame.Elements count) stack.old (map token_view tokens.now))
        stack.new r) }
{
    match delimited(tokens) {
        Some((Delimiter::CloseList, rest)) => {
            let last = stack.pop_item();
            let end = cell(alloc, last, nil(alloc)?)?;
            let item = list(alloc, count, stack, end)?;
            held(stack, item, 0, rest)
        }
        Some((Delimiter::Bar, rest)) => awaited(stack, Frame::Tail(one_more(count)?), rest),
        Some((Delimiter::Comma, rest)) => awaited(stack, Frame::Elements(one_more(count)?), rest),
        _ => Ok(None),
    }
}

/// The closing of a list behind its tail.
fn close_tail<'a>(alloc: Global, stack: &mut Stack, count: usize, tokens: Tokens<'a>) -> Move<'a>
    ensures { IfOk result
        (λ r. IsMove (close_in (Frame.Tail count) stack.old (map token_view tokens.now))
        stack.new r) }
{
    match delimited(tokens) {
        Some((Delimiter::CloseList, rest)) => {
            let tail = stack.pop_item();
            let item = list(alloc, count, stack, tail)?;
            held(stack, item, 0, rest)
        }
        _ => Ok(None),
    }
}

/// One more than so many.
#[inline]
fn one_more(count: usize) -> Result<usize, NoMemory>
    ensures { IfOk result (λ more. more ≡ suc count) }
{
    match count.checked_add(1) {
        Some(more) => Ok(more),
        None => Err(NoMemory),
    }
}

//! Variables, numbers and atoms in canonical text.
ghost use Rattle.std.specs.Prelude.{◌≡◌, IfErr, IfOk, None, Some};
ghost use Rattle.tc_lists.specs.Decimals.{integer_at, number_at};
ghost use Rattle.tc_term.specs.TreeView.{tree_of};
ghost use Rattle.tc_read.specs.Front.{atom, nil, number, variable};
ghost use Rattle.tc_read.specs.Seen.{read_to};
ghost use Rattle.tc_read.specs.declared.rest.Missing.TheVariants.{NoTerm};

use crate::printed_names::name_of;
use crate::rest::{Missing, Rest};
use std::alloc::Global;
use tc_lists::{read_integer, read_number};
use tc_term::{Name, Term};

/// The term at the front, or why there is none.
pub type Read = Result<Term, Missing>;

/// The variable whose number stands at the front.
#[inline(always)]
pub fn variable<'a>(rest: &mut Rest<'a>) -> Read
    ensures term { IfOk result
        (λ t. variable rest.old.budget (number_at 255 rest.old.bytes.now)
        ≡ read_to (tree_of t) rest.new) }
    ensures none { IfErr result
        (λ e. e ≡ NoTerm → variable rest.old.budget (number_at 255 rest.old.bytes.now) ≡ None) }
{
    let Some((number, behind)) = read_number(rest.bytes, 255) else {
        return Err(Missing::NoTerm);
    };
    rest.number(number as usize)?;
    rest.pay(0)?;
    rest.bytes = behind;
    Ok(Term::Var(number as u32))
}

/// The number at the front.
#[inline(always)]
pub fn number<'a>(rest: &mut Rest<'a>) -> Read
    ensures term { IfOk result
        (λ t. number rest.old.budget (integer_at rest.old.bytes.now)
        ≡ read_to (tree_of t) rest.new) }
    ensures none { IfErr result
        (λ e. e ≡ NoTerm → number rest.old.budget (integer_at rest.old.bytes.now) ≡ None) }
{
    let Some((number, behind)) = read_integer(rest.bytes) else {
        return Err(Missing::NoTerm);
    };
    rest.pay(0)?;
    rest.bytes = behind;
    Ok(Term::Int(number))
}

/// The empty list, whose last byte stands before the rest.
#[inline(always)]
pub fn nil<'a>(alloc: Global, rest: &mut Rest<'a>) -> Read
    ensures term { IfOk result
        (λ t. nil rest.old.budget rest.old.bytes.now ≡ read_to (tree_of t) rest.new) }
    ensures none { IfErr result
        (λ e. e ≡ NoTerm → nil rest.old.budget rest.old.bytes.now ≡ None) }
{
    rest.pay(2)?;
    Ok(Term::Atom(Name::new(alloc, b"[]")?))
}

/// The atom of this name, unless it is the empty list.
#[inline(always)]
pub fn atom<'a>(alloc: Global, name: &[u8], rest: &mut Rest<'a>) -> Read
    ensures term { IfOk result
        (λ t. atom name.now rest.old.budget rest.old.bytes.now ≡ read_to (tree_of t) rest.new) }
    ensures none { IfErr result
        (λ e. e ≡ NoTerm → atom name.now rest.old.budget rest.old.bytes.now ≡ None) }
{
    if name == b"[]".as_slice() {
        return Err(Missing::NoTerm);
    }
    rest.pay(name.len())?;
    Ok(Term::Atom(name_of(alloc, name)?))
}

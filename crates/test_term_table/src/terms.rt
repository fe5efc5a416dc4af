//! The terms that rows stand for, and what they are good for.
//!
//! | Term | Stands for |
//! |---|---|
//! | `x(N)` | the variable of this number |
//! | `long(A,N)` | the atom of N times this name |
//! | `nest(A,N,T)` | A(A(..A(T)..)), N deep |
//! | `wide(A,N,T)` | A(T,T,..,T), of N arguments |
//! | `double(N,T)` | f(U,U), where U is the same of N - 1, and T of 0 |
//! | `numbers(N,T)`, `variables(N,T)` | f of the numbers or the variables 0, 1, .. below N, and of T |
//! | `different(N)` | f of N different variables, from the highest number down, and of 0 |
//!
//! Each other term stands for itself, with what its arguments stand for.
use crate::answers::{append_template, append_term, append_truth};
use anyhow::anyhow;
use std::alloc::Global;
use tc_lists::NoMemory;
use tc_term::{Args, Ground, Name, NotPattern, NotTuple, Pattern, Term, fits};
use test_texts::repeat;

/// The most arguments that a term is made with, and how deep it is made.
const MOST_ARGUMENTS: i64 = 100_000;
/// The most times that a term is doubled.
const MOST_DOUBLED: i64 = 16;

/// The term that a row's term stands for.
pub fn built(alloc: Global, term: &Term) -> anyhow::Result<Term> {
    let Term::Comp(name, args) = term else {
        return Ok(term.copy(alloc)?);
    };
    let mut parts = Vec::new(alloc);
    for arg in args.items() {
        parts.push(built(alloc, arg)?)?;
    }
    shaped(alloc, name, parts)
}

// The term that a name and built arguments stand for.
fn shaped(alloc: Global, name: &Name, parts: Vec<Term>) -> anyhow::Result<Term> {
    match (name.bytes(), parts.as_slice()) {
        (b"x", [Term::Int(number)]) => Ok(Term::Var(u32::try_from(*number)?)),
        (b"long", [Term::Atom(part), Term::Int(times)]) => long(alloc, part.bytes(), *times),
        (b"nest", [Term::Atom(outer), Term::Int(times), inner]) => {
            nest(alloc, outer, most(*times, MOST_ARGUMENTS)?, inner)
        }
        (b"wide", [Term::Atom(outer), Term::Int(times), inner]) => {
            Ok(wide(alloc, outer, most(*times, MOST_ARGUMENTS)?, inner)?)
        }
        (b"double", [Term::Int(times), inner]) => {
            double(alloc, most(*times, MOST_DOUBLED)?, inner)
        }
        (b"numbers", [Term::Int(count), last]) => Ok(numbers(alloc, *count, last)?),
        (b"variables", [Term::Int(count), last]) => {
            Ok(variables(alloc, u32::try_from(*count)?, last)?)
        }
        (b"different", [Term::Int(count)]) => Ok(different(alloc, u32::try_from(*count)?)?),
        _ => Ok(compound(alloc, name, parts)?),
    }
}

// The number of times, where it is at most so large.
fn most(times: i64, limit: i64) -> anyhow::Result<i64> {
    if times > limit {
        return Err(anyhow!("a term is too large"));
    }
    Ok(times)
}

// The compound of this name and these arguments, if there are any, else the atom.
fn compound(alloc: Global, name: &Name, args: Vec<Term>) -> Result<Term, NoMemory> {
    let name = name.copy(alloc)?;
    Ok(if args.is_empty() {
        Term::Atom(name)
    } else {
        Term::Comp(name, Args::new(alloc, args)?)
    })
}

// The atom of so many times this name.
fn long(alloc: Global, part: &[u8], times: i64) -> anyhow::Result<Term> {
    let mut bytes = Vec::new(alloc);
    repeat(part, times, &mut bytes)?;
    Ok(Term::Atom(Name::from_vec(alloc, bytes)?))
}

// The term under so many compounds of this name.
fn nest(alloc: Global, outer: &Name, times: i64, inner: &Term) -> anyhow::Result<Term> {
    let mut term = inner.copy(alloc)?;
    for _ in 0..times {
        term = applied(alloc, outer, term)?;
    }
    Ok(term)
}

// The compound of one argument.
fn applied(alloc: Global, outer: &Name, inner: Term) -> Result<Term, NoMemory> {
    Ok(Term::Comp(outer.copy(alloc)?, Args::one(alloc, inner)?))
}

/// The compound of so many times this argument, if there are any, else the atom.
pub fn wide(alloc: Global, outer: &Name, times: i64, inner: &Term) -> Result<Term, NoMemory> {
    let mut args = Vec::new(alloc);
    for _ in 0..times {
        args.push(inner.copy(alloc)?)?;
    }
    compound(alloc, outer, args)
}

// The term doubled so many times.
fn double(alloc: Global, times: i64, inner: &Term) -> anyhow::Result<Term> {
    let name = Name::new(alloc, b"f")?;
    let mut term = inner.copy(alloc)?;
    for _ in 0..times {
        term = wide(alloc, &name, 2, &term)?;
    }
    Ok(term)
}

// The compound of the numbers below this one, and of a last argument.
fn numbers(alloc: Global, count: i64, last: &Term) -> Result<Term, NoMemory> {
    let mut args = Vec::new(alloc);
    for number in 0..count {
        args.push(Term::Int(number))?;
    }
    args.push(last.copy(alloc)?)?;
    Ok(Term::Comp(Name::new(alloc, b"f")?, Args::new(alloc, args)?))
}

// The compound of the variables of the numbers below this one, and of a last argument.
fn variables(alloc: Global, count: u32, last: &Term) -> Result<Term, NoMemory> {
    let mut args = Vec::new(alloc);
    for number in 0..count {
        args.push(Term::Var(number))?;
    }
    args.push(last.copy(alloc)?)?;
    Ok(Term::Comp(Name::new(alloc, b"f")?, Args::new(alloc, args)?))
}

// The compound of so many different variables, from the highest number down, and of 0.
fn different(alloc: Global, count: u32) -> Result<Term, NoMemory> {
    let mut args = Vec::new(alloc);
    for number in 0..count {
        args.push(Term::Var(u32::MAX - number))?;
    }
    args.push(Term::Int(0))?;
    Ok(Term::Comp(Name::new(alloc, b"f")?, Args::new(alloc, args)?))
}

/// The tuple that a row's term stands for.
pub fn tuple_of(alloc: Global, term: &Term) -> anyhow::Result<Ground> {
    Ground::of(built(alloc, term)?).map_err(|_| anyhow!("a row has no tuple"))
}

/// The template that a row's term stands for.
pub fn template_of(alloc: Global, term: &Term) -> anyhow::Result<Pattern> {
    Pattern::of(built(alloc, term)?).map_err(|_| anyhow!("a row has no template"))
}

/// The canonical text of a term.
pub fn print_built(alloc: Global, term: &Term, into: &mut Vec<u8>) -> anyhow::Result<()> {
    append_term(alloc, &built(alloc, term)?, into)?;
    Ok(())
}

/// Whether a term is within the limits.
pub fn print_fit(alloc: Global, term: &Term, into: &mut Vec<u8>) -> anyhow::Result<()> {
    append_truth(fits(&built(alloc, term)?), into)?;
    Ok(())
}

/// A term as a tuple, or why it is none.
pub fn print_tuple(alloc: Global, term: &Term, into: &mut Vec<u8>) -> anyhow::Result<()> {
    match Ground::of(built(alloc, term)?) {
        Ok(tuple) => append_term(alloc, tuple.copy(alloc)?.term(), into)?,
        Err(NotTuple::TooBig(_term)) => into.extend_from_slice(b"too big")?,
        Err(NotTuple::NotGround(_term)) => into.extend_from_slice(b"not ground")?,
    }
    Ok(())
}

/// A term as a template, or why it is none.
pub fn print_template(alloc: Global, term: &Term, into: &mut Vec<u8>) -> anyhow::Result<()> {
    match Pattern::of(built(alloc, term)?) {
        Ok(template) => append_template(alloc, &template.copy(alloc)?, into)?,
        Err(NotPattern::TooBig(_term)) => into.extend_from_slice(b"too big")?,
        Err(NotPattern::TooMany(_term)) => into.extend_from_slice(b"too many variables")?,
        Err(NotPattern::NoMemory(_term)) => return Err(anyhow!("memory has run out")),
    }
    Ok(())
}

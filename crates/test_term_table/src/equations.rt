//! Rows of equations: the steps that are taken in a store, and what comes of each.
//!
//! | Step | Does |
//! |---|---|
//! | `T = U` | adds an equation; tells whether it is added |
//! | `value(T)` | tells the value of a term, or `open` |
//! | `shifted(T,M,U,N)` | adds the equation of two terms whose variables are raised by M and by N |
//! | `value(T,N)` | tells the value of a term whose variables are raised by N |
//! | `find(T,U,..)` | tells the age of the oldest tuple that the template matches, and adds their equation |
//! | `chain(M,N,K)` | adds of N variables from M on that each is f of the next, K times; tells how many |
//! | `grow(N)` | adds variables |
//! | `trial(S,..)` | takes these steps, and goes back to the equations before them |
//! | `renew(N)` | begins anew, with N variables; it stands in no trial |
ghost use mathlib.Core.List.{IsPrefix};

use crate::answers::{append_term, append_truth};
use crate::bags::bag_of;
use crate::sample::Sample;
use crate::terms::{built, wide};
use anyhow::anyhow;
use std::alloc::Global;
use std::marker::Brand;
use std::sync::ledger::Blank;
use tc_lists::append_number;
use tc_term::{Name, Term};
use tc_unify::Part;
use test_texts::parts;

/// What comes of the steps of a row.
pub fn answer_equations(alloc: Global, row: &[Term], into: &mut Vec<u8>) -> anyhow::Result<()> {
    let [Term::Int(vars), steps @ ..] = row else {
        return Err(anyhow!("a store has a number of variables"));
    };
    let mut sample = Sample::new(alloc, u32::try_from(*vars)?)?;
    for step in steps {
        match parts(step) {
            (b"renew", [Term::Int(vars)]) => sample.renew(u32::try_from(*vars)?)?,
            _ => take(alloc, &mut sample, step, into)?,
        }
    }
    Ok(())
}

// Takes a step, and appends what comes of it.
fn take(alloc: Global, sample: &mut Sample, step: &Term, into: &mut Vec<u8>) -> anyhow::Result<()>
    ensures { IsPrefix sample.old.store.pairs sample.new.store.pairs }
{
    if let Term::Comp(name, args) = step {
        if name.bytes() == b"trial".as_slice() {
            let mark = sample.mark();
            for step in args.items() {
                take(alloc, sample, step, into)?;
            }
            sample.undo(&mark);
            return Ok(());
        }
    }
    act(alloc, sample, step, into)
}

// Takes a step that is no trial.
fn act(alloc: Global, sample: &mut Sample, step: &Term, into: &mut Vec<u8>) -> anyhow::Result<()>
    ensures { IsPrefix sample.old.store.pairs sample.new.store.pairs }
{
    match parts(step) {
        (b"=", [left, right]) => add(alloc, sample, (left, 0), (right, 0), into),
        (b"shifted", [left, Term::Int(raised), right, Term::Int(other)]) => {
            add(alloc, sample, (left, *raised), (right, *other), into)
        }
        (b"value", [term]) => tell(alloc, sample, term, 0, into),
        (b"value", [term, Term::Int(raised)]) => tell(alloc, sample, term, *raised, into),
        (b"find", [template, tuples @ ..]) => find(alloc, sample, template, tuples, into),
        (b"chain", [Term::Int(first), Term::Int(count), Term::Int(times)]) => {
            chain(alloc, sample, *first, *count, *times, into)
        }
        (b"grow", [Term::Int(more)]) => sample.grow(u32::try_from(*more)?),
        _ => Err(anyhow!("no step has this form")),
    }
}

// Adds an equation.
fn add(
    alloc: Global,
    sample: &mut Sample,
    left: (&Term, i64),
    right: (&Term, i64),
    into: &mut Vec<u8>,
) -> anyhow::Result<()>
    ensures { IsPrefix sample.old.store.pairs sample.new.store.pairs }
{
    let s = built(alloc, left.0)?;
    let t = built(alloc, right.0)?;
    let s = Part {
        term: &s,
        shift: u32::try_from(left.1)?,
    };
    let t = Part {
        term: &t,
        shift: u32::try_from(right.1)?,
    };
    let added = sample.add::<Brand>(s, t, Blank::new(1))?;
    into.extend_from_slice(b" ")?;
    append_truth(added, into)?;
    Ok(())
}

// Tells the value of a term.
fn tell(
    alloc: Global,
    sample: &Sample,
    term: &Term,
    raised: i64,
    into: &mut Vec<u8>,
) -> anyhow::Result<()> {
    let term = built(alloc, term)?;
    let part = Part {
        term: &term,
        shift: u32::try_from(raised)?,
    };
    into.extend_from_slice(b" ")?;
    match sample.value(part)? {
        Some(tuple) => append_term(alloc, tuple.term(), into)?,
        None => into.extend_from_slice(b"open")?,
    }
    Ok(())
}

// Searches the tuples.
fn find(
    alloc: Global,
    sample: &mut Sample,
    template: &Term,
    tuples: &[Term],
    into: &mut Vec<u8>,
) -> anyhow::Result<()>
    ensures { IsPrefix sample.old.store.pairs sample.new.store.pairs }
{
    let template = built(alloc, template)?;
    let bag = bag_of(alloc, tuples)?;
    into.extend_from_slice(b" ")?;
    match sample.find::<Brand>(alloc, &template, &bag, Blank::new(1))? {
        Some(age) => append_number(age, into)?,
        None => into.extend_from_slice(b"none")?,
    }
    Ok(())
}

// Adds for so many variables that each is f of the next one, so many times.
fn chain(
    alloc: Global,
    sample: &mut Sample,
    first: i64,
    count: i64,
    times: i64,
    into: &mut Vec<u8>,
) -> anyhow::Result<()>
    ensures { IsPrefix sample.old.store.pairs sample.new.store.pairs }
{
    let first = u16::try_from(first)?;
    let count = u16::try_from(count)?;
    let name = Name::new(alloc, b"f")?;
    let mut added: u64 = 0;
    for i in 0..u32::from(count) {
        let variable = Term::Var(u32::from(first) + i);
        let next = wide(alloc, &name, times, &Term::Var(u32::from(first) + i + 1))?;
        if sample.add::<Brand>(as_is(&variable), as_is(&next), Blank::new(1))? {
            added = added.saturating_add(1);
        }
    }
    into.extend_from_slice(b" ")?;
    append_number(added, into)?;
    Ok(())
}

// A term without a shift.
fn as_is(term: &Term) -> Part<'_> {
    Part { term, shift: 0 }
}

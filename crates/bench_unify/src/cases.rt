//! The four cases, and their additions.
ghost use Rattle.std.specs.Prelude.{◌≡◌, ◌+◌, ◌<◌, ◌≤◌, IfOk};
ghost use Rattle.tc_term.specs.TreeView.{tree_of};
ghost use Rattle.tc_term.specs.Variables.{raised, var_bound};

use crate::chains::{LENGTH, chains};
use crate::tally::Tally;
use std::alloc::{AllocError, Global};
use std::marker::Brand;
use std::sync::ledger::{Blank, Ledger};
use tc_read::read_term;
use tc_steps::Steps;
use tc_term::{Pattern, Term};
use tc_unify::{Part, Store};

/// What is added, and to which store.
#[derive(Clone, Copy)]
pub enum Case {
    /// A small template and a tuple that matches it, to a new store each time.
    Fresh,
    /// The same to one store, which goes back after each addition.
    Reused,
    /// The first variables of two chains, to one store.
    Chains,
    /// The small template and a tuple with another name, to one store.
    Clash,
}

impl Case {
    /// The word that stands for the case in the table.
    pub fn name(self) -> &'static str {
        match self {
            Case::Fresh => "fresh",
            Case::Reused => "reused",
            Case::Chains => "chains",
            Case::Clash => "clash",
        }
    }

    /// How many additions are measured: some seconds' at most.
    pub fn additions(self) -> u32 {
        match self {
            Case::Fresh => 1_000_000,
            Case::Reused => 2_000_000,
            Case::Chains => 20_000,
            Case::Clash => 10_000_000,
        }
    }
}

/// Makes so many additions of a case.
pub fn additions(alloc: Global, case: Case, count: u32) -> anyhow::Result<Tally> {
    additions_in::<Brand>(alloc, case, count, Blank::new(1))
}

/// The same, with its steps counted in a ledger.
fn additions_in<L: Ledger>(
    alloc: Global,
    case: Case,
    count: u32,
    blank: Blank,
) -> anyhow::Result<Tally>
    requires name { blank.name ≡ L.name }
    requires parts { blank.parts ≡ L.parts }
    requires some { 0 < blank.parts }
{
    let mut steps = Steps::<L>::none(blank);
    let template = read_term(alloc, b"f(X,g(Y,a),X)")?;
    let tally = match case {
        Case::Fresh => in_new_stores(
            alloc,
            &template,
            &read_term(alloc, b"f(b,g(c,a),b)")?,
            count,
            &mut steps,
        )?,
        Case::Reused => in_one_store(
            alloc,
            &template,
            &read_term(alloc, b"f(b,g(c,a),b)")?,
            count,
            &mut steps,
        )?,
        Case::Chains => over_chains(alloc, count, &mut steps)?,
        Case::Clash => in_one_store(
            alloc,
            &template,
            &read_term(alloc, b"h(b,g(c,a),b)")?,
            count,
            &mut steps,
        )?,
    };
    Ok(tally)
}

/// Adds template = tuple to a new store, so many times.
fn in_new_stores<L: Ledger>(
    alloc: Global,
    template: &Pattern,
    tuple: &Pattern,
    count: u32,
    steps: &mut Steps<L>,
) -> Result<Tally, AllocError>
    ensures { IfOk result (λ tally. tally.accepted + tally.refused ≡ count) }
{
    let variables = template.vars().max(tuple.vars());
    let mut tally = Tally {
        accepted: 0,
        refused: 0,
    };
    for _ in 0..count {
        let mut store = Store::new(alloc, variables)?;
        tally.count(store.add(as_it_is(template), as_it_is(tuple), steps)?);
    }
    Ok(tally)
}

/// Adds template = tuple to one store, so many times.
fn in_one_store<L: Ledger>(
    alloc: Global,
    template: &Pattern,
    tuple: &Pattern,
    count: u32,
    steps: &mut Steps<L>,
) -> Result<Tally, AllocError>
    ensures { IfOk result (λ tally. tally.accepted + tally.refused ≡ count) }
{
    let mut store = Store::new(alloc, template.vars().max(tuple.vars()))?;
    again(
        &mut store,
        as_it_is(template),
        as_it_is(tuple),
        count,
        steps,
    )
}

/// Makes the first variables of two chains equal, so many times.
fn over_chains<L: Ledger>(
    alloc: Global,
    count: u32,
    steps: &mut Steps<L>,
) -> Result<Tally, AllocError>
    ensures { IfOk result (λ tally. tally.accepted + tally.refused ≡ count) }
{
    let mut store = chains(alloc, steps)?;
    let first = Term::Var(0);
    let left = Part {
        term: &first,
        shift: 0,
    };
    let right = Part {
        term: &first,
        shift: LENGTH,
    };
    again(&mut store, left, right, count, steps)
}

/// The template with the numbers that its variables have.
fn as_it_is(template: &Pattern) -> Part<'_>
    ensures { var_bound (raised result.shift (tree_of result.term.now)) ≤ var_bound template.now }
{
    Part {
        term: template.term(),
        shift: 0,
    }
}

/// Adds an equation and goes back to what was there before, so many times.
fn again<L: Ledger>(
    store: &mut Store,
    left: Part,
    right: Part,
    count: u32,
    steps: &mut Steps<L>,
) -> Result<Tally, AllocError>
    requires left { var_bound (raised left.shift (tree_of left.term.now)) ≤ store.old.vars }
    requires right { var_bound (raised right.shift (tree_of right.term.now)) ≤ store.old.vars }
    ensures { IfOk result (λ tally. tally.accepted + tally.refused ≡ count) }
{
    let mut tally = Tally {
        accepted: 0,
        refused: 0,
    };
    for _ in 0..count {
        let mark = store.mark();
        tally.count(store.add(left, right, steps)?);
        store.undo(&mark);
    }
    Ok(tally)
}

//! The search for the clause that an event triggers, again and again.
ghost use Rattle.std.specs.Prelude.{◌≡◌, ◌<◌};

use crate::scenes::{put, tuple};
use std::alloc::Global;
use std::marker::Brand;
use std::sync::ledger::{Blank, Ledger};
use tc_lists::{NoMemory, append_number};
use tc_model::Event;
use tc_spec::{Spec, read_spec};
use tc_steps::Steps;
use tc_unify::Store;

/// By what the clauses differ of which one is triggered.
#[derive(Clone, Copy)]
pub enum Kind {
    /// By the names of their heads.
    Named,
    /// By their guards.
    Guarded,
}

impl Kind {
    /// The word for it.
    pub fn name(self) -> &'static str {
        match self {
            Kind::Named => "among",
            Kind::Guarded => "guarded",
        }
    }
}

/// Looks so many times for what one event triggers among so many clauses of a kind: how many
/// clauses were triggered in all.
pub fn find(alloc: Global, kind: Kind, clauses: u32, count: u32) -> anyhow::Result<u64> {
    let text = match kind {
        Kind::Named => heads(alloc, clauses)?,
        Kind::Guarded => guards(alloc, clauses)?,
    };
    let spec = Spec::of(alloc, read_spec(alloc, &text)?)?;
    let event = put(tuple(alloc, "e7(1)")?);
    let found = again::<Brand>(alloc, &spec, &event, count, Blank::new(1))?;
    Ok(found)
}

// Looks so many times for what an event triggers.
fn again<L: Ledger>(
    alloc: Global,
    spec: &Spec,
    event: &Event,
    count: u32,
    blank: Blank,
) -> Result<u64, NoMemory>
    requires name { blank.name ≡ L.name }
    requires parts { blank.parts ≡ L.parts }
    requires some { 0 < blank.parts }
{
    let mut store = Store::new(alloc, 0)?;
    let mut steps = Steps::<L>::none(blank);
    let mut found: u64 = 0;
    for _ in 0..count {
        let numbers = spec.triggered(alloc, &mut store, event, &mut steps)?;
        found = found.saturating_add(numbers.len() as u64);
    }
    Ok(found)
}

// So many clauses, to `out` of e0(X), e1(X), ..
fn heads(alloc: Global, clauses: u32) -> Result<Vec<u8>, NoMemory> {
    let mut text = Vec::new(alloc);
    for i in 0..clauses {
        text.extend_from_slice(b"reaction(out(e")?;
        append_number(u64::from(i), &mut text)?;
        text.extend_from_slice(b"(X)),true). ")?;
    }
    Ok(text)
}

// So many clauses to `out` of e7(X), of which the eighth alone has a guard that holds.
fn guards(alloc: Global, clauses: u32) -> Result<Vec<u8>, NoMemory> {
    let mut text = Vec::new(alloc);
    for i in 0..clauses {
        text.extend_from_slice(b"reaction(out(e7(X)),")?;
        text.extend_from_slice(if i == 7 { b"success" } else { b"failure" })?;
        text.extend_from_slice(b",true). ")?;
    }
    Ok(text)
}

//! Clauses, events, tuples and contexts.
ghost use Rattle.std.specs.Prelude.{◌≡◌, IfOk, length};

use anyhow::anyhow;
use std::alloc::Global;
use tc_bag::Bag;
use tc_lists::NoMemory;
use tc_model::{Context, Event, EventOp, Phase, Sign};
use tc_read::read_term;
use tc_term::{Ground, Name, Pattern};

/// The tuple of this text.
pub fn tuple(alloc: Global, text: &str) -> anyhow::Result<Ground> {
    let read = read_term(alloc, text.as_bytes())?;
    Ground::of(read.into_term()).map_err(|_| anyhow!("no tuple"))
}

/// The event that this tuple was put.
pub fn put(tuple: Ground) -> Event {
    // Reading the two terms tells that they are ground, and a template.
    let _tuple = tuple.term();
    let template = Pattern::of_tuple(tuple);
    let _template = template.term();
    Event::new(EventOp::Out, template, Phase::Post, Sign::Success)
}

/// A bag of the tuples of these texts.
pub fn bag(alloc: Global, texts: &[&str]) -> anyhow::Result<Bag>
    ensures { IfOk result (λ bag. bag.next ≡ length texts.now) }
{
    let mut bag = Bag::new(alloc);
    for text in texts {
        bag.add(tuple(alloc, text)?)?;
    }
    Ok(bag)
}

/// An agent at a centre.
pub fn context(alloc: Global) -> Result<Context, NoMemory> {
    Ok(Context::new(Name::new(alloc, b"ann")?, Name::new(alloc, b"desk")?))
}

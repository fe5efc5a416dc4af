//! The events that rows name.
ghost use Rattle.tc_model.specs.Events.{MayOccur};
ghost use Rattle.tc_model.specs.declared.events.Phase.TheVariants as phase;
ghost use Rattle.tc_model.specs.declared.events.Sign.TheVariants as sign;

use anyhow::anyhow;
use std::alloc::Global;
use tc_model::{Event, EventOp, Phase, Sign, event_op_of};
use tc_term::{Ground, Pattern, Term};

/// The event that a row of this name and these arguments is.
pub fn event_of(alloc: Global, name: &[u8], args: &[Term]) -> anyhow::Result<Event> {
    let [Term::Comp(op, args)] = args else {
        return Err(anyhow!("a row names no event"));
    };
    let (Some(op), [term]) = (event_op_of(op), args.items()) else {
        return Err(anyhow!("an event is of no operation"));
    };
    let event = match (name, op) {
        (b"request", _) => request(op, template(alloc, term)?),
        (b"success", EventOp::No | EventOp::Nop) => absence(op, template(alloc, term)?),
        (b"success", _) => success(op, tuple(alloc, term)?),
        (b"failure", _) => failure(op, template(alloc, term)?),
        _ => None,
    };
    event.ok_or_else(|| anyhow!("no such event occurs"))
}

// The term as a template.
fn template(alloc: Global, term: &Term) -> anyhow::Result<Pattern> {
    Pattern::of(term.copy(alloc)?).map_err(|_| anyhow!("an event has no template"))
}

// The term as a tuple.
fn tuple(alloc: Global, term: &Term) -> anyhow::Result<Ground> {
    Ground::of(term.copy(alloc)?).map_err(|_| anyhow!("an event has no tuple"))
}

// An operation is about to wait.
fn request(op: EventOp, template: Pattern) -> Option<Event> {
    let _template = template.term();
    match op {
        EventOp::In => Some(Event::new(EventOp::In, template, Phase::Pre, Sign::Neither)),
        EventOp::Rd => Some(Event::new(EventOp::Rd, template, Phase::Pre, Sign::Neither)),
        EventOp::No => Some(Event::new(EventOp::No, template, Phase::Pre, Sign::Neither)),
        _ => None,
    }
}

// An operation has found no tuple, or one where it asked whether there is none.
fn failure(op: EventOp, template: Pattern) -> Option<Event> {
    let _template = template.term();
    match op {
        EventOp::Inp => Some(Event::new(EventOp::Inp, template, Phase::Post, Sign::Failure)),
        EventOp::Rdp => Some(Event::new(EventOp::Rdp, template, Phase::Post, Sign::Failure)),
        EventOp::Nop => Some(Event::new(EventOp::Nop, template, Phase::Post, Sign::Failure)),
        _ => None,
    }
}

// An operation has succeeded because no tuple matches.
fn absence(op: EventOp, template: Pattern) -> Option<Event> {
    let _template = template.term();
    match op {
        EventOp::No => Some(Event::new(EventOp::No, template, Phase::Post, Sign::Success)),
        EventOp::Nop => Some(Event::new(EventOp::Nop, template, Phase::Post, Sign::Success)),
        _ => None,
    }
}

// An operation has succeeded with a tuple.
fn success(op: EventOp, tuple: Ground) -> Option<Event> {
    match op {
        EventOp::NoR => None,
        op => Some(succeeded(op, tuple)),
    }
}

// The same of an operation that has events.
fn succeeded(op: EventOp, tuple: Ground) -> Event
    requires { MayOccur op phase.Post sign.Success }
{
    // Reading the two terms tells that they are ground, and a template.
    let _tuple = tuple.term();
    let template = Pattern::of_tuple(tuple);
    let _template = template.term();
    Event::new(op, template, Phase::Post, Sign::Success)
}

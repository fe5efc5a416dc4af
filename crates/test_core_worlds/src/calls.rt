//! Steps that agents take, as their terms have them.
use crate::fault::WorldFault;
use std::alloc::Global;
use tc_lists::NoMemory;
use tc_model::Op;
use tc_spec::{SpecFault, read_spec};
use tc_term::{Ground, Name, NotPattern, Pattern, Term};

/// What an agent does: it makes a call, or looks at an earlier one.
#[derive(Drop)]
pub enum Act {
    Call(Op),
    Look(u64),
}

/// A step: what an agent does, so many times one after another.
#[derive(Clone, Copy)]
pub struct Step<'t> {
    pub agent: &'t Name,
    pub act: &'t Term,
    pub times: u32,
}

/// The step that a term spells.
pub fn step_of(term: &Term) -> Option<Step<'_>> {
    let (word, left, right) = as_two(term)?;
    match left {
        Term::Atom(agent) if word == b"?".as_slice() => Some(Step {
            agent,
            act: right,
            times: 1,
        }),
        Term::Int(times) if word == b"*".as_slice() => {
            let (agent, act) = as_asked(right)?;
            Some(Step {
                agent,
                act,
                times: u32::try_from(*times).ok()?,
            })
        }
        _ => None,
    }
}

// The agent and what it does, of a term `AGENT ? ACT`.
fn as_asked(term: &Term) -> Option<(&Name, &Term)> {
    match as_two(term)? {
        (b"?", Term::Atom(agent), act) => Some((agent, act)),
        _ => None,
    }
}

// The name and the arguments of a compound of two.
fn as_two(term: &Term) -> Option<(&[u8], &Term, &Term)> {
    match term {
        Term::Comp(name, args) => match args.items() {
            [left, right] => Some((name.bytes(), left, right)),
            _ => None,
        },
        Term::Var(_) | Term::Atom(_) | Term::Int(_) => None,
    }
}

/// What an agent does, by its term.
pub fn act_of(alloc: Global, term: &Term) -> Result<Act, WorldFault> {
    match term {
        Term::Atom(name) if name.bytes() == b"get_spec".as_slice() => Ok(Act::Call(Op::GetSpec)),
        Term::Comp(name, args) => match args.items() {
            [operand] => act_on(alloc, name.bytes(), operand),
            _ => Err(WorldFault::NoWorld("an act has one operand")),
        },
        _ => Err(WorldFault::NoWorld("an act is a compound")),
    }
}

// What an agent does, by its name and its operand.
fn act_on(alloc: Global, name: &[u8], operand: &Term) -> Result<Act, WorldFault> {
    match operand {
        Term::Int(number) if name == b"look".as_slice() => Ok(Act::Look(number.unsigned_abs())),
        Term::Atom(text) if name == b"set_spec".as_slice() => set_spec(alloc, text.bytes()),
        _ => on_tuples(alloc, name, operand),
    }
}

// The call that replaces the clauses by those of a text.
fn set_spec(alloc: Global, text: &[u8]) -> Result<Act, WorldFault> {
    match read_spec(alloc, text) {
        Ok(clauses) => Ok(Act::Call(Op::SetSpec(clauses))),
        Err(SpecFault::Bad(_)) => Err(WorldFault::NoWorld("a clause is faulty")),
        Err(SpecFault::NoMemory) => Err(WorldFault::NoMemory(NoMemory)),
    }
}

// The call that puts or asks for a tuple.
fn on_tuples(alloc: Global, name: &[u8], operand: &Term) -> Result<Act, WorldFault> {
    if name == b"out".as_slice() {
        let tuple = tuple_of(alloc, operand)?;
        return Ok(Act::Call(Op::Out(tuple)));
    }
    let template = template_of(alloc, operand)?;
    asking(name, template)
}

// The call of this name that asks for a tuple, or for absence.
fn asking(name: &[u8], template: Pattern) -> Result<Act, WorldFault> {
    if name == b"in".as_slice() {
        Ok(Act::Call(Op::In(template)))
    } else if name == b"rd".as_slice() {
        Ok(Act::Call(Op::Rd(template)))
    } else if name == b"inp".as_slice() {
        Ok(Act::Call(Op::Inp(template)))
    } else if name == b"rdp".as_slice() {
        Ok(Act::Call(Op::Rdp(template)))
    } else if name == b"no".as_slice() {
        Ok(Act::Call(Op::No(template)))
    } else if name == b"nop".as_slice() {
        Ok(Act::Call(Op::Nop(template)))
    } else {
        Err(WorldFault::NoWorld("no agent can do this"))
    }
}

/// The term as a tuple.
pub fn tuple_of(alloc: Global, term: &Term) -> Result<Ground, WorldFault> {
    match Ground::of(term.copy(alloc)?) {
        Ok(tuple) => Ok(tuple),
        Err(_) => Err(WorldFault::NoWorld("a tuple has a variable")),
    }
}

// The term as a template.
fn template_of(alloc: Global, term: &Term) -> Result<Pattern, WorldFault> {
    match Pattern::of(term.copy(alloc)?) {
        Ok(template) => Ok(template),
        Err(NotPattern::NoMemory(_)) => Err(WorldFault::NoMemory(NoMemory)),
        Err(_) => Err(WorldFault::NoWorld("a template is too large")),
    }
}

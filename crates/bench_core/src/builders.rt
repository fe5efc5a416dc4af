//! Terms and operations, built anew for each call.
use crate::fault::BenchFault;
use std::alloc::Global;
use tc_lists::{NoMemory, append_number};
use tc_model::Op;
use tc_read::read_term;
use tc_term::{Args, Ground, Name, NotPattern, Pattern, Term};

/// The term `name(x)`.
pub fn one(alloc: Global, name: &[u8], x: Term) -> Result<Term, NoMemory> {
    let args = Args::one(alloc, x)?;
    Ok(Term::Comp(Name::new(alloc, name)?, args))
}

/// The term `p(x,y)`.
pub fn pair(alloc: Global, x: Term, y: Term) -> Result<Term, NoMemory> {
    let args = Args::two(alloc, x, y)?;
    Ok(Term::Comp(Name::new(alloc, b"p")?, args))
}

/// The term `name_K(1)`.
pub fn named(alloc: Global, k: u32) -> Result<Term, NoMemory> {
    let mut name = Vec::new(alloc);
    name.extend_from_slice(b"name_")?;
    append_number(u64::from(k), &mut name)?;
    one(alloc, &name, Term::Int(1))
}

/// The template of a text.
pub fn template(alloc: Global, text: &[u8]) -> Result<Pattern, BenchFault> {
    match read_term(alloc, text) {
        Ok(template) => Ok(template),
        Err(_) => Err(BenchFault::Text),
    }
}

/// The term as a tuple.
pub fn tuple(term: Term) -> Result<Ground, BenchFault> {
    match Ground::of(term) {
        Ok(tuple) => Ok(tuple),
        Err(_) => Err(BenchFault::Text),
    }
}

/// What is asked of a centre.
#[derive(Clone, Copy)]
pub enum Verb {
    Out,
    In,
    Inp,
    Rdp,
    No,
}

/// The call of a term.
pub fn call(verb: Verb, term: Term) -> Result<Op, BenchFault> {
    match verb {
        Verb::Out => Ok(Op::Out(tuple(term)?)),
        Verb::In => Ok(Op::In(asked(term)?)),
        Verb::Inp => Ok(Op::Inp(asked(term)?)),
        Verb::Rdp => Ok(Op::Rdp(asked(term)?)),
        Verb::No => Ok(Op::No(asked(term)?)),
    }
}

// The term as a template.
fn asked(term: Term) -> Result<Pattern, BenchFault> {
    match Pattern::of(term) {
        Ok(template) => Ok(template),
        Err(NotPattern::NoMemory(_)) => Err(BenchFault::NoMemory(NoMemory)),
        Err(_) => Err(BenchFault::Text),
    }
}

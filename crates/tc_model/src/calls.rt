//! Operations, and who asks for them.
ghost use Rattle.std.specs.Prelude.{◌≡◌, IfOk};

use crate::reactions::Clauses;
use std::alloc::Global;
use tc_lists::NoMemory;
use tc_term::{Ground, Pattern};

/// A call of an agent, which is named by its place among the centre's agents, from 0.
///
/// The numbers of an agent rise from call to call, but need not be consecutive.
#[derive(Clone, Copy, Debug, PartialEq, Eq)]
pub struct CallId {
    pub agent: u32,
    pub number: u64,
}

/// What a centre is asked to do.
#[derive(Drop)]
pub enum Op {
    /// Puts the tuple.
    Out(Ground),
    /// Takes a tuple that matches the template, and waits for one where there is none.
    In(Pattern),
    /// Reads such a tuple, and waits likewise.
    Rd(Pattern),
    /// Takes a tuple that matches the template, where there is one.
    Inp(Pattern),
    /// Reads such a tuple, where there is one.
    Rdp(Pattern),
    /// Waits until no tuple matches the template.
    No(Pattern),
    /// Tells whether a tuple matches the template, and which.
    Nop(Pattern),
    /// Replaces the clauses.
    SetSpec(Clauses),
    /// Asks for the text of the clauses.
    GetSpec,
}

/// What is wanted of the tuples that match a template.
#[derive(Clone, Copy, Debug, PartialEq, Eq)]
pub enum Wants {
    /// One of them, which is then removed.
    Take,
    /// One of them, which stays.
    Look,
    /// That there is none.
    Absence,
}

/// A call that waits for what it wants.
#[derive(Drop)]
pub struct Request {
    pub id: CallId,
    pub wants: Wants,
    pub template: Pattern,
}

impl Op {
    ghost use Rattle.tc_model.specs.Typed.{IsTypedOp};

    /// Tells contracts what the operation's type promises, and does nothing.
    pub fn typed(&self)
        ensures { IsTypedOp self.now }
    {
        match self {
            Op::Out(tuple) => {
                let _term = tuple.term();
            }
            Op::In(template) | Op::Rd(template) | Op::Inp(template) | Op::Rdp(template) => {
                let _term = template.term();
            }
            Op::No(template) | Op::Nop(template) => {
                let _term = template.term();
            }
            Op::SetSpec(clauses) => {
                let _items = clauses.items();
            }
            Op::GetSpec => {}
        }
    }

    /// An equal operation.
    pub fn copy(&self, alloc: Global) -> Result<Op, NoMemory>
        ensures { IfOk result (λ op. op ≡ self.now) }
    {
        match self {
            Op::Out(tuple) => Ok(Op::Out(tuple.copy(alloc)?)),
            Op::In(template) => Ok(Op::In(template.copy(alloc)?)),
            Op::Rd(template) => Ok(Op::Rd(template.copy(alloc)?)),
            Op::Inp(template) => Ok(Op::Inp(template.copy(alloc)?)),
            Op::Rdp(template) => Ok(Op::Rdp(template.copy(alloc)?)),
            Op::No(template) => Ok(Op::No(template.copy(alloc)?)),
            Op::Nop(template) => Ok(Op::Nop(template.copy(alloc)?)),
            Op::SetSpec(clauses) => Ok(Op::SetSpec(clauses.copy(alloc)?)),
            Op::GetSpec => Ok(Op::GetSpec),
        }
    }
}

impl Request {
    /// An equal request.
    pub fn copy(&self, alloc: Global) -> Result<Request, NoMemory>
        ensures { IfOk result (λ request. request ≡ self.now) }
    {
        Ok(Request {
            id: self.id,
            wants: self.wants,
            template: self.template.copy(alloc)?,
        })
    }
}

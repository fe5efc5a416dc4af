//! What agents ask, as it is written.
ghost use Rattle.std.specs.Prelude.{◌≡◌, ◌≢◌, IfNone, IfOk, IfSome};
ghost use Rattle.tc_model.specs.Asks.{primitive_name};
ghost use Rattle.tc_model.specs.declared.asks.Primitive.{Primitive};

use crate::goals::copy_term;
use std::alloc::Global;
use tc_lists::NoMemory;
use tc_term::Term;

/// What a role may be permitted to do at a centre.
#[derive(Clone, Copy, Debug, PartialEq, Eq)]
pub enum Primitive {
    Out,
    In,
    Rd,
    Inp,
    Rdp,
    No,
    Nop,
    SetSpec,
    GetSpec,
}

impl Primitive {
    /// Its name, wherever it is written.
    pub fn name(&self) -> &'static [u8]
        ensures { result.now ≡ primitive_name self.now }
    {
        match self {
            Primitive::Out => b"out",
            Primitive::In => b"in",
            Primitive::Rd => b"rd",
            Primitive::Inp => b"inp",
            Primitive::Rdp => b"rdp",
            Primitive::No => b"no",
            Primitive::Nop => b"nop",
            Primitive::SetSpec => b"set_spec",
            Primitive::GetSpec => b"get_spec",
        }
    }
}

/// The primitive of this name, if there is one. No memory is taken.
pub fn primitive_of(name: &[u8]) -> Option<Primitive>
    ensures some { IfSome result (λ p. primitive_name p ≡ name.now) }
    ensures none { IfNone result ((p : Primitive) → primitive_name p ≢ name.now) }
{
    if name == Primitive::Out.name() {
        Some(Primitive::Out)
    } else if name == Primitive::In.name() {
        Some(Primitive::In)
    } else if name == Primitive::Rd.name() {
        Some(Primitive::Rd)
    } else if name == Primitive::Inp.name() {
        Some(Primitive::Inp)
    } else if name == Primitive::Rdp.name() {
        Some(Primitive::Rdp)
    } else if name == Primitive::No.name() {
        Some(Primitive::No)
    } else if name == Primitive::Nop.name() {
        Some(Primitive::Nop)
    } else if name == Primitive::SetSpec.name() {
        Some(Primitive::SetSpec)
    } else if name == Primitive::GetSpec.name() {
        Some(Primitive::GetSpec)
    } else {
        None
    }
}

/// What an agent asks of a centre. The operand is any term: whether it is a tuple, a template or
/// the text of clauses is seen when it is served.
#[derive(Drop)]
pub enum Ask {
    Out(Term),
    In(Term),
    Rd(Term),
    Inp(Term),
    Rdp(Term),
    No(Term),
    Nop(Term),
    SetSpec(Term),
    GetSpec,
}

impl Ask {
    ghost use Rattle.tc_model.specs.Asks.{primitive_of};

    /// What has to be permitted for it.
    pub fn primitive(&self) -> Primitive
        ensures { result ≡ primitive_of self.now }
    {
        match self {
            Ask::Out(_) => Primitive::Out,
            Ask::In(_) => Primitive::In,
            Ask::Rd(_) => Primitive::Rd,
            Ask::Inp(_) => Primitive::Inp,
            Ask::Rdp(_) => Primitive::Rdp,
            Ask::No(_) => Primitive::No,
            Ask::Nop(_) => Primitive::Nop,
            Ask::SetSpec(_) => Primitive::SetSpec,
            Ask::GetSpec => Primitive::GetSpec,
        }
    }

    /// An equal ask.
    pub fn copy(&self, alloc: Global) -> Result<Ask, NoMemory>
        ensures { IfOk result (λ ask. ask ≡ self.now) }
    {
        match self {
            Ask::Out(t) => Ok(Ask::Out(copy_term(alloc, t)?)),
            Ask::In(t) => Ok(Ask::In(copy_term(alloc, t)?)),
            Ask::Rd(t) => Ok(Ask::Rd(copy_term(alloc, t)?)),
            Ask::Inp(t) => Ok(Ask::Inp(copy_term(alloc, t)?)),
            Ask::Rdp(t) => Ok(Ask::Rdp(copy_term(alloc, t)?)),
            Ask::No(t) => Ok(Ask::No(copy_term(alloc, t)?)),
            Ask::Nop(t) => Ok(Ask::Nop(copy_term(alloc, t)?)),
            Ask::SetSpec(t) => Ok(Ask::SetSpec(copy_term(alloc, t)?)),
            Ask::GetSpec => Ok(Ask::GetSpec),
        }
    }
}

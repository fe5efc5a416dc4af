//! Operations: an ask whose operand is what the operation takes.
ghost use Rattle.std.specs.Prelude.{◌≡◌, IfErr, IfOk};
ghost use Rattle.tc_term.specs.Tree.{Fits, IsTuple};
ghost use Rattle.tc_term.specs.TreeView.{tree_of};
ghost use Rattle.tc_term.specs.Variables.{IsTemplate, renumbered};
ghost use Rattle.tc_model.specs.declared.calls.Op.TheVariants.{SetSpec};
ghost use Rattle.tc_desk.specs.Operands.{IsReplacing, OpOf, Operand, Sound};
ghost use Rattle.tc_asks.specs.Operands.{IsFaultOf, IsOperandFault, IsTemplateFault, IsTextFault};
ghost use Rattle.tc_asks.specs.Operands.{IsTupleFault, refusal_of};

use std::alloc::Global;
use tc_desk::{Refusal, ask_is_one_operation};
use tc_model::{Ask, BadSpec, Clauses, Op, SpecCause};
use tc_spec::{SpecFault, read_spec};
use tc_term::{Ground, NotPattern, NotTuple, Pattern, Term};
use thiserror::Error;

// What is wrong with an operand that is to be a text and is no atom.
const NO_ATOM: BadSpec = BadSpec {
    clause: 0,
    cause: SpecCause::Shape,
};

/// What is wrong with an operand: the first of these that holds. Memory is taken for the clauses of
/// a text, and for a template whose variables aren't numbered by first appearance yet.
#[derive(Clone, Copy, Debug, PartialEq, Eq, Error)]
pub enum OperandFault {
    /// It is beyond the limits of a tuple, a template or a text.
    #[error("the operand is too big")]
    TooBig,
    /// A variable stands in a tuple or a text.
    #[error("the operand has a variable")]
    NotGround,
    /// It is no text of clauses.
    #[error("the operand is no text of clauses: {0}")]
    BadSpec(BadSpec),
    #[error("out of memory")]
    NoMemory,
}

impl OperandFault {
    /// Why an ask is refused whose operand has this fault.
    pub fn refusal(self) -> Refusal
        ensures { result ≡ refusal_of self }
    {
        match self {
            OperandFault::TooBig => Refusal::TooBig,
            OperandFault::NotGround => Refusal::NotGround,
            OperandFault::BadSpec(bad) => Refusal::BadSpec(bad),
            OperandFault::NoMemory => Refusal::NoMemory,
        }
    }
}

/// The operation that the ask is.
///
/// A tuple is put as it is. A template's variables are numbered by first appearance. The text of
/// clauses is an atom's name; its first faulty clause is told with its first cause, counted from 1,
/// and an operand that is no atom as clause 0.
pub fn op_of(alloc: Global, ask: Ask) -> Result<Op, OperandFault>
    ensures op { IfOk result (λ op. OpOf ask (Sound op)) }
    ensures fault { IfErr result (IsFaultOf ask) }

    // Each answer comes exactly where it is due, but for want of memory.
    ensures same { (o : Operand) → OpOf ask o → IfOk result (λ op. o ≡ Sound op) }
    ensures first { (o : Operand) → OpOf ask o → IfErr result (IsOperandFault o) }
{
    ask_is_one_operation();
    let answer = answer_of(alloc, ask);
    answer
}

// The same, with what each answer says.
fn answer_of(alloc: Global, ask: Ask) -> Result<Op, OperandFault>
    ensures op { IfOk result (λ op. OpOf ask (Sound op)) }
    ensures fault { IfErr result (IsFaultOf ask) }
{
    match ask {
        Ask::Out(t) => Ok(Op::Out(tuple_of(t)?)),
        Ask::In(t) => Ok(Op::In(template_of(t)?)),
        Ask::Rd(t) => Ok(Op::Rd(template_of(t)?)),
        Ask::Inp(t) => Ok(Op::Inp(template_of(t)?)),
        Ask::Rdp(t) => Ok(Op::Rdp(template_of(t)?)),
        Ask::No(t) => Ok(Op::No(template_of(t)?)),
        Ask::Nop(t) => Ok(Op::Nop(template_of(t)?)),
        Ask::SetSpec(t) => Ok(Op::SetSpec(clauses_of(alloc, t)?)),
        Ask::GetSpec => Ok(Op::GetSpec),
    }
}

// The term as a tuple.
fn tuple_of(t: Term) -> Result<Ground, OperandFault>
    ensures tuple { IfOk result (λ tuple. tuple ≡ tree_of t) }
    ensures fits { IfOk result (λ _. IsTuple (tree_of t)) }
    ensures fault { IfErr result (IsTupleFault (tree_of t)) }
{
    match Ground::of(t) {
        Ok(tuple) => Ok(tuple),
        Err(NotTuple::TooBig(_)) => Err(OperandFault::TooBig),
        Err(NotTuple::NotGround(_)) => Err(OperandFault::NotGround),
    }
}

// The term as a template.
fn template_of(t: Term) -> Result<Pattern, OperandFault>
    ensures template { IfOk result (λ template. template ≡ renumbered (tree_of t)) }
    ensures fits { IfOk result (λ _. IsTemplate (tree_of t)) }
    ensures fault { IfErr result (IsTemplateFault (tree_of t)) }
{
    match Pattern::of(t) {
        Ok(template) => Ok(template),
        Err(NotPattern::TooBig(_)) => Err(OperandFault::TooBig),
        Err(NotPattern::TooMany(_)) => Err(OperandFault::TooBig),
        Err(NotPattern::NoMemory(_)) => Err(OperandFault::NoMemory),
    }
}

// The clauses whose text the term is.
fn clauses_of(alloc: Global, t: Term) -> Result<Clauses, OperandFault>
    ensures clauses { IfOk result (λ clauses. IsReplacing (tree_of t) (SetSpec clauses)) }
    ensures fits { IfOk result (λ _. Fits (tree_of t)) }
    ensures fault { IfErr result (IsTextFault (tree_of t)) }
{
    let tuple = tuple_of(t)?;
    let clauses = read_text(alloc, &tuple)?;
    Ok(clauses)
}

// The same of a tuple.
fn read_text(alloc: Global, tuple: &Ground) -> Result<Clauses, OperandFault>
    ensures clauses { IfOk result (λ clauses. IsReplacing tuple.now (SetSpec clauses)) }
    ensures fault { IfErr result (IsTextFault tuple.now) }
{
    match tuple.term() {
        Term::Atom(text) => match read_spec(alloc, text.bytes()) {
            Ok(clauses) => Ok(clauses),
            Err(SpecFault::Bad(bad)) => Err(OperandFault::BadSpec(bad)),
            Err(SpecFault::NoMemory) => Err(OperandFault::NoMemory),
        },
        Term::Var(_) | Term::Int(_) | Term::Comp(..) => Err(OperandFault::BadSpec(NO_ATOM)),
    }
}

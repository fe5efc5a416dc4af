//! What agents ask, read from terms.
ghost use Rattle.std.specs.Prelude.{◌≡◌, IfNone, IfOk, IfSome, codes};
ghost use Rattle.tc_term.specs.Few.{AreMany, few_terms};
ghost use Rattle.tc_term.specs.Tree.{Atomic, Compound};
ghost use Rattle.tc_term.specs.TreeView.{tree_of, trees_of};
ghost use Rattle.tc_model.specs.Asks.{primitive_name};
ghost use Rattle.tc_model.specs.Reactions.{of_one, of_two};
ghost use Rattle.tc_model.specs.Lines.{IsAsked, IsLined, ask_term, line_term};
ghost use Rattle.tc_model.specs.declared.asks.Ask.{Ask};
ghost use Rattle.tc_model.specs.declared.lines.Line.{Line};

use crate::asks::{Ask, Primitive, primitive_of};
use crate::parts::{atom_of, one_of, two_of};
use std::alloc::Global;
use tc_lists::NoMemory;
use tc_term::{Few, Name, Term};

/// What is asked, and the name of the centre where it is asked.
#[derive(Drop)]
pub struct Line {
    pub centre: Name,
    pub ask: Ask,
}

/// What is asked where this term is written, if anything is. What stands in it is moved where no
/// copy of the term is left.
pub fn ask_of(alloc: Global, t: Term) -> Result<Option<Ask>, NoMemory>
    ensures some { IfOk result (λ found. IfSome found (λ ask. tree_of t ≡ ask_term ask)) }
    ensures none { IfOk result (λ found. IfNone found
        ((ask : Ask) → tree_of t ≡ ask_term ask → ⊥)) }
{
    match t {
        Term::Atom(name) => Ok(ask_alone(name)),
        Term::Comp(name, args) => Ok(ask_with(name, args.into_few(alloc)?)),
        Term::Var(_) | Term::Int(_) => Ok(None),
    }
}

/// The line that is written as this term, if one is. What stands in it is moved where no copy of the
/// term is left.
pub fn line_of(alloc: Global, t: Term) -> Result<Option<Line>, NoMemory>
    ensures some { IfOk result (λ found. IfSome found (λ line. tree_of t ≡ line_term line)) }
    ensures none { IfOk result (λ found. IfNone found
        ((line : Line) → tree_of t ≡ line_term line → ⊥)) }
{
    match t {
        Term::Comp(name, args) => line_with(alloc, name, args.into_few(alloc)?),
        Term::Atom(_) | Term::Var(_) | Term::Int(_) => Ok(None),
    }
}

// What is asked by a name alone.
fn ask_alone(name: Name) -> Option<Ask>
    ensures { IsAsked (Atomic name) result }
{
    if name.bytes() == Primitive::GetSpec.name() {
        Some(Ask::GetSpec)
    } else {
        None
    }
}

// What is asked by a name with arguments.
fn ask_with(name: Name, args: Few) -> Option<Ask>
    requires { AreMany args }
    ensures { IsAsked (Compound name (trees_of (few_terms args))) result }
{
    match one_of(args) {
        Some(operand) => ask_on(name, operand),
        None => None,
    }
}

// What is asked by a name with an operand.
fn ask_on(name: Name, operand: Term) -> Option<Ask>
    ensures { IsAsked (of_one name (tree_of operand)) result }
{
    match primitive_of(name.bytes()) {
        Some(primitive) => ask_for(primitive, operand),
        None => None,
    }
}

// What is asked by a primitive with an operand.
fn ask_for(primitive: Primitive, operand: Term) -> Option<Ask>
    ensures { IsAsked (of_one (primitive_name primitive) (tree_of operand)) result }
{
    match primitive {
        Primitive::Out => Some(Ask::Out(operand)),
        Primitive::In => Some(Ask::In(operand)),
        Primitive::Rd => Some(Ask::Rd(operand)),
        Primitive::Inp => Some(Ask::Inp(operand)),
        Primitive::Rdp => Some(Ask::Rdp(operand)),
        Primitive::No => Some(Ask::No(operand)),
        Primitive::Nop => Some(Ask::Nop(operand)),
        Primitive::SetSpec => Some(Ask::SetSpec(operand)),
        Primitive::GetSpec => None,
    }
}

// The line that the compound of this name with these arguments is, if it is one.
fn line_with(alloc: Global, name: Name, args: Few) -> Result<Option<Line>, NoMemory>
    requires { AreMany args }
    ensures { IfOk result (IsLined (Compound name (trees_of (few_terms args)))) }
{
    if name.bytes() != b"?".as_slice() {
        return Ok(None);
    }
    match two_of(args) {
        Some((centre, ask)) => line_at(alloc, centre, ask),
        None => Ok(None),
    }
}

// The line that asks so much at a centre.
fn line_at(alloc: Global, centre: Term, ask: Term) -> Result<Option<Line>, NoMemory>
    ensures { IfOk result (IsLined (of_two (codes "?") (tree_of centre) (tree_of ask))) }
{
    let Some(ask) = ask_of(alloc, ask)? else {
        return Ok(None);
    };
    match atom_of(centre) {
        Some(centre) => Ok(Some(Line { centre, ask })),
        None => Ok(None),
    }
}

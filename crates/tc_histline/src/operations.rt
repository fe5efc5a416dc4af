//! Operations as text.
ghost use Rattle.std.specs.Prelude.{◌≡◌, ◌++◌, OnErr, OnOk};
ghost use mathlib.Core.List.{IsPrefix};
ghost use Rattle.tc_term.specs.Tree.{Fits};
ghost use Rattle.tc_term.specs.TreeView.{tree_of};
ghost use Rattle.tc_term.specs.Text.{canonical};
ghost use Rattle.tc_histline.specs.Text.{applied_text, op_text};

use std::alloc::Global;
use tc_lists::{NoMemory, cut_back};
use tc_model::{Clauses, Op, Primitive};
use tc_print::{print_quoted, print_term};
use tc_spec::print_spec;
use tc_term::Term;

/// Appends an operation, as it stands in the line of its entry.
///
/// Takes time linear in the length of the text.
pub fn print_op(alloc: Global, op: &Op, into: &mut Vec<u8>) -> Result<(), NoMemory>
    ensures appended { OnOk result (into.new.items ≡ into.old.items ++ op_text op.now) }
    ensures same { OnErr result (into.new.items ≡ into.old.items) }
{
    let before = into.len();
    let written = write_op(alloc, op, into);
    cut_back(written, before, into)
}

// Appends an operation.
pub(crate) fn write_op(alloc: Global, op: &Op, into: &mut Vec<u8>) -> Result<(), NoMemory>
    ensures appended { OnOk result (into.new.items ≡ into.old.items ++ op_text op.now) }
    ensures kept { IsPrefix into.old.items into.new.items }
{
    match op {
        Op::Out(tuple) => write_applied(alloc, Primitive::Out, tuple.term(), into),
        Op::In(template) => write_applied(alloc, Primitive::In, template.term(), into),
        Op::Rd(template) => write_applied(alloc, Primitive::Rd, template.term(), into),
        Op::Inp(template) => write_applied(alloc, Primitive::Inp, template.term(), into),
        Op::Rdp(template) => write_applied(alloc, Primitive::Rdp, template.term(), into),
        Op::No(template) => write_applied(alloc, Primitive::No, template.term(), into),
        Op::Nop(template) => write_applied(alloc, Primitive::Nop, template.term(), into),
        Op::SetSpec(clauses) => write_replaced(alloc, clauses, into),
        Op::GetSpec => into.extend_from_slice(Primitive::GetSpec.name()),
    }
}

// Appends a primitive's name, and a term in brackets.
fn write_applied(
    alloc: Global,
    primitive: Primitive,
    operand: &Term,
    into: &mut Vec<u8>,
) -> Result<(), NoMemory>
    requires fits { Fits (tree_of operand.now) }
    ensures appended { OnOk result (into.new.items
        ≡ into.old.items ++ applied_text primitive (canonical (tree_of operand.now))) }
    ensures kept { IsPrefix into.old.items into.new.items }
{
    into.extend_from_slice(primitive.name())?;
    into.extend_from_slice(b"(")?;
    print_term(alloc, operand, into)?;
    into.extend_from_slice(b")")
}

// Appends the operation that replaces the clauses by these.
fn write_replaced(alloc: Global, clauses: &Clauses, into: &mut Vec<u8>) -> Result<(), NoMemory>
    ensures appended { OnOk result (into.new.items
        ≡ into.old.items ++ op_text (Op.SetSpec clauses.now)) }
    ensures kept { IsPrefix into.old.items into.new.items }
{
    let mut text = Vec::new(alloc);
    print_spec(alloc, clauses, &mut text)?;
    into.extend_from_slice(Primitive::SetSpec.name())?;
    into.extend_from_slice(b"(")?;
    print_quoted(alloc, &text, into)?;
    into.extend_from_slice(b")")
}

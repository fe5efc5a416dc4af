//! Terms as text.
ghost use Rattle.std.specs.Prelude.{◌≡◌, ◌++◌, ◌∷◌, IsTrue, ◌↔◌, OnErr, OnOk};
ghost use mathlib.Core.List.{IsPrefix};
ghost use Rattle.tc_term.specs.Text.{Alone, Behind, applied, canonical};
ghost use Rattle.tc_term.specs.Tree.{Fits, Variable};
ghost use Rattle.tc_term.specs.TreeView.{tree_of};
ghost use Rattle.tc_term.specs.Variables.{variables_after, variables_after_all};
ghost use Rattle.tc_print.specs.Printing.{IsEmptyList, text_after, texts_after};

use crate::names::{append_atom, append_name};
use crate::numbering::Numbering;
use std::alloc::Global;
use tc_lists::{NoMemory, append_integer, append_number, cut_back};
use tc_term::{Args, Name, Term};

/// Appends the canonical text of a term, whose variables are numbered anew by first appearance.
///
/// Recurses as deep as the term is, and takes time linear in the length of the text.
pub fn print_term(alloc: Global, t: &Term, into: &mut Vec<u8>) -> Result<(), NoMemory>
    requires fits { Fits (tree_of t.now) }
    ensures appended { OnOk result (into.new.items
        ≡ into.old.items ++ canonical (tree_of t.now)) }
    ensures same { OnErr result (into.new.items ≡ into.old.items) }
{
    let before = into.len();
    let mut seen = Numbering::new(alloc);
    let written = write_term(t, &mut seen, into);
    cut_back(written, before, into)
}

// A term by itself.
#[cycle(print)]
fn write_term(t: &Term, seen: &mut Numbering, into: &mut Vec<u8>) -> Result<(), NoMemory>
    ensures seen { OnOk result (seen.new ≡ variables_after seen.old (tree_of t.now)) }
    ensures appended { OnOk result (into.new.items
        ≡ into.old.items ++ text_after seen.old Alone (tree_of t.now)) }
    ensures kept { IsPrefix into.old.items into.new.items }
{
    if let Some((head, tail)) = t.as_cell() {
        write_behind(b'[', head, seen, into)?;
        return write_tail(tail, seen, into);
    }
    match t {
        Term::Var(n) => write_variable(*n, seen, into),
        Term::Atom(name) => append_atom(name.bytes(), into),
        Term::Int(n) => append_integer(*n, into),
        Term::Comp(name, args) => write_compound(name, args, seen, into),
    }
}

// A byte, and a term by itself behind it.
#[cycle(print)]
fn write_behind(
    byte: u8,
    t: &Term,
    seen: &mut Numbering,
    into: &mut Vec<u8>,
) -> Result<(), NoMemory>
    ensures seen { OnOk result (seen.new ≡ variables_after seen.old (tree_of t.now)) }
    ensures appended { OnOk result (into.new.items
        ≡ into.old.items ++ byte ∷ text_after seen.old Alone (tree_of t.now)) }
    ensures kept { IsPrefix into.old.items into.new.items }
{
    into.push(byte)?;
    write_term(t, seen, into)
}

// A term behind an element of a list, up to the end of the list.
#[cycle(print)]
fn write_tail(t: &Term, seen: &mut Numbering, into: &mut Vec<u8>) -> Result<(), NoMemory>
    ensures seen { OnOk result (seen.new ≡ variables_after seen.old (tree_of t.now)) }
    ensures appended { OnOk result (into.new.items
        ≡ into.old.items ++ text_after seen.old Behind (tree_of t.now)) }
    ensures kept { IsPrefix into.old.items into.new.items }
{
    if let Some((head, tail)) = t.as_cell() {
        write_behind(b',', head, seen, into)?;
        return write_tail(tail, seen, into);
    }
    if !is_empty_list(t) {
        write_behind(b'|', t, seen, into)?;
    }
    into.push(b']')?;
    Ok(())
}

// A name with arguments, between brackets.
#[cycle(print)]
fn write_compound(
    name: &Name,
    args: &Args,
    seen: &mut Numbering,
    into: &mut Vec<u8>,
) -> Result<(), NoMemory>
    ensures seen { OnOk result (seen.new ≡ variables_after_all seen.old args.now) }
    ensures appended { OnOk result (into.new.items
        ≡ into.old.items ++ applied name.now (texts_after seen.old args.now)) }
    ensures kept { IsPrefix into.old.items into.new.items }
{
    append_name(name.bytes(), into)?;
    let mut separator = b'(';
    for arg in args.items() {
        write_behind(separator, arg, seen, into)?;
        separator = b',';
    }
    into.push(b')')?;
    Ok(())
}

// A variable by its new number.
fn write_variable(n: u32, seen: &mut Numbering, into: &mut Vec<u8>) -> Result<(), NoMemory>
    ensures seen { OnOk result (seen.new ≡ variables_after seen.old (Variable n)) }
    ensures appended { OnOk result (into.new.items
        ≡ into.old.items ++ text_after seen.old Alone (Variable n)) }
    ensures kept { IsPrefix into.old.items into.new.items }
{
    let number = seen.number(n)?;
    into.push(b'_')?;
    append_number(number as u64, into)
}

// Whether a term is the empty list.
fn is_empty_list(t: &Term) -> bool
    ensures { IsTrue result ↔ IsEmptyList (tree_of t.now) }
{
    match t {
        Term::Atom(name) => name.bytes() == b"[]".as_slice(),
        _ => false,
    }
}

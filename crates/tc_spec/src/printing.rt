//! Clauses as text.
ghost use Rattle.std.specs.Prelude.{◌≡◌, ◌++◌, OnErr, OnOk, codes};
ghost use mathlib.Core.List.{IsPrefix};
ghost use Rattle.tc_term.specs.Text.{canonical};
ghost use Rattle.tc_model.specs.Reactions.{clause_term, clauses_text};

use crate::terms::clause_of;
use std::alloc::Global;
use tc_lists::{NoMemory, cut_back};
use tc_model::{Clauses, Reaction};
use tc_print::print_term;

/// Appends the text of clauses: each as its canonical text, with a dot and a line feed behind it.
///
/// Takes time linear in the length of the text.
pub fn print_spec(alloc: Global, clauses: &Clauses, into: &mut Vec<u8>) -> Result<(), NoMemory>
    ensures printed { OnOk result (into.new.items ≡ into.old.items ++ clauses_text clauses.now) }
    ensures same { OnErr result (into.new.items ≡ into.old.items) }
{
    let before = into.len();
    let written = write_clauses(alloc, clauses.items(), into);
    cut_back(written, before, into)
}

// The same, where the text may be cut off after an `Err`.
fn write_clauses(alloc: Global, clauses: &[Reaction], into: &mut Vec<u8>) -> Result<(), NoMemory>
    ensures printed { OnOk result (into.new.items ≡ into.old.items ++ clauses_text clauses.now) }
    ensures kept { IsPrefix into.old.items into.new.items }
{
    for clause in clauses {
        write_clause(alloc, clause, into)?;
    }
    Ok(())
}

// One clause.
fn write_clause(alloc: Global, r: &Reaction, into: &mut Vec<u8>) -> Result<(), NoMemory>
    ensures printed { OnOk result (into.new.items
        ≡ into.old.items ++ canonical (clause_term r.now) ++ codes ".\n") }
    ensures kept { IsPrefix into.old.items into.new.items }
{
    let _op = r.op();
    let clause = clause_of(alloc, r)?;
    print_term(alloc, &clause, into)?;
    into.extend_from_slice(b".\n")?;
    Ok(())
}

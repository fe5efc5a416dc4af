//! The leaves of a body under commas.
ghost use Rattle.std.specs.Prelude.{◌≡◌, ◌++◌, map, OnOk};
ghost use Rattle.tc_term.specs.TreeView.{tree_of};
ghost use Rattle.tc_spec.specs.Written.{leaves};

use crate::arguments::as_two;
use std::alloc::Global;
use tc_lists::NoMemory;
use tc_term::Term;

/// Appends a copy of each leaf, left to right. Recurses as deep as the term is.
pub fn push_leaves(alloc: Global, t: &Term, into: &mut Vec<Term>) -> Result<(), NoMemory>
    ensures { OnOk result (map tree_of into.new.items
        ≡ map tree_of into.old.items ++ leaves (tree_of t.now)) }
{
    if let Some((left, right)) = as_two(t, b",") {
        push_leaves(alloc, left, into)?;
        return push_leaves(alloc, right, into);
    }
    let leaf = t.copy(alloc)?;
    into.push(leaf)?;
    Ok(())
}

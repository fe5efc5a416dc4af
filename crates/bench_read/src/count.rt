//! The clauses of a text, and the nodes of their terms.
ghost use Rattle.std.specs.Prelude.{◌≡◌, ◌≤◌};
ghost use Rattle.tc_term.specs.Limits.{most_nodes};
ghost use Rattle.tc_term.specs.Tree as tree;
ghost use Rattle.tc_term.specs.TreeView.{tree_of};

use std::alloc::Global;
use tc_read::{ReadFault, read_clause};
use tc_term::Term;

/// How many clauses a text has. It is read to its end, or to its first fault.
pub fn count_clauses(alloc: Global, text: &[u8]) -> Result<u64, ReadFault> {
    let mut clauses = 0;
    let mut from = 0;
    while let Some((_, behind)) = read_clause(alloc, text, from)? {
        clauses += 1;
        from = behind;
    }
    Ok(clauses)
}

/// How many nodes the clauses of a text have together. It is read to its end, or to its first
/// fault.
pub fn count_nodes(alloc: Global, text: &[u8]) -> Result<u64, ReadFault> {
    let mut all: u64 = 0;
    let mut from = 0;
    while let Some((clause, behind)) = read_clause(alloc, text, from)? {
        all = all.saturating_add(nodes(clause.term()));
        from = behind;
    }
    Ok(all)
}

/// How many nodes a term has. Recurses as deep as the term is.
fn nodes(term: &Term) -> u64
    requires { tree.nodes (tree_of term.now) ≤ most_nodes }
    ensures { result ≡ tree.nodes (tree_of term.now) }
{
    match term {
        Term::Var(_) | Term::Atom(_) | Term::Int(_) => 1,
        Term::Comp(_, args) => {
            let mut all = 1;
            for arg in args.items() {
                all += nodes(arg);
            }
            all
        }
    }
}

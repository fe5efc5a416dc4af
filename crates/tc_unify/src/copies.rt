//! Copies of terms in the arena.
ghost use Rattle.std.specs.Prelude.{◌≤◌, IfOk};
ghost use Rattle.tc_term.specs.TreeView.{tree_of};
ghost use Rattle.tc_term.specs.Variables.{raised, var_bound};
ghost use Rattle.tc_unify.specs.Arena.{IsArena, IsNodeFor, Grows};

use crate::nodes::{Arena, FIRST_VARIABLE};
use tc_lists::NoMemory;
use tc_term::Term;

/// The node of a term whose variables are raised. What could be copied stays where memory ends.
pub(crate) fn copy(arena: &mut Arena, term: &Term, shift: u32) -> Result<usize, NoMemory>
    requires arena { IsArena arena.old }
    requires variables { var_bound (raised shift (tree_of term.now)) ≤ arena.old.variables }
    ensures copied { IfOk result
        (λ node. IsNodeFor arena.new node (raised shift (tree_of term.now))) }
    ensures arena { IsArena arena.new }
    ensures grows { Grows arena.old arena.new }
{
    match term {
        Term::Var(n) => Ok(FIRST_VARIABLE + *n as usize + shift as usize),
        Term::Atom(name) => arena.push_atom(name.bytes()),
        Term::Int(n) => arena.push_number(*n),
        Term::Comp(name, args) => {
            let mut node = arena.push_atom(name.bytes())?;
            for arg in args.items() {
                let argument = copy(arena, arg, shift)?;
                node = arena.push_apply(node, argument)?;
            }
            Ok(node)
        }
    }
}

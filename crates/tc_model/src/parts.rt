//! What terms are put together from, moved out of them.
ghost use Rattle.std.specs.Prelude.{◌≡◌, ℕ, IfNone, IfSome, List};
ghost use Rattle.tc_term.specs.Few.{AreMany, few_terms};
ghost use Rattle.tc_term.specs.Tree.{Atomic, Last, More, Tree};
ghost use Rattle.tc_term.specs.TreeView.{tree_of, trees_of};

use tc_term::{Few, Name, Term};

/// The name that the term is, if it is an atom.
pub fn atom_of(t: Term) -> Option<Name>
    ensures some { IfSome result (λ name. tree_of t ≡ Atomic name) }
    ensures none { IfNone result ((name : List ℕ) → tree_of t ≡ Atomic name → ⊥) }
{
    match t {
        Term::Atom(name) => Some(name),
        Term::Var(_) | Term::Int(_) | Term::Comp(..) => None,
    }
}

/// The argument, where there is one alone.
#[tactic(auto, using(crate::proofs::Written::many_are_not_one))]
pub fn one_of(args: Few) -> Option<Term>
    requires { AreMany args }
    ensures some { IfSome result (λ a. trees_of (few_terms args) ≡ Last (tree_of a)) }
    ensures none { IfNone result ((a : Tree) → trees_of (few_terms args) ≡ Last a → ⊥) }
{
    match args {
        Few::One(x) => Some(x),
        Few::Two(..) | Few::Many(_) => None,
    }
}

/// The arguments, where there are two.
#[tactic(auto, using(crate::proofs::Written::many_are_not_two))]
pub fn two_of(args: Few) -> Option<(Term, Term)>
    requires { AreMany args }
    ensures some { IfSome result
        (λ r. trees_of (few_terms args) ≡ More (tree_of r.0) (Last (tree_of r.1))) }
    ensures none { IfNone result
        ((a b : Tree) → trees_of (few_terms args) ≡ More a (Last b) → ⊥) }
{
    match args {
        Few::Two(x, y) => Some((x, y)),
        Few::One(_) | Few::Many(_) => None,
    }
}

//! Heads that show at once that two terms can't be made equal.
ghost use Rattle.std.specs.Prelude.{◌≢◌, IsTrue};
ghost use Rattle.tc_term.specs.TreeView.{tree_of};
ghost use Rattle.tc_unify.specs.Clashing.{NeverEqual};

use tc_term::{Name, Term};

/// Whether the heads of two terms differ, so that nothing makes the terms equal.
///
/// Compares kinds, numbers and the first bytes of names alone, so that most terms that can't be
/// made equal cost next to nothing.
pub(crate) fn heads_differ(s: &Term, t: &Term) -> bool
    ensures { IsTrue result → NeverEqual (tree_of s.now) (tree_of t.now) }
{
    match (s, t) {
        (Term::Var(_), _) | (_, Term::Var(_)) => false,
        (Term::Atom(m), Term::Atom(n)) => begin_otherwise(m, n),
        (Term::Int(m), Term::Int(n)) => m != n,
        (Term::Comp(m, _), Term::Comp(n, _)) => begin_otherwise(m, n),
        _ => true,
    }
}

// Whether the first bytes of two names differ.
fn begin_otherwise(m: &Name, n: &Name) -> bool
    ensures { IsTrue result → m.now ≢ n.now }
{
    match (m.bytes().first(), n.bytes().first()) {
        (Some(a), Some(b)) => a != b,
        _ => false,
    }
}

//! The arguments of a compound of a known name.
ghost use Rattle.std.specs.Prelude.{IfNone, IfSome};
ghost use Rattle.tc_term.specs.TreeView.{tree_of};
ghost use Rattle.tc_spec.specs.Written.{IsNoThree, IsNoTwo, IsThree, IsTwo};

use tc_term::Term;

/// Both arguments, where the term is a compound of this name and two arguments.
pub fn as_two<'t>(t: &'t Term, name: &[u8]) -> Option<(&'t Term, &'t Term)>
    ensures some { IfSome result
        (λ x. IsTwo name.now (tree_of t.now) (tree_of x.0.now) (tree_of x.1.now)) }
    ensures none { IfNone result (IsNoTwo name.now (tree_of t.now)) }
{
    let Term::Comp(own, args) = t else {
        return None;
    };
    if own.bytes() != name {
        return None;
    }
    match args.items() {
        [first, second] => Some((first, second)),
        _ => None,
    }
}

/// All arguments, where the term is a compound of this name and three arguments.
pub fn as_three<'t>(t: &'t Term, name: &[u8]) -> Option<(&'t Term, &'t Term, &'t Term)>
    ensures some { IfSome result (λ x. IsThree name.now (tree_of t.now)
        (tree_of x.0.now) (tree_of x.1.now) (tree_of x.2.now)) }
    ensures none { IfNone result (IsNoThree name.now (tree_of t.now)) }
{
    let Term::Comp(own, args) = t else {
        return None;
    };
    if own.bytes() != name {
        return None;
    }
    match args.items() {
        [first, second, third] => Some((first, second, third)),
        _ => None,
    }
}

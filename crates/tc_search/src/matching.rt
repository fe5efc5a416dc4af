//! A template walked together with a tuple, in place.
ghost use Rattle.std.specs.Prelude.{◌≡◌, ◌≤◌, ◌<◌, ◌↔◌, [], false, length, IsTrue};
ghost use Rattle.tc_term.specs.Equations.{Matches};
ghost use Rattle.tc_term.specs.Tree.{Variable, is_ground};
ghost use Rattle.tc_term.specs.TreeView.{tree_of};
ghost use Rattle.tc_term.specs.Variables.{var_bound};
ghost use Rattle.tc_unify.specs.Splits.{Always};
ghost use Rattle.tc_search.specs.Bindings.{IsFree, AreGround, MakesTuple, Binds, NeverBinds};

use tc_term::{Ground, MOST_VARIABLES, Pattern, Term};

// As many variables as most templates have.
const FEW: usize = 8;

/// Whether a template matches a tuple.
///
/// No memory is taken. Takes at most the time of the tuple's nodes, and of those that stand for
/// variables that come again.
pub fn does_match(template: &Pattern, tuple: &Ground) -> bool
    ensures { IsTrue result ↔ Matches (var_bound template.now) [] template.now tuple.now }
{
    if template.vars() as usize <= FEW {
        let mut bound = [None; FEW];
        return matches_in(template, tuple, &mut bound);
    }
    // The term shows that there are no more variables than places.
    let _term = template.term();
    let mut bound = [None; MOST_VARIABLES];
    matches_in(template, tuple, &mut bound)
}

// The same, with places for the variables.
fn matches_in<'t>(template: &Pattern, tuple: &'t Ground, bound: &mut [Option<&'t Term>]) -> bool
    requires places { var_bound template.now ≤ length bound.old }
    requires free { IsFree bound.old }
    ensures { IsTrue result ↔ Matches (var_bound template.now) [] template.now tuple.now }
{
    agrees(template.term(), tuple.term(), bound)
}

// Whether some trees for the variables, which are those that are bound where one is, make the term
// the tuple; and binds the variables that are not bound.
fn agrees<'t>(term: &Term, tuple: &'t Term, bound: &mut [Option<&'t Term>]) -> bool
    requires places { var_bound (tree_of term.now) ≤ length bound.old }
    requires tuple { IsTrue (is_ground (tree_of tuple.now)) }
    requires ground { AreGround bound.old }
    ensures yes { IsTrue result
        → Binds bound.old (MakesTuple (tree_of term.now) (tree_of tuple.now)) bound.new Always }
    ensures no { result ≡ false
        → NeverBinds bound.old (MakesTuple (tree_of term.now) (tree_of tuple.now)) }
    ensures ground { AreGround bound.new }
{
    match (term, tuple) {
        (Term::Var(n), _) => bind(*n as usize, tuple, bound),
        (Term::Int(m), Term::Int(n)) => m == n,
        (Term::Atom(m), Term::Atom(n)) => m == n,
        (Term::Comp(m, left), Term::Comp(n, right)) => {
            let ours = left.items();
            let theirs = right.items();
            if ours.len() != theirs.len() {
                return false;
            }
            if m != n {
                return false;
            }
            for i in 0..ours.len() {
                if !agrees(&ours[i], &theirs[i], bound) {
                    return false;
                }
            }
            true
        }
        _ => false,
    }
}

// A variable: what it is bound to is the tuple, or it is bound to the tuple.
fn bind<'t>(variable: usize, tuple: &'t Term, bound: &mut [Option<&'t Term>]) -> bool
    requires place { variable < length bound.old }
    requires tuple { IsTrue (is_ground (tree_of tuple.now)) }
    requires ground { AreGround bound.old }
    ensures yes { IsTrue result
        → Binds bound.old (MakesTuple (Variable variable) (tree_of tuple.now)) bound.new Always }
    ensures no { result ≡ false
        → NeverBinds bound.old (MakesTuple (Variable variable) (tree_of tuple.now)) }
    ensures ground { AreGround bound.new }
{
    if let Some(first) = bound[variable] {
        return *first == *tuple;
    }
    bound[variable] = Some(tuple);
    true
}

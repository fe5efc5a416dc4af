//! Terms with each variable replaced that has a value.
ghost use Rattle.std.specs.Prelude.{◌≡◌, ◌≤◌, List, Option, IfOk};
ghost use Rattle.tc_term.specs.Tree.{Tree};
ghost use Rattle.tc_term.specs.TreeView.{tree_of};
ghost use Rattle.tc_term.specs.Variables.{var_bound, var_bound_of_all};
ghost use Rattle.tc_desk.specs.Asks.{AreValues, with_values};
ghost use Rattle.tc_asks.specs.Bindings.{all_with_values};

use std::alloc::Global;
use tc_lists::NoMemory;
use tc_term::{Args, Term};
use tc_unify::{Part, Store};

/// The term with each variable replaced that has a value under the store's equations. Recurses as
/// deep as the term is.
#[cycle(filled)]
pub(crate) fn filled(alloc: Global, store: &Store, t: &Term) -> Result<Term, NoMemory>
    requires { var_bound (tree_of t.now) ≤ store.now.vars }
    ensures { IfOk result (λ u. (values : List (Option Tree))
        → AreValues store.now.vars store.now.pairs values
        → tree_of u ≡ with_values values (tree_of t.now)) }
{
    match t {
        Term::Var(n) => match store.value(Part { term: t, shift: 0 })? {
            Some(value) => Ok(value.into_term()),
            None => Ok(Term::Var(*n)),
        },
        Term::Atom(name) => Ok(Term::Atom(name.copy(alloc)?)),
        Term::Int(n) => Ok(Term::Int(*n)),
        Term::Comp(name, args) => {
            let args = filled_args(alloc, store, args)?;
            Ok(Term::Comp(name.copy(alloc)?, args))
        }
    }
}

// The same of arguments.
#[cycle(filled)]
fn filled_args(alloc: Global, store: &Store, args: &Args) -> Result<Args, NoMemory>
    requires { var_bound_of_all args.now ≤ store.now.vars }
    ensures { IfOk result (λ us. (values : List (Option Tree))
        → AreValues store.now.vars store.now.pairs values
        → us ≡ all_with_values values args.now) }
{
    let mut terms = Vec::with_capacity(alloc, args.items().len())?;
    for arg in args.items() {
        terms.push(filled(alloc, store, arg)?)?;
    }
    let args = Args::new(alloc, terms)?;
    Ok(args)
}

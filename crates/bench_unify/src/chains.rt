//! Two chains of variables, each variable a term that holds the next one twice.
ghost use Rattle.std.specs.Prelude.{◌≡◌, ◌+◌, ◌<◌, IfOk};
ghost use Rattle.tc_term.specs.TreeView.{tree_of};
ghost use Rattle.tc_term.specs.Variables.{var_bound};

use std::alloc::{AllocError, Global};
use std::sync::ledger::Ledger;
use tc_steps::Steps;
use tc_term::{Args, Name, Term};
use tc_unify::{Part, Store};

/// How many variables a chain has. The second chain's variables come behind the first's.
pub const LENGTH: u32 = 128;

/// A store in which variable i of each chain is f(j,j), where j is the next variable of the chain.
pub fn chains<L: Ledger>(alloc: Global, steps: &mut Steps<L>) -> Result<Store, AllocError>
    ensures { IfOk result (λ store. store.vars ≡ 256) }
{
    let doubled = doubled(alloc)?;
    let mut store = Store::new(alloc, 2 * LENGTH)?;
    for i in 0..LENGTH - 1 {
        link(&mut store, &doubled, i, steps)?;
        link(&mut store, &doubled, LENGTH + i, steps)?;
    }
    Ok(store)
}

/// Makes variable i equal to f(j,j), where j is the variable behind it.
fn link<L: Ledger>(
    store: &mut Store,
    doubled: &Term,
    i: u32,
    steps: &mut Steps<L>,
) -> Result<bool, AllocError>
    requires doubled { var_bound (tree_of doubled.now) ≡ 1 }
    requires behind { i + 1 < 256 }
    requires variables { store.old.vars ≡ 256 }
    ensures { store.new.vars ≡ 256 }
{
    store.add(
        Part {
            term: &Term::Var(0),
            shift: i,
        },
        Part {
            term: doubled,
            shift: i + 1,
        },
        steps,
    )
}

/// The term f(X,X).
fn doubled(alloc: Global) -> Result<Term, AllocError>
    ensures { IfOk result (λ term. var_bound (tree_of term) ≡ 1) }
{
    let args = Args::two(alloc, Term::Var(0), Term::Var(0))?;
    Ok(Term::Comp(Name::new(alloc, b"f")?, args))
}

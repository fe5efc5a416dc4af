//! One goal without tuples.
ghost use Rattle.std.specs.Prelude.{◌≡◌, ◌≤◌, ◌+◌, ◌++◌, ◌∷◌, [], ℤ, List, IfOk, IsTrue, false, All};
ghost use Rattle.tc_term.specs.Tree.{Tree, Atomic, Number};
ghost use Rattle.tc_term.specs.TreeView.{tree_of};
ghost use Rattle.tc_term.specs.Arithmetic.{holds};
ghost use Rattle.tc_term.specs.Variables.{var_bound, raised};
ghost use Rattle.tc_term.specs.Equations.{Solvable, with_pair};
ghost use Rattle.tc_model.specs.Choices.{Choice};
ghost use Rattle.tc_model.specs.Goals.{IsStuck};
ghost use Rattle.tc_model.specs.Events.{op_name};
ghost use Rattle.tc_model.specs.Within.{terms_of, HasVarsBelow};
ghost use Rattle.tc_model.specs.declared.items.Effect.{Effect};
ghost use Rattle.tc_goals.specs.Moments.{scene, moment, IsDoneBy, CannotEqual};
ghost use Rattle.tc_goals.specs.Moments.{EvaluatesIn, IsNumberOf};
ghost use Rattle.tc_goals.specs.TupleFree.{IsTupleFree};

use std::alloc::Global;
use std::sync::ledger::Ledger;
use tc_arith::{compare, eval};
use tc_lists::NoMemory;
use tc_model::{Context, Event, EventOp, Goal, Phase, Sign};
use tc_steps::Steps;
use tc_term::{Cmp, Name, Pattern, Term};
use tc_unify::{Part, Store};

/// Does one goal of a body with so many variables, which has nothing to do with tuples, and tells
/// whether it could.
///
/// Where it could, the equations are those after its step. Where it could not, it has no step, and
/// the equations may have changed: the body has failed. Tuples and effects stay as they are, and
/// there is nothing to choose. It makes one step at most.
pub fn succeeds<L: Ledger>(
    alloc: Global,
    goal: &Goal,
    vars: u32,
    e: &Event,
    context: &Context,
    store: &mut Store,
    steps: &mut Steps<L>,
) -> Result<bool, NoMemory>
    requires free { IsTupleFree goal.now }
    requires width { store.old.vars ≡ vars + var_bound e.now.term }
    requires goal { All (HasVarsBelow vars) (terms_of goal.now) }
    requires solvable { Solvable store.old.vars store.old.pairs }
    ensures done { IfOk result (λ y. IsTrue y
        → (choice : Choice) (tuples : List Tree) (effects : List Effect)
        → IsDoneBy choice (scene vars e.now context.now) goal.now
        (moment store.old tuples effects) (moment store.new tuples effects)) }
    ensures stuck { IfOk result (λ y. y ≡ false
        → (tuples : List Tree) (effects : List Effect)
        → IsStuck (scene vars e.now context.now) goal.now (moment store.old tuples effects)) }

    // After each answer:
    ensures vars { store.new.vars ≡ store.old.vars }
    ensures solvable { Solvable store.new.vars store.new.pairs }
    ensures counted { steps.new ≤ steps.old + 1 }
    ensures rises { steps.old ≤ steps.new }
{
    match goal {
        Goal::Pre => Ok(e.phase() == Phase::Pre),
        Goal::Post => Ok(e.phase() == Phase::Post),
        Goal::Success => Ok(e.sign() == Sign::Success),
        Goal::Failure => Ok(e.sign() == Sign::Failure),
        Goal::True => Ok(true),
        Goal::Agent(t) => equate_name(alloc, store, t, context.agent(), steps),
        Goal::Centre(t) => equate_name(alloc, store, t, context.centre(), steps),
        Goal::Operation(t) => equate_op(alloc, store, t, e.op(), steps),
        Goal::Tuple(t) => equate_event(store, t, e.term(), vars, steps),
        Goal::Equal(s, t) => store.equate(s, t, steps),
        Goal::Differ(s, t) => Ok(!store.equate(s, t, steps)?),
        Goal::Is(s, t) => assign(store, s, t, steps),
        Goal::Compare(op, s, t) => do_compare(store, *op, s, t),

        // There is no such goal here.
        Goal::OutR(_) | Goal::InR(_) | Goal::RdR(_) | Goal::NoR(_) => Ok(false),
    }
}

// Adds the equation of a term and a name.
fn equate_name<L: Ledger>(
    alloc: Global,
    store: &mut Store,
    t: &Term,
    name: &Name,
    steps: &mut Steps<L>,
) -> Result<bool, NoMemory>
    requires left { var_bound (tree_of t.now) ≤ store.old.vars }
    requires solvable { Solvable store.old.vars store.old.pairs }
    ensures added { IfOk result (λ y. IsTrue y
        → store.new ≡ with_pair store.old (tree_of t.now) (Atomic name.now)) }
    ensures refused { IfOk result (λ y. y ≡ false
        → CannotEqual store.old (tree_of t.now) (Atomic name.now)) }
    ensures vars { store.new.vars ≡ store.old.vars }
    ensures solvable { Solvable store.new.vars store.new.pairs }
    ensures counted { steps.new ≤ steps.old + 1 }
    ensures rises { steps.old ≤ steps.new }
{
    let atom = Term::Atom(name.copy(alloc)?);
    let added = store.equate(t, &atom, steps)?;
    Ok(added)
}

// Adds the equation of a term and the name of an operation.
fn equate_op<L: Ledger>(
    alloc: Global,
    store: &mut Store,
    t: &Term,
    op: EventOp,
    steps: &mut Steps<L>,
) -> Result<bool, NoMemory>
    requires left { var_bound (tree_of t.now) ≤ store.old.vars }
    requires solvable { Solvable store.old.vars store.old.pairs }
    ensures added { IfOk result (λ y. IsTrue y
        → store.new ≡ with_pair store.old (tree_of t.now) (Atomic (op_name op))) }
    ensures refused { IfOk result (λ y. y ≡ false
        → CannotEqual store.old (tree_of t.now) (Atomic (op_name op))) }
    ensures vars { store.new.vars ≡ store.old.vars }
    ensures solvable { Solvable store.new.vars store.new.pairs }
    ensures counted { steps.new ≤ steps.old + 1 }
    ensures rises { steps.old ≤ steps.new }
{
    let name = Name::new(alloc, op.name())?;
    let added = equate_name(alloc, store, t, &name, steps)?;
    Ok(added)
}

// Adds the equation of a term and the event's.
fn equate_event<L: Ledger>(
    store: &mut Store,
    t: &Term,
    e: &Pattern,
    vars: u32,
    steps: &mut Steps<L>,
) -> Result<bool, NoMemory>
    requires left { var_bound (tree_of t.now) ≤ vars }
    requires width { store.old.vars ≡ vars + var_bound e.now }
    ensures added { IfOk result (λ y. IsTrue y
        → store.new ≡ with_pair store.old (tree_of t.now) (raised vars e.now)) }
    ensures refused { IfOk result (λ y. y ≡ false
        → CannotEqual store.old (tree_of t.now) (raised vars e.now)) }
    ensures vars { store.new.vars ≡ store.old.vars }
    ensures solvable { Solvable store.new.vars store.new.pairs }
    ensures counted { steps.new ≤ steps.old + 1 }
    ensures rises { steps.old ≤ steps.new }
{
    let left = Part { term: t, shift: 0 };
    let right = Part {
        term: e.term(),
        shift: vars,
    };
    let added = store.add(left, right, steps)?;
    Ok(added)
}

// The number to which a term's value evaluates.
fn number(store: &Store, t: &Term) -> Result<Option<i64>, NoMemory>
    requires { var_bound (tree_of t.now) ≤ store.now.vars }
    ensures { IfOk result (IsNumberOf store.now (tree_of t.now)) }
{
    let part = Part { term: t, shift: 0 };
    let Some(value) = store.value(part)? else {
        return Ok(None);
    };
    Ok(eval(&value))
}

// Adds the equation of a term and a number.
fn equate_number<L: Ledger>(
    store: &mut Store,
    s: &Term,
    i: i64,
    steps: &mut Steps<L>,
) -> Result<bool, NoMemory>
    requires { var_bound (tree_of s.now) ≤ store.old.vars }
    ensures added { IfOk result (λ y. IsTrue y
        → store.new ≡ with_pair store.old (tree_of s.now) (Number i)) }
    ensures refused { IfOk result (λ y. y ≡ false
        → CannotEqual store.old (tree_of s.now) (Number i)) }
    ensures vars { store.new.vars ≡ store.old.vars }
    ensures solvable { Solvable store.new.vars store.new.pairs }
    ensures counted { steps.new ≤ steps.old + 1 }
    ensures rises { steps.old ≤ steps.new }
{
    let number = Term::Int(i);
    let added = store.equate(s, &number, steps)?;
    Ok(added)
}

// Adds the equation of a term and the number to which another evaluates.
fn assign<L: Ledger>(
    store: &mut Store,
    s: &Term,
    t: &Term,
    steps: &mut Steps<L>,
) -> Result<bool, NoMemory>
    requires left { var_bound (tree_of s.now) ≤ store.old.vars }
    requires right { var_bound (tree_of t.now) ≤ store.old.vars }
    requires solvable { Solvable store.old.vars store.old.pairs }
    ensures assigned { IfOk result (λ y. IsTrue y
        → (i : ℤ) × EvaluatesIn store.old (tree_of t.now) i
        × (store.new ≡ with_pair store.old (tree_of s.now) (Number i))) }
    ensures refused { IfOk result (λ y. y ≡ false
        → (i : ℤ) → EvaluatesIn store.old (tree_of t.now) i
        → CannotEqual store.old (tree_of s.now) (Number i)) }
    ensures vars { store.new.vars ≡ store.old.vars }
    ensures solvable { Solvable store.new.vars store.new.pairs }
    ensures counted { steps.new ≤ steps.old + 1 }
    ensures rises { steps.old ≤ steps.new }
{
    let Some(i) = number(store, t)? else {
        return Ok(false);
    };
    let added = equate_number(store, s, i, steps)?;
    Ok(added)
}

// Whether a comparison holds of what two terms evaluate to.
fn do_compare(store: &Store, op: Cmp, s: &Term, t: &Term) -> Result<bool, NoMemory>
    requires left { var_bound (tree_of s.now) ≤ store.now.vars }
    requires right { var_bound (tree_of t.now) ≤ store.now.vars }
    ensures holds { IfOk result (λ y. IsTrue y → (i : ℤ) × (j : ℤ)
        × EvaluatesIn store.now (tree_of s.now) i × EvaluatesIn store.now (tree_of t.now) j
        × IsTrue (holds op i j)) }
    ensures fails { IfOk result (λ y. y ≡ false → (i j : ℤ)
        → EvaluatesIn store.now (tree_of s.now) i → EvaluatesIn store.now (tree_of t.now) j
        → IsTrue (holds op i j) → ⊥) }
{
    let Some(i) = number(store, s)? else {
        return Ok(false);
    };
    let Some(j) = number(store, t)? else {
        return Ok(false);
    };
    Ok(compare(op, i, j))
}

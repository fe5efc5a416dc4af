//! One goal of a body, beside the effect that is recorded next.
ghost use Rattle.std.specs.Prelude.{◌≡◌, ◌≤◌, ◌<◌, ◌+◌, List, IfOk, IsTrue, false, All};
ghost use Rattle.std.specs.Option.{option_copied};
ghost use Rattle.tc_lists.specs.Firsts.{NoneOf};
ghost use Rattle.tc_term.specs.Tree.{Tree};
ghost use Rattle.tc_term.specs.TreeView.{tree_of};
ghost use Rattle.tc_term.specs.Variables.{var_bound};
ghost use Rattle.tc_term.specs.Equations.{Solvable, HasValue, Matches};
ghost use Rattle.tc_model.specs.Goals.{IsStuck};
ghost use Rattle.tc_model.specs.Within.{terms_of, HasVarsBelow};
ghost use Rattle.tc_model.specs.declared.items.Effect.{Effect};
ghost use Rattle.tc_bag.specs.Stock.{AddsYounger, tuples_of};
ghost use Rattle.tc_goals.specs.Moments.{scene, moment};
ghost use Rattle.tc_replay.specs.Following.{IsFollowed, HasNoStep, recorded_after};
ghost use Rattle.tc_replay.specs.Meeting.{HasPutNext, PutsNoNext, HasTakenNext, TakesNoNext};
ghost use Rattle.tc_replay.specs.Meeting.{HasReadNext, ReadsNoNext};

use crate::meeting::meet;
use std::alloc::Global;
use std::sync::ledger::Ledger;
use tc_bag::{Bag, Key};
use tc_goals::succeeds;
use tc_lists::NoMemory;
use tc_model::{Context, Effect, Event, Goal};
use tc_search::oldest_match;
use tc_steps::Steps;
use tc_term::Term;
use tc_unify::{Part, Store};

/// Follows one goal of a body with so many variables by the effect that is recorded next, and tells
/// whether the goal has a step that agrees with it.
///
/// Where it has, every such step leads to one moment, and the equations and the tuples are those
/// there. Else the equations may have changed.
pub fn follow<L: Ledger>(
    alloc: Global,
    goal: &Goal,
    vars: u32,
    e: &Event,
    context: &Context,
    next: Option<&Effect>,
    store: &mut Store,
    bag: &mut Bag,
    steps: &mut Steps<L>,
) -> Result<bool, NoMemory>
    requires width { store.old.vars ≡ vars + var_bound e.now.term }
    requires goal { All (HasVarsBelow vars) (terms_of goal.now) }
    requires solvable { Solvable store.old.vars store.old.pairs }
    requires next { bag.old.next < u64.MAX }
    ensures followed { IfOk result (λ y. IsTrue y → (es : List Effect)
        → IsFollowed (scene vars e.now context.now) goal.now (option_copied next.entry)
        (moment store.old (tuples_of bag.old.now) es)
        (moment store.new (tuples_of bag.new.now)
        (recorded_after goal.now (option_copied next.entry) es))) }
    ensures none { IfOk result (λ y. y ≡ false → (es : List Effect)
        → HasNoStep (scene vars e.now context.now) goal.now (option_copied next.entry)
        (moment store.old (tuples_of bag.old.now) es)) }

    // After each answer:
    ensures vars { store.new.vars ≡ store.old.vars }
    ensures solvable { Solvable store.new.vars store.new.pairs }
    ensures saved { bag.new.saved ≡ bag.old.saved }
    ensures adds { AddsYounger bag.old bag.new }
    ensures room { bag.new.next ≤ bag.old.next + 1 }
{
    match goal {
        Goal::OutR(t) => put_next(t, next, store, bag),
        Goal::InR(t) => take_next(t, next, store, bag, steps),
        Goal::RdR(t) => read_next(t, next, store, bag, steps),
        Goal::NoR(t) => is_absent(alloc, t, store, bag, steps),
        _ => succeeds(alloc, goal, vars, e, context, store, steps),
    }
}

/// Whether a goal of a body with so many variables has no step, by any tuple.
///
/// The equations may have changed.
pub fn is_stuck<L: Ledger>(
    alloc: Global,
    goal: &Goal,
    vars: u32,
    e: &Event,
    context: &Context,
    store: &mut Store,
    bag: &Bag,
    steps: &mut Steps<L>,
) -> Result<bool, NoMemory>
    requires width { store.old.vars ≡ vars + var_bound e.now.term }
    requires goal { All (HasVarsBelow vars) (terms_of goal.now) }
    requires solvable { Solvable store.old.vars store.old.pairs }
    ensures stuck { IfOk result (λ y. IsTrue y → (es : List Effect)
        → IsStuck (scene vars e.now context.now) goal.now
        (moment store.old (tuples_of bag.now.now) es)) }
    ensures moves { IfOk result (λ y. y ≡ false → (es : List Effect)
        → IsStuck (scene vars e.now context.now) goal.now
        (moment store.old (tuples_of bag.now.now) es) → ⊥) }

    // After each answer:
    ensures vars { store.new.vars ≡ store.old.vars }
    ensures solvable { Solvable store.new.vars store.new.pairs }
{
    match goal {
        Goal::OutR(t) => has_no_value(t, store),
        Goal::InR(t) | Goal::RdR(t) => is_absent(alloc, t, store, bag, steps),
        Goal::NoR(t) => Ok(!is_absent(alloc, t, store, bag, steps)?),
        _ => Ok(!succeeds(alloc, goal, vars, e, context, store, steps)?),
    }
}

// Puts the value of a term, where the next effect says so.
fn put_next(t: &Term, next: Option<&Effect>, store: &Store, bag: &mut Bag) -> Result<bool, NoMemory>
    requires bound { var_bound (tree_of t.now) ≤ store.now.vars }
    requires next { bag.old.next < u64.MAX }
    ensures put { IfOk result (λ y. IsTrue y
        → HasPutNext store.now (tree_of t.now) (option_copied next.entry) bag.old bag.new) }
    ensures none { IfOk result (λ y. y ≡ false
        → PutsNoNext store.now (tree_of t.now) (option_copied next.entry)) }
    ensures saved { bag.new.saved ≡ bag.old.saved }
    ensures adds { AddsYounger bag.old bag.new }
    ensures room { bag.new.next ≤ bag.old.next + 1 }
{
    let Some(effect) = next else {
        return Ok(false);
    };
    let Effect::Put(tuple) = effect else {
        return Ok(false);
    };
    let part = Part { term: t, shift: 0 };
    let Some(value) = store.value(part)? else {
        return Ok(false);
    };
    if *value.term() == *tuple.term() {
        bag.add(value)?;
        return Ok(true);
    }
    Ok(false)
}

// Takes the tuple that the next effect tells, where it matches.
fn take_next<L: Ledger>(
    t: &Term,
    next: Option<&Effect>,
    store: &mut Store,
    bag: &mut Bag,
    steps: &mut Steps<L>,
) -> Result<bool, NoMemory>
    requires bound { var_bound (tree_of t.now) ≤ store.old.vars }
    requires solvable { Solvable store.old.vars store.old.pairs }
    ensures taken { IfOk result (λ y. IsTrue y
        → HasTakenNext store.old store.new (tree_of t.now) (option_copied next.entry)
        bag.old bag.new) }
    ensures none { IfOk result (λ y. y ≡ false
        → TakesNoNext store.old (tree_of t.now) (option_copied next.entry) bag.old) }
    ensures vars { store.new.vars ≡ store.old.vars }
    ensures solvable { Solvable store.new.vars store.new.pairs }
    ensures saved { bag.new.saved ≡ bag.old.saved }
    ensures adds { AddsYounger bag.old bag.new }
    ensures room { bag.new.next ≡ bag.old.next }
{
    let Some(effect) = next else {
        return Ok(false);
    };
    let Effect::Took(tuple) = effect else {
        return Ok(false);
    };
    let Some(age) = meet(store, t, tuple, bag, steps)? else {
        return Ok(false);
    };
    bag.take(age);
    Ok(true)
}

// Reads the tuple that the next effect tells, where it matches.
fn read_next<L: Ledger>(
    t: &Term,
    next: Option<&Effect>,
    store: &mut Store,
    bag: &Bag,
    steps: &mut Steps<L>,
) -> Result<bool, NoMemory>
    requires bound { var_bound (tree_of t.now) ≤ store.old.vars }
    requires solvable { Solvable store.old.vars store.old.pairs }
    ensures read { IfOk result (λ y. IsTrue y
        → HasReadNext store.old store.new (tree_of t.now) (option_copied next.entry) bag.now) }
    ensures none { IfOk result (λ y. y ≡ false
        → ReadsNoNext store.old (tree_of t.now) (option_copied next.entry) bag.now) }
    ensures vars { store.new.vars ≡ store.old.vars }
    ensures solvable { Solvable store.new.vars store.new.pairs }
{
    let Some(effect) = next else {
        return Ok(false);
    };
    let Effect::Read(tuple) = effect else {
        return Ok(false);
    };
    let Some(_age) = meet(store, t, tuple, bag, steps)? else {
        return Ok(false);
    };
    Ok(true)
}

// Whether no tuple matches.
fn is_absent<L: Ledger>(
    alloc: Global,
    t: &Term,
    store: &mut Store,
    bag: &Bag,
    steps: &mut Steps<L>,
) -> Result<bool, NoMemory>
    requires within { HasVarsBelow store.old.vars (tree_of t.now) }
    requires solvable { Solvable store.old.vars store.old.pairs }
    ensures none { IfOk result (λ y. IsTrue y
        → NoneOf (Matches store.old.vars store.old.pairs (tree_of t.now)) (tuples_of bag.now.now)) }
    ensures same { IfOk result (λ y. IsTrue y → store.new ≡ store.old) }
    ensures some { IfOk result (λ y. y ≡ false
        → NoneOf (Matches store.old.vars store.old.pairs (tree_of t.now)) (tuples_of bag.now.now)
        → ⊥) }
    ensures vars { store.new.vars ≡ store.old.vars }
    ensures solvable { Solvable store.new.vars store.new.pairs }
{
    let key = Key::of(alloc, t)?;
    match oldest_match(store, t, &key, bag, steps)? {
        Some(_) => Ok(false),
        None => Ok(true),
    }
}

// Whether a term has no value.
fn has_no_value(t: &Term, store: &Store) -> Result<bool, NoMemory>
    requires { var_bound (tree_of t.now) ≤ store.now.vars }
    ensures none { IfOk result (λ y. IsTrue y
        → (v : Tree) → HasValue store.now.vars store.now.pairs (tree_of t.now) v → ⊥) }
    ensures some { IfOk result (λ y. y ≡ false
        → (v : Tree) × HasValue store.now.vars store.now.pairs (tree_of t.now) v) }
{
    let part = Part { term: t, shift: 0 };
    let Some(_value) = store.value(part)? else {
        return Ok(true);
    };
    Ok(false)
}

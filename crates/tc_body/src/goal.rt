//! One goal of a body.
ghost use Rattle.std.specs.Prelude.{◌≡◌, ◌≤◌, ◌<◌, ◌+◌, ◌*◌, ◌++◌, ◌∷◌, [], length};
ghost use Rattle.std.specs.Prelude.{IfOk, OnOk, OnErr, IsTrue, false, All};
ghost use Rattle.tc_term.specs.TreeView.{tree_of};
ghost use Rattle.tc_term.specs.Variables.{var_bound};
ghost use Rattle.tc_term.specs.Equations.{Solvable};
ghost use Rattle.tc_model.specs.Goals.{IsStuck};
ghost use Rattle.tc_model.specs.Within.{terms_of, HasVarsBelow};
ghost use Rattle.tc_steps.specs.Tops.{agreeing};
ghost use Rattle.tc_bag.specs.Stock.{AddsYounger, tuples_of};
ghost use Rattle.tc_goals.specs.Moments.{scene};
ghost use Rattle.tc_body.specs.Costs.{goal_steps};
ghost use Rattle.tc_body.specs.Moments.{moment_of, IsDone};
ghost use Rattle.tc_body.specs.Moments.{HasPut, HasNoValue, HasTaken, HasRead, HasNoMatch};

use std::alloc::Global;
use std::sync::ledger::Ledger;
use tc_bag::{Bag, Key};
use tc_goals::succeeds;
use tc_lists::NoMemory;
use tc_model::{Context, Effect, Event, Goal};
use tc_search::oldest_match;
use tc_steps::Steps;
use tc_term::Term;
use tc_unify::{Part, Store};

/// Does one goal of a body with so many variables, and tells whether it could.
///
/// Where it could, the equations, the tuples and the effects are those after its step, by the
/// oldest tuple that matches. Where it could not, it has no step by any tuple, the effects are as
/// before, and the equations and the tuples may have changed: the body has failed. Where memory
/// ends, the effects are as before too.
///
/// With the first effect, room is made for all that the goals from this one on may have.
pub fn step<L: Ledger>(
    alloc: Global,
    goal: &Goal,
    on: &[Goal],
    vars: u32,
    e: &Event,
    context: &Context,
    store: &mut Store,
    bag: &mut Bag,
    effects: &mut Vec<Effect>,
    steps: &mut Steps<L>,
) -> Result<bool, NoMemory>
    requires width { store.old.vars ≡ vars + var_bound e.now.term }
    requires goal { All (HasVarsBelow vars) (terms_of goal.now) }
    requires solvable { Solvable store.old.vars store.old.pairs }
    requires next { bag.old.next < u64.MAX }
    ensures done { IfOk result (λ y. IsTrue y
        → IsDone (scene vars e.now context.now) goal.now
        (moment_of store.old bag.old effects.old.items)
        (moment_of store.new bag.new effects.new.items)) }
    ensures stuck { IfOk result (λ y. y ≡ false
        → IsStuck (scene vars e.now context.now) goal.now
        (moment_of store.old bag.old effects.old.items)) }
    ensures effects { IfOk result (λ y. y ≡ false → effects.new.items ≡ effects.old.items) }
    ensures effects_kept { OnErr result (effects.new.items ≡ effects.old.items) }

    // After each answer:
    ensures vars { store.new.vars ≡ store.old.vars }
    ensures solvable { Solvable store.new.vars store.new.pairs }
    ensures saved { bag.new.saved ≡ bag.old.saved }
    ensures adds { AddsYounger bag.old bag.new }
    ensures next { bag.new.next ≤ bag.old.next + 1 }
    ensures counted { steps.new ≤ steps.old + goal_steps goal.now (tuples_of bag.old.now) }
    ensures rises { steps.old ≤ steps.new }
{
    match goal {
        Goal::OutR(t) => put(alloc, t, on, store, bag, effects),
        Goal::InR(t) => take_oldest(alloc, t, on, store, bag, effects, steps),
        Goal::RdR(t) => read_oldest(alloc, t, on, store, bag, effects, steps),
        Goal::NoR(t) => is_absent(alloc, t, store, bag, steps),
        _ => succeeds(alloc, goal, vars, e, context, store, steps),
    }
}

// Puts the value of a term.
fn put(
    alloc: Global,
    t: &Term,
    on: &[Goal],
    store: &Store,
    bag: &mut Bag,
    effects: &mut Vec<Effect>,
) -> Result<bool, NoMemory>
    requires bound { var_bound (tree_of t.now) ≤ store.now.vars }
    requires next { bag.old.next < u64.MAX }
    ensures put { IfOk result (λ y. IsTrue y
        → HasPut store.now (tree_of t.now) bag.old bag.new effects.old.items effects.new.items) }
    ensures none { IfOk result (λ y. y ≡ false → HasNoValue store.now (tree_of t.now)) }
    ensures effects { IfOk result (λ y. y ≡ false → effects.new.items ≡ effects.old.items) }
    ensures effects_kept { OnErr result (effects.new.items ≡ effects.old.items) }
    ensures saved { bag.new.saved ≡ bag.old.saved }
    ensures adds { AddsYounger bag.old bag.new }
    ensures next { bag.new.next ≤ bag.old.next + 1 }
{
    let part = Part { term: t, shift: 0 };
    let Some(value) = store.value(part)? else {
        return Ok(false);
    };
    let effect = Effect::Put(value.copy(alloc)?);
    bag.add(value)?;
    record(effects, effect, on)?;
    Ok(true)
}

// Takes the oldest tuple that matches.
fn take_oldest<L: Ledger>(
    alloc: Global,
    t: &Term,
    on: &[Goal],
    store: &mut Store,
    bag: &mut Bag,
    effects: &mut Vec<Effect>,
    steps: &mut Steps<L>,
) -> Result<bool, NoMemory>
    requires within { HasVarsBelow store.old.vars (tree_of t.now) }
    requires solvable { Solvable store.old.vars store.old.pairs }
    ensures taken { IfOk result (λ y. IsTrue y
        → HasTaken store.old store.new (tree_of t.now) bag.old bag.new
        effects.old.items effects.new.items) }
    ensures none { IfOk result (λ y. y ≡ false
        → HasNoMatch store.old (tree_of t.now) bag.old) }
    ensures effects { IfOk result (λ y. y ≡ false → effects.new.items ≡ effects.old.items) }
    ensures effects_kept { OnErr result (effects.new.items ≡ effects.old.items) }
    ensures vars { store.new.vars ≡ store.old.vars }
    ensures solvable { Solvable store.new.vars store.new.pairs }
    ensures saved { bag.new.saved ≡ bag.old.saved }
    ensures adds { AddsYounger bag.old bag.new }
    ensures next { bag.new.next ≡ bag.old.next }
    ensures tried { steps.new
        ≤ steps.old + 2 * agreeing (tree_of t.now) (tuples_of bag.old.now) }
    ensures rises { steps.old ≤ steps.new }
{
    let key = Key::of(alloc, t)?;
    let Some((age, tuple)) = oldest_match(store, t, &key, bag, steps)? else {
        return Ok(false);
    };
    record(effects, Effect::Took(tuple.copy(alloc)?), on)?;
    bag.take(age);
    Ok(true)
}

// Reads the oldest tuple that matches.
fn read_oldest<L: Ledger>(
    alloc: Global,
    t: &Term,
    on: &[Goal],
    store: &mut Store,
    bag: &Bag,
    effects: &mut Vec<Effect>,
    steps: &mut Steps<L>,
) -> Result<bool, NoMemory>
    requires within { HasVarsBelow store.old.vars (tree_of t.now) }
    requires solvable { Solvable store.old.vars store.old.pairs }
    ensures read { IfOk result (λ y. IsTrue y
        → HasRead store.old store.new (tree_of t.now) bag.now effects.old.items effects.new.items) }
    ensures none { IfOk result (λ y. y ≡ false
        → HasNoMatch store.old (tree_of t.now) bag.now) }
    ensures effects { IfOk result (λ y. y ≡ false → effects.new.items ≡ effects.old.items) }
    ensures effects_kept { OnErr result (effects.new.items ≡ effects.old.items) }
    ensures vars { store.new.vars ≡ store.old.vars }
    ensures solvable { Solvable store.new.vars store.new.pairs }
    ensures tried { steps.new
        ≤ steps.old + 2 * agreeing (tree_of t.now) (tuples_of bag.now.now) }
    ensures rises { steps.old ≤ steps.new }
{
    let key = Key::of(alloc, t)?;
    let Some((_, tuple)) = oldest_match(store, t, &key, bag, steps)? else {
        return Ok(false);
    };
    record(effects, Effect::Read(tuple.copy(alloc)?), on)?;
    Ok(true)
}

// Adds an effect. With the first, room is made for all that these goals may have.
#[inline(always)]
fn record(effects: &mut Vec<Effect>, effect: Effect, goals: &[Goal]) -> Result<(), NoMemory>
    ensures recorded { OnOk result (effects.new.items ≡ effects.old.items ++ effect ∷ []) }
    ensures same { OnErr result (effects.new.items ≡ effects.old.items) }
{
    if effects.is_empty() {
        effects.reserve_exact(most_effects(goals))?;
    }
    effects.push(effect)?;
    Ok(())
}

// How many effects these goals may have.
fn most_effects(goals: &[Goal]) -> usize
    ensures { result ≤ length goals.now }
{
    let mut count = 0;
    for goal in goals {
        if let Goal::OutR(_) | Goal::InR(_) | Goal::RdR(_) = goal {
            count += 1;
        }
    }
    count
}

// Whether no tuple matches.
fn is_absent<L: Ledger>(
    alloc: Global,
    t: &Term,
    store: &mut Store,
    bag: &Bag,
    steps: &mut Steps<L>,
) -> Result<bool, NoMemory>
    requires within { HasVarsBelow store.old.vars (tree_of t.now) }
    requires solvable { Solvable store.old.vars store.old.pairs }
    ensures none { IfOk result (λ y. IsTrue y → HasNoMatch store.old (tree_of t.now) bag.now) }
    ensures same { IfOk result (λ y. IsTrue y → store.new ≡ store.old) }
    ensures some { IfOk result (λ y. y ≡ false
        → HasNoMatch store.old (tree_of t.now) bag.now → ⊥) }
    ensures vars { store.new.vars ≡ store.old.vars }
    ensures solvable { Solvable store.new.vars store.new.pairs }
    ensures tried { steps.new
        ≤ steps.old + 2 * agreeing (tree_of t.now) (tuples_of bag.now.now) }
    ensures rises { steps.old ≤ steps.new }
{
    let key = Key::of(alloc, t)?;
    match oldest_match(store, t, &key, bag, steps)? {
        Some(_) => Ok(false),
        None => Ok(true),
    }
}

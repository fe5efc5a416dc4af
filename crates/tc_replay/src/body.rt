//! The body of a reaction, beside the item that is recorded of it.
ghost use Rattle.std.specs.Prelude.{◌≡◌, ◌≤◌, ◌<◌, ◌+◌, ◌↔◌, ◌∷◌, [], false, IfOk, OnOk, OnErr};
ghost use Rattle.std.specs.Prelude.{IsTrue};
ghost use Rattle.tc_term.specs.Equations.{Solvable};
ghost use Rattle.tc_term.specs.Variables.{raised, var_bound};
ghost use Rattle.tc_unify.specs.Met.{met};
ghost use Rattle.tc_model.specs.Bodies.{IsBody, IsFired, IsFailed};
ghost use Rattle.tc_model.specs.Choices.{AnyOne};
ghost use Rattle.tc_model.specs.Tuples.{after_effects, after_item};
ghost use Rattle.tc_model.specs.declared.limits.TheConstants.{MOST_GOALS};
ghost use Rattle.tc_bag.specs.Stock.{tuples_of, AddsYounger};

use crate::goal::is_stuck;
use crate::leading::lead;
use std::alloc::Global;
use std::marker::Brand;
use std::sync::ledger::{Blank, Ledger};
use tc_bag::Bag;
use tc_lists::NoMemory;
use tc_model::{Context, Effect, Event, Item, Reaction};
use tc_steps::Steps;
use tc_unify::Store;

/// Whether the item tells what may come of the body over the tuples of the bag, whatever tuples
/// were chosen.
///
/// Where it does, the tuples are those after it. Else the bag is as before, and so it is where
/// memory ends. Which reaction was picked, and from where, isn't looked at. The store is made anew
/// in the memory that it has, and what it holds before does not count.
pub fn is_body(
    alloc: Global,
    store: &mut Store,
    r: &Reaction,
    e: &Event,
    context: &Context,
    item: &Item,
    bag: &mut Bag,
) -> Result<bool, NoMemory>
    requires next { bag.old.next + MOST_GOALS ≤ u64.MAX }
    ensures yes { IfOk result (λ y. IsTrue y
        → IsBody AnyOne r.now e.now context.now (tuples_of bag.old.now) item.now) }
    ensures no { IfOk result (λ y. y ≡ false
        → IsBody AnyOne r.now e.now context.now (tuples_of bag.old.now) item.now → ⊥) }
    ensures tuples { IfOk result (λ y. IsTrue y
        → tuples_of bag.new.now ≡ after_item item.now (tuples_of bag.old.now)) }
    ensures same_no { IfOk result (λ y. y ≡ false → bag.new ≡ bag.old) }
    ensures same { OnErr result (bag.new ≡ bag.old) }

    // After each answer:
    ensures saved { bag.new.saved ≡ bag.old.saved }
    ensures adds { AddsYounger bag.old bag.new }
    ensures room { bag.new.next ≤ bag.old.next + MOST_GOALS }
{
    match item {
        Item::Fired { effects, .. } => {
            does_fire(alloc, store, r, e, context, effects.items(), bag)
        }
        Item::Failed { goal, effects, .. } => {
            does_fail(alloc, store, r, e, context, *goal, effects.items(), bag)
        }
    }
}

// Whether the body may fire with these effects. Where it may, the tuples are those after them.
fn does_fire(
    alloc: Global,
    store: &mut Store,
    r: &Reaction,
    e: &Event,
    context: &Context,
    recorded: &[Effect],
    bag: &mut Bag,
) -> Result<bool, NoMemory>
    requires next { bag.old.next + MOST_GOALS ≤ u64.MAX }
    ensures yes { IfOk result (λ y. IsTrue y
        → IsFired AnyOne r.now e.now context.now (tuples_of bag.old.now) recorded.now) }
    ensures no { IfOk result (λ y. y ≡ false
        → IsFired AnyOne r.now e.now context.now (tuples_of bag.old.now) recorded.now → ⊥) }
    ensures tuples { IfOk result (λ y. IsTrue y
        → tuples_of bag.new.now ≡ after_effects recorded.now (tuples_of bag.old.now)) }
    ensures same_no { IfOk result (λ y. y ≡ false → bag.new ≡ bag.old) }
    ensures same { OnErr result (bag.new ≡ bag.old) }
    ensures saved { bag.new.saved ≡ bag.old.saved }
    ensures adds { AddsYounger bag.old bag.new }
    ensures room { bag.new.next ≤ bag.old.next + MOST_GOALS }
{
    bag.mark()?;
    match fires::<Brand>(alloc, store, r, e, context, recorded, bag, Blank::new(1)) {
        Ok(true) => {
            bag.keep();
            Ok(true)
        }
        Ok(false) => {
            bag.undo();
            Ok(false)
        }
        Err(fault) => {
            bag.undo();
            Err(fault)
        }
    }
}

// Whether the body may fail at the goal of this number, after these effects. The bag stays.
fn does_fail(
    alloc: Global,
    store: &mut Store,
    r: &Reaction,
    e: &Event,
    context: &Context,
    number: u32,
    recorded: &[Effect],
    bag: &mut Bag,
) -> Result<bool, NoMemory>
    requires next { bag.old.next + MOST_GOALS ≤ u64.MAX }
    ensures yes { IfOk result (λ y. IsTrue y
        → IsFailed AnyOne r.now e.now context.now (tuples_of bag.old.now) number recorded.now) }
    ensures no { IfOk result (λ y. y ≡ false
        → IsFailed AnyOne r.now e.now context.now (tuples_of bag.old.now) number recorded.now
        → ⊥) }
    ensures same { bag.new ≡ bag.old }
{
    bag.mark()?;
    let failed = fails::<Brand>(
        alloc,
        store,
        r,
        e,
        context,
        number,
        recorded,
        bag,
        Blank::new(1),
    );
    bag.undo();
    failed
}

// The same as `does_fire` without its mark: where the body can't fire so, the bag may have changed.
fn fires<L: Ledger>(
    alloc: Global,
    store: &mut Store,
    r: &Reaction,
    e: &Event,
    context: &Context,
    recorded: &[Effect],
    bag: &mut Bag,
    blank: Blank,
) -> Result<bool, NoMemory>
    requires name { blank.name ≡ L.name }
    requires parts { blank.parts ≡ L.parts }
    requires some { 0 < blank.parts }
    requires next { bag.old.next + MOST_GOALS ≤ u64.MAX }
    ensures yes { IfOk result (λ y. IsTrue y
        → IsFired AnyOne r.now e.now context.now (tuples_of bag.old.now) recorded.now) }
    ensures tuples { IfOk result (λ y. IsTrue y
        → tuples_of bag.new.now ≡ after_effects recorded.now (tuples_of bag.old.now)) }
    ensures no { IfOk result (λ y. y ≡ false
        → IsFired AnyOne r.now e.now context.now (tuples_of bag.old.now) recorded.now → ⊥) }
    ensures saved { bag.new.saved ≡ bag.old.saved }
    ensures adds { AddsYounger bag.old bag.new }
    ensures room { bag.new.next ≤ bag.old.next + MOST_GOALS }
{
    let mut steps = Steps::<L>::none(blank);
    let goals = r.goals();
    let vars = r.vars();
    if !meet_head(store, r, e, &mut steps)? {
        return Ok(false);
    }
    lead(
        alloc, goals, vars, e, context, recorded, store, bag, &mut steps,
    )
}

// The same as `does_fail` without its mark: the bag may have changed.
fn fails<L: Ledger>(
    alloc: Global,
    store: &mut Store,
    r: &Reaction,
    e: &Event,
    context: &Context,
    number: u32,
    recorded: &[Effect],
    bag: &mut Bag,
    blank: Blank,
) -> Result<bool, NoMemory>
    requires name { blank.name ≡ L.name }
    requires parts { blank.parts ≡ L.parts }
    requires some { 0 < blank.parts }
    requires next { bag.old.next + MOST_GOALS ≤ u64.MAX }
    ensures yes { IfOk result (λ y. IsTrue y
        → IsFailed AnyOne r.now e.now context.now (tuples_of bag.old.now) number recorded.now) }
    ensures no { IfOk result (λ y. y ≡ false
        → IsFailed AnyOne r.now e.now context.now (tuples_of bag.old.now) number recorded.now
        → ⊥) }
    ensures saved { bag.new.saved ≡ bag.old.saved }
{
    let mut steps = Steps::<L>::none(blank);
    if number == 0 {
        return Ok(false);
    }
    let place = (number - 1) as usize;
    let goals = r.goals();
    let vars = r.vars();
    if goals.len() <= place {
        return Ok(false);
    }
    if !meet_head(store, r, e, &mut steps)? {
        return Ok(is_first(number, recorded));
    }
    if !lead(
        alloc,
        &goals[..place],
        vars,
        e,
        context,
        recorded,
        store,
        bag,
        &mut steps,
    )? {
        return Ok(false);
    }
    is_stuck(
        alloc,
        &goals[place],
        vars,
        e,
        context,
        store,
        bag,
        &mut steps,
    )
}

// Whether the head of a reaction and the term of an event can be made equal. Then the store holds
// their equation alone.
fn meet_head<L: Ledger>(
    store: &mut Store,
    r: &Reaction,
    e: &Event,
    steps: &mut Steps<L>,
) -> Result<bool, NoMemory>
    ensures met { IfOk result (λ y. IsTrue y
        → store.new ≡ met r.now.vars r.now.head e.now.term) }
    ensures apart { IfOk result (λ y. y ≡ false → Solvable (r.now.vars + var_bound e.now.term)
        ((r.now.head, raised r.now.vars e.now.term) ∷ []) → ⊥) }
    ensures solvable { OnOk result (Solvable store.new.vars store.new.pairs) }
{
    let met = store.meet(r.head(), r.vars(), e.term(), steps)?;
    Ok(met)
}

// Whether this is the number of the first goal, and nothing is recorded before it.
fn is_first(number: u32, recorded: &[Effect]) -> bool
    ensures { IsTrue result ↔ ((number ≡ 1) × (recorded.now ≡ [])) }
{
    number == 1 && recorded.is_empty()
}

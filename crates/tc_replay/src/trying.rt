//! One item of a cascade: the triggered reaction that it tells, tried.
ghost use Rattle.std.specs.Prelude.{◌≡◌, ◌≤◌, ◌<◌, ◌+◌, ◌∷◌, [], false, map, IfOk, IfSome};
ghost use Rattle.std.specs.Prelude.{IfNone, OnOk, IsTrue};
ghost use Rattle.tc_model.specs.Cascades.{IsTried, Wave};
ghost use Rattle.tc_model.specs.Choices.{AnyOne};
ghost use Rattle.tc_model.specs.Events.{event_of};
ghost use Rattle.tc_model.specs.Items.{pick_of, clause_of};
ghost use Rattle.tc_model.specs.Reactions.{Rule};
ghost use Rattle.tc_model.specs.Triggers.{IsClause, raises};
ghost use Rattle.tc_model.specs.declared.limits.TheConstants.{MOST_GOALS};
ghost use Rattle.tc_bag.specs.Stock.{AddsYounger};
ghost use Rattle.tc_replay.specs.Replays.{Raises, wave_of};

use crate::agenda::Agenda;
use crate::body::is_body;
use std::alloc::Global;
use std::marker::Brand;
use std::sync::ledger::{Blank, Ledger};
use tc_bag::Bag;
use tc_lists::NoMemory;
use tc_model::{Clauses, Context, Effect, Event, EventOp, Item, Reaction};
use tc_spec::Spec;
use tc_steps::Steps;
use tc_unify::Store;

/// Whether the item tells of a triggered reaction that was picked and tried. Then what is triggered
/// and the tuples are as after it; else both may have changed.
pub fn is_tried(
    alloc: Global,
    store: &mut Store,
    spec: &Spec,
    context: &Context,
    item: &Item,
    triggered: &mut Agenda,
    bag: &mut Bag,
) -> Result<bool, NoMemory>
    requires next { bag.old.next + MOST_GOALS ≤ u64.MAX }
    ensures yes { IfOk result (λ y. IsTrue y → IsTried AnyOne spec.now context.now
        (wave_of bag.old triggered.old) item.now (wave_of bag.new triggered.new)) }
    ensures no { IfOk result (λ y. y ≡ false → (next : Wave) → IsTried AnyOne spec.now context.now
        (wave_of bag.old triggered.old) item.now next → ⊥) }

    // After each answer:
    ensures saved { bag.new.saved ≡ bag.old.saved }
    ensures adds { AddsYounger bag.old bag.new }
    ensures room { bag.new.next ≤ bag.old.next + MOST_GOALS }
{
    let (pick, clause) = names_of(item);
    if pick == 0 {
        return Ok(false);
    }
    let place = (pick - 1) as usize;
    let Some((number, event)) = triggered.get(place) else {
        return Ok(false);
    };
    if number != clause {
        return Ok(false);
    }
    let Some(reaction) = clause_at(spec.clauses(), number) else {
        return Ok(false);
    };
    if !is_body(alloc, store, reaction, event, context, item, bag)? {
        return Ok(false);
    }
    triggered.remove(place);
    raise(alloc, store, spec, item, triggered)?;
    Ok(true)
}

/// Adds what the event triggers behind the others.
pub fn add<L: Ledger>(
    alloc: Global,
    store: &mut Store,
    spec: &Spec,
    event: Event,
    triggered: &mut Agenda,
    blank: Blank,
) -> Result<(), NoMemory>
    requires name { blank.name ≡ L.name }
    requires parts { blank.parts ≡ L.parts }
    requires some { 0 < blank.parts }
    ensures { OnOk result (Raises spec.now (event ∷ []) triggered.old triggered.new) }
{
    let mut steps = Steps::<L>::none(blank);
    let numbers = spec.triggered(alloc, store, &event, &mut steps)?;
    triggered.add(event, numbers)?;
    Ok(())
}

// The pick of an item, and the number of its clause.
fn names_of(item: &Item) -> (u32, u32)
    ensures { (result.0 ≡ pick_of item.now) × (result.1 ≡ clause_of item.now) }
{
    match item {
        Item::Fired { pick, clause, .. } => (*pick, *clause),
        Item::Failed { pick, clause, .. } => (*pick, *clause),
    }
}

// The clause of this number, counted from 1, if there is one.
fn clause_at(clauses: &Clauses, number: u32) -> Option<&Reaction>
    ensures some { IfSome result (λ r. IsClause clauses.now number r.now) }
    ensures none { IfNone result ((r : Rule) → IsClause clauses.now number r → ⊥) }
{
    if number == 0 {
        return None;
    }
    clauses.items().get(number as usize - 1)
}

// Adds what an item's events trigger, behind the others.
fn raise(
    alloc: Global,
    store: &mut Store,
    spec: &Spec,
    item: &Item,
    triggered: &mut Agenda,
) -> Result<(), NoMemory>
    ensures { OnOk result (Raises spec.now (raises item.now) triggered.old triggered.new) }
{
    match item {
        Item::Fired { effects, .. } => raise_all(alloc, store, spec, effects.items(), triggered),
        Item::Failed { .. } => Ok(()),
    }
}

// Adds what the events of effects trigger, behind the others.
fn raise_all(
    alloc: Global,
    store: &mut Store,
    spec: &Spec,
    effects: &[Effect],
    triggered: &mut Agenda,
) -> Result<(), NoMemory>
    ensures { OnOk result (Raises spec.now (map event_of effects.now) triggered.old triggered.new) }
{
    for effect in effects {
        add::<Brand>(
            alloc,
            store,
            spec,
            event_of(alloc, effect)?,
            triggered,
            Blank::new(1),
        )?;
    }
    Ok(())
}

// The event for which an effect stands.
fn event_of(alloc: Global, effect: &Effect) -> Result<Event, NoMemory>
    ensures { IfOk result (λ e. e ≡ event_of effect.now) }
{
    match effect {
        Effect::Put(tuple) => Event::success(alloc, EventOp::OutR, tuple),
        Effect::Took(tuple) => Event::success(alloc, EventOp::InR, tuple),
        Effect::Read(tuple) => Event::success(alloc, EventOp::RdR, tuple),
    }
}

//! A cascade: all that an event triggers, and what that triggers in turn.
ghost use Rattle.std.specs.Prelude.{◌≡◌, ◌≤◌, ◌+◌, ◌*◌, ◌∷◌, ◌++◌, [], length, IfOk, OnOk};
ghost use Rattle.std.specs.Prelude.{sum_by};
ghost use Rattle.tc_model.specs.Triggers.{IsClause};
ghost use Rattle.tc_model.specs.declared.limits.TheConstants.{MOST_BUDGET, MOST_GOALS};
ghost use Rattle.tc_spec.specs.Costs.{trigger_steps};
ghost use Rattle.tc_bag.specs.Stock.{AddsYounger, Stock, marked, tuples_of};
ghost use Rattle.tc_cascade.specs.Ages.{most_ages};
ghost use Rattle.tc_cascade.specs.Costs.{cascade_steps};
ghost use Rattle.tc_cascade.specs.Ends.{IsEnd, items_of, kept_or_undone};
ghost use Rattle.tc_cascade.specs.Adding.{Adds, Stands};

use crate::queue::Queue;
use std::alloc::Global;
use std::sync::ledger::Ledger;
use tc_bag::Bag;
use tc_body::execute;
use tc_lists::{NoMemory, Seq};
use tc_model::{Clauses, Context, Event, Item, Reaction};
use tc_spec::Spec;
use tc_steps::Steps;
use tc_unify::Store;

/// The items of a cascade, in the order in which they were tried. Reactions that failed count.
#[derive(Drop)]
pub enum Cascade {
    /// No triggered reaction is left.
    Whole(Seq<Item>),
    /// The budget is spent, and a triggered reaction is left.
    Over(Seq<Item>),
}

/// Runs all that an event triggers, the oldest first, until none is left or so many reactions were
/// tried as the budget allows.
///
/// After `Whole` the tuples are those that the items leave. After `Over` and after want of memory
/// they may be any: going back is the caller's, by a mark that was set before (`keep_or_undo`). The
/// store is made anew in the memory that it has, and what it holds before does not count.
pub fn run<L: Ledger>(
    alloc: Global,
    store: &mut Store,
    spec: &Spec,
    e: &Event,
    context: &Context,
    budget: u32,
    bag: &mut Bag,
    steps: &mut Steps<L>,
) -> Result<Cascade, NoMemory>
    requires few { budget ≤ MOST_BUDGET }
    requires next { bag.old.next + most_ages ≤ u64.MAX }
    ensures ends { IfOk result (IsEnd spec.now context.now budget e.now bag.old bag.new) }
    ensures per_item { IfOk result
        (λ c. bag.new.next ≤ bag.old.next + MOST_GOALS * length (items_of c)) }
    ensures counted { IfOk result
        (λ c. steps.new ≤ steps.old
        + cascade_steps spec.now e.now (items_of c) (tuples_of bag.old.now)) }

    // After each answer:
    ensures saved { bag.new.saved ≡ bag.old.saved }
    ensures adds { AddsYounger bag.old bag.new }
    ensures next { bag.new.next ≤ bag.old.next + most_ages }
    ensures rises { steps.old ≤ steps.new }
{
    let mut triggered = Queue::new(alloc);
    add(
        alloc,
        store,
        spec,
        e.copy(alloc)?,
        budget as usize + 1,
        &mut triggered,
        steps,
    )?;
    let mut items = Vec::new(alloc);
    for k in 0..budget {
        let Some((clause, event)) = triggered.first() else {
            return Ok(Cascade::Whole(Seq::new(items)));
        };
        let reaction = clause_at(spec.clauses(), clause);
        let (item, events) = execute(
            alloc, store, reaction, 1, clause, event, context, bag, steps,
        )?;
        triggered.pass();
        append(&mut items, item)?;
        add_all(
            alloc,
            store,
            spec,
            events,
            (budget - k) as usize,
            &mut triggered,
            steps,
        )?;
    }
    if triggered.is_empty() {
        Ok(Cascade::Whole(Seq::new(items)))
    } else {
        Ok(Cascade::Over(Seq::new(items)))
    }
}

/// Keeps what a cascade has left, where it is whole, and else goes back to the bag of before it.
/// The mark that was set then is removed.
pub fn keep_or_undo(end: &Result<Cascade, NoMemory>, bag: &mut Bag)
    ensures marked { (before : Stock) → bag.old.saved ≡ (marked before).saved
        → bag.new ≡ kept_or_undone end.now before bag.old }
    ensures unmarked { bag.old.saved ≡ [] → bag.new ≡ bag.old }
{
    match end {
        Ok(Cascade::Whole(_)) => bag.keep(),
        Ok(Cascade::Over(_)) | Err(_) => bag.undo(),
    }
}

// Appends an item. A first one gets no more room than it takes, since most cascades have no second.
fn append(items: &mut Vec<Item>, item: Item) -> Result<(), NoMemory>
    ensures { OnOk result (items.new.items ≡ items.old.items ++ item ∷ []) }
{
    if items.is_empty() {
        items.reserve_exact(1)?;
    }
    items.push(item)?;
    Ok(())
}

// The clause of this number, counted from 1.
fn clause_at(clauses: &Clauses, number: u32) -> &Reaction
    requires { Stands clauses.now number }
    ensures { IsClause clauses.now number result.now }
{
    &clauses.items()[number as usize - 1]
}

// Adds what the event triggers, as far as there is room.
fn add<L: Ledger>(
    alloc: Global,
    store: &mut Store,
    spec: &Spec,
    event: Event,
    room: usize,
    triggered: &mut Queue,
    steps: &mut Steps<L>,
) -> Result<(), NoMemory>
    ensures adds { OnOk result (Adds spec.now (event ∷ []) room triggered.old triggered.new) }
    ensures counted { steps.new ≤ steps.old + trigger_steps spec.now event }
    ensures rises { steps.old ≤ steps.new }
{
    let numbers = spec.triggered(alloc, store, &event, steps)?;
    triggered.add(event, numbers, room)?;
    Ok(())
}

// Adds what each of the events triggers.
fn add_all<L: Ledger>(
    alloc: Global,
    store: &mut Store,
    spec: &Spec,
    events: Vec<Event>,
    room: usize,
    triggered: &mut Queue,
    steps: &mut Steps<L>,
) -> Result<(), NoMemory>
    ensures adds { OnOk result (Adds spec.now events.items room triggered.old triggered.new) }
    ensures counted { OnOk result
        (steps.new ≤ steps.old + sum_by (trigger_steps spec.now) events.items) }
    ensures rises { steps.old ≤ steps.new }
{
    for event in events {
        add(alloc, store, spec, event, room, triggered, steps)?;
    }
    Ok(())
}

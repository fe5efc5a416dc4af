//! A cascade, beside the items that are recorded of it.
ghost use Rattle.std.specs.Prelude.{◌≡◌, ◌≤◌, ◌+◌, ◌*◌, ◌↔◌, length, IfOk, IsTrue};
ghost use Rattle.tc_model.specs.Tuples.{after_items};
ghost use Rattle.tc_model.specs.declared.limits.TheConstants.{MOST_GOALS};
ghost use Rattle.tc_bag.specs.Stock.{tuples_of, AddsYounger};
ghost use Rattle.tc_replay.specs.Replays.{IsCascade, KeepsBudget, LeavesMembers};

use crate::agenda::Agenda;
use crate::trying::{add, is_tried};
use std::alloc::Global;
use std::marker::Brand;
use std::sync::ledger::Blank;
use tc_bag::Bag;
use tc_lists::NoMemory;
use tc_model::{Context, Event, Item};
use tc_spec::Spec;
use tc_unify::Store;

/// How a cascade is said to have ended.
#[derive(Clone, Copy, Debug, PartialEq, Eq)]
pub enum Ending {
    /// No triggered reaction is left.
    Whole,
    /// The budget is spent, and a triggered reaction is left.
    Over,
}

/// Whether the items tell a cascade from this event over the tuples of the bag that ends so,
/// whatever was picked and whatever tuples were chosen.
///
/// Where they do, the tuples are those after the items. Else, and where memory ends, they may be
/// any: going back is the caller's, by a mark that was set before. The store is made anew in the
/// memory that it has, and what it holds before does not count.
pub fn is_cascade(
    alloc: Global,
    store: &mut Store,
    spec: &Spec,
    e: &Event,
    context: &Context,
    budget: u32,
    items: &[Item],
    ending: Ending,
    bag: &mut Bag,
) -> Result<bool, NoMemory>
    requires next { bag.old.next + MOST_GOALS * length items.now ≤ u64.MAX }
    ensures exact { IfOk result (λ y. IsTrue y ↔ IsCascade ending
        spec.now context.now budget e.now (tuples_of bag.old.now) items.now) }
    ensures tuples { IfOk result (λ y. IsTrue y
        → tuples_of bag.new.now ≡ after_items items.now (tuples_of bag.old.now)) }

    // After each answer:
    ensures saved { bag.new.saved ≡ bag.old.saved }
    ensures adds { AddsYounger bag.old bag.new }
    ensures room { bag.new.next ≤ bag.old.next + MOST_GOALS * length items.now }
{
    if !keeps_budget(ending, budget, items.len()) {
        return Ok(false);
    }
    let mut triggered = Agenda::new(alloc);
    add::<Brand>(
        alloc,
        store,
        spec,
        e.copy(alloc)?,
        &mut triggered,
        Blank::new(1),
    )?;
    for item in items {
        if !is_tried(alloc, store, spec, context, item, &mut triggered, bag)? {
            return Ok(false);
        }
    }
    Ok(leaves_members(ending, &triggered))
}

// Whether so many items are within the budget, or spend it.
fn keeps_budget(ending: Ending, budget: u32, count: usize) -> bool
    ensures { IsTrue result ↔ KeepsBudget ending budget count }
{
    match ending {
        Ending::Whole => count <= budget as usize,
        Ending::Over => count == budget as usize,
    }
}

// Whether no triggered reaction is left, or some is.
fn leaves_members(ending: Ending, triggered: &Agenda) -> bool
    ensures { IsTrue result ↔ LeavesMembers ending triggered.now }
{
    match ending {
        Ending::Whole => triggered.is_empty(),
        Ending::Over => !triggered.is_empty(),
    }
}

//! The goals of a body, one after another.
ghost use Rattle.std.specs.Prelude.{◌≡◌, ◌≤◌, ◌+◌, take, IfOk, OnErr, IfSome, IfNone};
ghost use Rattle.tc_model.specs.Bodies.{IsBody, IsFired, IsFailed};
ghost use Rattle.tc_model.specs.Choices.{TheFirst};
ghost use Rattle.tc_model.specs.Tuples.{after_effects};
ghost use Rattle.tc_model.specs.Items.{pick_of, clause_of};
ghost use Rattle.tc_model.specs.Triggers.{raises};
ghost use Rattle.tc_model.specs.declared.limits.TheConstants.{MOST_GOALS};
ghost use Rattle.tc_bag.specs.Stock.{tuples_of, AddsYounger};
ghost use Rattle.tc_body.specs.Costs.{body_steps, goals_steps};
ghost use Rattle.tc_body.specs.Left.{IsLeft};

use crate::events::events_of;
use crate::goal::step;
use std::alloc::Global;
use std::sync::ledger::Ledger;
use tc_bag::Bag;
use tc_lists::{NoMemory, Seq};
use tc_model::{Context, Effect, Event, Item, Reaction};
use tc_steps::Steps;
use tc_unify::Store;

/// Runs the body of a reaction over the tuples of the bag: each goal takes the oldest tuple that
/// matches. A body that fails leaves the bag as it was, and so does want of memory.
///
/// The item names the reaction by `pick` and `clause`; the events are those of its effects. The
/// store is made anew in the memory that it has, and what it holds before does not count.
///
/// Its steps are counted: a look at a tuple, and a try to make two terms equal.
pub fn execute<L: Ledger>(
    alloc: Global,
    store: &mut Store,
    r: &Reaction,
    pick: u32,
    clause: u32,
    e: &Event,
    context: &Context,
    bag: &mut Bag,
    steps: &mut Steps<L>,
) -> Result<(Item, Vec<Event>), NoMemory>
    requires { bag.old.next + MOST_GOALS ≤ u64.MAX }
    ensures body { IfOk result
        (λ x. IsBody TheFirst r.now e.now context.now (tuples_of bag.old.now) x.0) }
    ensures names { IfOk result (λ x. (pick_of x.0 ≡ pick) × (clause_of x.0 ≡ clause)) }
    ensures events { IfOk result (λ x. x.1.items ≡ raises x.0) }
    ensures tuples { IfOk result (λ x. IsLeft x.0 bag.old bag.new) }
    ensures same { OnErr result (bag.new ≡ bag.old) }
    ensures saved { bag.new.saved ≡ bag.old.saved }
    ensures adds { AddsYounger bag.old bag.new }
    ensures next { bag.new.next ≤ bag.old.next + MOST_GOALS }
    ensures counted { IfOk result
        (λ x. steps.new ≤ steps.old + body_steps r.now x.0 (tuples_of bag.old.now)) }
    ensures rises { steps.old ≤ steps.new }
{
    bag.mark()?;
    match run_goals(alloc, store, r, e, context, bag, steps) {
        Ok((None, effects)) => match events_of(alloc, &effects) {
            Ok(events) => {
                bag.keep();
                let effects = Seq::new(effects);
                Ok((
                    Item::Fired {
                        pick,
                        clause,
                        effects,
                    },
                    events,
                ))
            }
            Err(fault) => {
                bag.undo();
                Err(fault)
            }
        },
        Ok((Some(goal), effects)) => {
            bag.undo();
            let effects = Seq::new(effects);
            Ok((
                Item::Failed {
                    pick,
                    clause,
                    goal,
                    effects,
                },
                Vec::new(alloc),
            ))
        }
        Err(fault) => {
            bag.undo();
            Err(fault)
        }
    }
}

/// Does the goals of a reaction one after another, and leaves what they did in the bag: which goal
/// has failed, counted from 1, if one has, and the effects of those before it.
///
/// The store is made anew, as in `execute`. Where head and event can't be made equal, the first
/// goal has failed. After a failed goal and after want of memory the caller goes back to a mark.
pub fn run_goals<L: Ledger>(
    alloc: Global,
    store: &mut Store,
    r: &Reaction,
    e: &Event,
    context: &Context,
    bag: &mut Bag,
    steps: &mut Steps<L>,
) -> Result<(Option<u32>, Vec<Effect>), NoMemory>
    requires { bag.old.next + MOST_GOALS ≤ u64.MAX }
    ensures fired { IfOk result (λ x. IfNone x.0
        (IsFired TheFirst r.now e.now context.now (tuples_of bag.old.now) x.1.items)) }
    ensures failed { IfOk result (λ x. IfSome x.0 (λ goal.
        IsFailed TheFirst r.now e.now context.now (tuples_of bag.old.now) goal x.1.items)) }
    ensures tuples { IfOk result (λ x. IfNone x.0
        (tuples_of bag.new.now ≡ after_effects x.1.items (tuples_of bag.old.now))) }
    ensures saved { bag.new.saved ≡ bag.old.saved }
    ensures adds { AddsYounger bag.old bag.new }
    ensures next { bag.new.next ≤ bag.old.next + MOST_GOALS }
    ensures counted { IfOk result (λ x. IfNone x.0 (steps.new
        ≤ steps.old + (1 + goals_steps r.now.goals x.1.items (tuples_of bag.old.now)))) }
    ensures counted_failed { IfOk result (λ x. IfSome x.0 (λ goal. steps.new
        ≤ steps.old + (1 + goals_steps (take goal r.now.goals) x.1.items
        (tuples_of bag.old.now)))) }
    ensures rises { steps.old ≤ steps.new }
{
    let mut effects = Vec::new(alloc);
    let goals = r.goals();
    if !store.meet(r.head(), r.vars(), e.term(), steps)? {
        return Ok((Some(1), effects));
    }
    for (i, goal) in goals.iter().enumerate() {
        let on = &goals[i..];
        if !step(
            alloc,
            goal,
            on,
            r.vars(),
            e,
            context,
            store,
            bag,
            &mut effects,
            steps,
        )? {
            return Ok((Some(i as u32 + 1), effects));
        }
    }
    Ok((None, effects))
}

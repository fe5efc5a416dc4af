//! An operation and a request beside the outcome and the items that are recorded of them.
ghost use Rattle.std.specs.Prelude.{◌≡◌, ◌≤◌, ◌+◌, ◌*◌, ◌↔◌, length, IfOk, IsTrue};
ghost use Rattle.tc_bag.specs.Stock.{tuples_of, AddsYounger};
ghost use Rattle.tc_model.specs.Choices.{AnyOne};
ghost use Rattle.tc_model.specs.Reactions.{clauses_text};
ghost use Rattle.tc_model.specs.State.{Origin, State, after_call, after_search, unless_over};
ghost use Rattle.tc_model.specs.State.{with_tuples};
ghost use Rattle.tc_model.specs.Tables.{IsGiven, IsServed};
ghost use Rattle.tc_model.specs.Tuples.{after_items};
ghost use Rattle.tc_model.specs.declared.calls.CallId.{CallId};
ghost use Rattle.tc_model.specs.declared.limits.TheConstants.{MOST_GOALS};
ghost use Rattle.tc_replay.specs.Acts.{CanAct, IsAllowed, after_act, event_of};
ghost use Rattle.tc_replay.specs.Demands.{IsMet, IsTriggered, after_demand, unless_ended_over};
ghost use Rattle.tc_replay.specs.Replays.{IsCascade};
ghost use Rattle.tc_replay.specs.Serving.{IsMadeAt};

use crate::acts::{Act, event_of, is_done};
use crate::cascade::{Ending, is_cascade};
use crate::demands::{Demand, of_answer, of_call};
use std::alloc::Global;
use std::marker::Brand;
use std::sync::ledger::Blank;
use tc_bag::Bag;
use tc_lists::{NoMemory, Seq};
use tc_model::{Context, EventOp, Item, Op, Outcome, Request};
use tc_spec::{Spec, print_spec};
use tc_unify::Store;

/// What reactions run under: the clauses, the agent in whose name and the centre, and the most of
/// them that may be tried in a phase.
#[derive(Clone, Copy)]
pub struct Regime<'c> {
    pub spec: &'c Spec,
    pub context: &'c Context,
    pub budget: u32,
}

/// Whether an operation may have had this outcome with these items, whatever was chosen.
///
/// Where it may, the tuples are those behind the call. Else, and where memory ends, they may be
/// any: going back is the caller's, by a mark that was set before. A request that then waits is the
/// caller's to note. The store is made anew in the memory that it has, and what it holds before
/// does not count.
pub fn is_served(
    alloc: Global,
    store: &mut Store,
    regime: &Regime,
    op: &Op,
    outcome: &Outcome,
    items: &[Item],
    bag: &mut Bag,
) -> Result<bool, NoMemory>
    requires next { bag.old.next + 1 + MOST_GOALS * length items.now ≤ u64.MAX }
    ensures exact { (origin : Origin) (s : State) (id : CallId)
        → IsMadeAt origin s id regime.now.spec.now regime.now.context.now regime.now.budget
        (tuples_of bag.old.now)
        → IfOk result (λ y. IsTrue y
        ↔ IsServed AnyOne origin s id op.now outcome.now items.now) }
    ensures tuples { (origin : Origin) (s : State) (id : CallId)
        → IsMadeAt origin s id regime.now.spec.now regime.now.context.now regime.now.budget
        (tuples_of bag.old.now)
        → IfOk result (λ y. IsTrue y → tuples_of bag.new.now
        ≡ (after_call id op.now outcome.now items.now s).tuples) }

    // After each answer:
    ensures saved { bag.new.saved ≡ bag.old.saved }
    ensures adds { AddsYounger bag.old bag.new }
    ensures room { bag.new.next ≤ bag.old.next + 1 + MOST_GOALS * length items.now }
{
    is_met(alloc, store, regime, &of_call(op, outcome), items, bag)
}

/// Whether a request may have been given this outcome with these items, whatever was chosen.
///
/// Of the tuples, the bag and the store it says what `is_served` does. The request that is answered
/// is the caller's to remove.
pub fn is_given(
    alloc: Global,
    store: &mut Store,
    regime: &Regime,
    request: &Request,
    outcome: &Outcome,
    items: &[Item],
    bag: &mut Bag,
) -> Result<bool, NoMemory>
    requires next { bag.old.next + 1 + MOST_GOALS * length items.now ≤ u64.MAX }
    ensures exact { (origin : Origin) (s : State)
        → IsMadeAt origin s request.now.id regime.now.spec.now regime.now.context.now
        regime.now.budget (tuples_of bag.old.now)
        → IfOk result (λ y. IsTrue y
        ↔ IsGiven AnyOne origin s request.now outcome.now items.now) }
    ensures tuples { (origin : Origin) (s : State)
        → IsMadeAt origin s request.now.id regime.now.spec.now regime.now.context.now
        regime.now.budget (tuples_of bag.old.now)
        → IfOk result (λ y. IsTrue y → tuples_of bag.new.now
        ≡ (unless_over outcome.now s (with_tuples (after_items items.now
        (after_search request.now.wants outcome.now s.tuples)) s)).tuples) }

    // After each answer:
    ensures saved { bag.new.saved ≡ bag.old.saved }
    ensures adds { AddsYounger bag.old bag.new }
    ensures room { bag.new.next ≤ bag.old.next + 1 + MOST_GOALS * length items.now }
{
    let demand = of_answer(request.wants, &request.template, outcome);
    is_met(alloc, store, regime, &demand, items, bag)
}

// Whether what is demanded holds of the items. Then the tuples are those behind.
fn is_met(
    alloc: Global,
    store: &mut Store,
    regime: &Regime,
    demand: &Demand,
    items: &[Item],
    bag: &mut Bag,
) -> Result<bool, NoMemory>
    requires triggered { IsTriggered demand.now }
    requires next { bag.old.next + 1 + MOST_GOALS * length items.now ≤ u64.MAX }
    ensures exact { IfOk result (λ y. IsTrue y ↔ IsMet regime.now.spec.now regime.now.context.now
        regime.now.budget demand.now (tuples_of bag.old.now) items.now) }
    ensures tuples { IfOk result (λ y. IsTrue y → tuples_of bag.new.now
        ≡ after_demand demand.now items.now (tuples_of bag.old.now)) }
    ensures saved { bag.new.saved ≡ bag.old.saved }
    ensures adds { AddsYounger bag.old bag.new }
    ensures room { bag.new.next ≤ bag.old.next + 1 + MOST_GOALS * length items.now }
{
    match demand {
        Demand::Reactions(op, act, ending) => {
            react(alloc, store, regime, *op, act, *ending, items, bag)
        }
        Demand::NoReaction => Ok(items.is_empty()),
        Demand::Text(text) => Ok(items.is_empty() && is_printed(alloc, regime.spec, text)?),
        Demand::Never => Ok(false),
    }
}

// Whether an operation may have acted so, with these reactions that end so. Then the tuples are
// those behind, or as before where the reactions are over the budget.
fn react(
    alloc: Global,
    store: &mut Store,
    regime: &Regime,
    op: EventOp,
    act: &Act,
    ending: Ending,
    items: &[Item],
    bag: &mut Bag,
) -> Result<bool, NoMemory>
    requires allowed { IsAllowed op act.now }
    requires next { bag.old.next + 1 + MOST_GOALS * length items.now ≤ u64.MAX }
    ensures can { IfOk result (λ y. IsTrue y
        ↔ CanAct act.now (tuples_of bag.old.now) × IsCascade ending regime.now.spec.now
        regime.now.context.now regime.now.budget (event_of op act.now)
        (after_act act.now (tuples_of bag.old.now)) items.now) }
    ensures tuples { IfOk result (λ y. IsTrue y → tuples_of bag.new.now
        ≡ unless_ended_over ending (tuples_of bag.old.now)
        (after_items items.now (after_act act.now (tuples_of bag.old.now)))) }
    ensures saved { bag.new.saved ≡ bag.old.saved }
    ensures adds { AddsYounger bag.old bag.new }
    ensures room { bag.new.next ≤ bag.old.next + 1 + MOST_GOALS * length items.now }
{
    match ending {
        Ending::Whole => is_phase(alloc, store, regime, op, act, ending, items, bag),
        Ending::Over => {
            bag.mark()?;
            let answer = is_phase(alloc, store, regime, op, act, ending, items, bag);
            bag.undo();
            answer
        }
    }
}

// The same, where the tuples stay those that were reached.
fn is_phase(
    alloc: Global,
    store: &mut Store,
    regime: &Regime,
    op: EventOp,
    act: &Act,
    ending: Ending,
    items: &[Item],
    bag: &mut Bag,
) -> Result<bool, NoMemory>
    requires allowed { IsAllowed op act.now }
    requires next { bag.old.next + 1 + MOST_GOALS * length items.now ≤ u64.MAX }
    ensures can { IfOk result (λ y. IsTrue y
        ↔ CanAct act.now (tuples_of bag.old.now) × IsCascade ending regime.now.spec.now
        regime.now.context.now regime.now.budget (event_of op act.now)
        (after_act act.now (tuples_of bag.old.now)) items.now) }
    ensures tuples { IfOk result (λ y. IsTrue y → tuples_of bag.new.now
        ≡ after_items items.now (after_act act.now (tuples_of bag.old.now))) }
    ensures saved { bag.new.saved ≡ bag.old.saved }
    ensures adds { AddsYounger bag.old bag.new }
    ensures room { bag.new.next ≤ bag.old.next + 1 + MOST_GOALS * length items.now }
{
    if !is_done::<Brand>(alloc, act, bag, Blank::new(1))? {
        return Ok(false);
    }
    let event = event_of(alloc, op, act)?;
    is_cascade(
        alloc,
        store,
        regime.spec,
        &event,
        regime.context,
        regime.budget,
        items,
        ending,
        bag,
    )
}

// Whether this is the text of the clauses.
fn is_printed(alloc: Global, spec: &Spec, text: &Seq<u8>) -> Result<bool, NoMemory>
    ensures { IfOk result (λ y. IsTrue y ↔ (text.now ≡ clauses_text spec.now)) }
{
    let mut printed = Vec::new(alloc);
    print_spec(alloc, spec.clauses(), &mut printed)?;
    Ok(*text.items() == *printed)
}

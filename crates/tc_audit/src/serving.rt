//! A call's operation and an answer, beside what is recorded of them.
ghost use Rattle.std.specs.Prelude.{◌≡◌, ◌↔◌, ◌<◌, ◌≤◌, ◌+◌, ◌*◌, ◌++◌, ◌∷◌, [], false, length};
ghost use Rattle.std.specs.Prelude.{AllPairs, List, remove, IfOk, IfSome, IfNone, IsTrue, OnOk};
ghost use Rattle.tc_model.specs.Calls.{same_id};
ghost use Rattle.tc_model.specs.Choices.{AnyOne};
ghost use Rattle.tc_model.specs.Run.{IsAnswered};
ghost use Rattle.tc_model.specs.State.{State, after_answer, after_call, unless_over};
ghost use Rattle.tc_model.specs.Tables.{IsServed};
ghost use Rattle.tc_model.specs.Waiting.{HasRequest};
ghost use Rattle.tc_model.specs.declared.items.Item.{Item};
ghost use Rattle.tc_model.specs.declared.limits.TheConstants.{MOST_GOALS};
ghost use Rattle.tc_audit.specs.Beginnings.{origin_in};
ghost use Rattle.tc_audit.specs.Reached.{IsRequestAt, IsRested, IsSound, state_of};

use crate::beginning::{Beginning, context_of};
use crate::reached::Reached;
use std::alloc::Global;
use tc_bag::Bag;
use tc_lists::NoMemory;
use tc_model::{CallId, Item, MOST_GOALS, Op, Outcome, Request, Wants};
use tc_pending::Pending;
use tc_replay::{Regime, is_given, is_served};
use tc_spec::Spec;
use tc_term::Pattern;

/// Whether a call's operation may have had this outcome with these items. Where it may, it has.
pub(crate) fn serve(
    alloc: Global,
    beginning: &Beginning,
    reached: &mut Reached,
    id: CallId,
    op: &Op,
    outcome: &Outcome,
    items: &[Item],
) -> Result<bool, NoMemory>
    requires { IsRested reached.old }
    ensures exact { IfOk result (λ y. IsTrue y ↔ IsServed AnyOne (origin_in beginning.now)
        (state_of reached.old) id op.now outcome.now items.now) }
    ensures state { IfOk result (λ y. IsTrue y → state_of reached.new
        ≡ after_call id op.now outcome.now items.now (state_of reached.old)) }
    ensures sound { IfOk result (λ y. IsTrue y → IsSound reached.new) }
{
    ages_last(&reached.bag, items)?;
    let context = context_of(alloc, beginning, id)?;
    let regime = Regime {
        spec: &reached.spec,
        context: &context,
        budget: beginning.budget,
    };
    if !is_served(
        alloc,
        &mut reached.store,
        &regime,
        op,
        outcome,
        items,
        &mut reached.bag,
    )? {
        return Ok(false);
    }
    settle(alloc, reached, id, op, outcome)?;
    Ok(true)
}

// Tells that there are ages for all that the items may put.
fn ages_last(bag: &Bag, items: &[Item]) -> Result<(), NoMemory>
    ensures { OnOk result (bag.now.next + 1 + MOST_GOALS * length items.now ≤ u64.MAX) }
{
    let put = (items.len() as u64).checked_mul(MOST_GOALS as u64);
    let Some(put) = put else {
        return Err(NoMemory);
    };
    match bag.next_age().checked_add(put) {
        Some(next) if next < u64::MAX => Ok(()),
        _ => Err(NoMemory),
    }
}

// What a call does beside its tuples: a request is appended, or clauses are replaced, unless the
// reactions went over the budget.
fn settle(
    alloc: Global,
    reached: &mut Reached,
    id: CallId,
    op: &Op,
    outcome: &Outcome,
) -> Result<(), NoMemory>
    ensures clauses { (s : State) (items : List Item) → s.clauses ≡ reached.old.spec
        → OnOk result (reached.new.spec ≡ (after_call id op.now outcome.now items s).clauses) }
    ensures requests { (s : State) (items : List Item) → s.pending ≡ reached.old.pending.now
        → OnOk result (reached.new.pending.now
        ≡ (after_call id op.now outcome.now items s).pending) }
    ensures bag { reached.new.bag ≡ reached.old.bag }
    ensures known { reached.new.known ≡ reached.old.known }
{
    if is_over(outcome) {
        return Ok(());
    }
    match op {
        Op::In(template) => append(alloc, &mut reached.pending, id, Wants::Take, template)?,
        Op::Rd(template) => append(alloc, &mut reached.pending, id, Wants::Look, template)?,
        Op::No(template) => append(alloc, &mut reached.pending, id, Wants::Absence, template)?,
        Op::SetSpec(clauses) => reached.spec = Spec::of(alloc, clauses.copy(alloc)?)?,
        Op::Out(_) | Op::Inp(_) | Op::Rdp(_) | Op::Nop(_) | Op::GetSpec => {}
    }
    Ok(())
}

// Whether the reactions went over the budget.
fn is_over(outcome: &Outcome) -> bool
    ensures over { IsTrue result
        → (before reached : State) → unless_over outcome.now before reached ≡ before }
    ensures not { result ≡ false
        → (before reached : State) → unless_over outcome.now before reached ≡ reached }
{
    match outcome {
        Outcome::Over(_, _) => true,
        Outcome::Done => false,
        Outcome::Took(_) => false,
        Outcome::NoTuple => false,
        Outcome::Absent => false,
        Outcome::Found(_) => false,
        Outcome::Pending => false,
        Outcome::Spec(_) => false,
    }
}

// Appends a request.
fn append(
    alloc: Global,
    pending: &mut Pending,
    id: CallId,
    wants: Wants,
    template: &Pattern,
) -> Result<(), NoMemory>
    ensures { OnOk result (pending.new.now
        ≡ pending.old.now ++ record { id = id; wants = wants; template = template.now } ∷ []) }
{
    let template = template.copy(alloc)?;
    pending.add(Request {
        id,
        wants,
        template,
    })
}

/// Whether a request of this call waits, and may have been answered so. Where it may, it has, and
/// is gone.
pub(crate) fn give(
    alloc: Global,
    beginning: &Beginning,
    reached: &mut Reached,
    id: CallId,
    outcome: &Outcome,
    items: &[Item],
) -> Result<bool, NoMemory>
    requires sound { IsSound reached.old }
    requires once { AllPairs (λ q r. same_id q.id r.id ≡ false) reached.old.pending.now }
    ensures exact { IfOk result (λ y. IsTrue y ↔ IsAnswered AnyOne (origin_in beginning.now)
        (state_of reached.old) id outcome.now items.now) }
    ensures state { IfOk result (λ y. IsTrue y → state_of reached.new
        ≡ after_answer id outcome.now items.now (state_of reached.old)) }
    ensures sound { IfOk result (λ y. IsTrue y → IsSound reached.new) }
{
    ages_last(&reached.bag, items)?;
    let Some(place) = place_of(reached.pending.list(), id) else {
        return Ok(false);
    };
    let context = context_of(alloc, beginning, id)?;
    let regime = Regime {
        spec: &reached.spec,
        context: &context,
        budget: beginning.budget,
    };
    if !is_given(
        alloc,
        &mut reached.store,
        &regime,
        &reached.pending.list()[place],
        outcome,
        items,
        &mut reached.bag,
    )? {
        return Ok(false);
    }
    remove(reached, place);
    Ok(true)
}

// Removes the request at a place. What is known of the others stays known.
fn remove(reached: &mut Reached, place: usize)
    requires { place < length reached.old.pending.now }
    ensures requests { reached.new.pending.now ≡ remove reached.old.pending.now place }
    ensures sound { IsSound reached.old → IsSound reached.new }
    ensures bag { reached.new.bag ≡ reached.old.bag }
    ensures spec { reached.new.spec ≡ reached.old.spec }
{
    reached.pending.remove(place);
    reached.known = reached.known.without(place);
}

// The place of the first request of a call.
fn place_of(requests: &[Request], id: CallId) -> Option<usize>
    ensures found { IfSome result (IsRequestAt requests.now id) }
    ensures none { IfNone result (HasRequest id requests.now → ⊥) }
{
    for (place, request) in requests.iter().enumerate() {
        if request.id == id {
            return Some(place);
        }
    }
    None
}

//! A change of the tuples, and then the reactions to its event.
ghost use Rattle.std.specs.Prelude.{◌≡◌, ◌≤◌, ◌<◌, ◌+◌, ◌*◌, length, IfOk};
ghost use Rattle.std.specs.Prelude.{OnOk, OnErr};
ghost use Rattle.tc_bag.specs.Stock.{AddsYounger, tuples_of};
ghost use Rattle.tc_model.specs.Events.{MayOccur, SucceedsWithTuple};
ghost use Rattle.tc_model.specs.declared.events.Sign.TheVariants.{Success};
ghost use Rattle.tc_model.specs.declared.limits.TheConstants.{MOST_GOALS};
ghost use Rattle.tc_cascade.specs.Ages.{most_ages};
ghost use Rattle.tc_cascade.specs.Ends.{IsEnd, items_of};
ghost use Rattle.tc_phases.specs.Phases.{IsRegime, IsPhase, setting_in};
ghost use Rattle.tc_phases.specs.Running.{changed, event_in, taking, IsAllowed};

use crate::regime::Regime;
use std::alloc::Global;
use std::sync::ledger::Ledger;
use tc_bag::Bag;
use tc_cascade::{Cascade, keep_or_undo, run};
use tc_lists::{NoMemory, Seq};
use tc_model::{Context, Event, EventOp, Phase, Sign, Wants};
use tc_steps::Steps;
use tc_term::{Ground, Pattern};
use tc_unify::Store;

/// What an operation does to the tuples, before the reactions to it.
#[derive(Clone, Copy)]
pub enum Change<'a> {
    /// It puts the tuple behind the others.
    Put(&'a Ground),
    /// It takes the tuple of this age.
    Take(u64),
    Nothing,
}

/// What triggers the reactions of a phase: an operation and its tuple or its template. The event is
/// made of it only where a clause is of the operation.
#[derive(Clone, Copy)]
pub enum Trigger<'a> {
    Success(EventOp, &'a Ground),
    /// It has succeeded because no tuple matches.
    Absence(EventOp, &'a Pattern),
    Failure(EventOp, &'a Pattern),
    Request(EventOp, &'a Pattern),
}

/// The change of a search or an answer that has found the tuple of this age.
pub fn taking<'a>(wants: Wants, age: u64) -> Change<'a>
    ensures { result ≡ taking wants age }
{
    match wants {
        Wants::Take => Change::Take(age),
        Wants::Look | Wants::Absence => Change::Nothing,
    }
}

/// Makes the change, and then runs the reactions to the event. Where they go over the budget, and
/// where memory ends, the bag is as before.
pub fn run_phase<L: Ledger>(
    alloc: Global,
    store: &mut Store,
    regime: &Regime,
    trigger: &Trigger,
    change: &Change,
    bag: &mut Bag,
    steps: &mut Steps<L>,
) -> Result<Cascade, NoMemory>
    requires regime { IsRegime regime.now }
    requires trigger { IsAllowed trigger.now }
    requires next { bag.old.next + most_ages + 1 ≤ u64.MAX }
    ensures phase { IfOk result (IsPhase regime.now (event_in trigger.now)
        (tuples_of (changed change.now bag.old).now) bag.old bag.new) }
    ensures same { OnErr result (bag.new ≡ bag.old) }
    ensures next { IfOk result
        (λ c. bag.new.next ≤ bag.old.next + 1 + MOST_GOALS * length (items_of c)) }
    ensures saved { bag.new.saved ≡ bag.old.saved }
    ensures adds { AddsYounger bag.old bag.new }
    ensures rises { steps.old ≤ steps.new }
{
    if !regime.spec.has_op(trigger.op()) {
        make(alloc, change, bag)?;
        return Ok(Cascade::Whole(Seq::empty(alloc)));
    }
    bag.mark()?;
    let end = make_and_run(alloc, store, regime, trigger, change, bag, steps);
    keep_or_undo(&end, bag);
    end
}

// The change and the reactions. After `Over` and after want of memory going back is the caller's,
// by a mark that was set before.
fn make_and_run<L: Ledger>(
    alloc: Global,
    store: &mut Store,
    regime: &Regime,
    trigger: &Trigger,
    change: &Change,
    bag: &mut Bag,
    steps: &mut Steps<L>,
) -> Result<Cascade, NoMemory>
    requires regime { IsRegime regime.now }
    requires trigger { IsAllowed trigger.now }
    requires next { bag.old.next + most_ages + 1 ≤ u64.MAX }
    ensures ends { IfOk result (IsEnd regime.now.spec.now (setting_in regime.now) regime.now.budget
        (event_in trigger.now) (changed change.now bag.old) bag.new) }
    ensures next { IfOk result
        (λ c. bag.new.next ≤ bag.old.next + 1 + MOST_GOALS * length (items_of c)) }
    ensures saved { bag.new.saved ≡ bag.old.saved }
    ensures adds { AddsYounger bag.old bag.new }
    ensures rises { steps.old ≤ steps.new }
{
    let event = trigger.event(alloc)?;
    let context = context_of(alloc, regime)?;
    make(alloc, change, bag)?;
    let end = run(
        alloc,
        store,
        regime.spec,
        &event,
        &context,
        regime.budget,
        bag,
        steps,
    )?;
    Ok(end)
}

// Makes the change.
fn make(alloc: Global, change: &Change, bag: &mut Bag) -> Result<(), NoMemory>
    requires { bag.old.next < u64.MAX }
    ensures changed { OnOk result (bag.new ≡ changed change.now bag.old) }
    ensures same { OnErr result (bag.new ≡ bag.old) }
    ensures saved { bag.new.saved ≡ bag.old.saved }
    ensures adds { AddsYounger bag.old bag.new }
    ensures next { bag.new.next ≤ bag.old.next + 1 }
{
    match change {
        Change::Put(tuple) => {
            bag.add(tuple.copy(alloc)?)?;
            Ok(())
        }
        Change::Take(age) => {
            bag.take(*age);
            Ok(())
        }
        Change::Nothing => Ok(()),
    }
}

// In whose name the reactions run, and where.
fn context_of(alloc: Global, regime: &Regime) -> Result<Context, NoMemory>
    requires { IsRegime regime.now }
    ensures { IfOk result (λ context. context ≡ setting_in regime.now) }
{
    let agent = regime.agent.copy(alloc)?;
    let centre = regime.centre.copy(alloc)?;
    Ok(Context::new(agent, centre))
}

impl Trigger<'_> {
    /// The operation.
    fn op(&self) -> EventOp
        ensures { result ≡ (event_in self.now).op }
    {
        match self {
            Trigger::Success(op, _) => *op,
            Trigger::Absence(op, _) => *op,
            Trigger::Failure(op, _) => *op,
            Trigger::Request(op, _) => *op,
        }
    }

    /// The event.
    fn event(&self, alloc: Global) -> Result<Event, NoMemory>
        requires { IsAllowed self.now }
        ensures { IfOk result (λ event. event ≡ event_in self.now) }
    {
        match self {
            Trigger::Success(op, tuple) => {
                let event = Event::success(alloc, *op, tuple)?;
                Ok(event)
            }
            Trigger::Absence(op, template) => {
                let event = on_template(alloc, *op, template, Phase::Post, Sign::Success)?;
                Ok(event)
            }
            Trigger::Failure(op, template) => {
                let event = on_template(alloc, *op, template, Phase::Post, Sign::Failure)?;
                Ok(event)
            }
            Trigger::Request(op, template) => {
                let event = on_template(alloc, *op, template, Phase::Pre, Sign::Neither)?;
                Ok(event)
            }
        }
    }
}

// The event of an operation on a template.
fn on_template(
    alloc: Global,
    op: EventOp,
    template: &Pattern,
    phase: Phase,
    sign: Sign,
) -> Result<Event, NoMemory>
    requires allowed { MayOccur op phase sign }
    requires template { sign ≡ Success → SucceedsWithTuple op → ⊥ }
    ensures { IfOk result
        (λ e. e ≡ record { op = op; term = template.now; phase = phase; sign = sign }) }
{
    // Reading the term tells that it is a template.
    let _template = template.term();
    Ok(Event::new(op, template.copy(alloc)?, phase, sign))
}

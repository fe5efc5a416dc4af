//! Operations on the tuples and the requests of a centre, with their reactions.
ghost use Rattle.std.specs.Prelude.{◌≡◌, ◌<◌, ◌++◌, ◌∷◌, [], length};
ghost use Rattle.std.specs.Prelude.{IfOk, None, OnOk, Some};
ghost use Rattle.tc_pending.specs.Answers.{IsNextAnswer};
ghost use Rattle.tc_centre.specs.Held.{KeepsAround, HoldsRun};
ghost use Rattle.tc_centre.specs.declared.operations.TupleOp.{TupleOp};
ghost use Rattle.tc_centre.specs.Operations.{op_of, outcome_of, IsRegimeOf, Performs, Gives};

use crate::founding::Founding;
use crate::holdings::Holdings;
use std::alloc::Global;
use std::sync::ledger::Ledger;
use tc_cascade::Cascade;
use tc_lists::{NoMemory, Seq};
use tc_model::{CallId, Item, Op, Outcome, Phase, Request, Wants};
use tc_pending::Pending;
use tc_phases::Regime;
use tc_spec::Spec;
use tc_steps::Steps;
use tc_term::{Ground, Pattern};

/// An operation on tuples, by the phase that serves it.
#[derive(Drop)]
pub enum TupleOp {
    Put(Ground),
    /// It waits for what it wants.
    Request(Wants, Pattern),
    /// It looks for what it wants, and doesn't wait.
    Search(Wants, Pattern),
}

impl TupleOp {
    /// The operation as agents know it.
    pub fn into_op(self) -> Op
        ensures { result ≡ op_of self }
    {
        match self {
            TupleOp::Put(tuple) => Op::Out(tuple),
            TupleOp::Request(Wants::Take, template) => Op::In(template),
            TupleOp::Request(Wants::Look, template) => Op::Rd(template),
            TupleOp::Request(Wants::Absence, template) => Op::No(template),
            TupleOp::Search(Wants::Take, template) => Op::Inp(template),
            TupleOp::Search(Wants::Look, template) => Op::Rdp(template),
            TupleOp::Search(Wants::Absence, template) => Op::Nop(template),
        }
    }
}

/// Puts a tuple behind the others, with the reactions to that. Tells the outcome, and what the
/// reactions did; where they went over the budget, the tuple is gone again.
///
/// Here and below only the marks are as before after a fault.
pub fn put<L: Ledger>(
    alloc: Global,
    held: &mut Holdings,
    id: CallId,
    tuple: &Ground,
    steps: &mut Steps<L>,
) -> Result<(Outcome, Seq<Item>), NoMemory>
    requires run { HoldsRun held.old }
    requires agent { id.agent < length held.old.founding.agents.items }
    ensures done { IfOk result
        (λ x. Performs id (op_of (TupleOp.Put tuple.now)) held.old held.new x.0 x.1) }
    ensures keeps { KeepsAround held.old held.new }
{
    let regime = regime(&held.founding, &held.spec, id);
    match tc_phases::put(alloc, &mut held.store, &regime, tuple, &mut held.bag, steps)? {
        Cascade::Whole(items) => Ok((Outcome::Done, items)),
        Cascade::Over(items) => Ok((Outcome::Over(Phase::Post, None), items)),
    }
}

/// Runs the reactions to a request, and appends it, unless they went over the budget.
pub fn request<L: Ledger>(
    alloc: Global,
    held: &mut Holdings,
    id: CallId,
    wants: Wants,
    template: &Pattern,
    steps: &mut Steps<L>,
) -> Result<(Outcome, Seq<Item>), NoMemory>
    requires run { HoldsRun held.old }
    requires agent { id.agent < length held.old.founding.agents.items }
    ensures done { IfOk result
        (λ x. Performs id (op_of (TupleOp.Request wants template.now)) held.old held.new x.0 x.1) }
    ensures keeps { KeepsAround held.old held.new }
{
    let regime = regime(&held.founding, &held.spec, id);
    match tc_phases::request(
        alloc,
        &mut held.store,
        &regime,
        wants,
        template,
        &mut held.bag,
        steps,
    )? {
        Cascade::Whole(items) => {
            append(alloc, id, wants, template, &mut held.pending)?;
            Ok((Outcome::Pending, items))
        }
        Cascade::Over(items) => Ok((Outcome::Over(Phase::Pre, None), items)),
    }
}

/// Looks for the oldest tuple that matches, which is taken or stays, with the reactions to what was
/// found. A tuple that was taken is back where they went over the budget.
pub fn search<L: Ledger>(
    alloc: Global,
    held: &mut Holdings,
    id: CallId,
    wants: Wants,
    template: &Pattern,
    steps: &mut Steps<L>,
) -> Result<(Outcome, Seq<Item>), NoMemory>
    requires run { HoldsRun held.old }
    requires agent { id.agent < length held.old.founding.agents.items }
    ensures done { IfOk result
        (λ x. Performs id (op_of (TupleOp.Search wants template.now)) held.old held.new x.0 x.1) }
    ensures keeps { KeepsAround held.old held.new }
{
    let regime = regime(&held.founding, &held.spec, id);
    let (found, cascade) = tc_phases::search(
        alloc,
        &mut held.store,
        &regime,
        wants,
        template,
        &mut held.bag,
        steps,
    )?;
    match cascade {
        Cascade::Whole(items) => Ok((outcome_of(wants, found), items)),
        Cascade::Over(items) => Ok((Outcome::Over(Phase::Post, found), items)),
    }
}

/// Gives the tuple of an age to the request at a place, or with no age tells it that none matches,
/// with the reactions to that. Tells whose request it is, the outcome, and what the reactions did;
/// where they went over the budget, the tuples are as before. The request is left where it is.
pub fn answer<L: Ledger>(
    alloc: Global,
    held: &mut Holdings,
    place: usize,
    age: Option<u64>,
    steps: &mut Steps<L>,
) -> Result<(CallId, Outcome, Seq<Item>), NoMemory>
    requires run { HoldsRun held.old }
    requires next { IsNextAnswer held.old.bag.now held.old.pending.now place age }
    ensures gives { IfOk result (λ x. Gives place held.old held.new x.0 x.1 x.2) }
    ensures keeps { KeepsAround held.old held.new }
    ensures requests { held.new.pending ≡ held.old.pending }
{
    match age {
        Some(age) => give_tuple(alloc, held, place, age, steps),
        None => tell_absence(alloc, held, place, steps),
    }
}

// Gives the tuple of an age to the request at a place.
fn give_tuple<L: Ledger>(
    alloc: Global,
    held: &mut Holdings,
    place: usize,
    age: u64,
    steps: &mut Steps<L>,
) -> Result<(CallId, Outcome, Seq<Item>), NoMemory>
    requires run { HoldsRun held.old }
    requires next { IsNextAnswer held.old.bag.now held.old.pending.now place (Some age) }
    ensures gives { IfOk result (λ x. Gives place held.old held.new x.0 x.1 x.2) }
    ensures keeps { KeepsAround held.old held.new }
    ensures requests { held.new.pending ≡ held.old.pending }
{
    let request = &held.pending.list()[place];
    let id = request.id;
    let wants = request.wants;
    let regime = regime(&held.founding, &held.spec, request.id);
    let (tuple, cascade) = tc_phases::answer(
        alloc,
        &mut held.store,
        &regime,
        wants,
        age,
        &mut held.bag,
        steps,
    )?;
    match cascade {
        Cascade::Whole(items) => Ok((id, Outcome::Took(tuple), items)),
        Cascade::Over(items) => Ok((id, Outcome::Over(Phase::Post, Some(tuple)), items)),
    }
}

// Tells the request at a place that no tuple matches.
fn tell_absence<L: Ledger>(
    alloc: Global,
    held: &mut Holdings,
    place: usize,
    steps: &mut Steps<L>,
) -> Result<(CallId, Outcome, Seq<Item>), NoMemory>
    requires run { HoldsRun held.old }
    requires next { IsNextAnswer held.old.bag.now held.old.pending.now place None }
    ensures gives { IfOk result (λ x. Gives place held.old held.new x.0 x.1 x.2) }
    ensures keeps { KeepsAround held.old held.new }
    ensures requests { held.new.pending ≡ held.old.pending }
{
    let request = &held.pending.list()[place];
    let id = request.id;
    let regime = regime(&held.founding, &held.spec, request.id);
    let cascade = tc_phases::tell_absence(
        alloc,
        &mut held.store,
        &regime,
        &request.template,
        &mut held.bag,
        steps,
    )?;
    match cascade {
        Cascade::Whole(items) => Ok((id, Outcome::Absent, items)),
        Cascade::Over(items) => Ok((id, Outcome::Over(Phase::Post, None), items)),
    }
}

// In whose name the reactions to a call run, and by which clauses.
fn regime<'c>(founding: &'c Founding, spec: &'c Spec, id: CallId) -> Regime<'c>
    requires { id.agent < length founding.now.agents.items }
    ensures { IsRegimeOf founding.now spec.now id result }
{
    Regime {
        spec,
        agent: &founding.agents[id.agent as usize],
        centre: &founding.name,
        budget: founding.budget,
    }
}

// Appends a request.
fn append(
    alloc: Global,
    id: CallId,
    wants: Wants,
    template: &Pattern,
    pending: &mut Pending,
) -> Result<(), NoMemory>
    ensures requests { OnOk result (pending.new.now
        ≡ pending.old.now ++ record { id = id; wants = wants; template = template.now } ∷ []) }
    ensures marks { pending.new.saved ≡ pending.old.saved }
{
    let template = template.copy(alloc)?;
    pending.add(Request {
        id,
        wants,
        template,
    })
}

// What a search tells that has found this, or nothing.
fn outcome_of(wants: Wants, found: Option<Ground>) -> Outcome
    ensures { result ≡ outcome_of wants found }
{
    match (wants, found) {
        (Wants::Take | Wants::Look, Some(tuple)) => Outcome::Took(tuple),
        (Wants::Take | Wants::Look, None) => Outcome::NoTuple,
        (Wants::Absence, Some(tuple)) => Outcome::Found(tuple),
        (Wants::Absence, None) => Outcome::Absent,
    }
}

//! Serving a call: its entry, and then the answers to requests that can be given.
ghost use Rattle.std.specs.Prelude.{◌≡◌, ◌≢◌, ◌<◌, [], length, remove, IfOk, OnOk, OnErr};
ghost use Rattle.tc_bag.specs.Stock.{AddsYounger};
ghost use Rattle.tc_pending.specs.Answers.{IsNextAnswer};
ghost use Rattle.tc_model.specs.Reactions.{clauses_text};
ghost use Rattle.tc_model.specs.Replies.{reply_in};
ghost use Rattle.tc_model.specs.Typed.{IsTypedId};
ghost use Rattle.tc_model.specs.declared.calls.Op.{Op};
ghost use Rattle.tc_centre.specs.Held.{HoldsRun, IsAtRest, IsJustMarked, Knows, MayServe, known_of};
ghost use Rattle.tc_centre.specs.Held.{IsSame, KeepsHeld, KeepsAround, KeepsTyped};
ghost use Rattle.tc_centre.specs.Held.{Answers, Calls, Grows};
ghost use Rattle.tc_centre.specs.declared.operations.TupleOp.{TupleOp};
ghost use Rattle.tc_centre.specs.Operations.{op_of, Performs, HasServed};
ghost use Rattle.tc_centre.specs.Turns.{IsAnswer};

use crate::answers::Answer;
use crate::holdings::Holdings;
use crate::operations::{TupleOp, answer, put, request, search};
use std::alloc::Global;
use std::marker::Brand;
use std::sync::ledger::{Blank, Ledger};
use tc_calls::reply_to;
use tc_lists::{NoMemory, Seq};
use tc_model::{CallId, Clauses, Entry, Item, Op, Outcome, Reply, Wants};
use tc_pending::Known;
use tc_spec::{Spec, print_spec};
use tc_steps::Steps;
use tc_term::Pattern;

/// Serves a call, and answers the requests that can be answered, until none is left.
///
/// Where memory ends, all is as before.
pub fn serve(alloc: Global, held: &mut Holdings, id: CallId, op: Op) -> Result<Answer, NoMemory>
    requires may { MayServe id held.old }
    requires unmarked { held.old.bag.saved ≡ [] }
    ensures served { IfOk result (HasServed id op held.old held.new) }
    ensures same { OnErr result (IsSame held.old held.new) }
{
    match op {
        Op::Out(tuple) => on_tuples(alloc, held, id, TupleOp::Put(tuple)),
        Op::In(template) => serve_request(alloc, held, id, Wants::Take, template),
        Op::Rd(template) => serve_request(alloc, held, id, Wants::Look, template),
        Op::Inp(template) => serve_search(alloc, held, id, Wants::Take, template),
        Op::Rdp(template) => serve_search(alloc, held, id, Wants::Look, template),
        Op::No(template) => serve_request(alloc, held, id, Wants::Absence, template),
        Op::Nop(template) => serve_search(alloc, held, id, Wants::Absence, template),
        Op::SetSpec(clauses) => replace_spec(alloc, held, id, clauses),
        Op::GetSpec => get_spec(alloc, held, id),
    }
}

// Serves an operation that waits for what it wants.
fn serve_request(
    alloc: Global,
    held: &mut Holdings,
    id: CallId,
    wants: Wants,
    template: Pattern,
) -> Result<Answer, NoMemory>
    requires may { MayServe id held.old }
    requires unmarked { held.old.bag.saved ≡ [] }
    ensures served { IfOk result
        (HasServed id (op_of (TupleOp.Request wants template)) held.old held.new) }
    ensures same { OnErr result (IsSame held.old held.new) }
{
    on_tuples(alloc, held, id, TupleOp::Request(wants, template))
}

// Serves an operation that looks for what it wants.
fn serve_search(
    alloc: Global,
    held: &mut Holdings,
    id: CallId,
    wants: Wants,
    template: Pattern,
) -> Result<Answer, NoMemory>
    requires may { MayServe id held.old }
    requires unmarked { held.old.bag.saved ≡ [] }
    ensures served { IfOk result
        (HasServed id (op_of (TupleOp.Search wants template)) held.old held.new) }
    ensures same { OnErr result (IsSame held.old held.new) }
{
    on_tuples(alloc, held, id, TupleOp::Search(wants, template))
}

// Serves an operation on tuples, and answers the requests that can be answered.
fn on_tuples(
    alloc: Global,
    held: &mut Holdings,
    id: CallId,
    op: TupleOp,
) -> Result<Answer, NoMemory>
    requires may { MayServe id held.old }
    requires unmarked { held.old.bag.saved ≡ [] }
    ensures served { IfOk result (HasServed id (op_of op) held.old held.new) }
    ensures same { OnErr result (IsSame held.old held.new) }
{
    held.bag.mark()?;
    if held.pending.mark().is_err() {
        held.bag.undo();
        return Err(NoMemory);
    }
    let length = held.history.len();
    match serve_call::<Brand>(alloc, held, id, op, Blank::new(1)) {
        Ok(answer) => {
            held.bag.keep();
            held.pending.keep();
            Ok(answer)
        }
        Err(fault) => {
            held.bag.undo();
            held.pending.undo();
            held.history.truncate(length);
            Err(fault)
        }
    }
}

// Serves a call and answers what can be answered. After a fault only the marks are as before.
fn serve_call<L: Ledger>(
    alloc: Global,
    held: &mut Holdings,
    id: CallId,
    op: TupleOp,
    blank: Blank,
) -> Result<Answer, NoMemory>
    requires name { blank.name ≡ L.name }
    requires parts { blank.parts ≡ L.parts }
    requires some { 0 < blank.parts }
    requires may { MayServe id held.old }
    requires marked { IsJustMarked held.old.bag }
    ensures rest { OnOk result (IsAtRest held.new) }
    ensures grown { OnOk result
        (Grows id (op_of op) held.old.history.items held.new.history.items) }
    ensures answer { IfOk result (IsAnswer (reply_in held.new.history.items id)) }
    ensures keeps { KeepsHeld held.old held.new }
    ensures spec { held.new.spec ≡ held.old.spec }
    ensures typed { OnOk result (KeepsTyped held.old held.new) }
{
    let before = held.history.len();
    let known = Known {
        requests: held.pending.list().len(),
        age: held.bag.next_age(),
    };
    let mut steps = Steps::<L>::none(blank);
    call(alloc, held, id, op, &mut steps)?;
    answer_all(alloc, held, known, &mut steps)?;
    match reply_to(alloc, &held.history[before..], id)? {
        Some(reply) => Ok(Answer::Replied(reply)),
        None => Ok(Answer::Pending),
    }
}

// Serves a call and appends its entry.
fn call<L: Ledger>(
    alloc: Global,
    held: &mut Holdings,
    id: CallId,
    op: TupleOp,
    steps: &mut Steps<L>,
) -> Result<(), NoMemory>
    requires may { MayServe id held.old }
    requires marked { IsJustMarked held.old.bag }
    ensures run { OnOk result (HoldsRun held.new) }
    ensures known { OnOk result (Knows (known_of held.old) held.new) }
    ensures called { OnOk result
        (Calls id (op_of op) held.old.history.items held.new.history.items) }
    ensures keeps { KeepsHeld held.old held.new }
    ensures spec { held.new.spec ≡ held.old.spec }
    ensures typed { OnOk result (KeepsTyped held.old held.new) }
{
    let (outcome, items) = perform(alloc, held, id, &op, steps)?;
    let op = op.into_op();
    typed_id(id);
    op.typed();
    outcome.typed();
    held.history.push(Entry::Called {
        id,
        op,
        outcome,
        items,
    })?;
    Ok(())
}

// Does a call's operation with its reactions, and tells its outcome and what the reactions did.
fn perform<L: Ledger>(
    alloc: Global,
    held: &mut Holdings,
    id: CallId,
    op: &TupleOp,
    steps: &mut Steps<L>,
) -> Result<(Outcome, Seq<Item>), NoMemory>
    requires run { HoldsRun held.old }
    requires agent { id.agent < length held.old.founding.agents.items }
    ensures done { IfOk result (λ x. Performs id (op_of op.now) held.old held.new x.0 x.1) }
    ensures keeps { KeepsAround held.old held.new }
{
    match op {
        TupleOp::Put(tuple) => put(alloc, held, id, tuple, steps),
        TupleOp::Request(wants, template) => request(alloc, held, id, *wants, template, steps),
        TupleOp::Search(wants, template) => search(alloc, held, id, *wants, template, steps),
    }
}

// Answers the requests that can be answered, the oldest first, until none is left. Of requests and
// tuples that are known, only those requests are looked at that want the absence of one that went.
fn answer_all<L: Ledger>(
    alloc: Global,
    held: &mut Holdings,
    mut known: Known,
    steps: &mut Steps<L>,
) -> Result<(), NoMemory>
    requires run { HoldsRun held.old }
    requires marked { held.old.bag.saved ≢ [] }
    requires known { Knows known held.old }
    ensures rest { OnOk result (IsAtRest held.new) }
    ensures answers { OnOk result (Answers held.old.history.items held.new.history.items) }
    ensures keeps { KeepsHeld held.old held.new }
    ensures spec { held.new.spec ≡ held.old.spec }
    ensures typed { OnOk result (KeepsTyped held.old held.new) }
{
    while let Some((place, age)) = held.pending.next_answerable(&held.bag, known, steps) {
        answer_one(alloc, held, place, age, steps)?;
        known = known.without(place);
    }
    Ok(())
}

// Answers the request at a place, with the tuple of an age or with absence, removes it, and
// appends the entry of that.
fn answer_one<L: Ledger>(
    alloc: Global,
    held: &mut Holdings,
    place: usize,
    age: Option<u64>,
    steps: &mut Steps<L>,
) -> Result<(), NoMemory>
    requires run { HoldsRun held.old }
    requires next { IsNextAnswer held.old.bag.now held.old.pending.now place age }
    ensures run { OnOk result (HoldsRun held.new) }
    ensures answers { OnOk result (Answers held.old.history.items held.new.history.items) }
    ensures requests { OnOk result (held.new.pending.now ≡ remove held.old.pending.now place) }
    ensures rows { OnOk result (AddsYounger held.old.bag held.new.bag) }
    ensures fewer { OnOk result (length held.new.pending.now < length held.old.pending.now) }
    ensures keeps { KeepsHeld held.old held.new }
    ensures spec { held.new.spec ≡ held.old.spec }
    ensures typed { OnOk result (KeepsTyped held.old held.new) }
{
    let (id, outcome, items) = answer(alloc, held, place, age, steps)?;
    held.pending.remove(place);
    held.history.push(Entry::Gave { id, outcome, items })?;
    Ok(())
}

// Numbers clauses, and replaces the others by them.
fn replace_spec(
    alloc: Global,
    held: &mut Holdings,
    id: CallId,
    clauses: Clauses,
) -> Result<Answer, NoMemory>
    requires may { MayServe id held.old }
    ensures served { IfOk result (HasServed id (Op.SetSpec clauses) held.old held.new) }
    ensures same { OnErr result (IsSame held.old held.new) }
{
    let spec = Spec::of(alloc, clauses.copy(alloc)?)?;
    set_spec(alloc, held, id, clauses, spec)
}

// Replaces the clauses by these, with their numbers. Tuples and requests stay, so that still no
// request can be answered.
fn set_spec(
    alloc: Global,
    held: &mut Holdings,
    id: CallId,
    clauses: Clauses,
    spec: Spec,
) -> Result<Answer, NoMemory>
    requires may { MayServe id held.old }
    requires spec { spec ≡ clauses }
    ensures served { IfOk result (HasServed id (Op.SetSpec clauses) held.old held.new) }
    ensures same { OnErr result (IsSame held.old held.new) }
{
    let op = Op::SetSpec(clauses);
    typed_id(id);
    op.typed();
    held.history.push(Entry::Called {
        id,
        op,
        outcome: Outcome::Done,
        items: Seq::empty(alloc),
    })?;
    held.spec = spec;
    Ok(Answer::Replied(Reply::Done))
}

// Tells the text of the clauses.
fn get_spec(alloc: Global, held: &mut Holdings, id: CallId) -> Result<Answer, NoMemory>
    requires may { MayServe id held.old }
    ensures served { IfOk result (HasServed id Op.GetSpec held.old held.new) }
    ensures same { OnErr result (IsSame held.old held.new) }
{
    let reply = Reply::Spec(text_of(alloc, &held.spec)?);
    let outcome = Outcome::Spec(text_of(alloc, &held.spec)?);
    typed_id(id);
    outcome.typed();
    held.history.push(Entry::Called {
        id,
        op: Op::GetSpec,
        outcome,
        items: Seq::empty(alloc),
    })?;
    Ok(Answer::Replied(reply))
}

// The text of the clauses.
fn text_of(alloc: Global, spec: &Spec) -> Result<Seq<u8>, NoMemory>
    ensures { IfOk result (λ text. text ≡ clauses_text spec.now) }
{
    let mut text = Vec::new(alloc);
    print_spec(alloc, spec.clauses(), &mut text)?;
    Ok(Seq::new(text))
}

/// Tells contracts what the type of an id promises, and does nothing.
pub fn typed_id(id: CallId)
    ensures { IsTypedId id }
{
    let _agent = id.agent;
    let _number = id.number;
}

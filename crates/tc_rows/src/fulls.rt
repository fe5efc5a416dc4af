//! Where a centre was at rest, and too full for another call.
ghost use Rattle.std.specs.Prelude.{◌≡◌, ◌↔◌, ◌+◌, ◌++◌, ◌∷◌, [], IfOk, IsTrue, List, OnOk};
ghost use Rattle.tc_model.specs.Choices.{AnyOne};
ghost use Rattle.tc_model.specs.Entries.{weight_of};
ghost use Rattle.tc_model.specs.Run.{IsLegal};
ghost use Rattle.tc_model.specs.State.{Origin, after_history, opening};
ghost use Rattle.tc_model.specs.declared.entries.Entry.{Entry};
ghost use Rattle.tc_rows.specs.Fulls.{ArePoints, IsLoadOf, IsQuietWith, IsTooFull, Notes};
ghost use Rattle.tc_rows.specs.Fulls.{is_no_answer, is_within, leaves_request, may_wait};
ghost use Rattle.tc_rows.specs.Fulls.{pending_behind};

use std::alloc::Global;
use tc_lists::NoMemory;
use tc_model::{Entry, MOST_WEIGHT, Op, Outcome};

/// What the entries of a history weigh, and how many requests wait behind them.
#[derive(Clone, Copy)]
pub(crate) struct Load {
    pub(crate) weight: u64,
    pub(crate) pending: u64,
}

/// A place of a history, from 0, before which its centre was at rest and full, and the load there.
#[derive(Clone, Copy)]
pub(crate) struct FullPoint {
    pub(crate) place: usize,
    pub(crate) load: Load,
}

/// Each place at which the centre was at rest and full, in order. The history is one of a run to a
/// quiet state: an answer shows that the centre wasn't at rest before it.
pub(crate) fn points_in(
    alloc: Global,
    budget: u32,
    history: &[Entry],
) -> Result<Vec<FullPoint>, NoMemory>
    ensures { IfOk result (λ points. (origin : Origin) → IsQuietWith origin budget history.now
        → ArePoints origin history.now points.items) }
{
    let mut points = Vec::new(alloc);
    let mut load = Load {
        weight: 0,
        pending: 0,
    };
    for (place, entry) in history.iter().enumerate() {
        note_point(&mut points, is_no_answer(entry), budget, load, place)?;
        load = load_after(load, entry)?;
    }
    note_point(&mut points, true, budget, load, history.len())?;
    Ok(points)
}

// Notes the place behind the others where the centre is at rest and full.
fn note_point(
    points: &mut Vec<FullPoint>,
    quiet: bool,
    budget: u32,
    load: Load,
    place: usize,
) -> Result<(), NoMemory>
    ensures { OnOk result (Notes quiet budget load place points.old.items points.new.items) }
{
    if quiet && is_full(load, budget) {
        points.push(FullPoint { place, load })?;
    }
    Ok(())
}

// Whether the entry is no answer.
fn is_no_answer(entry: &Entry) -> bool
    ensures { result ≡ is_no_answer entry.now }
{
    match entry {
        Entry::Called { .. } | Entry::Looked { .. } => true,
        Entry::Gave { .. } => false,
    }
}

// Whether a centre with this budget is too full for another call.
fn is_full(load: Load, budget: u32) -> bool
    ensures { IsTrue result ↔ IsTooFull load budget }
{
    if load.weight > MOST_WEIGHT || load.pending > MOST_WEIGHT {
        return true;
    }
    load.weight + (load.pending + 2) * (u64::from(budget) + 1) > MOST_WEIGHT
}

// The load behind one more entry.
fn load_after(load: Load, entry: &Entry) -> Result<Load, NoMemory>
    ensures { IfOk result (λ next. (origin : Origin) (history : List Entry)
        → IsLegal AnyOne origin history (after_history (opening origin) history) entry.now
        → IsLoadOf origin history load → IsLoadOf origin (history ++ entry.now ∷ []) next) }
{
    let weight = sum(load.weight, entry_weight(entry))?;
    let pending = pending_behind(load.pending, entry)?;
    Ok(Load { weight, pending })
}

// How many requests wait behind the entry, of so many before it.
fn pending_behind(pending: u64, entry: &Entry) -> Result<u64, NoMemory>
    ensures { IfOk result (λ next. next ≡ pending_behind entry.now pending) }
{
    match entry {
        Entry::Called { op, outcome, .. } => {
            sum(pending, u64::from(leaves_request(op, outcome)))
        }
        Entry::Gave { .. } => Ok(pending.saturating_sub(1)),
        Entry::Looked { .. } => Ok(pending),
    }
}

// Whether a call leaves a request.
fn leaves_request(op: &Op, outcome: &Outcome) -> bool
    ensures { result ≡ leaves_request op.now outcome.now }
{
    is_within(outcome) && may_wait(op)
}

// Whether the operation may have to wait.
fn may_wait(op: &Op) -> bool
    ensures { result ≡ may_wait op.now }
{
    match op {
        Op::In(_) | Op::Rd(_) | Op::No(_) => true,
        Op::Out(_) | Op::Inp(_) | Op::Rdp(_) | Op::Nop(_) => false,
        Op::SetSpec(_) | Op::GetSpec => false,
    }
}

// Whether the reactions stayed within the budget.
fn is_within(outcome: &Outcome) -> bool
    ensures { result ≡ is_within outcome.now }
{
    match outcome {
        Outcome::Over(..) => false,
        Outcome::Done | Outcome::Took(_) | Outcome::NoTuple | Outcome::Absent => true,
        Outcome::Found(_) | Outcome::Pending | Outcome::Spec(_) => true,
    }
}

// What an entry weighs.
fn entry_weight(entry: &Entry) -> u64
    ensures { result ≡ weight_of entry.now }
{
    match entry {
        Entry::Called { items, .. } | Entry::Gave { items, .. } => items.items().len() as u64 + 1,
        Entry::Looked { .. } => 1,
    }
}

// The sum, which is beyond 64 bits where no memory holds what it counts.
fn sum(a: u64, b: u64) -> Result<u64, NoMemory>
    ensures { IfOk result (λ s. s ≡ a + b) }
{
    match a.checked_add(b) {
        Some(sum) => Ok(sum),
        None => Err(NoMemory),
    }
}

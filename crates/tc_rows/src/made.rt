//! The entries that agents made in a history.
ghost use Rattle.std.specs.Prelude.{◌≡◌, ◌≤◌, ◌<◌, ◌++◌, ◌∷◌, [], length, slice_set};
ghost use Rattle.std.specs.Prelude.{IfNone, IfOk, IfSome, OnOk, List, All};
ghost use Rattle.std.specs.List.Sorted.{IsPartitionPoint};
ghost use Rattle.tc_model.specs.declared.calls.CallId.{CallId};
ghost use Rattle.tc_model.specs.declared.entries.Entry.{Entry};
ghost use Rattle.tc_rows.specs.Made.{AreAllMade, HasNoEntry, IsEntryOf, IsMaker, IsRunOf};
ghost use Rattle.tc_rows.specs.Made.{Rise, RisesAbove, lists_of, made_by};

use std::alloc::Global;
use tc_lists::NoMemory;
use tc_model::{CallId, Entry};

/// An entry that an agent made: its number, and its place in the history, from 0.
#[derive(Clone, Copy)]
pub(crate) struct Made {
    pub(crate) number: u64,
    pub(crate) place: usize,
}

/// By agent, the entries that it made in a history, in order.
pub(crate) type Makers = Vec<Vec<Made>>;

/// The entries of the history by the agents that made them.
pub(crate) fn made_in(alloc: Global, agents: usize, history: &[Entry]) -> Result<Makers, NoMemory>
    requires { IsRunOf agents history.now }
    ensures { IfOk result (λ makers. AreAllMade (lists_of makers.items) history.now) }
{
    let mut makers = none_made(alloc, agents)?;
    for (place, entry) in history.iter().enumerate() {
        note(&mut makers, entry, place)?;
    }
    Ok(makers)
}

// No entry yet of any of so many agents.
fn none_made(alloc: Global, agents: usize) -> Result<Makers, NoMemory>
    ensures agents { IfOk result (λ makers. length makers.items ≡ agents) }
    ensures none { IfOk result (λ makers. All (λ made. made ≡ []) (lists_of makers.items)) }
{
    let mut makers = Vec::with_capacity(alloc, agents)?;
    for _ in 0..agents {
        makers.push(Vec::new(alloc))?;
    }
    Ok(makers)
}

// Notes an entry behind those that its agent made before, where an agent made it.
fn note(makers: &mut Makers, entry: &Entry, place: usize) -> Result<(), NoMemory>
    requires { (id : CallId) → IsMaker entry.now id → id.agent < length makers.old.items }
    ensures noted { OnOk result ((history : List Entry) → place ≡ length history
        → RisesAbove history entry.now → AreAllMade (lists_of makers.old.items) history
        → AreAllMade (lists_of makers.new.items) (history ++ entry.now ∷ [])) }
    ensures agents { length makers.new.items ≡ length makers.old.items }
{
    match entry {
        Entry::Called { id, .. } => append(makers, *id, place),
        Entry::Looked { id, .. } => append(makers, *id, place),
        Entry::Gave { .. } => Ok(()),
    }
}

// Puts an entry behind those that its agent made before.
fn append(makers: &mut Makers, id: CallId, place: usize) -> Result<(), NoMemory>
    requires { id.agent < length makers.old.items }
    ensures noted { OnOk result (lists_of makers.new.items ≡ slice_set (lists_of makers.old.items)
        id.agent (made_by (lists_of makers.old.items) id.agent
        ++ record { number = id.number; place = place } ∷ [])) }
    ensures agents { length makers.new.items ≡ length makers.old.items }
{
    let made = &mut makers[id.agent as usize];
    made.push(Made {
        number: id.number,
        place,
    })?;
    Ok(())
}

/// The agent's entry of this number in the history, whose makers these are.
pub(crate) fn entry_of<'a>(
    makers: &Makers,
    history: &'a [Entry],
    agent: u32,
    number: u64,
) -> Option<&'a Entry>
    requires { AreAllMade (lists_of makers.now.items) history.now }
    ensures some { IfSome result (λ e. IsEntryOf agent number history.now e.now) }
    ensures none { IfNone result (HasNoEntry agent number history.now) }
{
    let made = made_by(makers, agent);
    let first = cut(made, number);
    let own = made.get(first)?;
    if own.number == number {
        Some(&history[own.place])
    } else {
        None
    }
}

/// The entries that the agent made.
pub(crate) fn made_by(makers: &Makers, agent: u32) -> &[Made]
    ensures { result.now ≡ made_by (lists_of makers.now.items) agent }
{
    match makers.get(agent as usize) {
        Some(made) => made,
        None => &[],
    }
}

/// How many of the entries have a number below this one: they are the first.
pub(crate) fn cut(made: &[Made], number: u64) -> usize
    requires { Rise made.now }
    ensures inside { result ≤ length made.now }
    ensures point { IsPartitionPoint (λ m. m.number < number) (λ m. number ≤ m.number)
        made.now result }
{
    made.partition_point(|m| m.number < number)
}

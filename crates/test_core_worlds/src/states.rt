//! What a centre holds: as text, and whether it is as it has to be.
ghost use Rattle.std.specs.Prelude.{◌≡◌};
ghost use Rattle.tc_model.specs.Calls.{id_of};

use std::alloc::Global;
use tc_centre::Core;
use tc_histtext::print_entry;
use tc_lists::{NoMemory, append_number};
use tc_model::{CallId, Entry, Request, Wants};
use tc_print::print_term;
use tc_search::does_match;
use tc_term::Name;

/// Appends the weight of the history, how many requests wait, and the tuples.
pub fn print_state(alloc: Global, core: &Core, into: &mut Vec<u8>) -> Result<(), NoMemory> {
    into.extend_from_slice(b"weight ")?;
    append_number(core.weight(), into)?;
    into.extend_from_slice(b", waiting ")?;
    append_number(core.pending().len() as u64, into)?;
    into.extend_from_slice(b", tuples")?;
    for place in 0..core.tuples() {
        if let Some(tuple) = core.tuple(place) {
            into.extend_from_slice(b" ")?;
            print_term(alloc, tuple.term(), into)?;
        }
    }
    into.extend_from_slice(b"\n")
}

// Appends a request.
fn print_request(alloc: Global, request: &Request, into: &mut Vec<u8>) -> Result<(), NoMemory> {
    append_number(u64::from(request.id.agent), into)?;
    into.extend_from_slice(b" ")?;
    append_number(request.id.number, into)?;
    let word: &[u8] = match request.wants {
        Wants::Take => b" in ",
        Wants::Look => b" rd ",
        Wants::Absence => b" no ",
    };
    into.extend_from_slice(word)?;
    print_term(alloc, request.template.term(), into)
}

/// The text of all that a centre holds, and of its history.
pub fn whole_text(alloc: Global, core: &Core) -> Result<Vec<u8>, NoMemory> {
    let mut text = Vec::new(alloc);
    print_entries(alloc, core, 0, &mut text)?;
    for request in core.pending() {
        print_request(alloc, request, &mut text)?;
    }
    print_state(alloc, core, &mut text)?;
    Ok(text)
}

/// Appends the entries of the history from a place on.
pub fn print_entries(
    alloc: Global,
    core: &Core,
    from: usize,
    into: &mut Vec<u8>,
) -> Result<(), NoMemory> {
    for entry in core.history().iter().skip(from) {
        print_line(alloc, core.agents(), entry, into)?;
    }
    Ok(())
}

// Appends a copy of an entry, whose agent is one of these: else nothing.
fn print_line(
    alloc: Global,
    agents: &[Name],
    entry: &Entry,
    into: &mut Vec<u8>,
) -> Result<(), NoMemory> {
    let copy = entry.copy(alloc)?;
    if (caller(&copy).agent as usize) < agents.len() {
        print_entry(alloc, agents, &copy, into)?;
    }
    Ok(())
}

// The call of an entry.
fn caller(entry: &Entry) -> CallId
    ensures { result ≡ id_of entry.now }
{
    match entry {
        Entry::Called { id, .. } | Entry::Gave { id, .. } | Entry::Looked { id, .. } => *id,
    }
}

/// Whether for no request that waits what it wants is there, and the history weighs what its
/// entries do.
pub fn is_right(core: &Core) -> bool {
    core.weight() == weigh(core.history()) && is_quiescent(core)
}

// What entries weigh: each 1, and 1 for each of its reactions.
fn weigh(history: &[Entry]) -> u64 {
    let mut weight: u64 = 0;
    for entry in history {
        weight = weight.saturating_add(1).saturating_add(reactions(entry));
    }
    weight
}

// How many reactions an entry has.
fn reactions(entry: &Entry) -> u64 {
    match entry {
        Entry::Called { items, .. } | Entry::Gave { items, .. } => items.items().len() as u64,
        Entry::Looked { .. } => 0,
    }
}

// Whether for no request that waits what it wants is there.
fn is_quiescent(core: &Core) -> bool {
    for request in core.pending() {
        if is_answerable(core, request) {
            return false;
        }
    }
    true
}

// Whether what a request wants is there: a tuple that matches, or that there is none.
fn is_answerable(core: &Core, request: &Request) -> bool {
    match request.wants {
        Wants::Take | Wants::Look => is_matched(core, request),
        Wants::Absence => !is_matched(core, request),
    }
}

// Whether a request matches a tuple.
fn is_matched(core: &Core, request: &Request) -> bool {
    for place in 0..core.tuples() {
        if let Some(tuple) = core.tuple(place) {
            if does_match(&request.template, tuple) {
                return true;
            }
        }
    }
    false
}

//! What comes of rows, and what is expected.
ghost use Rattle.std.specs.Prelude.{◌≡◌};
ghost use Rattle.tc_model.specs.Calls.{id_of};

use crate::fault::Fault;
use crate::moves::{Move, Note};
use crate::together::{Outcome, together};
use std::alloc::Global;
use std::sync::Wait;
use std::thread::Threads;
use tc_histtext::print_entry;
use tc_lists::{NoMemory, append_number};
use tc_model::Entry;
use tc_term::Name;

// The text of a history, a line for each entry.
fn history_text(alloc: Global, outcome: &Outcome) -> Result<Vec<u8>, NoMemory> {
    let mut text = Vec::new(alloc);
    for entry in outcome.core.history() {
        append_entry(alloc, outcome.core.agents(), entry, &mut text)?;
    }
    Ok(text)
}

// Appends the line of an entry, whose agent is one of these: else nothing.
fn append_entry(
    alloc: Global,
    agents: &[Name],
    entry: &Entry,
    into: &mut Vec<u8>,
) -> Result<(), NoMemory> {
    if (agent_of(entry) as usize) < agents.len() {
        print_entry(alloc, agents, entry, into)?;
    }
    Ok(())
}

// The agent of an entry.
fn agent_of(entry: &Entry) -> u32
    ensures { result ≡ (id_of entry.now).agent }
{
    match entry {
        Entry::Called { id, .. } | Entry::Gave { id, .. } | Entry::Looked { id, .. } => id.agent,
    }
}

/// A row: its title, what each agent is to note, and the histories of which one has to come of it.
#[derive(Clone, Copy)]
pub struct Expected<'t> {
    pub title: &'t [u8],
    pub notes: &'t [&'t [&'t [u8]]],
    pub histories: &'t [&'t [u8]],
}

/// Lets agents make their moves, with so many turns each, and appends the line of a row.
pub fn report<R: Threads + Wait + Sync>(
    rt: &R,
    alloc: Global,
    turns: u32,
    moves: &[Vec<Move>],
    expected: &Expected,
    into: &mut Vec<u8>,
) -> Result<(), Fault> {
    let outcome = together(rt, alloc, turns, moves)?;
    let right = is_expected(alloc, &outcome, expected)?;
    append_row(alloc, expected.title, right, &outcome, into)?;
    Ok(())
}

// Whether an outcome is as expected.
fn is_expected(alloc: Global, outcome: &Outcome, expected: &Expected) -> Result<bool, NoMemory> {
    let text = history_text(alloc, outcome)?;
    Ok(have_noted(&outcome.notes, expected.notes) && is_one_of(&text, expected.histories))
}

// Whether each agent noted just its texts.
fn have_noted(notes: &[Vec<Note>], texts: &[&[&[u8]]]) -> bool {
    if notes.len() != texts.len() {
        return false;
    }
    for (notes, texts) in notes.iter().zip(texts) {
        if !are_texts(notes, texts) {
            return false;
        }
    }
    true
}

// Whether a text is one of these.
fn is_one_of(text: &[u8], texts: &[&[u8]]) -> bool {
    for one in texts {
        if text == *one {
            return true;
        }
    }
    false
}

// Whether the notes tell just these texts, in order.
fn are_texts(notes: &[Note], texts: &[&[u8]]) -> bool {
    if notes.len() != texts.len() {
        return false;
    }
    for (note, text) in notes.iter().zip(texts) {
        if note.told.as_slice() != *text {
            return false;
        }
    }
    true
}

/// Appends the line of a row, and where that is wrong, what was seen.
pub fn append_row(
    alloc: Global,
    title: &[u8],
    right: bool,
    outcome: &Outcome,
    into: &mut Vec<u8>,
) -> Result<(), NoMemory> {
    into.extend_from_slice(title)?;
    if right {
        return into.extend_from_slice(b": right\n");
    }
    into.extend_from_slice(b": wrong\n")?;
    append_outcome(alloc, outcome, into)
}

// Appends what was seen of an outcome: the notes of each agent, and the history.
fn append_outcome(alloc: Global, outcome: &Outcome, into: &mut Vec<u8>) -> Result<(), NoMemory> {
    for notes in outcome.notes.iter() {
        append_notes(notes, into)?;
    }
    into.extend_from_slice(&history_text(alloc, outcome)?)
}

// Appends the notes of an agent as a line.
fn append_notes(notes: &[Note], into: &mut Vec<u8>) -> Result<(), NoMemory> {
    into.extend_from_slice(b"noted:")?;
    for note in notes {
        into.extend_from_slice(b" ")?;
        into.extend_from_slice(&note.told)?;
        into.extend_from_slice(if note.waited {
            b" after a wait, turns "
        } else {
            b", turns "
        })?;
        append_number(u64::from(note.turns), into)?;
        into.extend_from_slice(b";")?;
    }
    into.extend_from_slice(b"\n")
}

//! The rows of a page: a list of JSON for each step.
//!
//! `[KIND,LEVEL,CENTRE,AGENT,NUMBER,WHAT,RESULT,PARTNER,REACTIONS]`, where KIND is 0 for a call, 1
//! for an answer, 2 for a look and 3 for what was refused; centre, agent and partner are places, or
//! -1 where there is none; WHAT is the operation, the number that was asked for, or the name of the
//! centre that was not reached. A reaction is `[FIRED,CLAUSE,GOAL,EFFECT,..]`, and an effect a string:
//! `+`, `-` or `=` for a tuple that was put, taken or read, and the tuple.
use crate::literals::append_string;
use crate::results::{append_outcome, append_told};
use crate::steps::{Deed, Step};
use crate::view::View;
use std::alloc::Global;
use tc_histtext::{print_op, print_refusal};
use tc_lists::{NoMemory, append_number};
use tc_model::{Effect, Item};
use tc_print::print_term;
use tc_term::Ground;

/// Appends the row of the step at this place, where `shown` has the place of each step among the
/// rows.
pub fn append_row(
    view: &View<'_>,
    shown: &[usize],
    level: usize,
    place: usize,
    into: &mut Vec<u8>,
) -> Result<(), NoMemory> {
    let Some(step) = view.steps.get(place) else {
        return Ok(());
    };
    into.push(b'[')?;
    append_number(kind_of(step), into)?;
    into.push(b',')?;
    append_number(level as u64, into)?;
    append_place(view.centre(step), into)?;
    append_place(Some(step.agent), into)?;
    into.push(b',')?;
    append_number(step.number, into)?;
    into.push(b',')?;
    append_what(view, step, into)?;
    into.push(b',')?;
    append_result(view, step, into)?;
    let partner = view.partner(place);
    append_place(partner.and_then(|place| shown.get(place).copied()), into)?;
    into.extend_from_slice(b",[")?;
    if let Some((_, items)) = step.effects() {
        append_items(view.alloc, items, into)?;
    }
    into.extend_from_slice(b"]]")
}

fn kind_of(step: &Step<'_>) -> u64 {
    match step.deed {
        Deed::Called { .. } => 0,
        Deed::Gave { .. } => 1,
        Deed::Looked { .. } => 2,
        Deed::Refused { .. } => 3,
    }
}

// Appends a comma and a place, or -1.
fn append_place(place: Option<usize>, into: &mut Vec<u8>) -> Result<(), NoMemory> {
    into.push(b',')?;
    match place {
        Some(place) => append_number(place as u64, into),
        None => into.extend_from_slice(b"-1"),
    }
}

// Appends what was asked.
fn append_what(view: &View<'_>, step: &Step<'_>, into: &mut Vec<u8>) -> Result<(), NoMemory> {
    match step.deed {
        Deed::Called { op, .. } => {
            let mut said = Vec::new(view.alloc);
            print_op(view.alloc, op, &mut said)?;
            append_string(&said, into)
        }
        Deed::Gave { .. } => into.extend_from_slice(b"\"\""),
        Deed::Looked { asked, .. } => append_number(asked, into),
        Deed::Refused { centre, .. } => append_string(centre.bytes(), into),
    }
}

// Appends what became of it.
fn append_result(view: &View<'_>, step: &Step<'_>, into: &mut Vec<u8>) -> Result<(), NoMemory> {
    let mut said = Vec::new(view.alloc);
    match step.deed {
        Deed::Called { outcome, .. } | Deed::Gave { outcome, .. } => {
            append_outcome(view.alloc, outcome, &mut said)?;
        }
        Deed::Looked { reply, .. } => append_told(view.alloc, reply, &mut said)?,
        Deed::Refused { why, .. } => print_refusal(view.version, why, &mut said)?,
    }
    append_string(&said, into)
}

// Appends reactions, with commas between.
fn append_items(alloc: Global, items: &[Item], into: &mut Vec<u8>) -> Result<(), NoMemory> {
    for (place, item) in items.iter().enumerate() {
        if place > 0 {
            into.push(b',')?;
        }
        append_item(alloc, item, into)?;
    }
    Ok(())
}

// Appends a reaction.
fn append_item(alloc: Global, item: &Item, into: &mut Vec<u8>) -> Result<(), NoMemory> {
    let (word, clause, goal, effects): (&[u8], u32, u32, &[Effect]) = match item {
        Item::Fired {
            clause,
            effects,
            ..
        } => (b"[1,", *clause, 0, effects.items()),
        Item::Failed {
            clause,
            goal,
            effects,
            ..
        } => (b"[0,", *clause, *goal, effects.items()),
    };
    into.extend_from_slice(word)?;
    append_number(clause as u64, into)?;
    into.push(b',')?;
    append_number(goal as u64, into)?;
    for effect in effects {
        into.push(b',')?;
        append_effect(alloc, effect, into)?;
    }
    into.push(b']')?;
    Ok(())
}

// Appends an effect.
fn append_effect(alloc: Global, effect: &Effect, into: &mut Vec<u8>) -> Result<(), NoMemory> {
    match effect {
        Effect::Put(tuple) => append_marked(alloc, b'+', tuple, into),
        Effect::Took(tuple) => append_marked(alloc, b'-', tuple, into),
        Effect::Read(tuple) => append_marked(alloc, b'=', tuple, into),
    }
}

// Appends a tuple behind a mark.
fn append_marked(
    alloc: Global,
    mark: u8,
    tuple: &Ground,
    into: &mut Vec<u8>,
) -> Result<(), NoMemory> {
    let mut said = Vec::new(alloc);
    said.push(mark)?;
    print_term(alloc, tuple.term(), &mut said)?;
    append_string(&said, into)
}

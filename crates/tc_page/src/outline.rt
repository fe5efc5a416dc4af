//! The data of a page, as JSON: names, counts and rows.
use crate::counts::{AgentCount, CentreCount, agent_counts, centre_counts};
use crate::links::{filled, set};
use crate::literals::append_string;
use crate::rows::append_row;
use crate::view::View;
use std::alloc::Global;
use tc_histtext::{Text, Version};
use tc_lists::{NoMemory, append_integer, append_number};
use tc_term::Name;

/// Appends the data of a text.
pub fn append_data(
    alloc: Global,
    centres: &[Name],
    agents: &[Name],
    text: &Text,
    into: &mut Vec<u8>,
) -> Result<(), NoMemory> {
    let view = View::new(alloc, centres, agents.len(), text)?;
    into.extend_from_slice(b"{\"version\":")?;
    into.push(match view.version {
        Version::One => b'1',
        Version::Two => b'2',
    })?;
    into.extend_from_slice(b",\"blocked\":")?;
    into.extend_from_slice(if view.blocked { b"true" } else { b"false" })?;
    into.extend_from_slice(b",\n\"centres\":[")?;
    append_names(centres, into)?;
    into.extend_from_slice(b"],\n\"agents\":[")?;
    append_names(agents, into)?;
    into.extend_from_slice(b"],\n\"centreCounts\":[")?;
    append_centre_counts(&centre_counts(&view, centres.len())?, into)?;
    into.extend_from_slice(b"],\n\"agentCounts\":[")?;
    append_agent_counts(&agent_counts(&view, agents.len())?, into)?;
    into.extend_from_slice(b"],\n\"rows\":[\n")?;
    append_rows(&view, into)?;
    into.extend_from_slice(b"]}\n")
}

// Appends the rows, a line for each.
fn append_rows(view: &View<'_>, into: &mut Vec<u8>) -> Result<(), NoMemory> {
    let shown = places_shown(view)?;
    for (row, step) in view.order.iter().enumerate() {
        if row > 0 {
            into.extend_from_slice(b",\n")?;
        }
        append_row(view, &shown, step.level, step.place, into)?;
    }
    Ok(())
}

// The place of each step among the rows.
fn places_shown(view: &View<'_>) -> Result<Vec<usize>, NoMemory> {
    let mut shown = filled(view.alloc, 0, view.order.len())?;
    for (row, step) in view.order.iter().enumerate() {
        set(&mut shown, step.place, row);
    }
    Ok(shown)
}

fn append_names(names: &[Name], into: &mut Vec<u8>) -> Result<(), NoMemory> {
    for (place, name) in names.iter().enumerate() {
        append_comma(place, into)?;
        append_string(name.bytes(), into)?;
    }
    Ok(())
}

fn append_centre_counts(counts: &[CentreCount], into: &mut Vec<u8>) -> Result<(), NoMemory> {
    for (place, count) in counts.iter().enumerate() {
        append_comma(place, into)?;
        into.push(b'[')?;
        append_numbers(
            &[
                count.calls,
                count.answers,
                count.looks,
                count.waits,
                count.longest,
                count.still,
                count.refused,
                count.fired,
                count.failed,
                count.over,
                count.weight(),
            ],
            into,
        )?;
        into.push(b',')?;
        append_integer(count.tuples, into)?;
        into.push(b',')?;
        append_integer(count.most, into)?;
        into.push(b']')?;
    }
    Ok(())
}

fn append_agent_counts(counts: &[AgentCount], into: &mut Vec<u8>) -> Result<(), NoMemory> {
    for (place, count) in counts.iter().enumerate() {
        append_comma(place, into)?;
        into.push(b'[')?;
        append_numbers(
            &[
                count.calls,
                count.looks,
                count.waits,
                count.longest,
                count.still,
                count.refused,
            ],
            into,
        )?;
        into.push(b']')?;
    }
    Ok(())
}

fn append_numbers(numbers: &[u64], into: &mut Vec<u8>) -> Result<(), NoMemory> {
    for (place, number) in numbers.iter().enumerate() {
        append_comma(place, into)?;
        append_number(*number, into)?;
    }
    Ok(())
}

// Appends a comma before what isn't the first.
fn append_comma(place: usize, into: &mut Vec<u8>) -> Result<(), NoMemory> {
    if place > 0 {
        into.push(b',')?;
    }
    Ok(())
}

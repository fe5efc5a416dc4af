//! The summary of a run of the workload as text.
ghost use Rattle.std.specs.Prelude.{◌≡◌, ◌++◌, ◌∷◌, [], OnErr, OnOk};
ghost use Rattle.std.specs.Prelude.{codes, decimal};
ghost use Rattle.std.specs.List.{enumerate_from, flat_map};
ghost use mathlib.Core.List.{IsPrefix};
ghost use Rattle.tc_lists.specs.Texts.{joined};
ghost use Rattle.tc_load.specs.Summaries.{command_text, count_text, ending_text, summary};
ghost use Rattle.tc_load.specs.Summaries.{summary_text, tally_of, tally_text};

use crate::limits::SCRIPTS;
use crate::words::{drawn_in, words_of};
use std::alloc::Global;
use tc_lists::{NoMemory, append_integer, append_number, cut_back};

/// Appends the summary of so many agents from this start, of what each centre has counted.
///
/// The words are drawn a second time. `blocked` says that an agent's request was left pending.
pub fn print_summary(
    alloc: Global,
    agents: u32,
    start: u64,
    counted: &[Option<i64>],
    blocked: bool,
    into: &mut Vec<u8>,
) -> Result<(), NoMemory>
    ensures appended { OnOk result
        (into.new.items ≡ into.old.items ++ summary agents start counted.now blocked) }
    ensures same { OnErr result (into.new.items ≡ into.old.items) }
{
    let words = words_of(alloc, SCRIPTS as usize * agents as usize, start)?;
    let before = into.len();
    let written = write_summary(agents, start, &words, counted, blocked, into);
    cut_back(written, before, into)
}

// Appends the line of the command, a line for each centre, and the end.
fn write_summary(
    agents: u32,
    start: u64,
    words: &[u32],
    counted: &[Option<i64>],
    blocked: bool,
    into: &mut Vec<u8>,
) -> Result<(), NoMemory>
    ensures appended { OnOk result (into.new.items
        ≡ into.old.items ++ summary_text agents start words.now counted.now blocked) }
    ensures kept { IsPrefix into.old.items into.new.items }
{
    write_command(agents, start, into)?;
    write_tallies(words, counted, into)?;
    write_ending(blocked, into)
}

// Appends the line of the command.
fn write_command(agents: u32, start: u64, into: &mut Vec<u8>) -> Result<(), NoMemory>
    ensures appended { OnOk result
        (into.new.items ≡ into.old.items ++ command_text agents start) }
    ensures kept { IsPrefix into.old.items into.new.items }
{
    into.extend_from_slice(b"load ")?;
    append_number(agents as u64, into)?;
    into.extend_from_slice(b" ")?;
    append_number(start, into)?;
    into.extend_from_slice(b"\n")
}

// Appends the lines of the centres.
fn write_tallies(words: &[u32], counted: &[Option<i64>], into: &mut Vec<u8>) -> Result<(), NoMemory>
    ensures appended { OnOk result (into.new.items
        ≡ into.old.items ++ flat_map (tally_of words.now) (enumerate_from 0 counted.now)) }
    ensures kept { IsPrefix into.old.items into.new.items }
{
    for (k, count) in counted.iter().enumerate() {
        write_tally(k, drawn_in(k, words), *count, into)?;
    }
    Ok(())
}

// Appends the line of a centre.
fn write_tally(
    k: usize,
    drawn: usize,
    counted: Option<i64>,
    into: &mut Vec<u8>,
) -> Result<(), NoMemory>
    ensures appended { OnOk result
        (into.new.items ≡ into.old.items ++ tally_text k drawn counted) }
    ensures kept { IsPrefix into.old.items into.new.items }
{
    write_drawn(k, drawn, into)?;
    into.extend_from_slice(b" counted ")?;
    write_count(counted, into)?;
    into.extend_from_slice(b"\n")
}

// Appends how many words named a centre.
fn write_drawn(k: usize, drawn: usize, into: &mut Vec<u8>) -> Result<(), NoMemory>
    ensures appended { OnOk result (into.new.items ≡ into.old.items
        ++ joined (codes "c" ∷ decimal k ∷ codes " drawn " ∷ decimal drawn ∷ [])) }
    ensures kept { IsPrefix into.old.items into.new.items }
{
    into.extend_from_slice(b"c")?;
    append_number(k as u64, into)?;
    into.extend_from_slice(b" drawn ")?;
    append_number(drawn as u64, into)
}

// Appends what a centre has counted.
fn write_count(counted: Option<i64>, into: &mut Vec<u8>) -> Result<(), NoMemory>
    ensures appended { OnOk result (into.new.items ≡ into.old.items ++ count_text counted) }
    ensures kept { IsPrefix into.old.items into.new.items }
{
    match counted {
        Some(number) => append_integer(number, into),
        None => into.extend_from_slice(b"none"),
    }
}

// Appends the last line.
fn write_ending(blocked: bool, into: &mut Vec<u8>) -> Result<(), NoMemory>
    ensures appended { OnOk result (into.new.items ≡ into.old.items ++ ending_text blocked) }
    ensures kept { IsPrefix into.old.items into.new.items }
{
    if blocked {
        into.extend_from_slice(b"end blocked\n")
    } else {
        into.extend_from_slice(b"end ended\n")
    }
}

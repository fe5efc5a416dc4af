//! What is printed of a workload.
use anyhow::anyhow;
use std::alloc::Global;
use tc_lists::{append_number, mix_all};
use tc_load::{CENTRES, SCRIPTS, counted_in, drawn_in, load_text, print_summary, words_of};
use tc_read::read_clause;
use tc_term::Ground;

/// Appends the length and the code of the text of a workload, and the summary of its run.
pub fn print_row(alloc: Global, agents: u32, start: u64, into: &mut Vec<u8>) -> anyhow::Result<()> {
    let mut text = Vec::new(alloc);
    load_text(alloc, agents, start, &mut text)?;
    into.extend_from_slice(b"bytes ")?;
    append_number(text.len() as u64, into)?;
    into.extend_from_slice(b" code ")?;
    append_number(mix_all(0, &text), into)?;
    into.extend_from_slice(b"\n")?;
    let counted = drawn(alloc, agents, start)?;
    print_summary(alloc, agents, start, &counted, false, into)?;
    Ok(())
}

// How many words name each centre, as counts.
fn drawn(alloc: Global, agents: u32, start: u64) -> anyhow::Result<Vec<Option<i64>>> {
    let words = words_of(alloc, SCRIPTS as usize * agents as usize, start)?;
    let mut drawn = Vec::new(alloc);
    for k in 0..CENTRES {
        drawn.push(i64::try_from(drawn_in(k as usize, &words)).ok())?;
    }
    Ok(drawn)
}

/// Appends the summary of a run that an agent has not ended.
pub fn print_unfinished(alloc: Global, into: &mut Vec<u8>) -> anyhow::Result<()> {
    let counted = [Some(1), None, Some(-1), Some(i64::MIN)];
    print_summary(alloc, 1, u64::MAX, &counted, true, into)?;
    Ok(())
}

/// Appends a summary with what some tuples have counted, and what none have.
pub fn print_counted(alloc: Global, into: &mut Vec<u8>) -> anyhow::Result<()> {
    let tuples = tuples(alloc)?;
    let first = counted_in(&tuples);
    let none = counted_in(&[]);
    print_summary(alloc, 1, 42, &[first, none], false, into)?;
    Ok(())
}

// Tuples of a centre, oldest first: only the last two are counts of a number.
fn tuples(alloc: Global) -> anyhow::Result<Vec<Ground>> {
    let texts: [&[u8]; 7] = [
        b"count.",
        b"counts(1).",
        b"inc(2).",
        b"count(a).",
        b"count(3,4).",
        b"count(-5).",
        b"count(6).",
    ];
    let mut tuples = Vec::new(alloc);
    for text in texts {
        let (clause, _) = read_clause(alloc, text, 0)?.ok_or(anyhow!("no clause"))?;
        let tuple = Ground::of(clause.into_term()).map_err(|_| anyhow!("no tuple"))?;
        tuples.push(tuple)?;
    }
    Ok(tuples)
}

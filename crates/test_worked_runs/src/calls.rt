//! The calls of a row: the one that it tells, and those with other numbers of workers.
use crate::ends::{End, print_end};
use crate::rows::{Row, words_with};
use std::alloc::Global;
use std::sync::Wait;
use std::thread::Threads;
use tc_desk::NoGate;
use tc_lists::NoMemory;
use tucson::tucson;

/// Appends how the call of a row has ended, and with which other numbers of workers it does so too.
pub fn print_row<R: Threads + Wait + Sync>(
    rt: &R,
    alloc: Global,
    row: &Row<'_>,
    into: &mut Vec<u8>,
) -> Result<(), NoMemory> {
    let end = end_of(rt, alloc, row, &row.words)?;
    print_end(row.name, &end, row.shown, into)?;
    print_others(rt, alloc, row, &end, into)
}

// Appends how a row's call ends with those other numbers of workers with which it ends otherwise, and
// behind that a line with the rest of them, if some are left.
fn print_others<R: Threads + Wait + Sync>(
    rt: &R,
    alloc: Global,
    row: &Row<'_>,
    end: &End,
    into: &mut Vec<u8>,
) -> Result<(), NoMemory> {
    let mut same = Vec::new(alloc);
    for workers in &row.others {
        let other = end_of(rt, alloc, row, &words_with(alloc, workers)?)?;
        if row.part.is_same(end, &other) {
            append_listed(workers, &mut same)?;
        } else {
            print_end(
                &name_with(alloc, row.name, workers)?,
                &other,
                row.shown,
                into,
            )?;
        }
    }
    if same.is_empty() {
        return Ok(());
    }
    into.extend_from_slice(row.part.words())?;
    into.extend_from_slice(&same)?;
    into.extend_from_slice(b" workers\n\n")
}

// How the call of a row ends with these words, at a door that opens no connection.
fn end_of<R: Threads + Wait + Sync>(
    rt: &R,
    alloc: Global,
    row: &Row<'_>,
    words: &[Vec<u8>],
) -> Result<End, NoMemory> {
    let mut source = row.source(alloc)?;
    let mut sink = row.sink(alloc)?;
    let mut door = row.door(alloc)?;
    let status = tucson(rt, alloc, words, &mut source, &mut sink, &NoGate, &mut door);
    let text = sink.taken().to_vec(alloc)?;
    Ok(End { status, text })
}

// Appends a number to those before, behind a comma if there are some.
fn append_listed(number: &[u8], into: &mut Vec<u8>) -> Result<(), NoMemory> {
    if !into.is_empty() {
        into.extend_from_slice(b", ")?;
    }
    into.extend_from_slice(number)
}

// The name of a row's call with so many workers.
fn name_with(alloc: Global, name: &[u8], workers: &[u8]) -> Result<Vec<u8>, NoMemory> {
    let mut whole = name.to_vec(alloc)?;
    whole.extend_from_slice(b" with ")?;
    whole.extend_from_slice(workers)?;
    whole.extend_from_slice(b" workers")?;
    Ok(whole)
}

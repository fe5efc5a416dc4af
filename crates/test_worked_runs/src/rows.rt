//! The rows of a table: configurations, with how they are run.
use crate::ends::Part;
use anyhow::anyhow;
use std::alloc::Global;
use tc_io::{MemDoor, MemLink, MemSink, MemSource};
use tc_lists::{NoMemory, append_number, read_number};
use test_texts::append_bytes;

/// The words of a call before the number of workers.
const USUAL_WORDS: &[u8] = b" run --workers";

/// How many bytes a read or a write moves at most, where a row doesn't say so.
const USUAL_PIECE: u64 = 1 << 16;

/// The most times that a text may be repeated, and the largest number elsewhere in a row.
const MOST: u64 = 1 << 25;

/// A configuration, with how it is run.
#[derive(Drop)]
pub struct Row<'t> {
    pub name: &'t [u8],
    pub words: Vec<Vec<u8>>,
    /// Numbers of workers with which a part of the end is the same.
    pub others: Vec<Vec<u8>>,
    pub part: Part,
    /// What of the text is printed.
    pub shown: Part,
    input: Vec<u8>,
    reads: Calls,
    writes: Calls,
    // The bytes that each connection gives, and the numbers of the door's calls that fail.
    links: Vec<Vec<u8>>,
    refused: Vec<u64>,
}

/// How many bytes a call moves at most, and the number, from 1, of the one that fails, if one does.
#[derive(Clone, Copy)]
struct Calls {
    piece: u64,
    failing: Option<u64>,
}

/// Calls of which none fails.
const SURE: Calls = Calls {
    piece: USUAL_PIECE,
    failing: None,
};

/// The rows of a table, in order.
pub fn rows(alloc: Global, table: &[u8]) -> anyhow::Result<Vec<Row<'_>>> {
    let mut rows = Vec::new(alloc);
    for line in table
        .strip_suffix(b"\n")
        .unwrap_or(table)
        .split(|byte| *byte == b'\n')
    {
        if let Some(name) = line.strip_prefix(b"%% ") {
            rows.push(Row::new(alloc, name)?)?;
        } else if let Some(row) = rows.last_mut() {
            row.add_line(alloc, line)?;
        }
    }
    Ok(rows)
}

impl<'t> Row<'t> {
    // The row of this name, without a line.
    fn new(alloc: Global, name: &'t [u8]) -> Result<Row<'t>, NoMemory> {
        Ok(Row {
            name,
            words: words_with(alloc, b"1")?,
            others: Vec::new(alloc),
            part: Part::Whole,
            shown: Part::Whole,
            input: Vec::new(alloc),
            reads: SURE,
            writes: SURE,
            links: Vec::new(alloc),
            refused: Vec::new(alloc),
        })
    }

    // Takes in a line, which is one of the configuration or says how that is run.
    fn add_line(&mut self, alloc: Global, line: &[u8]) -> anyhow::Result<()> {
        if let Some(words) = line.strip_prefix(b"%words") {
            self.words = words_of(alloc, words)?;
        } else if let Some(others) = line.strip_prefix(b"%also") {
            self.others = words_of(alloc, others)?;
        } else if let Some(others) = line.strip_prefix(b"%logs") {
            self.others = words_of(alloc, others)?;
            self.part = Part::Logs;
        } else if let Some(calls) = line.strip_prefix(b"%read ") {
            self.reads = calls_of(calls)?;
        } else if let Some(calls) = line.strip_prefix(b"%write ") {
            self.writes = calls_of(calls)?;
        } else if let Some(bytes) = line.strip_prefix(b"%link ") {
            self.add_link(alloc, bytes)?;
        } else if let Some(call) = line.strip_prefix(b"%refuse ") {
            self.refused.push(number_at(call)?.0)?;
        } else if line == b"%show logs".as_slice() {
            self.shown = Part::Logs;
        } else if let Some(repeated) = line.strip_prefix(b"%repeat ") {
            repeat(repeated, &mut self.input)?;
        } else if let Some(bytes) = line.strip_prefix(b"%bytes ") {
            append_bytes(bytes, 1, &mut self.input)?;
        } else {
            append_line(line, &mut self.input)?;
        }
        Ok(())
    }

    // Puts a connection that gives these bytes behind the others.
    fn add_link(&mut self, alloc: Global, text: &[u8]) -> anyhow::Result<()> {
        let mut bytes = Vec::new(alloc);
        append_bytes(text, 1, &mut bytes)?;
        self.links.push(bytes)?;
        Ok(())
    }

    /// The source of the configuration.
    pub fn source(&self, alloc: Global) -> Result<MemSource, NoMemory> {
        let input = self.input.clone()?;
        let failing = failing(alloc, self.reads)?;
        Ok(MemSource::new(input, self.reads.piece as usize, failing))
    }

    /// The sink of what is written.
    pub fn sink(&self, alloc: Global) -> Result<MemSink, NoMemory> {
        let failing = failing(alloc, self.writes)?;
        Ok(MemSink::new(alloc, self.writes.piece as usize, failing))
    }

    /// The door of the connections.
    pub fn door(&self, alloc: Global) -> Result<MemDoor, NoMemory> {
        let mut links = Vec::with_capacity(alloc, self.links.len())?;
        for bytes in &self.links {
            links.push(link_of(alloc, bytes)?)?;
        }
        MemDoor::new(alloc, links, self.refused.clone()?)
    }
}

// A connection that gives these bytes, and of which no call fails.
fn link_of(alloc: Global, bytes: &[u8]) -> Result<MemLink, NoMemory> {
    let piece = USUAL_PIECE as usize;
    let source = MemSource::new(bytes.to_vec(alloc)?, piece, Vec::new(alloc));
    Ok(MemLink::new(source, MemSink::new(alloc, piece, Vec::new(alloc))))
}

/// The words of a call with so many workers.
pub fn words_with(alloc: Global, workers: &[u8]) -> Result<Vec<Vec<u8>>, NoMemory> {
    let mut words = words_of(alloc, USUAL_WORDS)?;
    words.push(workers.to_vec(alloc)?)?;
    Ok(words)
}

// The words of a text in which each stands behind a space.
fn words_of(alloc: Global, text: &[u8]) -> Result<Vec<Vec<u8>>, NoMemory> {
    let mut words = Vec::new(alloc);
    for word in text.split(|byte| *byte == b' ').skip(1) {
        words.push(word.to_vec(alloc)?)?;
    }
    Ok(words)
}

// The numbers of calls that fail.
fn failing(alloc: Global, calls: Calls) -> Result<Vec<u64>, NoMemory> {
    let mut numbers = Vec::new(alloc);
    if let Some(number) = calls.failing {
        numbers.push(number)?;
    }
    Ok(numbers)
}

// How much calls move, and which of them fails.
fn calls_of(text: &[u8]) -> anyhow::Result<Calls> {
    let (piece, behind) = number_at(text)?;
    let (failing, _) = number_at(behind)?;
    Ok(Calls {
        piece,
        failing: Some(failing),
    })
}

// Appends the lines that stand for a number and a text.
fn repeat(repeated: &[u8], into: &mut Vec<u8>) -> anyhow::Result<()> {
    let (times, text) = number_at(repeated)?;
    for number in 0..times {
        append_numbered(text, number.saturating_add(1), into)?;
    }
    Ok(())
}

// The number at the front of a text, and what stands behind the space behind it.
fn number_at(text: &[u8]) -> anyhow::Result<(u64, &[u8])> {
    match read_number(text, MOST) {
        Some((number, behind)) => Ok((number, behind.strip_prefix(b" ").unwrap_or(behind))),
        None => Err(anyhow!("a row has no number where it needs one")),
    }
}

// Appends a line of the text, with the number in place of each `#`.
fn append_numbered(text: &[u8], number: u64, into: &mut Vec<u8>) -> Result<(), NoMemory> {
    for byte in text {
        if *byte == b'#' {
            append_number(number, into)?;
        } else {
            into.push(*byte)?;
        }
    }
    into.push(b'\n')?;
    Ok(())
}

// Appends a line.
fn append_line(line: &[u8], into: &mut Vec<u8>) -> Result<(), NoMemory> {
    into.extend_from_slice(line)?;
    into.push(b'\n')?;
    Ok(())
}

//! The rows of a table: texts, with the names of their centres and agents.
ghost use Rattle.std.specs.Prelude.{◌≢◌, AllPairs, IfOk};

use std::alloc::Global;
use tc_histtext::{Text, TextFault, read_text};
use tc_lists::{NoMemory, append_number};
use tc_names::Names;
use tc_term::Name;
use test_texts::append_bytes;

/// A text, with the names of its centres and agents, a space between any two.
#[derive(Drop)]
pub struct Row<'t> {
    name: &'t [u8],
    centres: &'t [u8],
    agents: &'t [u8],
    text: Vec<u8>,
}

/// The rows of a table, in order.
pub fn rows(alloc: Global, table: &[u8]) -> anyhow::Result<Vec<Row<'_>>> {
    let mut rows: Vec<Row<'_>> = Vec::new(alloc);
    for line in table
        .strip_suffix(b"\n")
        .unwrap_or(table)
        .split(|byte| *byte == b'\n')
    {
        if let Some(name) = line.strip_prefix(b"%% ") {
            rows.push(Row {
                name,
                centres: b"",
                agents: b"",
                text: Vec::new(alloc),
            })?;
        } else if let Some(row) = rows.last_mut() {
            row.add_line(line)?;
        }
    }
    Ok(rows)
}

impl<'t> Row<'t> {
    // Takes in a line, which is one of the text or tells names or bytes.
    fn add_line(&mut self, line: &'t [u8]) -> anyhow::Result<()> {
        if let Some(names) = line.strip_prefix(b"%centres ") {
            self.centres = names;
        } else if let Some(names) = line.strip_prefix(b"%agents ") {
            self.agents = names;
        } else if let Some(bytes) = line.strip_prefix(b"%bytes ") {
            append_bytes(bytes, 1, &mut self.text)?;
        } else {
            self.text.extend_from_slice(line)?;
            self.text.push(b'\n')?;
        }
        Ok(())
    }
}

/// Prints what the row's text is.
pub fn print_row(alloc: Global, row: &Row<'_>, into: &mut Vec<u8>) -> anyhow::Result<()> {
    let centres = names(alloc, row.centres)?;
    let agents = distinct(alloc, row.agents)?;
    match read_text(alloc, &row.text, &centres, &agents) {
        Ok(text) => print_counts(&text, into)?,
        Err(TextFault::Line(line)) => {
            into.extend_from_slice(b"no text ")?;
            append_number(line as u64, into)?;
        }
        Err(fault) => return Err(fault.into()),
    }
    into.extend_from_slice(b": ")?;
    into.extend_from_slice(row.name)?;
    into.push(b'\n')?;
    Ok(())
}

// How many entries each history has, and how many rows each log.
fn print_counts(text: &Text, into: &mut Vec<u8>) -> Result<(), NoMemory> {
    into.extend_from_slice(b"entries")?;
    for history in text.histories.items() {
        into.push(b' ')?;
        append_number(history.items().len() as u64, into)?;
    }
    into.extend_from_slice(b", rows")?;
    for log in text.logs.items() {
        into.push(b' ')?;
        append_number(log.items().len() as u64, into)?;
    }
    Ok(())
}

// The names in a line.
fn names(alloc: Global, line: &[u8]) -> Result<Vec<Name>, NoMemory> {
    let mut names = Vec::new(alloc);
    for word in line.split(|byte| *byte == b' ') {
        names.push(Name::new(alloc, word)?)?;
    }
    Ok(names)
}

// The names in a line, each once.
fn distinct(alloc: Global, line: &[u8]) -> Result<Vec<Name>, NoMemory>
    ensures { IfOk result (λ names. AllPairs ◌≢◌ names.items) }
{
    let mut known = Names::new(alloc);
    let mut distinct = Vec::new(alloc);
    for name in names(alloc, line)? {
        if known.place(&name).is_none() {
            known.add(name.copy(alloc)?)?;
            distinct.push(name)?;
        }
    }
    known.differ();
    Ok(distinct)
}

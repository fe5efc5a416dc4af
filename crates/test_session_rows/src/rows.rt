//! The rows of a table: configurations, with the sessions that are played.
use anyhow::anyhow;
use std::alloc::Global;
use tc_lists::{NoMemory, append_number, read_number};
use test_texts::append_bytes;

/// The largest number in a row.
const MOST: u64 = 1 << 20;

/// A configuration, and the sessions at its agents' desks.
#[derive(Drop)]
pub struct Row<'t> {
    pub name: &'t [u8],
    pub configuration: Vec<u8>,
    pub sessions: Vec<Session>,
    pub way: Way,
    /// Whether of the sessions the last alone is told, and of the text what it comes to.
    pub brief: bool,
}

/// A session: whose it is, and the bytes that its link gives.
#[derive(Drop)]
pub struct Session {
    pub agent: Vec<u8>,
    pub bytes: Vec<u8>,
}

/// How a row is played.
#[derive(Clone, Copy)]
pub enum Way {
    /// In pieces of several lengths.
    InPieces,
    /// In pieces of so many bytes, once for each call of the last session's link, which fails.
    Failing(Half, u64),
}

/// What calls of a link do.
#[derive(Clone, Copy, PartialEq, Eq)]
pub enum Half {
    Reads,
    Writes,
}

/// The rows of a table, in order.
pub fn rows(alloc: Global, table: &[u8]) -> anyhow::Result<Vec<Row<'_>>> {
    let mut rows = Vec::new(alloc);
    for line in table
        .strip_suffix(b"\n")
        .unwrap_or(table)
        .split(|byte| *byte == b'\n')
    {
        if let Some(name) = line.strip_prefix(b"%% ") {
            rows.push(Row::new(alloc, name))?;
        } else if let Some(row) = rows.last_mut() {
            row.add_lines(alloc, line)?;
        }
    }
    Ok(rows)
}

impl<'t> Row<'t> {
    // The row of this name, without a line.
    fn new(alloc: Global, name: &'t [u8]) -> Row<'t> {
        Row {
            name,
            configuration: Vec::new(alloc),
            sessions: Vec::new(alloc),
            way: Way::InPieces,
            brief: false,
        }
    }

    // Takes in a line of the table, or those that it stands for.
    fn add_lines(&mut self, alloc: Global, line: &[u8]) -> anyhow::Result<()> {
        let Some(repeated) = line.strip_prefix(b"%repeat ") else {
            return self.add_line(alloc, line);
        };
        let (times, line) = number_at(repeated)?;
        for number in 0..times {
            let line = numbered(alloc, line, number.saturating_add(1))?;
            self.add_line(alloc, &line)?;
        }
        Ok(())
    }

    // Takes in a line, which is one of the configuration or says what is played.
    fn add_line(&mut self, alloc: Global, line: &[u8]) -> anyhow::Result<()> {
        if let Some(session) = line.strip_prefix(b"%session ") {
            self.sessions.push(session_of(alloc, session)?)?;
        } else if let Some(more) = line.strip_prefix(b"%more ") {
            self.add_bytes(more)?;
        } else if let Some(piece) = line.strip_prefix(b"%reads ") {
            self.way = Way::Failing(Half::Reads, number_at(piece)?.0);
        } else if let Some(piece) = line.strip_prefix(b"%writes ") {
            self.way = Way::Failing(Half::Writes, number_at(piece)?.0);
        } else if line == b"%brief".as_slice() {
            self.brief = true;
        } else {
            self.configuration.extend_from_slice(line)?;
            self.configuration.push(b'\n')?;
        }
        Ok(())
    }

    // Lets the link of the last session give more bytes, so many times.
    fn add_bytes(&mut self, more: &[u8]) -> anyhow::Result<()> {
        let (times, text) = number_at(more)?;
        let Some(session) = self.sessions.last_mut() else {
            return Err(anyhow!("a row has bytes before a session"));
        };
        for number in 0..times {
            append_bytes(text, number.saturating_add(1), &mut session.bytes)?;
        }
        Ok(())
    }
}

// The session of an agent, behind whose name a blank and the bytes may stand.
fn session_of(alloc: Global, text: &[u8]) -> anyhow::Result<Session> {
    let end = text.iter().position(|byte| *byte == b' ');
    let (agent, behind) = text.split_at(end.unwrap_or(text.len()));
    let mut bytes = Vec::new(alloc);
    append_bytes(behind.strip_prefix(b" ").unwrap_or(behind), 1, &mut bytes)?;
    Ok(Session {
        agent: agent.to_vec(alloc)?,
        bytes,
    })
}

// The number at the front of a text, and what stands behind the blank behind it.
fn number_at(text: &[u8]) -> anyhow::Result<(u64, &[u8])> {
    match read_number(text, MOST) {
        Some((number, behind)) => Ok((number, behind.strip_prefix(b" ").unwrap_or(behind))),
        None => Err(anyhow!("a row has no number where it needs one")),
    }
}

// A line, with the number in place of each `#`.
fn numbered(alloc: Global, line: &[u8], number: u64) -> Result<Vec<u8>, NoMemory> {
    let mut whole = Vec::new(alloc);
    for byte in line {
        if *byte == b'#' {
            append_number(number, &mut whole)?;
        } else {
            whole.push(*byte)?;
        }
    }
    Ok(whole)
}

//! Lines, read at the front of bytes.
ghost use Rattle.std.specs.Prelude.{◌≡◌, IfOk};
ghost use Rattle.tc_lists.specs.Seen.{seen};
ghost use Rattle.tc_histline.specs.WrittenLines.{common_line_at, edge_at, heading_at, line_at};

use crate::lines::{Line, WrittenLine};
use crate::read_entries::read_entry;
use crate::read_items::read_item;
use crate::read_rows::read_row;
use crate::read_words::{Read, atom_in};
use crate::versions::Version;
use std::alloc::Global;
use tc_lists::behind;
use tc_names::Names;

// The line at the front, as it is written.
pub(crate) fn read_written<'a>(
    alloc: Global,
    version: Version,
    agents: &Names,
    bytes: &'a [u8],
) -> Read<'a, WrittenLine>
    ensures { IfOk result (λ r. seen r ≡ line_at version agents.now bytes.now) }
{
    if let Some((row, rest)) = read_row(alloc, version, bytes)? {
        return Ok(Some((WrittenLine::Plain(Line::Row(row)), rest)));
    }
    if let Some(found) = read_entry(alloc, version, agents, bytes)? {
        return Ok(Some(found));
    }
    match common_line(alloc, bytes)? {
        Some((line, rest)) => Ok(Some((WrittenLine::Plain(line), rest))),
        None => Ok(None),
    }
}

// The line at the front, where it is one that is the same in each version.
fn common_line<'a>(alloc: Global, bytes: &'a [u8]) -> Read<'a, Line>
    ensures { IfOk result (λ r. seen r ≡ common_line_at bytes.now) }
{
    if let Some((item, rest)) = read_item(alloc, bytes)? {
        return Ok(Some((Line::Reaction(item), rest)));
    }
    if let Some(found) = heading(alloc, bytes)? {
        return Ok(Some(found));
    }
    Ok(edge(bytes))
}

// The heading of a centre or of an agent.
fn heading<'a>(alloc: Global, bytes: &'a [u8]) -> Read<'a, Line>
    ensures { IfOk result (λ r. seen r ≡ heading_at bytes.now) }
{
    if let Some((name, rest)) = atom_in(alloc, b"centre ", b"\n", bytes)? {
        return Ok(Some((Line::Centre(name), rest)));
    }
    match atom_in(alloc, b"agent ", b"\n", bytes)? {
        Some((name, rest)) => Ok(Some((Line::Agent(name), rest))),
        None => Ok(None),
    }
}

// The first line, or the last.
fn edge(bytes: &[u8]) -> Option<(Line, &[u8])>
    ensures { seen result ≡ edge_at bytes.now }
{
    if let Some(rest) = behind(bytes, b"tucson 1\n") {
        return Some((Line::First(Version::One), rest));
    }
    if let Some(rest) = behind(bytes, b"tucson 2\n") {
        return Some((Line::First(Version::Two), rest));
    }
    if let Some(rest) = behind(bytes, b"end blocked\n") {
        return Some((Line::End(true), rest));
    }
    let rest = behind(bytes, b"end ended\n")?;
    Some((Line::End(false), rest))
}

//! Lines of entries, read at the front of bytes.
ghost use Rattle.std.specs.Prelude.{◌≡◌, IfOk};
ghost use Rattle.tc_lists.specs.Seen.{seen};
ghost use Rattle.tc_histline.specs.Entries.{agent_at, call_at, called, called_at, entry_at};
ghost use Rattle.tc_histline.specs.Entries.{gave_at, looked_at};

use crate::lines::{Line, WrittenLine};
use crate::read_operations::{WrittenOp, read_op};
use crate::read_outcomes::{read_outcome, read_told};
use crate::read_words::{Read, atom};
use crate::versions::Version;
use std::alloc::Global;
use tc_lists::{Seq, behind, read_number};
use tc_model::{CallId, Entry, Outcome};
use tc_names::Names;

// The line of an entry, at the front.
pub(crate) fn read_entry<'a>(
    alloc: Global,
    version: Version,
    agents: &Names,
    bytes: &'a [u8],
) -> Read<'a, WrittenLine>
    ensures { IfOk result (λ r. seen r ≡ entry_at version agents.now bytes.now) }
{
    if let Some(rest) = behind(bytes, b"call ") {
        return read_called(alloc, version, agents, rest);
    }
    if let Some(rest) = behind(bytes, b"give ") {
        return read_gave(alloc, version, agents, rest);
    }
    match behind(bytes, b"look ") {
        Some(rest) => read_looked(alloc, version, agents, rest),
        None => Ok(None),
    }
}

// The line of a call, behind its word.
#[inline(always)]
fn read_called<'a>(
    alloc: Global,
    version: Version,
    agents: &Names,
    bytes: &'a [u8],
) -> Read<'a, WrittenLine>
    ensures { IfOk result (λ r. seen r ≡ called_at version agents.now bytes.now) }
{
    let Some((id, rest)) = call(alloc, agents, bytes)? else {
        return Ok(None);
    };
    let Some(rest) = behind(rest, b" ") else {
        return Ok(None);
    };
    let Some((op, rest)) = read_op(alloc, version, rest)? else {
        return Ok(None);
    };
    let Some(rest) = behind(rest, b" = ") else {
        return Ok(None);
    };
    let Some((outcome, rest)) = read_outcome(alloc, version, rest)? else {
        return Ok(None);
    };
    let Some(rest) = behind(rest, b"\n") else {
        return Ok(None);
    };
    Ok(Some((called_line(alloc, id, op, outcome), rest)))
}

// The line of a call with this outcome.
fn called_line(alloc: Global, id: CallId, op: WrittenOp, outcome: Outcome) -> WrittenLine
    ensures { result ≡ called id op outcome }
{
    match op {
        WrittenOp::Plain(op) => WrittenLine::Plain(Line::Entry(Entry::Called {
            id,
            op,
            outcome,
            items: Seq::empty(alloc),
        })),
        WrittenOp::Replaced(text) => WrittenLine::Replacing { id, text, outcome },
    }
}

// The line of an answer, behind its word.
fn read_gave<'a>(
    alloc: Global,
    version: Version,
    agents: &Names,
    bytes: &'a [u8],
) -> Read<'a, WrittenLine>
    ensures { IfOk result (λ r. seen r ≡ gave_at version agents.now bytes.now) }
{
    let Some((id, rest)) = call(alloc, agents, bytes)? else {
        return Ok(None);
    };
    let Some(rest) = behind(rest, b" = ") else {
        return Ok(None);
    };
    let Some((outcome, rest)) = read_outcome(alloc, version, rest)? else {
        return Ok(None);
    };
    let Some(rest) = behind(rest, b"\n") else {
        return Ok(None);
    };
    let items = Seq::empty(alloc);
    let entry = Entry::Gave { id, outcome, items };
    Ok(Some((WrittenLine::Plain(Line::Entry(entry)), rest)))
}

// The line of a look, behind its word.
fn read_looked<'a>(
    alloc: Global,
    version: Version,
    agents: &Names,
    bytes: &'a [u8],
) -> Read<'a, WrittenLine>
    ensures { IfOk result (λ r. seen r ≡ looked_at version agents.now bytes.now) }
{
    let Some((id, rest)) = call(alloc, agents, bytes)? else {
        return Ok(None);
    };
    let Some(rest) = behind(rest, b" ") else {
        return Ok(None);
    };
    let Some((asked, rest)) = read_number(rest, u64::MAX) else {
        return Ok(None);
    };
    let Some(rest) = behind(rest, b" = ") else {
        return Ok(None);
    };
    let Some((reply, rest)) = read_told(alloc, version, rest)? else {
        return Ok(None);
    };
    let Some(rest) = behind(rest, b"\n") else {
        return Ok(None);
    };
    let entry = Entry::Looked { id, asked, reply };
    Ok(Some((WrittenLine::Plain(Line::Entry(entry)), rest)))
}

// The agent of a call, and its number.
#[inline(always)]
fn call<'a>(alloc: Global, agents: &Names, bytes: &'a [u8]) -> Read<'a, CallId>
    ensures { IfOk result (λ r. seen r ≡ call_at agents.now bytes.now) }
{
    let Some((agent, rest)) = agent(alloc, agents, bytes)? else {
        return Ok(None);
    };
    let Some(rest) = behind(rest, b" ") else {
        return Ok(None);
    };
    match read_number(rest, u64::MAX) {
        Some((number, rest)) => Ok(Some((CallId { agent, number }, rest))),
        None => Ok(None),
    }
}

// The agent of the name at the front.
#[inline(always)]
fn agent<'a>(alloc: Global, agents: &Names, bytes: &'a [u8]) -> Read<'a, u32>
    ensures { IfOk result (λ r. seen r ≡ agent_at agents.now bytes.now) }
{
    let Some((name, rest)) = atom(alloc, bytes)? else {
        return Ok(None);
    };
    let Some(place) = agents.place(&name) else {
        return Ok(None);
    };
    if place <= u32::MAX as usize {
        return Ok(Some((place as u32, rest)));
    }
    Ok(None)
}

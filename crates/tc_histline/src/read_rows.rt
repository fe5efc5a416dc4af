//! Rows, read at the front of bytes.
ghost use Rattle.std.specs.Prelude.{◌≡◌, IfOk};
ghost use Rattle.tc_lists.specs.Seen.{seen};
ghost use Rattle.tc_histline.specs.Rows.{bad_at, cause_at, full_at, refusal_at, result_at, row_at};
ghost use Rattle.tc_histline.specs.declared.versions.Version.TheVariants.{Two};

use crate::lines::TextRow;
use crate::read_outcomes::{read_reply, read_told};
use crate::read_words::{Read, atom};
use crate::versions::Version;
use std::alloc::Global;
use tc_desk::{LogResult, Refusal};
use tc_lists::{behind, read_number};
use tc_model::{BadSpec, SpecCause};

// The line of a row, at the front.
pub(crate) fn read_row<'a>(alloc: Global, version: Version, bytes: &'a [u8]) -> Read<'a, TextRow>
    ensures { IfOk result (λ r. seen r ≡ row_at version bytes.now) }
{
    let Some((number, rest)) = read_number(bytes, u64::MAX) else {
        return Ok(None);
    };
    let Some(rest) = behind(rest, b" ") else {
        return Ok(None);
    };
    let Some((centre, rest)) = atom(alloc, rest)? else {
        return Ok(None);
    };
    let Some(rest) = behind(rest, b" ") else {
        return Ok(None);
    };
    let Some((result, rest)) = read_result(alloc, version, rest)? else {
        return Ok(None);
    };
    let Some(rest) = behind(rest, b"\n") else {
        return Ok(None);
    };
    let row = TextRow {
        number,
        centre,
        result,
    };
    Ok(Some((row, rest)))
}

// What became of an ask, at the front.
fn read_result<'a>(alloc: Global, version: Version, bytes: &'a [u8]) -> Read<'a, LogResult>
    ensures { IfOk result (λ r. seen r ≡ result_at version bytes.now) }
{
    if let Some((reply, rest)) = read_reply(alloc, version, bytes)? {
        return Ok(Some((LogResult::Replied(reply), rest)));
    }
    if let Some(rest) = behind(bytes, b"pending") {
        return Ok(Some((LogResult::Pending, rest)));
    }
    if let Some(rest) = behind(bytes, b"poll ") {
        if let Some((told, rest)) = read_told(alloc, version, rest)? {
            return Ok(Some((LogResult::Polled(told), rest)));
        }
    }
    match refusal(version, bytes) {
        Some((why, rest)) => Ok(Some((LogResult::Refused(why), rest))),
        None => Ok(None),
    }
}

// Why an ask was not served.
fn refusal(version: Version, bytes: &[u8]) -> Option<(Refusal, &[u8])>
    ensures { seen result ≡ refusal_at version bytes.now }
{
    if let Some(rest) = behind(bytes, b"unknown centre") {
        return Some((Refusal::UnknownCentre, rest));
    }
    if let Some(rest) = behind(bytes, b"waiting") {
        return Some((Refusal::Waiting, rest));
    }
    if let Some(rest) = behind(bytes, b"denied") {
        return Some((Refusal::Denied, rest));
    }
    if let Some(rest) = behind(bytes, b"too big") {
        return Some((Refusal::TooBig, rest));
    }
    if let Some(rest) = behind(bytes, b"not ground") {
        return Some((Refusal::NotGround, rest));
    }
    if let Some(rest) = behind(bytes, b"turns spent") {
        return Some((Refusal::TurnsSpent, rest));
    }
    if let Some(found) = bad(bytes) {
        return Some(found);
    }
    full(version, bytes)
}

// The first faulty clause, and what is wrong with it.
fn bad(bytes: &[u8]) -> Option<(Refusal, &[u8])>
    ensures { seen result ≡ bad_at bytes.now }
{
    let rest = behind(bytes, b"bad spec ")?;
    let (clause, rest) = read_number(rest, u32::MAX as u64)?;
    let rest = behind(rest, b" ")?;
    let (cause, rest) = cause(rest)?;
    let bad = BadSpec {
        clause: clause as u32,
        cause,
    };
    Some((Refusal::BadSpec(bad), rest))
}

// What is wrong with a clause.
fn cause(bytes: &[u8]) -> Option<(SpecCause, &[u8])>
    ensures { seen result ≡ cause_at bytes.now }
{
    if let Some(rest) = behind(bytes, b"syntax") {
        return Some((SpecCause::Syntax, rest));
    }
    if let Some(rest) = behind(bytes, b"size") {
        return Some((SpecCause::Size, rest));
    }
    if let Some(rest) = behind(bytes, b"shape") {
        return Some((SpecCause::Shape, rest));
    }
    if let Some(rest) = behind(bytes, b"head") {
        return Some((SpecCause::Head, rest));
    }
    if let Some(rest) = behind(bytes, b"goal") {
        return Some((SpecCause::Goal, rest));
    }
    let rest = behind(bytes, b"count")?;
    Some((SpecCause::Count, rest))
}

// That a centre was full.
fn full(version: Version, bytes: &[u8]) -> Option<(Refusal, &[u8])>
    ensures { seen result ≡ full_at version bytes.now }
{
    match version {
        Version::One => {
            let rest = behind(bytes, b"full")?;
            let full = Refusal::Full {
                weight: 0,
                pending: 0,
            };
            Some((full, rest))
        }
        Version::Two => load(bytes),
    }
}

// The same, with what it weighed and how many requests were pending.
fn load(bytes: &[u8]) -> Option<(Refusal, &[u8])>
    ensures { seen result ≡ full_at Two bytes.now }
{
    let rest = behind(bytes, b"full ")?;
    let (weight, rest) = read_number(rest, u64::MAX)?;
    let rest = behind(rest, b" ")?;
    let (pending, rest) = read_number(rest, u64::MAX)?;
    Some((Refusal::Full { weight, pending }, rest))
}

//! Outcomes, what agents are told, and effects, read at the front of bytes.
ghost use Rattle.std.specs.Prelude.{◌≡◌, IfOk};
ghost use Rattle.tc_lists.specs.Seen.{seen};
ghost use Rattle.tc_histline.specs.Outcomes.{common_outcome_at, common_reply_at, effect_at};
ghost use Rattle.tc_histline.specs.Outcomes.{further_outcome_at, further_reply_at, outcome_at};
ghost use Rattle.tc_histline.specs.EffectKinds.{effect_kind_at};
ghost use Rattle.tc_histline.specs.Outcomes.{reply_at, told_at};

use crate::read_words::{Read, quote_behind, tuple, tuple_behind};
use crate::versions::Version;
use std::alloc::Global;
use tc_lists::behind;
use tc_model::{Effect, Outcome, Phase, Reply};

// The outcome at the front.
#[inline(always)]
pub(crate) fn read_outcome<'a>(
    alloc: Global,
    version: Version,
    bytes: &'a [u8],
) -> Read<'a, Outcome>
    ensures { IfOk result (λ r. seen r ≡ outcome_at version bytes.now) }
{
    if let Some(found) = common_outcome(alloc, bytes)? {
        return Ok(Some(found));
    }
    match version {
        Version::One => Ok(None),
        Version::Two => further_outcome(alloc, bytes),
    }
}

// The outcome at the front, of those that each version has.
fn common_outcome<'a>(alloc: Global, bytes: &'a [u8]) -> Read<'a, Outcome>
    ensures { IfOk result (λ r. seen r ≡ common_outcome_at bytes.now) }
{
    if let Some(rest) = behind(bytes, b"done") {
        return Ok(Some((Outcome::Done, rest)));
    }
    if let Some((tuple, rest)) = tuple_behind(alloc, b"tuple ", bytes)? {
        return Ok(Some((Outcome::Took(tuple), rest)));
    }
    if let Some(rest) = behind(bytes, b"none") {
        return Ok(Some((Outcome::NoTuple, rest)));
    }
    if let Some(rest) = behind(bytes, b"pending") {
        return Ok(Some((Outcome::Pending, rest)));
    }
    if let Some((text, rest)) = quote_behind(alloc, b"spec ", bytes)? {
        return Ok(Some((Outcome::Spec(text), rest)));
    }
    if let Some(rest) = behind(bytes, b"over pre") {
        return Ok(Some((Outcome::Over(Phase::Pre, None), rest)));
    }
    if let Some((tuple, rest)) = tuple_behind(alloc, b"over post ", bytes)? {
        return Ok(Some((Outcome::Over(Phase::Post, Some(tuple)), rest)));
    }
    match behind(bytes, b"over post") {
        Some(rest) => Ok(Some((Outcome::Over(Phase::Post, None), rest))),
        None => Ok(None),
    }
}

// The outcome at the front, of those that version 2 has besides.
fn further_outcome<'a>(alloc: Global, bytes: &'a [u8]) -> Read<'a, Outcome>
    ensures { IfOk result (λ r. seen r ≡ further_outcome_at bytes.now) }
{
    if let Some(rest) = behind(bytes, b"absent") {
        return Ok(Some((Outcome::Absent, rest)));
    }
    match tuple_behind(alloc, b"found ", bytes)? {
        Some((tuple, rest)) => Ok(Some((Outcome::Found(tuple), rest))),
        None => Ok(None),
    }
}

// What an agent is told that asks: a reply, or that there is none yet.
pub(crate) fn read_told<'a>(
    alloc: Global,
    version: Version,
    bytes: &'a [u8],
) -> Read<'a, Option<Reply>>
    ensures { IfOk result (λ r. seen r ≡ told_at version bytes.now) }
{
    if let Some((reply, rest)) = read_reply(alloc, version, bytes)? {
        return Ok(Some((Some(reply), rest)));
    }
    match behind(bytes, b"pending") {
        Some(rest) => Ok(Some((None, rest))),
        None => Ok(None),
    }
}

// The reply at the front.
#[inline(always)]
pub(crate) fn read_reply<'a>(alloc: Global, version: Version, bytes: &'a [u8]) -> Read<'a, Reply>
    ensures { IfOk result (λ r. seen r ≡ reply_at version bytes.now) }
{
    if let Some(found) = common_reply(alloc, bytes)? {
        return Ok(Some(found));
    }
    match version {
        Version::One => Ok(None),
        Version::Two => further_reply(alloc, bytes),
    }
}

// The reply at the front, of those that each version has.
fn common_reply<'a>(alloc: Global, bytes: &'a [u8]) -> Read<'a, Reply>
    ensures { IfOk result (λ r. seen r ≡ common_reply_at bytes.now) }
{
    if let Some(rest) = behind(bytes, b"done") {
        return Ok(Some((Reply::Done, rest)));
    }
    if let Some((tuple, rest)) = tuple_behind(alloc, b"tuple ", bytes)? {
        return Ok(Some((Reply::Tuple(tuple), rest)));
    }
    if let Some(rest) = behind(bytes, b"none") {
        return Ok(Some((Reply::NoTuple, rest)));
    }
    if let Some((text, rest)) = quote_behind(alloc, b"spec ", bytes)? {
        return Ok(Some((Reply::Spec(text), rest)));
    }
    if let Some(rest) = behind(bytes, b"over pre") {
        return Ok(Some((Reply::OverBudget(Phase::Pre), rest)));
    }
    match behind(bytes, b"over post") {
        Some(rest) => Ok(Some((Reply::OverBudget(Phase::Post), rest))),
        None => Ok(None),
    }
}

// The reply at the front, of those that version 2 has besides.
fn further_reply<'a>(alloc: Global, bytes: &'a [u8]) -> Read<'a, Reply>
    ensures { IfOk result (λ r. seen r ≡ further_reply_at bytes.now) }
{
    if let Some(rest) = behind(bytes, b"absent") {
        return Ok(Some((Reply::Absent, rest)));
    }
    match tuple_behind(alloc, b"found ", bytes)? {
        Some((tuple, rest)) => Ok(Some((Reply::Found(tuple), rest))),
        None => Ok(None),
    }
}

// The effect at the front, behind a space.
pub(crate) fn read_effect<'a>(alloc: Global, bytes: &'a [u8]) -> Read<'a, Effect>
    ensures { IfOk result (λ r. seen r ≡ effect_at bytes.now) }
{
    let Some((kind, rest)) = effect_kind(bytes) else {
        return Ok(None);
    };
    let Some((tuple, rest)) = tuple(alloc, rest)? else {
        return Ok(None);
    };
    let effect = match kind {
        EffectKind::Put => Effect::Put(tuple),
        EffectKind::Took => Effect::Took(tuple),
        EffectKind::Read => Effect::Read(tuple),
    };
    Ok(Some((effect, rest)))
}

// What an effect did with its tuple.
#[derive(Clone, Copy)]
pub enum EffectKind {
    Put,
    Took,
    Read,
}

// The word of an effect at the front, between spaces.
#[inline(always)]
fn effect_kind(bytes: &[u8]) -> Option<(EffectKind, &[u8])>
    ensures { seen result ≡ effect_kind_at bytes.now }
{
    match bytes {
        [b'\n', ..] => None,
        [b' ', b'p', b'u', b't', b' ', rest @ ..] => Some((EffectKind::Put, rest)),
        [b' ', b't', b'o', b'o', b'k', b' ', rest @ ..] => Some((EffectKind::Took, rest)),
        _ => kind_apart(bytes),
    }
}

// The same, of any.
fn kind_apart(bytes: &[u8]) -> Option<(EffectKind, &[u8])>
    ensures { seen result ≡ effect_kind_at bytes.now }
{
    if let Some(rest) = behind(bytes, b" put ") {
        return Some((EffectKind::Put, rest));
    }
    if let Some(rest) = behind(bytes, b" took ") {
        return Some((EffectKind::Took, rest));
    }
    let rest = behind(bytes, b" read ")?;
    Some((EffectKind::Read, rest))
}

//! Items, read at the front of bytes.
ghost use Rattle.std.specs.Prelude.{◌≡◌, IfOk, length};
ghost use Rattle.tc_lists.specs.Seen.{seen};
ghost use Rattle.tc_histline.specs.Items.{effects_at, failed_at, fired_at, item_at, place_at};

use crate::read_outcomes::read_effect;
use crate::read_words::Read;
use std::alloc::Global;
use tc_lists::{NoMemory, Seq, behind, read_number};
use tc_model::{Effect, Item};

// The line of a reaction, at the front.
pub(crate) fn read_item<'a>(alloc: Global, bytes: &'a [u8]) -> Read<'a, Item>
    ensures { IfOk result (λ r. seen r ≡ item_at bytes.now) }
{
    let Some(rest) = behind(bytes, b"  ") else {
        return Ok(None);
    };
    let Some((pick, rest)) = place(rest) else {
        return Ok(None);
    };
    if let Some(found) = fired(alloc, pick, rest)? {
        return Ok(Some(found));
    }
    failed(alloc, pick, rest)
}

// The line of a reaction that fired, behind its pick.
fn fired<'a>(alloc: Global, pick: u32, bytes: &'a [u8]) -> Read<'a, Item>
    ensures { IfOk result (λ r. seen r ≡ fired_at pick bytes.now) }
{
    let Some(rest) = behind(bytes, b" fired ") else {
        return Ok(None);
    };
    let Some((clause, rest)) = place(rest) else {
        return Ok(None);
    };
    let (effects, rest) = effects(alloc, rest)?;
    let Some(rest) = behind(rest, b"\n") else {
        return Ok(None);
    };
    let item = Item::Fired {
        pick,
        clause,
        effects,
    };
    Ok(Some((item, rest)))
}

// The line of a reaction that failed, behind its pick.
fn failed<'a>(alloc: Global, pick: u32, bytes: &'a [u8]) -> Read<'a, Item>
    ensures { IfOk result (λ r. seen r ≡ failed_at pick bytes.now) }
{
    let Some(rest) = behind(bytes, b" failed ") else {
        return Ok(None);
    };
    let Some((clause, rest)) = place(rest) else {
        return Ok(None);
    };
    let Some(rest) = behind(rest, b" at ") else {
        return Ok(None);
    };
    let Some((goal, rest)) = place(rest) else {
        return Ok(None);
    };
    let (effects, rest) = effects(alloc, rest)?;
    let Some(rest) = behind(rest, b"\n") else {
        return Ok(None);
    };
    let item = Item::Failed {
        pick,
        clause,
        goal,
        effects,
    };
    Ok(Some((item, rest)))
}

// The number at the front, from 1.
fn place(bytes: &[u8]) -> Option<(u32, &[u8])>
    ensures { seen result ≡ place_at bytes.now }
{
    let (number, rest) = read_number(bytes, u32::MAX as u64)?;
    if number == 0 {
        return None;
    }
    Some((number as u32, rest))
}

// Room for as many effects as most reactions have, where there is one.
fn room(bytes: &[u8]) -> usize {
    match bytes {
        [b' ', ..] => 3,
        _ => 0,
    }
}

// The effects at the front, one behind another, and what stands behind them.
fn effects<'a>(alloc: Global, bytes: &'a [u8]) -> Result<(Seq<Effect>, &'a [u8]), NoMemory>
    ensures { IfOk result (λ r. (r.0, r.1.now) ≡ effects_at bytes.now) }
{
    let mut effects = Vec::with_capacity(alloc, room(bytes))?;
    let mut rest = bytes;
    for _ in 0..bytes.len() {
        let Some((effect, behind)) = read_effect(alloc, rest)? else {
            return Ok((Seq::new(effects), rest));
        };
        effects.push(effect)?;
        rest = behind;
    }
    Ok((Seq::new(effects), rest))
}

//! Texts that are damaged on purpose, each of which the check and `verify` have to tell.
use crate::both::{Said, said_of};
use std::alloc::Global;
use tc_lists::NoMemory;
use test_run_check::{Fault, check};

/// How a text is damaged.
#[derive(Clone, Copy, PartialEq, Eq, Debug)]
pub enum Damage {
    /// A line is left out.
    Out,
    /// A line stands twice.
    Twice,
    /// A letter or a digit is another.
    Letter,
}

/// How many texts come of this one that are damaged so, and how many of them are told as wrong: by
/// the check and by `verify`, where a line is left out or stands twice. Other letters, which are
/// thousands, are left to the check, which allows the first choices alone, and not any as `verify`.
pub fn told(
    alloc: Global,
    configuration: &[u8],
    text: &[u8],
    status: u8,
    damage: Damage,
) -> Result<(u64, u64), Fault> {
    let mut made: u64 = 0;
    let mut wrong: u64 = 0;
    for place in 0..text.len() {
        if let Some(damaged) = damaged(alloc, text, place, damage)? {
            made = made.saturating_add(1);
            if is_told(alloc, configuration, &damaged, status, damage)? {
                wrong = wrong.saturating_add(1);
            }
        }
    }
    Ok((made, wrong))
}

// Whether a text that is damaged so is told as wrong.
fn is_told(
    alloc: Global,
    configuration: &[u8],
    damaged: &[u8],
    status: u8,
    damage: Damage,
) -> Result<bool, Fault> {
    if damage != Damage::Letter {
        let said = said_of(alloc, configuration, damaged, status)?;
        return Ok(matches!(said, Said::Wrong(_)));
    }
    match check(alloc, configuration, damaged, status) {
        Ok(()) => Ok(false),
        Err(Fault::Wrong(_)) => Ok(true),
        Err(fault) => Err(fault),
    }
}

// The text, damaged at this place, if that is one for this damage.
fn damaged(
    alloc: Global,
    text: &[u8],
    place: usize,
    damage: Damage,
) -> Result<Option<Vec<u8>>, NoMemory> {
    let (before, behind) = text.split_at(place.min(text.len()));
    if damage == Damage::Letter {
        return with_letter(alloc, before, behind);
    }
    if !before.is_empty() && before.last() != Some(&b'\n') {
        return Ok(None);
    }
    let end = match behind.iter().position(|byte| *byte == b'\n') {
        Some(end) => end.saturating_add(1),
        None => behind.len(),
    };
    let (line, rest) = behind.split_at(end.min(behind.len()));
    let mut damaged = before.to_vec(alloc)?;
    if damage == Damage::Twice {
        damaged.extend_from_slice(line)?;
        damaged.extend_from_slice(line)?;
    }
    damaged.extend_from_slice(rest)?;
    Ok(Some(damaged))
}

// The text with another letter or digit at its front.
fn with_letter(alloc: Global, before: &[u8], behind: &[u8]) -> Result<Option<Vec<u8>>, NoMemory> {
    let Some((letter, rest)) = behind.split_first() else {
        return Ok(None);
    };
    if !letter.is_ascii_alphanumeric() {
        return Ok(None);
    }
    let other = if *letter == b'1' || *letter == b'a' {
        letter ^ 3
    } else {
        letter ^ 1
    };
    let mut damaged = before.to_vec(alloc)?;
    damaged.push(other)?;
    damaged.extend_from_slice(rest)?;
    Ok(Some(damaged))
}

/// The text in which this stands for that, where that comes first.
pub fn replaced(
    alloc: Global,
    text: &[u8],
    that: &[u8],
    this: &[u8],
) -> Result<Option<Vec<u8>>, NoMemory> {
    for place in 0..text.len() {
        let (before, behind) = text.split_at(place.min(text.len()));
        if let Some(rest) = behind.strip_prefix(that) {
            let mut replaced = before.to_vec(alloc)?;
            replaced.extend_from_slice(this)?;
            replaced.extend_from_slice(rest)?;
            return Ok(Some(replaced));
        }
    }
    Ok(None)
}

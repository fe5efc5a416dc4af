//! The numbers of clauses in parts by the codes of their heads and by what their guards allow, so
//! that an event finds its own.
ghost use Rattle.std.specs.Prelude.{◌≡◌, ◌<◌, ◌≤◌, ℕ, IfOk, IfSome, List};
ghost use Rattle.std.specs.Prelude.{length, map};
ghost use Rattle.tc_term.specs.TreeView.{tree_of};
ghost use Rattle.tc_model.specs.Reactions.{Rule};
ghost use Rattle.tc_model.specs.declared.limits.TheConstants.{MOST_CLAUSES};
ghost use Rattle.tc_spec.specs.Codes.{is_in, part_in, rule_part};
ghost use Rattle.tc_spec.specs.Indexed.{AreInPart, AreInPartAt, AreParts, IsPart};
ghost use Rattle.tc_spec.specs.Numbers.{AreNumbers};

use crate::codes::code_of;
use crate::triggers::{has_guard_for, keep_if};
use std::alloc::Global;
use tc_lists::NoMemory;
use tc_model::{EventOp, Phase, Reaction, Sign};
use tc_term::Term;

// The most parts: more would take memory, where clauses with a variable for a head are in each.
const MOST_PARTS: usize = 512;

/// The numbers of a part's clauses, by what may trigger them: requests, successes, failures.
#[derive(Drop)]
pub struct Part {
    requests: Vec<u32>,
    successes: Vec<u32>,
    failures: Vec<u32>,
}

impl Part {
    /// The numbers of the clauses that an event of this phase and sign may trigger; `None` where
    /// there is no such event.
    pub fn numbers_at(&self, phase: Phase, sign: Sign) -> Option<&[u32]>
        ensures { IfSome result (λ numbers. (count part : ℕ) (clauses : List Rule)
            → IsPart count part clauses self.now
            → AreInPartAt count part phase sign clauses numbers.now) }
    {
        match (phase, sign) {
            (Phase::Pre, Sign::Neither) => Some(&self.requests),
            (Phase::Post, Sign::Success) => Some(&self.successes),
            (Phase::Post, Sign::Failure) => Some(&self.failures),
            (Phase::Pre, Sign::Success) => None,
            (Phase::Pre, Sign::Failure) => None,
            (Phase::Post, Sign::Neither) => None,
        }
    }
}

/// The numbers of the clauses in parts, of which there are one to 512, and no more than clauses.
///
/// A clause is in the part of its code, and one whose head is a variable is in each; of a part it
/// is in the lists of those events that its guard allows. Takes time in the number of clauses times
/// that of parts.
pub fn parts_of(alloc: Global, clauses: &[Reaction]) -> Result<Vec<Part>, NoMemory>
    requires { length clauses.now ≤ MOST_CLAUSES }
    ensures { IfOk result (λ parts. AreParts clauses.now parts.items) }
{
    let count = clauses.len().clamp(1, MOST_PARTS);
    let places = places_of(alloc, clauses, count)?;
    let mut parts = Vec::with_capacity(alloc, count)?;
    for place in 0..count {
        let numbers = part_of(alloc, &places, place)?;
        let part = by_guard(alloc, clauses, &numbers, count, place)?;
        parts.push(part)?;
    }
    Ok(parts)
}

/// The part of so many in which an operation's clauses with this term's code are; `None` where the
/// term is a variable, and they may be in each.
pub fn part_for(op: EventOp, t: &Term, count: usize) -> Option<usize>
    requires { 0 < count }
    ensures part { result ≡ part_in count op (tree_of t.now) }
    ensures inside { IfSome result (λ part. part < count) }
{
    match code_of(op, t) {
        None => None,
        Some(code) => Some((code % count as u64) as usize),
    }
}

// The part of each clause.
fn places_of(
    alloc: Global,
    clauses: &[Reaction],
    count: usize,
) -> Result<Vec<Option<usize>>, NoMemory>
    requires { 0 < count }
    ensures { IfOk result (λ places. places.items ≡ map (rule_part count) clauses.now) }
{
    let mut places = Vec::with_capacity(alloc, clauses.len())?;
    for clause in clauses {
        let place = part_for(clause.op(), clause.head(), count);
        places.push(place)?;
    }
    Ok(places)
}

// The numbers, counted from 1, of the clauses that are in a part.
fn part_of(alloc: Global, places: &[Option<usize>], part: usize) -> Result<Vec<u32>, NoMemory>
    requires { length places.now ≤ MOST_CLAUSES }
    ensures { IfOk result (λ numbers. (clauses : List Rule) (count : ℕ)
        → places.now ≡ map (rule_part count) clauses
        → AreInPart count part clauses numbers.items) }
{
    let mut numbers = Vec::new(alloc);
    for i in 0..places.len() {
        let place = places[i];
        let keep = is_in(place, part);
        keep_if(&mut numbers, keep, i as u32 + 1)?;
    }
    Ok(numbers)
}

// Whether what is in this place, or in each, is in this part.
fn is_in(place: Option<usize>, part: usize) -> bool
    ensures { result ≡ is_in place part }
{
    match place {
        None => true,
        Some(place) => place == part,
    }
}

// A part's clauses by what their guards allow.
fn by_guard(
    alloc: Global,
    clauses: &[Reaction],
    numbers: &[u32],
    count: usize,
    place: usize,
) -> Result<Part, NoMemory>
    requires { AreInPart count place clauses.now numbers.now }
    ensures { IfOk result (λ part. IsPart count place clauses.now part) }
{
    Ok(Part {
        requests: allowed_of(alloc, clauses, numbers, Phase::Pre, Sign::Neither)?,
        successes: allowed_of(alloc, clauses, numbers, Phase::Post, Sign::Success)?,
        failures: allowed_of(alloc, clauses, numbers, Phase::Post, Sign::Failure)?,
    })
}

// Those of the numbers whose clauses' guards allow the events of this phase and sign.
fn allowed_of(
    alloc: Global,
    clauses: &[Reaction],
    numbers: &[u32],
    phase: Phase,
    sign: Sign,
) -> Result<Vec<u32>, NoMemory>
    requires { AreNumbers clauses.now numbers.now }
    ensures { IfOk result (λ found. (count part : ℕ) → AreInPart count part clauses.now numbers.now
        → AreInPartAt count part phase sign clauses.now found.items) }
{
    let mut found = Vec::new(alloc);
    for i in 0..numbers.len() {
        let number = numbers[i];
        let keep = has_guard_for(&clauses[number as usize - 1], phase, sign);
        keep_if(&mut found, keep, number)?;
    }
    Ok(found)
}

//! Worlds, as their clauses have them.
use crate::counts::Counts;
use crate::draws::draw_worlds;
use crate::fault::WorldFault;
use crate::origins::{Beginning, show_origin};
use crate::run::show_world;
use std::alloc::Global;
use tc_lists::append_number;
use tc_read::read_clause;
use tc_term::{Name, Term};

/// A world: its name, the most reactions to one phase of a call, the text of its clauses, its tuples,
/// and the steps that agents take in it.
#[derive(Clone, Copy)]
pub struct World<'t> {
    pub name: &'t Name,
    pub budget: u32,
    pub clauses: &'t [u8],
    pub tuples: &'t Term,
    pub steps: &'t Term,
}

/// What is printed of the worlds that the text has. With `again`, calls that found no memory are made
/// once more.
pub fn tell_all(alloc: Global, text: &[u8], again: bool) -> Result<Vec<u8>, WorldFault> {
    let mut told = Vec::new(alloc);
    let mut from = 0;
    loop {
        match read_clause(alloc, text, from) {
            Ok(Some((clause, behind))) => {
                tell(alloc, clause.term(), again, &mut told)?;
                from = behind;
            }
            Ok(None) => return Ok(told),
            Err(fault) => return Err(WorldFault::Text(fault)),
        }
    }
}

// Prints what a clause asks for.
fn tell(alloc: Global, clause: &Term, again: bool, into: &mut Vec<u8>) -> Result<(), WorldFault> {
    if let Some(world) = world_of(clause) {
        show_world(alloc, world, again, into)
    } else if let Some((count, seed)) = drawn_of(clause) {
        let counts = draw_worlds(alloc, count, seed)?;
        print_counts(count, &counts, into)
    } else if let Some(beginning) = beginning_of(clause) {
        show_origin(alloc, beginning, into)
    } else {
        Err(WorldFault::NoWorld("it has another form"))
    }
}

/// The world that a clause spells.
pub fn world_of(clause: &Term) -> Option<World<'_>> {
    let Term::Comp(word, args) = clause else {
        return None;
    };
    if word.bytes() != b"world".as_slice() {
        return None;
    }
    match args.items() {
        [
            Term::Atom(name),
            Term::Int(budget),
            Term::Atom(clauses),
            tuples,
            steps,
        ] => Some(World {
            name,
            budget: u32::try_from(*budget).ok()?,
            clauses: clauses.bytes(),
            tuples,
            steps,
        }),
        _ => None,
    }
}

// How many worlds are to be drawn, and from which seed.
fn drawn_of(clause: &Term) -> Option<(u32, u64)> {
    let Term::Comp(word, args) = clause else {
        return None;
    };
    if word.bytes() != b"drawn".as_slice() {
        return None;
    }
    match args.items() {
        [Term::Int(count), Term::Int(seed)] => {
            Some((u32::try_from(*count).ok()?, seed.unsigned_abs()))
        }
        _ => None,
    }
}

// What a centre is to begin with, of which it is told whether it may.
fn beginning_of(clause: &Term) -> Option<Beginning<'_>> {
    let Term::Comp(word, args) = clause else {
        return None;
    };
    if word.bytes() != b"origin".as_slice() {
        return None;
    }
    match args.items() {
        [Term::Atom(name), agents, Term::Int(budget)] => Some(Beginning {
            name,
            agents,
            budget: u32::try_from(*budget).ok()?,
        }),
        _ => None,
    }
}

// Prints what was seen of the worlds that were drawn.
fn print_counts(worlds: u32, counts: &Counts, into: &mut Vec<u8>) -> Result<(), WorldFault> {
    append_number(u64::from(worlds), into)?;
    into.extend_from_slice(b" worlds drawn:")?;
    let rows: [(u64, &[u8]); 8] = [
        (counts.entries, b" entries,"),
        (counts.fired, b" fired,"),
        (counts.failed, b" failed,"),
        (counts.over, b" over,"),
        (counts.wait, b" wait,"),
        (counts.absent, b" absent,"),
        (counts.looks, b" looks,"),
        (counts.faults, b" faults\n"),
    ];
    for (count, word) in rows {
        into.extend_from_slice(b" ")?;
        append_number(count, into)?;
        into.extend_from_slice(word)?;
    }
    Ok(())
}

//! Worlds that are drawn.
use crate::counts::Counts;
use crate::fault::WorldFault;
use crate::run::count_world;
use crate::worlds::world_of;
use rand::seq::IndexedRandom;
use rand::{RngExt, SeedableRng};
use rand_pcg::Pcg32;
use std::alloc::Global;
use tc_lists::{NoMemory, append_number};
use tc_read::read_term;

const OPERATIONS: [&[u8]; 12] = [
    b"out", b"out", b"in", b"rd", b"inp", b"rdp", b"no", b"nop", b"out_r", b"out_r", b"in_r",
    b"rd_r",
];

const HEADS: [&[u8]; 8] = [
    b"p(X)", b"q(X)", b"r", b"X", b"X", b"p(f(X))", b"q(X,Y)", b"p(1)",
];

const GOALS: [&[u8]; 24] = [
    b"out_r(q(1))",
    b"out_r(p(1))",
    b"out_r(r)",
    b"out_r(p(X))",
    b"out_r(p(f(a)))",
    b"out_r(q(X,1))",
    b"in_r(p(Y))",
    b"in_r(q(Y))",
    b"in_r(r)",
    b"in_r(q(Y,X))",
    b"rd_r(p(X))",
    b"rd_r(Y)",
    b"rd_r(r)",
    b"no_r(s)",
    b"no_r(q(X))",
    b"pre",
    b"post",
    b"success",
    b"true",
    b"X = Y",
    b"X \\\\= r",
    b"Y is 1 + 2",
    b"current_agent(Y)",
    b"current_tuple(X)",
];

const TUPLES: [&[u8]; 10] = [
    b"p(1)",
    b"p(2)",
    b"q(1)",
    b"q(a)",
    b"r",
    b"p(f(1))",
    b"q(1,1)",
    b"q(1,2)",
    b"p(f(f(a)))",
    b"s",
];

const TEMPLATES: [&[u8]; 12] = [
    b"p(X)",
    b"p(1)",
    b"q(X)",
    b"q(a)",
    b"r",
    b"X",
    b"p(f(X))",
    b"q(X,X)",
    b"q(X,Y)",
    b"p(f(f(X)))",
    b"s",
    b"q(X,2)",
];

const ASKS: [&[u8]; 10] = [
    b"in(", b"in(", b"rd(", b"rd(", b"inp(", b"rdp(", b"inp(", b"no(", b"no(", b"nop(",
];

const AGENTS: [&[u8]; 3] = [b"a", b"b", b"e"];

/// Serves so many worlds that follow from a seed, and counts what was seen of them.
pub fn draw_worlds(alloc: Global, count: u32, seed: u64) -> Result<Counts, WorldFault> {
    let mut draws = Pcg32::seed_from_u64(seed);
    let mut counts = Counts::none();
    for _ in 0..count {
        let text = drawn(alloc, &mut draws)?;
        count_text(alloc, &text, &mut counts)?;
    }
    Ok(counts)
}

// Serves the world of a text.
fn count_text(alloc: Global, text: &[u8], counts: &mut Counts) -> Result<(), WorldFault> {
    match read_term(alloc, text) {
        Ok(clause) => match world_of(clause.term()) {
            Some(world) => count_world(alloc, world, counts),
            None => Err(WorldFault::NoWorld("what was drawn has another form")),
        },
        Err(fault) => Err(WorldFault::Text(fault)),
    }
}

// The text of a world.
fn drawn(alloc: Global, draws: &mut Pcg32) -> Result<Vec<u8>, NoMemory> {
    let mut text = Vec::new(alloc);
    text.extend_from_slice(b"world(w,")?;
    append_number(draws.random_range(1..=8), &mut text)?;
    text.extend_from_slice(b",'")?;
    draw_clauses(draws, &mut text)?;
    text.extend_from_slice(b"',[")?;
    draw_tuples(draws, &mut text)?;
    text.extend_from_slice(b"],[")?;
    draw_steps(draws, &mut text)?;
    text.extend_from_slice(b"])")?;
    Ok(text)
}

// Some clauses, or none.
fn draw_clauses(draws: &mut Pcg32, into: &mut Vec<u8>) -> Result<(), NoMemory> {
    for _ in 0..draws.random_range(0..9) {
        draw_clause(draws, into)?;
    }
    Ok(())
}

// A clause.
fn draw_clause(draws: &mut Pcg32, into: &mut Vec<u8>) -> Result<(), NoMemory> {
    into.extend_from_slice(b"reaction(")?;
    into.extend_from_slice(OPERATIONS.choose(draws).unwrap())?;
    into.extend_from_slice(b"(")?;
    into.extend_from_slice(HEADS.choose(draws).unwrap())?;
    into.extend_from_slice(b"),(")?;
    into.extend_from_slice(GOALS.choose(draws).unwrap())?;
    for _ in 0..draws.random_range(0..3) {
        into.extend_from_slice(b",")?;
        into.extend_from_slice(GOALS.choose(draws).unwrap())?;
    }
    into.extend_from_slice(b")). ")
}

// Tuples, with commas between.
fn draw_tuples(draws: &mut Pcg32, into: &mut Vec<u8>) -> Result<(), NoMemory> {
    into.extend_from_slice(TUPLES.choose(draws).unwrap())?;
    for _ in 0..draws.random_range(0..4) {
        into.extend_from_slice(b",")?;
        into.extend_from_slice(TUPLES.choose(draws).unwrap())?;
    }
    Ok(())
}

// Steps, with commas between.
fn draw_steps(draws: &mut Pcg32, into: &mut Vec<u8>) -> Result<(), NoMemory> {
    into.extend_from_slice(b"a ? out(r)")?;
    for _ in 0..draws.random_range(0..32) {
        into.extend_from_slice(b",")?;
        into.extend_from_slice(AGENTS.choose(draws).unwrap())?;
        into.extend_from_slice(b" ? ")?;
        draw_act(draws, into)?;
    }
    Ok(())
}

// What an agent does.
fn draw_act(draws: &mut Pcg32, into: &mut Vec<u8>) -> Result<(), NoMemory> {
    match draws.random_range(0..16) {
        0 => {
            into.extend_from_slice(b"look(")?;
            append_number(draws.random_range(1..=8), into)?;
        }
        1 => {
            into.extend_from_slice(b"set_spec('")?;
            draw_clauses(draws, into)?;
            into.extend_from_slice(b"'")?;
        }
        2 => return into.extend_from_slice(b"get_spec"),
        3..=9 => {
            into.extend_from_slice(b"out(")?;
            into.extend_from_slice(TUPLES.choose(draws).unwrap())?;
        }
        _ => {
            into.extend_from_slice(ASKS.choose(draws).unwrap())?;
            into.extend_from_slice(TEMPLATES.choose(draws).unwrap())?;
        }
    }
    into.extend_from_slice(b")")
}

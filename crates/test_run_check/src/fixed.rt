//! Configurations whose logs don't depend on the order of calls, and one that is large.
use crate::texts::{append_all, append_count};
use std::alloc::Global;
use tc_lists::NoMemory;

/// What the one role may do at each centre.
const GRANTED: [&[u8]; 5] = [b"out", b"in", b"rd", b"inp", b"rdp"];

// Appends a centre with its grants.
fn append_centre(centre: usize, into: &mut Vec<u8>) -> Result<(), NoMemory> {
    append_count(b"centre(c", centre, b").\n", into)?;
    for word in GRANTED {
        append_count(b"grant(r,c", centre, b",", into)?;
        append_all(&[word, b").\n"], into)?;
    }
    Ok(())
}

/// The role, and so many centres.
pub fn with_centres(alloc: Global, centres: usize) -> Result<Vec<u8>, NoMemory> {
    let mut text = b"role(r).\n".to_vec(alloc)?;
    for centre in 0..centres {
        append_centre(centre, &mut text)?;
    }
    Ok(text)
}

/// Appends an agent and the beginning of its script.
pub fn begin_agent(agent: usize, into: &mut Vec<u8>) -> Result<(), NoMemory> {
    append_count(b"agent(a", agent, b",r).\n", into)?;
    append_count(b"script(a", agent, b",[", into)
}

/// Agents in a ring, each of which hands on a token so many times.
pub fn ring(alloc: Global, agents: usize, rounds: usize) -> Result<Vec<u8>, NoMemory> {
    let mut text = with_centres(alloc, 1)?;
    text.extend_from_slice(b"tuple(c0,token(0)).\n")?;
    for agent in 0..agents {
        begin_agent(agent, &mut text)?;
        for round in 0..rounds {
            let comma: &[u8] = if round == 0 { b"" } else { b", " };
            append_all(&[comma], &mut text)?;
            append_count(b"c0 ? in(token(", agent, b")), ", &mut text)?;
            let next = agent.saturating_add(1).checked_rem(agents).unwrap_or(0);
            append_count(b"c0 ? out(token(", next, b"))", &mut text)?;
        }
        text.extend_from_slice(b"]).\n")?;
    }
    Ok(text)
}

/// Agents that take a lock and put it back, so many times.
pub fn lock(alloc: Global, agents: usize, times: usize) -> Result<Vec<u8>, NoMemory> {
    let mut text = with_centres(alloc, 1)?;
    text.extend_from_slice(b"tuple(c0,lock).\n")?;
    for agent in 0..agents {
        begin_agent(agent, &mut text)?;
        text.extend_from_slice(b"c0 ? rdp(none)")?;
        for time in 0..times {
            text.extend_from_slice(b", c0 ? in(lock)")?;
            append_count(b", c0 ? out(note(a", agent, b",", &mut text)?;
            append_count(b"", time, b")), c0 ? out(lock)", &mut text)?;
        }
        text.extend_from_slice(b"]).\n")?;
    }
    Ok(text)
}

/// Pairs of agents, of which one hands numbers to the other, which hands them back, a pair at a centre.
/// The first call of one of them is denied.
pub fn pairs(alloc: Global, count: usize, numbers: usize) -> Result<Vec<u8>, NoMemory> {
    let mut text = with_centres(alloc, count)?;
    for pair in 0..count {
        begin_agent(pair, &mut text)?;
        append_count(b"c", pair, b" ? set_spec('')", &mut text)?;
        for number in 0..numbers {
            append_count(b", c", pair, b" ? out(go(", &mut text)?;
            append_count(b"", number, b")), ", &mut text)?;
            append_count(b"c", pair, b" ? in(back(X", &mut text)?;
            append_count(b"", number, b",1))", &mut text)?;
        }
        text.extend_from_slice(b"]).\n")?;
        append_echo(count, pair, numbers, &mut text)?;
    }
    Ok(text)
}

// Appends the agent of a pair that hands numbers back.
fn append_echo(
    count: usize,
    pair: usize,
    numbers: usize,
    into: &mut Vec<u8>,
) -> Result<(), NoMemory> {
    begin_agent(count.saturating_add(pair), into)?;
    append_count(b"c", pair, b" ? inp(never)", into)?;
    for number in 0..numbers {
        append_count(b", c", pair, b" ? in(go(X", into)?;
        append_count(b"", number, b")), ", into)?;
        append_count(b"c", pair, b" ? out(back(X", into)?;
        append_count(b"", number, b",1))", into)?;
    }
    into.extend_from_slice(b"]).\n")
}

/// Agents that all say that they are there, and go on once a last one has heard them all.
pub fn meeting(alloc: Global, agents: usize) -> Result<Vec<u8>, NoMemory> {
    let mut text = with_centres(alloc, 2)?;
    for agent in 0..agents {
        begin_agent(agent, &mut text)?;
        append_count(b"c0 ? out(here(", agent, b")), c1 ? rd(open), ", &mut text)?;
        text.extend_from_slice(b"c0 ? inp(here(X)), c1 ? out(X)]).\n")?;
    }
    begin_agent(agents, &mut text)?;
    for agent in 0..agents {
        append_count(b"c0 ? in(here(", agent, b")), ", &mut text)?;
    }
    text.extend_from_slice(b"c1 ? out(open)]).\n")?;
    Ok(text)
}

/// So many agents at so many centres. At each turn an agent puts a tuple at a centre, looks for
/// another one, and takes one that anybody has put.
pub fn crowd(
    alloc: Global,
    agents: usize,
    centres: usize,
    turns: usize,
) -> Result<Vec<u8>, NoMemory> {
    let mut text = with_centres(alloc, centres)?;
    for agent in 0..agents {
        begin_agent(agent, &mut text)?;
        for turn in 0..turns {
            let place = agent.wrapping_mul(7).wrapping_add(turn.wrapping_mul(13));
            let centre = place.checked_rem(centres).unwrap_or(0);
            let comma: &[u8] = if turn == 0 { b"c" } else { b", c" };
            append_count(comma, centre, b" ? out(p(", &mut text)?;
            append_count(b"", agent, b",", &mut text)?;
            append_count(b"", turn, b")), c", &mut text)?;
            append_count(b"", centre, b" ? rdp(p(1,X", &mut text)?;
            append_count(b"", turn, b")), c", &mut text)?;
            append_count(b"", centre, b" ? in(p(_,_))", &mut text)?;
        }
        text.extend_from_slice(b"]).\n")?;
    }
    Ok(text)
}

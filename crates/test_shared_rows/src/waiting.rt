//! A row of agents that wait while another makes many calls.
use crate::fault::Fault;
use crate::lists::append;
use crate::moves::{Act, Move, Note, Request};
use crate::outcomes::append_row;
use crate::together::{Outcome, together};
use std::alloc::Global;
use std::sync::Wait;
use std::thread::Threads;
use tc_lists::NoMemory;

/// How many turns an agent has, which are enough.
const AMPLE: u32 = 1 << 20;

/// The tuples that agents wait for, one each.
const WANTED: [&[u8]; 8] = [
    b"w(1)", b"w(2)", b"w(3)", b"w(4)", b"w(5)", b"w(6)", b"w(7)", b"w(8)",
];

/// How often the other agent puts a tuple and takes it again, before it puts those.
const PAIRS: usize = 500;

/// The most turns that a call takes which waits: one for itself, one for a look, and one once it was
/// answered.
const MOST_TURNS: u32 = 3;

/// Eight agents wait for a tuple each. A ninth makes 1,000 calls, and then puts the tuples.
pub fn report_waiting<R: Threads + Wait + Sync>(
    rt: &R,
    alloc: Global,
    into: &mut Vec<u8>,
) -> Result<(), Fault> {
    let mut moves = waiters(alloc)?;
    append(&mut moves, caller(alloc)?)?;
    let outcome = together(rt, alloc, AMPLE, &moves)?;
    let right = have_waited(&outcome) && has_called(&outcome);
    append_row(
        alloc,
        b"eight agents wait while a ninth makes 1000 calls, and take three turns at most",
        right,
        &outcome,
        into,
    )?;
    Ok(())
}

// What the agents do that wait.
fn waiters(alloc: Global) -> Result<Vec<Vec<Move>>, NoMemory> {
    let mut moves = Vec::new(alloc);
    for wanted in WANTED {
        append(
            &mut moves,
            vec![in alloc; once_all_wait(0, Request::In(wanted))]?,
        )?;
    }
    Ok(moves)
}

// What the other agent does, once they all wait.
fn caller(alloc: Global) -> Result<Vec<Move>, NoMemory> {
    let all = WANTED.len() as u64;
    let mut moves = Vec::new(alloc);
    for _ in 0..PAIRS {
        append(&mut moves, once_all_wait(all, Request::Out(b"v(1)")))?;
        append(&mut moves, once_all_wait(all, Request::Inp(b"v(X)")))?;
    }
    for wanted in WANTED {
        append(&mut moves, once_all_wait(all, Request::Out(wanted)))?;
    }
    Ok(moves)
}

// A call that is made once so many others wait.
fn once_all_wait(waiting: u64, request: Request) -> Move {
    Move {
        after: waiting,
        act: Act::Call(request),
    }
}

// Whether each agent that waits was told its tuple, and took few turns.
fn have_waited(outcome: &Outcome) -> bool {
    for (notes, wanted) in outcome.notes.iter().zip(WANTED) {
        if !has_waited(notes, wanted) {
            return false;
        }
    }
    true
}

// Whether an agent waited for its tuple, in few turns.
fn has_waited(notes: &[Note], wanted: &[u8]) -> bool {
    match notes {
        [note] => note.told.as_slice() == wanted && note.waited && note.turns <= MOST_TURNS,
        _ => false,
    }
}

// Whether the other agent was served each time in one turn and at once, and no tuple is left.
fn has_called(outcome: &Outcome) -> bool {
    let Some(notes) = outcome.notes.get(WANTED.len()) else {
        return false;
    };
    let entries = 2 * PAIRS + 3 * WANTED.len();
    notes.len() == 2 * PAIRS + WANTED.len()
        && notes.iter().all(|note| note.turns == 1 && !note.waited)
        && outcome.core.history().len() == entries
        && outcome.core.tuples() == 0
}

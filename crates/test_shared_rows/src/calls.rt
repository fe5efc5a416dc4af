//! Rows of one or two agents at a shared centre.
use crate::fault::Fault;
use crate::lists::append;
use crate::moves::{Act, Move, Request};
use crate::outcomes::{Expected, report};
use std::alloc::Global;
use std::sync::Wait;
use std::thread::Threads;
use tc_lists::NoMemory;

/// How many turns an agent has where they are to be enough.
const AMPLE: u32 = 100;

/// The history where the taker comes first, and where the tuple is there before.
const TAKEN_LATER: &[u8] = b"call a 1 in(p(_0)) = pending\ncall b 1 out(p(1)) = done\n\
give a 1 = tuple p(1)\n";

const PUT_BEFORE: &[u8] = b"call b 1 out(p(1)) = done\ncall a 1 in(p(_0)) = pending\n\
give a 1 = tuple p(1)\n";

/// What a taker and a putter are told.
const TAKEN: &[&[&[u8]]] = &[&[b"p(1)"], &[b"done"]];

const PUT: Act = Act::Call(Request::Out(b"p(1)"));

/// Two agents: one takes what the other puts.
pub fn report_taking<R: Threads + Wait + Sync>(
    rt: &R,
    alloc: Global,
    into: &mut Vec<u8>,
) -> Result<(), Fault> {
    let any = Expected {
        title: b"one agent takes what another puts",
        notes: TAKEN,
        histories: &[TAKEN_LATER, PUT_BEFORE],
    };
    report(rt, alloc, AMPLE, &taking(alloc, 0, 0)?, &any, into)?;
    let taker_first = Expected {
        title: b"the same, where the taker comes first",
        notes: TAKEN,
        histories: &[TAKEN_LATER],
    };
    report(rt, alloc, AMPLE, &taking(alloc, 0, 1)?, &taker_first, into)?;
    let putter_first = Expected {
        title: b"the same, where the tuple is there before",
        notes: TAKEN,
        histories: &[PUT_BEFORE],
    };
    report(rt, alloc, AMPLE, &taking(alloc, 1, 0)?, &putter_first, into)
}

// A taker and a putter, each of which lets so many moves go before.
fn taking(alloc: Global, taker: u64, putter: u64) -> Result<Vec<Vec<Move>>, NoMemory> {
    let take = Move {
        after: taker,
        act: Act::Call(Request::In(b"p(X)")),
    };
    let put = Move {
        after: putter,
        act: PUT,
    };
    two(alloc, take, put)
}

// The moves of two agents with one move each.
fn two(alloc: Global, first: Move, second: Move) -> Result<Vec<Vec<Move>>, NoMemory> {
    Ok(vec![in alloc; vec![in alloc; first]?, vec![in alloc; second]?]?)
}

// The moves of an agent that is alone.
fn alone(alloc: Global, acts: &[Act]) -> Result<Vec<Vec<Move>>, NoMemory> {
    let mut moves = Vec::with_capacity(alloc, acts.len())?;
    for act in acts {
        append(
            &mut moves,
            Move {
                after: 0,
                act: *act,
            },
        )?;
    }
    Ok(vec![in alloc; moves]?)
}

/// One agent whose turns are spent.
pub fn report_turns<R: Threads + Wait + Sync>(
    rt: &R,
    alloc: Global,
    into: &mut Vec<u8>,
) -> Result<(), Fault> {
    let expected = Expected {
        title: b"of three calls with two turns, two are served",
        notes: &[&[b"done", b"done", b"no turn left"]],
        histories: &[b"call a 1 out(p(1)) = done\ncall a 2 out(p(1)) = done\n"],
    };
    report(
        rt,
        alloc,
        2,
        &alone(alloc, &[PUT, PUT, PUT])?,
        &expected,
        into,
    )
}

/// One agent that polls for a call that it hasn't made, and for one that it has.
pub fn report_polls<R: Threads + Wait + Sync>(
    rt: &R,
    alloc: Global,
    into: &mut Vec<u8>,
) -> Result<(), Fault> {
    let stranger = Expected {
        title: b"a poll for a call that was never made",
        notes: &[&[b"no such call"]],
        histories: &[b""],
    };
    report(
        rt,
        alloc,
        2,
        &alone(alloc, &[Act::Poll(5)])?,
        &stranger,
        into,
    )?;
    let own = Expected {
        title: b"a poll for a call that was made",
        notes: &[&[b"done", b"done"]],
        histories: &[b"call a 1 out(p(1)) = done\nlook a 2 1 = done\n"],
    };
    report(
        rt,
        alloc,
        2,
        &alone(alloc, &[PUT, Act::Poll(1)])?,
        &own,
        into,
    )
}

/// One agent holds a turn, while another calls.
pub fn report_holding<R: Threads + Wait + Sync>(
    rt: &R,
    alloc: Global,
    into: &mut Vec<u8>,
) -> Result<(), Fault> {
    let hold = Move {
        after: 0,
        act: Act::Hold,
    };
    let put = Move { after: 1, act: PUT };
    let expected = Expected {
        title: b"while a turn is held, nobody else is served",
        notes: &[&[b"held alone"], &[b"done"]],
        histories: &[b"call b 1 out(p(1)) = done\n"],
    };
    report(rt, alloc, 1, &two(alloc, hold, put)?, &expected, into)
}

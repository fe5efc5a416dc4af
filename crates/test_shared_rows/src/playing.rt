//! An agent's moves at a shared centre.
ghost use Rattle.std.specs.Prelude.{◌≡◌, ◌+◌, false};
ghost use Rattle.tc_model.specs.Run.{HasCall};
ghost use Rattle.tc_model.specs.Calls.{call_of};
ghost use Rattle.tc_shared.specs.Passes.{IsFreshPassOf, IsPassOf, KeepsPass};
ghost use Rattle.test_shared_rows.specs.Plays.{IsPlayed, MayMove, Moves};

use crate::fault::Fault;
use crate::lists::append;
use crate::moves::{Act, Move, Note, Request};
use crate::stage::Stage;
use crate::texts::{operation, reply_text};
use std::alloc::Global;
use std::sync::Wait;
use std::thread::yield_now;
use tc_centre::{Answer, Poll};
use tc_lists::NoMemory;
use tc_shared::{CallFault, CentrePass, EndedPass, LookFault, SharedCentre, SharedPollFault};

/// How often others may go on while a turn is held.
const HELD: u32 = 2_000;

/// An agent that has made its moves: its pass, which has ended, and what it noted of each.
#[derive(Drop)]
pub struct Played {
    pub pass: EndedPass,
    pub notes: Result<Vec<Note>, Fault>,
}

// What an agent was told, and whether it waited.
#[derive(Drop)]
struct Told {
    text: Vec<u8>,
    waited: bool,
}

/// Makes the moves of the pass's agent, in order, and ends its pass.
pub fn play<R: Wait>(
    rt: &R,
    alloc: Global,
    centre: &SharedCentre,
    stage: &Stage,
    mut pass: CentrePass,
    moves: &[Vec<Move>],
) -> Played
    requires { IsFreshPassOf centre.now pass }
    ensures { IsPlayed centre.now pass result }
{
    let moves = moves_of(moves, pass.number());
    let notes = make_all(rt, alloc, centre, stage, &mut pass, moves);
    Played {
        pass: centre.end(pass),
        notes,
    }
}

// The moves of an agent.
fn moves_of(moves: &[Vec<Move>], agent: u32) -> &[Move] {
    match moves.get(agent as usize) {
        Some(moves) => moves,
        None => &[],
    }
}

// Makes moves, in order. The first call has the number 1.
fn make_all<R: Wait>(
    rt: &R,
    alloc: Global,
    centre: &SharedCentre,
    stage: &Stage,
    pass: &mut CentrePass,
    moves: &[Move],
) -> Result<Vec<Note>, Fault>
    requires { IsFreshPassOf centre.now pass.old }
    ensures { KeepsPass centre.now pass.old pass.new }
{
    let mut notes = Vec::with_capacity(alloc, moves.len())?;
    for next in moves {
        stage.reach(rt, next.after);
        let number = notes.len() as u64 + 1;
        let before = pass.turns();
        let told = make(rt, alloc, centre, stage, pass, number, next.act)?;
        let turns = before.saturating_sub(pass.turns());
        append(&mut notes, note_of(told, turns))?;
    }
    Ok(notes)
}

// The note of a move that took so many turns.
fn note_of(told: Told, turns: u32) -> Note {
    Note {
        told: told.text,
        waited: told.waited,
        turns,
    }
}

// Does what a move says. A call or a poll has this number.
fn make<R: Wait>(
    rt: &R,
    alloc: Global,
    centre: &SharedCentre,
    stage: &Stage,
    pass: &mut CentrePass,
    number: u64,
    act: Act,
) -> Result<Told, Fault>
    requires { MayMove centre.now pass.old number }
    ensures { Moves centre.now pass.old number pass.new }
{
    match act {
        Act::Call(request) => call(rt, alloc, centre, stage, pass, number, request),
        Act::Poll(asked) => poll(rt, alloc, centre, stage, pass, number, asked),
        Act::Hold => hold(rt, alloc, centre, stage, pass),
    }
}

// What was told at once.
fn at_once(text: Vec<u8>) -> Result<Told, Fault> {
    Ok(Told {
        text,
        waited: false,
    })
}

// Makes a call, and waits where that is pending.
fn call<R: Wait>(
    rt: &R,
    alloc: Global,
    centre: &SharedCentre,
    stage: &Stage,
    pass: &mut CentrePass,
    number: u64,
    request: Request,
) -> Result<Told, Fault>
    requires { MayMove centre.now pass.old number }
    ensures { Moves centre.now pass.old number pass.new }
{
    let op = operation(alloc, request)?;
    let called = centre.call(rt, alloc, pass, number, op);
    stage.count();
    match called {
        Ok(Answer::Replied(reply)) => at_once(reply_text(alloc, &reply)?),
        Ok(Answer::Pending) => wait(rt, alloc, centre, pass, number),
        Err(CallFault::TurnsSpent) => at_once(b"no turn left".to_vec(alloc)?),
        Err(CallFault::Full { .. }) => at_once(b"full".to_vec(alloc)?),
        Err(CallFault::NoMemory) => Err(Fault::NoMemory(NoMemory)),
    }
}

// Waits for the reply to the call of this number.
fn wait<R: Wait>(
    rt: &R,
    alloc: Global,
    centre: &SharedCentre,
    pass: &mut CentrePass,
    number: u64,
) -> Result<Told, Fault>
    requires may { MayMove centre.now pass.old (number + 1) }
    requires called { HasCall (call_of pass.old.number number) pass.old.seen }
    ensures { Moves centre.now pass.old number pass.new }
{
    match centre.wait(rt, alloc, pass, number) {
        Ok(reply) => Ok(Told {
            text: reply_text(alloc, &reply)?,
            waited: true,
        }),
        Err(LookFault::TurnsSpent) => Ok(Told {
            text: b"no turn left".to_vec(alloc)?,
            waited: true,
        }),
        Err(LookFault::NoMemory) => Err(Fault::NoMemory(NoMemory)),
    }
}

// Asks what became of an earlier call.
fn poll<R: Wait>(
    rt: &R,
    alloc: Global,
    centre: &SharedCentre,
    stage: &Stage,
    pass: &mut CentrePass,
    number: u64,
    asked: u64,
) -> Result<Told, Fault>
    requires { MayMove centre.now pass.old number }
    ensures { Moves centre.now pass.old number pass.new }
{
    let polled = centre.poll(rt, alloc, pass, number, asked);
    stage.count();
    match polled {
        Ok(Poll::Answered(reply, _)) => at_once(reply_text(alloc, &reply)?),
        Ok(Poll::NotYet) => at_once(b"not yet".to_vec(alloc)?),
        Err(SharedPollFault::TurnsSpent) => at_once(b"no turn left".to_vec(alloc)?),
        Err(SharedPollFault::Stranger) => at_once(b"no such call".to_vec(alloc)?),
        Err(SharedPollFault::Full { .. }) => at_once(b"full".to_vec(alloc)?),
        Err(SharedPollFault::NoMemory) => Err(Fault::NoMemory(NoMemory)),
    }
}

// Takes a turn, lets others come, and gives it back. Tells whether another was served meanwhile.
fn hold<R: Wait>(
    rt: &R,
    alloc: Global,
    centre: &SharedCentre,
    stage: &Stage,
    pass: &mut CentrePass,
) -> Result<Told, Fault>
    requires own { IsPassOf centre.now pass.old }
    requires free { pass.old.holds ≡ false }
    ensures kept { KeepsPass centre.now pass.old pass.new }
    ensures same { pass.new.mine ≡ pass.old.mine }
{
    let Ok(paused) = centre.pause(rt, pass) else {
        return at_once(b"no turn left".to_vec(alloc)?);
    };
    stage.count();
    let alone = is_alone(stage);
    centre.resume(pass, paused);
    at_once(alone_text(alone).to_vec(alloc)?)
}

// Lets others go on, and tells whether none of them has made a move.
fn is_alone(stage: &Stage) -> bool {
    let before = stage.made();
    for _ in 0..HELD {
        yield_now();
    }
    stage.made() == before
}

// What is told of a turn that was held.
fn alone_text(alone: bool) -> &'static [u8] {
    if alone { b"held alone" } else { b"not alone" }
}

//! Crowds: many actors, dealt out to threads.
ghost use Rattle.std.specs.Prelude.{◌≡◌, ◌<◌, ◌≤◌, ◌+◌, ◌*◌, true, false, All};
ghost use Rattle.std.specs.Prelude.{IfOk, IfSome, OnOk, length};
ghost use Rattle.std.specs.List.{AllZip};
ghost use Rattle.tc_sched.specs.Steps.{AllWent, IsReady, IsReadyIfIdle, Moves, Rests, Settles};
ghost use Rattle.tc_sched.specs.Steps.{Stays, Went, WentIfIdle, left_in, left_of, moves_of};

use crate::actor::{Actor, Step};
use std::alloc::Global;
use std::sync::Wait;
use std::sync::atomic::{AtomicBool, Ordering};
use std::thread;
use std::thread::Threads;
use tc_bells::Roll;
use tc_desk::{Desk, Gate};
use tc_lists::NoMemory;
use tc_term::Name;

/// How many sweeps the calling thread makes before another round.
const SWEEPS: u64 = 64;

/// How long sweeps over some actors go on: while each moved some, but no more than so many, and up
/// to so many sweeps.
#[derive(Clone, Copy)]
struct Pace {
    sweeps: u64,
    moves: usize,
}

/// Until a sweep moves no actor.
const TO_THE_END: Pace = Pace {
    sweeps: u64::MAX,
    moves: usize::MAX,
};

/// Makes steps of all actors, in so many threads, until each has ended or its last ask is pending.
///
/// The actors are dealt out to the workers in equal parts, in order. In a round each worker makes
/// sweeps over its actors, a step of each, until none of them moved. Then this thread makes sweeps
/// over all of them, while each moved some, but no more than there are workers: what few can do one
/// after another, new threads would not do sooner. Where more moved, or some still move after many
/// such sweeps, another round follows.
///
/// Whatever is answered, the rows of each actor are those of its first items. After `NoMemory` the
/// actors can be driven on.
pub fn drive<R: Threads + Wait + Sync, D: Desk + Send, G: Gate + Sync>(
    rt: &R,
    actors: &mut [Actor<D>],
    alloc: Global,
    names: &[Name],
    workers: usize,
    gate: &G,
) -> Result<(), NoMemory>
    requires workers { 0 < workers }
    requires ready { All (IsReady D.state (3 * left_in D.state actors.old + 2) names.now)
        actors.old }
    ensures went { AllWent D.state D.bond D.sound
        (3 * left_in D.state actors.old + 2) actors.old actors.new }
    ensures rests { OnOk result (All (Rests D.state) actors.new) }
{
    drive_called(rt, actors, alloc, names, workers, gate, None)
}

/// The same, with a roll of the agents, on which who answers an agent's ask calls it.
///
/// A sweep makes a step of those alone that are called. An actor that waits is struck off before it
/// looks, and so takes no further look before it is called. Where nobody that is called moved, the
/// others that don't wait make a step. The actors' agents are to be in order, each the one after
/// the one before; else more looks are made, or fewer.
pub fn drive_called<R: Threads + Wait + Sync, D: Desk + Send, G: Gate + Sync>(
    rt: &R,
    actors: &mut [Actor<D>],
    alloc: Global,
    names: &[Name],
    workers: usize,
    gate: &G,
    roll: Option<&Roll>,
) -> Result<(), NoMemory>
    requires workers { 0 < workers }
    requires ready { All (IsReady D.state (3 * left_in D.state actors.old + 2) names.now)
        actors.old }
    ensures went { AllWent D.state D.bond D.sound
        (3 * left_in D.state actors.old + 2) actors.old actors.new }
    ensures rests { OnOk result (All (Rests D.state) actors.new) }
{
    let size = actors.len().div_ceil(workers).max(1);
    let alone = Pace {
        sweeps: SWEEPS,
        moves: workers,
    };
    for _ in rt.forever() {
        round(rt, actors, alloc, names, size, gate, roll)?;
        let moved = settle(rt, actors, alloc, names, gate, roll, alone)?;
        if !moved {
            return Ok(());
        }
    }
    unreachable!()
}

// Settles each part of the actors, of this size, in a thread of its own.
fn round<R: Threads + Wait + Sync, D: Desk + Send, G: Gate + Sync>(
    rt: &R,
    actors: &mut [Actor<D>],
    alloc: Global,
    names: &[Name],
    size: usize,
    gate: &G,
    roll: Option<&Roll>,
) -> Result<(), NoMemory>
    requires size { 0 < size }
    requires ready { All (IsReady D.state (left_in D.state actors.old + 1) names.now) actors.old }
    ensures { Settles D.state D.bond D.sound actors.old actors.new }
{
    let failed = AtomicBool::new(false);
    thread::for_each_chunk_mut(
        rt,
        actors,
        size,
        &|_, part: &mut [Actor<D>]|
            requires { All (IsReady D.state (left_in D.state part.old + 1) names.now) part.old }
            ensures { Settles D.state D.bond D.sound part.old part.new }
        {
            if settle(rt, part, alloc, names, gate, roll, TO_THE_END).is_err() {
                failed.store(true, Ordering::SeqCst);
            }
        },
    );
    if failed.load(Ordering::SeqCst) {
        return Err(NoMemory);
    }
    Ok(())
}

// Makes sweeps as long as the pace says, one at least. Whether the last one moved an actor.
fn settle<R: Wait, D: Desk, G: Gate>(
    rt: &R,
    actors: &mut [Actor<D>],
    alloc: Global,
    names: &[Name],
    gate: &G,
    roll: Option<&Roll>,
    pace: Pace,
) -> Result<bool, NoMemory>
    requires sweeps { 0 < pace.sweeps }
    requires ready { All (IsReady D.state (left_in D.state actors.old + 1) names.now) actors.old }
    ensures settles { Settles D.state D.bond D.sound actors.old actors.new }
    ensures moves { IfOk result (λ moved. moved ≡ true
        → Moves D.state D.bond D.sound actors.old actors.new) }
    ensures rests { IfOk result (λ moved. moved ≡ false → All (Rests D.state) actors.new) }
{
    for made in 0..pace.sweeps {
        let moved = sweep(rt, actors, alloc, names, gate, roll)?;
        if moved == 0 {
            return Ok(false);
        }
        if moved > pace.moves {
            return Ok(true);
        }
    }
    Ok(true)
}

// Makes one step of each actor that is called, and where none of them moved, of each other that
// doesn't wait. How many moved.
fn sweep<R: Wait, D: Desk, G: Gate>(
    rt: &R,
    actors: &mut [Actor<D>],
    alloc: Global,
    names: &[Name],
    gate: &G,
    roll: Option<&Roll>,
) -> Result<usize, NoMemory>
    requires ready { All (IsReady D.state 1 names.now) actors.old }
    ensures went { AllWent D.state D.bond D.sound 1 actors.old actors.new }
    ensures moved { IfOk result (λ moved.
        left_in D.state actors.new + moved ≤ left_in D.state actors.old) }
    ensures rests { IfOk result (λ moved. moved ≡ 0 → All (Rests D.state) actors.new) }
{
    let moved = step_called(rt, actors, alloc, names, gate, roll)?;
    if moved > 0 {
        return Ok(moved);
    }
    step_others(rt, actors, alloc, names, gate)
}

// Makes one step of each actor that is called, in order. How many moved.
fn step_called<R: Wait, D: Desk, G: Gate>(
    rt: &R,
    actors: &mut [Actor<D>],
    alloc: Global,
    names: &[Name],
    gate: &G,
    roll: Option<&Roll>,
) -> Result<usize, NoMemory>
    requires ready { All (IsReady D.state 1 names.now) actors.old }
    ensures went { AllWent D.state D.bond D.sound 1 actors.old actors.new }
    ensures moved { IfOk result (λ moved.
        left_in D.state actors.new + moved ≤ left_in D.state actors.old) }
    ensures stays { IfOk result (λ moved. moved ≡ 0
        → AllZip (Stays D.state) actors.old actors.new) }
{
    let mut moved = 0;
    let mut place = 0;
    while let Some(called) = next_called(actors, roll, place) {
        let step = answer(rt, &mut actors[called], alloc, names, gate, roll)?;
        moved += moves(step);
        place = called + 1;
    }
    Ok(moved)
}

// The place of the first actor from `place` on that is called. Without a roll each is.
fn next_called<D: Desk>(actors: &[Actor<D>], roll: Option<&Roll>, place: usize) -> Option<usize>
    ensures { IfSome result (λ called. (place ≤ called) × (called < length actors.now)) }
{
    let first = actors.get(place)?.agent() as usize;
    let Some(roll) = roll else {
        return Some(place);
    };
    let called = roll.next(first, first.saturating_add(actors.len() - place))?;
    Some(place + (called - first))
}

// A step of an actor that is called. Where it waits then, or has ended, it is called no longer.
//
// It is struck off before it looks, so that no call is lost.
fn answer<R: Wait, D: Desk, G: Gate>(
    rt: &R,
    actor: &mut Actor<D>,
    alloc: Global,
    names: &[Name],
    gate: &G,
    roll: Option<&Roll>,
) -> Result<Step, NoMemory>
    requires ready { IsReady D.state 1 names.now actor.old }
    ensures went { Went D.state D.bond D.sound 1 actor.old actor.new }
    ensures moved { IfOk result (λ step.
        left_of D.state actor.new + moves_of step ≤ left_of D.state actor.old) }
    ensures stays { IfOk result (λ step. moves_of step ≡ 0
        → Stays D.state actor.old actor.new) }
{
    let Some(roll) = roll else {
        return actor.step(rt, alloc, names, gate);
    };
    let agent = actor.agent() as usize;
    let waits = actor.is_waiting();
    if waits {
        roll.strike(agent);
    }
    let step = actor.step(rt, alloc, names, gate);
    match step {
        Ok(Step::Blocked) => {}
        Ok(Step::Ended) => roll.strike(agent),
        Ok(Step::Moved) | Err(NoMemory) => {
            if waits {
                roll.call(agent);
            }
        }
    }
    step
}

// Makes one step of each actor that doesn't wait, in order. How many moved.
fn step_others<R: Wait, D: Desk, G: Gate>(
    rt: &R,
    actors: &mut [Actor<D>],
    alloc: Global,
    names: &[Name],
    gate: &G,
) -> Result<usize, NoMemory>
    requires ready { All (IsReadyIfIdle D.state names.now) actors.old }
    ensures went { AllZip (WentIfIdle D.state D.bond D.sound) actors.old actors.new }
    ensures moved { IfOk result (λ moved.
        left_in D.state actors.new + moved ≤ left_in D.state actors.old) }
    ensures rests { IfOk result (λ moved. moved ≡ 0 → All (Rests D.state) actors.new) }
{
    let mut moved = 0;
    for i in 0..actors.len() {
        let step = step_unless_waiting(rt, &mut actors[i], alloc, names, gate)?;
        moved += moves(step);
    }
    Ok(moved)
}

// A step of an actor, which takes no look where it waits.
fn step_unless_waiting<R: Wait, D: Desk, G: Gate>(
    rt: &R,
    actor: &mut Actor<D>,
    alloc: Global,
    names: &[Name],
    gate: &G,
) -> Result<Step, NoMemory>
    requires ready { IsReadyIfIdle D.state names.now actor.old }
    ensures went { WentIfIdle D.state D.bond D.sound actor.old actor.new }
    ensures moved { IfOk result (λ step.
        left_of D.state actor.new + moves_of step ≤ left_of D.state actor.old) }
    ensures rests { IfOk result (λ step. moves_of step ≡ 0 → Rests D.state actor.new) }
{
    if actor.is_waiting() {
        return Ok(Step::Blocked);
    }
    actor.step(rt, alloc, names, gate)
}

// 1 where the actor moved.
fn moves(step: Step) -> usize
    ensures { result ≡ moves_of step }
{
    match step {
        Step::Moved => 1,
        Step::Blocked | Step::Ended => 0,
    }
}

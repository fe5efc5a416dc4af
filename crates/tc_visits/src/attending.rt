//! Sessions, attended to as they stir.
ghost use Rattle.std.specs.Prelude.{◌≡◌, ◌<◌, length};

use crate::calls::Calls;
use crate::seats::Seat;
use std::alloc::Global;
use std::sync::Wait;
use tc_io::{Door, Link};

/// How long, in milliseconds, a peer is waited for that has to end yet, once all sessions have.
const LONGEST_REST: u64 = 200;

/// How often sessions are gone through at most before others are asked whether they have stirred.
const MOST_ROUNDS: u32 = 2;

/// Attends to sessions until a connection has come.
pub(crate) fn attend_till_come<R: Wait, D: Door>(
    rt: &R,
    alloc: Global,
    door: &mut D,
    calls: &Calls,
    seats: &mut [Seat<D::Conn>],
    buffer: &mut [u8],
)
    requires { 0 < length buffer.old }
    ensures opened { D.opened door.new ≡ D.opened door.old }
    ensures faults { D.door_faults door.new ≡ D.door_faults door.old }
    ensures seats { seats.new ≡ seats.old }
{
    for _ in rt.forever() {
        if door.has_come() {
            return;
        }
        attend(rt, alloc, door, calls, seats, buffer, None);
    }
}

/// Attends to sessions until each has ended, and its peer too; but no peer is waited for for long
/// that doesn't end.
pub(crate) fn attend_to_the_end<R: Wait, D: Door>(
    rt: &R,
    alloc: Global,
    door: &mut D,
    calls: &Calls,
    seats: &mut [Seat<D::Conn>],
    buffer: &mut [u8],
)
    requires { 0 < length buffer.old }
    ensures opened { D.opened door.new ≡ D.opened door.old }
    ensures faults { D.door_faults door.new ≡ D.door_faults door.old }
    ensures seats { seats.new ≡ seats.old }
{
    attend_till_over(rt, alloc, door, calls, seats, buffer);
    attend_till_done(rt, alloc, door, calls, seats, buffer);
}

// Attends to sessions until each has ended, and what it has written has gone on. Where all others
// are done, the last one goes on alone.
fn attend_till_over<R: Wait, D: Door>(
    rt: &R,
    alloc: Global,
    door: &mut D,
    calls: &Calls,
    seats: &mut [Seat<D::Conn>],
    buffer: &mut [u8],
)
    requires { 0 < length buffer.old }
    ensures opened { D.opened door.new ≡ D.opened door.old }
    ensures faults { D.door_faults door.new ≡ D.door_faults door.old }
    ensures seats { seats.new ≡ seats.old }
{
    let mut over = 0;
    let mut undone = 0;
    let mut others = 0;
    for _ in rt.forever() {
        over = pass_over(seats, over);
        if over >= seats.len() {
            return;
        }
        undone = pass_done(seats, undone);
        others = pass_done(seats, others.max(over + 1));
        let is_last = undone == over && others >= seats.len();
        if !end_last(rt, alloc, calls, seats, over, is_last, buffer) {
            attend(rt, alloc, door, calls, seats, buffer, None);
        }
    }
}

// Has the session at a place end, for which it waits, where it is the last one and that can be.
// Whether it has ended now.
fn end_last<R: Wait, L: Link + Drop>(
    rt: &R,
    alloc: Global,
    calls: &Calls,
    seats: &mut [Seat<L>],
    place: usize,
    is_last: bool,
    buffer: &mut [u8],
) -> bool
    requires inside { place < length seats.old }
    requires buffer { 0 < length buffer.old }
    ensures seats { seats.new ≡ seats.old }
{
    is_last && seats[place].end_alone(rt, alloc, place, calls, buffer)
}

// Attends to sessions that have ended until their peers have, too, as long as something stirs.
fn attend_till_done<R: Wait, D: Door>(
    rt: &R,
    alloc: Global,
    door: &mut D,
    calls: &Calls,
    seats: &mut [Seat<D::Conn>],
    buffer: &mut [u8],
)
    requires { 0 < length buffer.old }
    ensures opened { D.opened door.new ≡ D.opened door.old }
    ensures faults { D.door_faults door.new ≡ D.door_faults door.old }
    ensures seats { seats.new ≡ seats.old }
{
    let mut done = 0;
    for _ in rt.forever() {
        done = pass_done(seats, done);
        if done >= seats.len() {
            return;
        }
        if !attend(rt, alloc, door, calls, seats, buffer, Some(LONGEST_REST)) {
            return;
        }
    }
}

// The first place from this one on at which a session isn't over.
fn pass_over<L: Link + Drop>(seats: &mut [Seat<L>], from: usize) -> usize
    ensures { seats.new ≡ seats.old }
{
    let mut place = from;
    while place < seats.len() {
        if !is_over_at(seats, place) {
            return place;
        }
        place += 1;
    }
    place
}

// Whether the session at a place is over.
fn is_over_at<L: Link + Drop>(seats: &mut [Seat<L>], place: usize) -> bool
    requires { place < length seats.old }
    ensures { seats.new ≡ seats.old }
{
    seats[place].is_over()
}

// The first place from this one on whose peer hasn't ended.
fn pass_done<L: Link + Drop>(seats: &[Seat<L>], from: usize) -> usize {
    let mut place = from;
    while place < seats.len() {
        if !seats[place].is_done() {
            return place;
        }
        place += 1;
    }
    place
}

// Rests until something stirs, and attends to the sessions that have stirred, and to those whose
// agents they have answered. Whether something has stirred.
fn attend<R: Wait, D: Door>(
    rt: &R,
    alloc: Global,
    door: &mut D,
    calls: &Calls,
    seats: &mut [Seat<D::Conn>],
    buffer: &mut [u8],
    most: Option<u64>,
) -> bool
    requires { 0 < length buffer.old }
    ensures opened { D.opened door.new ≡ D.opened door.old }
    ensures faults { D.door_faults door.new ≡ D.door_faults door.old }
    ensures seats { seats.new ≡ seats.old }
{
    let most = if calls.are_stirred(seats.len()) {
        Some(0)
    } else {
        most
    };
    door.rest(most);
    note_stirs(rt, door, calls);
    let has_stirred = calls.are_stirred(seats.len());
    for _ in 0..MOST_ROUNDS {
        attend_stirred(rt, alloc, calls, seats, buffer);
        stir_answered(calls, seats);
        if !calls.are_stirred(seats.len()) {
            return has_stirred;
        }
    }
    has_stirred
}

// Notes the connections at which the latest rest has ended.
fn note_stirs<R: Wait, D: Door>(rt: &R, door: &mut D, calls: &Calls)
    ensures opened { D.opened door.new ≡ D.opened door.old }
    ensures faults { D.door_faults door.new ≡ D.door_faults door.old }
{
    for _ in rt.forever() {
        match door.next_stir() {
            Some(stir) => calls.note(stir),
            None => return,
        }
    }
}

// Attends to the sessions that have stirred, once to each.
fn attend_stirred<R: Wait, L: Link + Drop>(
    rt: &R,
    alloc: Global,
    calls: &Calls,
    seats: &mut [Seat<L>],
    buffer: &mut [u8],
)
    requires { 0 < length buffer.old }
    ensures { seats.new ≡ seats.old }
{
    let mut from = 0;
    while let Some(number) = calls.next_stirred(from, seats.len()) {
        attend_one(rt, alloc, calls, seats, number, buffer);
        from = number + 1;
    }
}

// Attends to the session of this number.
fn attend_one<R: Wait, L: Link + Drop>(
    rt: &R,
    alloc: Global,
    calls: &Calls,
    seats: &mut [Seat<L>],
    number: usize,
    buffer: &mut [u8],
)
    requires inside { number < length seats.old }
    requires buffer { 0 < length buffer.old }
    ensures { seats.new ≡ seats.old }
{
    seats[number].go_on(rt, alloc, number, calls, buffer);
}

// Has the sessions looked after that wait for an answer and have it.
fn stir_answered<L: Link + Drop>(calls: &Calls, seats: &[Seat<L>]) {
    let mut from = 0;
    while let Some(number) = calls.next_answered(from, seats.len()) {
        if seats[number].is_waiting() {
            calls.stir(number);
        }
        from = number + 1;
    }
}

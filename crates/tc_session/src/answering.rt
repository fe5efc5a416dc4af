//! One line at a desk.
ghost use Rattle.std.specs.Prelude.{◌≡◌, ◌+◌, ◌<◌, ◌≤◌, List, [], ◌∷◌, ◌++◌, true};
ghost use Rattle.std.specs.Prelude.{Ok, Some, IfSome, IsSomeAnd, IsTrue, codes};
ghost use Rattle.std.specs.Prelude.{length, slice_get, vec_len, vec_capacity};
ghost use Rattle.tc_desk.specs.declared.rows.LogRow.{LogRow};
ghost use Rattle.tc_desk.specs.declared.rows.LogResult.TheVariants.{Pending};
ghost use Rattle.tc_histline.specs.Text.{result_text};
ghost use Rattle.tc_histline.specs.Text.{refusal_text as refusal_words};
ghost use Rattle.tc_histline.specs.declared.versions.Version.TheVariants.{One};
ghost use Rattle.tc_lines.specs.Replies.{error_line, reply_line};
ghost use Rattle.tc_session.specs.Answering.{IsCame, IsPendingPlace, IsPushed, PendsAt, came_of};
ghost use Rattle.tc_session.specs.Answers.{KeepsDesk};

use crate::texts::{push_error, push_row, push_words};
use std::alloc::Global;
use std::sync::Wait;
use tc_desk::{Desk, DeskFault, LogRow, Refusal, Seen, Served};
use tc_lines::{BadLine, LineAsk, refusal_text};
use tc_lists::NoMemory;
use tc_model::Ask;
use tc_term::Name;

/// The room, in bytes, that is made before a line is looked at. Each reply of fixed words fits in.
pub(crate) const ROOM: usize = 32;

/// What a line came to.
#[derive(Clone, Copy)]
pub(crate) enum Came {
    /// It was answered.
    GoesOn,
    /// It asked for the end.
    Quits,
    /// No memory was found for it.
    NoMemory,
    /// It was served, and its reply found no room.
    Unwritten,
}

/// Does what a line asks, and appends its reply.
pub(crate) fn answer<R: Wait, D: Desk>(
    rt: &R,
    alloc: Global,
    desk: &mut D,
    pending: &mut Option<usize>,
    asked: Result<LineAsk, BadLine>,
    replies: &mut Vec<u8>,
) -> Came
    requires free { (D.state desk.old).free ≡ true }
    requires pends { PendsAt (D.state desk.old).log pending.old }
    requires room { vec_len replies.old + ROOM ≤ vec_capacity replies.old }
    ensures came { IsCame (D.state desk.old) asked replies.old.items result replies.new.items
        (D.state desk.new) }
    ensures pends { PendsAt (D.state desk.new).log pending.new }
    ensures kept { KeepsDesk (D.state desk.old) (D.state desk.new) }
    ensures bond { D.bond desk.new ≡ D.bond desk.old }
    ensures sound { D.sound desk.old → D.sound desk.new }
{
    match asked {
        Ok(LineAsk::Call(centre, ask)) => {
            answer_call(rt, alloc, desk, pending, &centre, ask, replies)
        }
        Ok(LineAsk::Poll) => answer_poll(rt, alloc, desk, pending, replies),
        Ok(LineAsk::Wait) => answer_wait(rt, alloc, desk, pending, replies),
        Ok(LineAsk::Quit) => {
            push_words(b"bye", replies);
            Came::Quits
        }
        Err(BadLine::Syntax) => complain(b"line syntax", replies),
        Err(BadLine::Size) => complain(b"line size", replies),
        Err(BadLine::Shape) => complain(b"line shape", replies),
        Err(BadLine::NoMemory) => tell_no_memory(replies),
    }
}

// Makes a call.
fn answer_call<R: Wait, D: Desk>(
    rt: &R,
    alloc: Global,
    desk: &mut D,
    pending: &mut Option<usize>,
    centre: &Name,
    ask: Ask,
    replies: &mut Vec<u8>,
) -> Came
    requires free { (D.state desk.old).free ≡ true }
    requires pends { PendsAt (D.state desk.old).log pending.old }
    requires room { vec_len replies.old + ROOM ≤ vec_capacity replies.old }
    ensures came { IsCame (D.state desk.old) (Ok (LineAsk.Call centre.now ask)) replies.old.items
        result replies.new.items (D.state desk.new) }
    ensures pends { PendsAt (D.state desk.new).log pending.new }
    ensures kept { KeepsDesk (D.state desk.old) (D.state desk.new) }
    ensures bond { D.bond desk.new ≡ D.bond desk.old }
    ensures sound { D.sound desk.old → D.sound desk.new }
{
    match desk.call(rt, alloc, centre, ask) {
        Ok(Served::Replied) => push_last(alloc, desk.log(), replies),
        Ok(Served::Pending) => {
            *pending = Some(desk.log().len() - 1);
            push_words(b"pending", replies);
            Came::GoesOn
        }
        Err(why) => {
            if why == Refusal::NoMemory {
                tell_no_memory(replies)
            } else {
                push_refusal(why, replies)
            }
        }
    }
}

// Polls.
fn answer_poll<R: Wait, D: Desk>(
    rt: &R,
    alloc: Global,
    desk: &mut D,
    pending: &mut Option<usize>,
    replies: &mut Vec<u8>,
) -> Came
    requires free { (D.state desk.old).free ≡ true }
    requires pends { PendsAt (D.state desk.old).log pending.old }
    requires room { vec_len replies.old + ROOM ≤ vec_capacity replies.old }
    ensures came { IsCame (D.state desk.old) (Ok LineAsk.Poll) replies.old.items result
        replies.new.items (D.state desk.new) }
    ensures pends { PendsAt (D.state desk.new).log pending.new }
    ensures kept { KeepsDesk (D.state desk.old) (D.state desk.new) }
    ensures bond { D.bond desk.new ≡ D.bond desk.old }
    ensures sound { D.sound desk.old → D.sound desk.new }
{
    match desk.poll(rt, alloc) {
        Ok(Seen::Answered) => push_answered(alloc, desk.log(), pending.take(), replies),
        Ok(Seen::StillPending) => {
            push_words(b"pending", replies);
            Came::GoesOn
        }
        Err(DeskFault::Full { .. }) => complain(b"full", replies),
        Err(DeskFault::Idle) => complain(b"idle", replies),
        Err(DeskFault::TurnsSpent) => complain(b"turns spent", replies),
        Err(DeskFault::NoMemory) => tell_no_memory(replies),
    }
}

// Waits.
fn answer_wait<R: Wait, D: Desk>(
    rt: &R,
    alloc: Global,
    desk: &mut D,
    pending: &mut Option<usize>,
    replies: &mut Vec<u8>,
) -> Came
    requires free { (D.state desk.old).free ≡ true }
    requires pends { PendsAt (D.state desk.old).log pending.old }
    requires room { vec_len replies.old + ROOM ≤ vec_capacity replies.old }
    ensures came { IsCame (D.state desk.old) (Ok LineAsk.Wait) replies.old.items result
        replies.new.items (D.state desk.new) }
    ensures pends { PendsAt (D.state desk.new).log pending.new }
    ensures kept { KeepsDesk (D.state desk.old) (D.state desk.new) }
    ensures bond { D.bond desk.new ≡ D.bond desk.old }
    ensures sound { D.sound desk.old → D.sound desk.new }
{
    match desk.wait(rt, alloc) {
        Ok(()) => push_answered(alloc, desk.log(), pending.take(), replies),
        Err(DeskFault::Idle) => complain(b"idle", replies),
        Err(DeskFault::TurnsSpent) => complain(b"turns spent", replies),
        Err(DeskFault::NoMemory) => tell_no_memory(replies),
        Err(DeskFault::Full { .. }) => unreachable!(),
    }
}

/// The place of a row that is pending, the last one first.
pub(crate) fn pending_place(log: &[LogRow]) -> Option<usize>
    ensures { PendsAt log.now result }
{
    for behind in 0..log.len() {
        let place = log.len() - 1 - behind;
        if is_pending_at(log, place) {
            return Some(place);
        }
    }
    None
}

// Whether the row at this place is pending.
fn is_pending_at(log: &[LogRow], place: usize) -> bool
    requires { place < length log.now }
    ensures found { IsTrue result → IsPendingPlace log.now place }
    ensures told { (row : LogRow) → slice_get log.now place ≡ Some row
        → row.result ≡ Pending → IsTrue result }
{
    log[place].is_pending()
}

// Appends what became of the last ask.
#[tactic(auto, using(crate::proofs::Coming::last_pushed))]
fn push_last(alloc: Global, log: &[LogRow], replies: &mut Vec<u8>) -> Came
    requires { 0 < length log.now }
    ensures { (front : List LogRow) (row : LogRow) → log.now ≡ front ++ row ∷ []
        → IsPushed (reply_line (result_text One row.result)) replies.old.items result
        replies.new.items }
{
    outcome(push_row(alloc, log, log.len() - 1, replies))
}

// Appends why an ask was refused.
#[tactic(auto, using(crate::proofs::Coming::pushed_so))]
fn push_refusal(why: Refusal, replies: &mut Vec<u8>) -> Came
    ensures { IsPushed (error_line (refusal_words One why)) replies.old.items result
        replies.new.items }
{
    outcome(refusal_text(why, replies))
}

// Appends the reply of the row at this place.
fn push_answered(alloc: Global, log: &[LogRow], place: Option<usize>, replies: &mut Vec<u8>) -> Came
    requires { IsSomeAnd place (λ k. k < length log.now) }
    ensures { (row : LogRow) → IfSome place (λ k. slice_get log.now k ≡ Some row)
        → IsPushed (reply_line (result_text One row.result)) replies.old.items result
        replies.new.items }
{
    let Some(place) = place else {
        unreachable!();
    };
    outcome(push_row(alloc, log, place, replies))
}

// Whether the reply was appended.
fn outcome(written: Result<(), NoMemory>) -> Came
    ensures { result ≡ came_of written }
{
    match written {
        Ok(()) => Came::GoesOn,
        Err(_) => Came::Unwritten,
    }
}

// Appends what is wrong with the line, or why the desk did nothing.
fn complain(words: &[u8], replies: &mut Vec<u8>) -> Came
    requires { vec_len replies.old + length words.now + 7 ≤ vec_capacity replies.old }
    ensures came { result ≡ Came.GoesOn }
    ensures text { replies.new.items ≡ replies.old.items ++ error_line words.now }
{
    push_error(words, replies);
    Came::GoesOn
}

// Appends that no memory was found.
fn tell_no_memory(replies: &mut Vec<u8>) -> Came
    requires { vec_len replies.old + ROOM ≤ vec_capacity replies.old }
    ensures came { result ≡ Came.NoMemory }
    ensures text { replies.new.items ≡ replies.old.items ++ error_line (codes "no memory") }
{
    push_error(b"no memory", replies);
    Came::NoMemory
}

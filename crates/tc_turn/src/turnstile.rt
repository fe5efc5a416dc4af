//! The turnstile, and what a thread does at it.
ghost use Rattle.std.specs.Prelude.{◌≡◌, ℕ, ◌<◌, ◌≤◌, ◌+◌, [], ◌∷◌, ◌++◌};
ghost use Rattle.std.specs.Prelude.{true, false, List, IfOk, OnErr, All};
ghost use Rattle.tc_turn.specs.Owners.{entries_of, OthersOwnNone};
ghost use Rattle.tc_turn.specs.Passes.{IsPassOfTurnstile, Enters, Leaves, LearnsCount, AgreesWith};
ghost use Rattle.tc_turn.specs.Passes.{IsMaker, end_of, new_pass, new_passes};
ghost use Rattle.tc_turn.specs.Passes.{ended_count, record_of_ended};

use crate::chronicle::Chronicle;
use crate::order::Founding;
use crate::pass::{Ended, Held, Pass, Turn};
use crate::ticket_lock::{TicketLock, TurnSeat};
use std::alloc::Global;
use std::marker::Model;
use std::snapshot::Snapshot;
use std::sync::Wait;
use tc_lists::NoMemory;
use thiserror::Error;

/// The pass has no turn left.
#[derive(Clone, Copy, Debug, PartialEq, Eq, Drop, Error)]
#[error("the pass has no turn left")]
pub struct TurnsSpent;

/// A ticket lock round a value, which each pass checks out for one turn at a time.
///
/// Turns are taken in the order of their tickets; while tickets are out, a thread may wait before it
/// takes one. A pass that is dropped while it holds a turn stops all others.
#[derive(Drop)]
pub struct Turnstile<C: Chronicle> {
    lock: TicketLock<C>,
}

impl<C: Chronicle> Model for Turnstile<C> {
    ghost use Rattle.tc_turn.specs.Passes.{TurnstileState};

    ghost Value = { TurnstileState C.Origin };

    ghost view = { λ t. record {
      table = t.lock.table.shared.table_id;
      origin = C.origin t.lock.table.shared.key.first.value;
      passes = t.lock.table.shared.key.passes;
    } };
}

impl<C: Chronicle + Drop> Turnstile<C> {
    /// A turnstile round the value, and its passes by number from 0 on, each with so many turns.
    ///
    /// Where memory runs out the value is dropped.
    pub fn new(
        alloc: Global,
        value: C,
        passes: u32,
        turns: u32,
    ) -> Result<(Turnstile<C>, Vec<Pass<C>>), NoMemory>
        requires empty { C.history value ≡ [] }
        ensures turnstile { IfOk result (λ r.
            (r.0.origin ≡ C.origin value) × (r.0.passes ≡ passes)) }
        ensures passes { IfOk result (λ r.
            r.1.items ≡ new_passes r.0.table (C.origin value) turns 0 passes) }
    {
        let mut all = Vec::with_capacity(alloc, passes as usize)?;
        let mut slots = Vec::with_capacity(alloc, 1)?;
        let founding = Founding {
            first: Snapshot::of(&value),
            passes: u64::from(passes),
            turns: u64::from(turns),
        };
        slots.push_reserved(Some(value));
        let (lock, mut maker) = TicketLock::new(alloc, slots, &founding)?;
        for number in 0..passes {
            let pass = make_pass(&lock, &mut maker, number, turns);
            all.push_reserved(pass);
        }
        Ok((Turnstile { lock }, all))
    }
}

impl<C: Chronicle> Turnstile<C> {
    /// Takes a ticket, waits for its turn, and checks the value out.
    pub fn enter<R: Wait>(&self, rt: &R, pass: &mut Pass<C>) -> Result<Held<C>, TurnsSpent>
        requires own { IsPassOfTurnstile self.now pass.old }
        requires free { pass.old.holds ≡ false }
        ensures origin { IfOk result (λ held. C.origin held.value ≡ self.now.origin) }
        ensures entered { IfOk result (λ held.
            Enters C.owner pass.old (C.history held.value) pass.new) }
        ensures spent { OnErr result ((pass.old.turns ≡ 0) × (pass.new ≡ pass.old)) }
    {
        if pass.turns == 0 {
            return Err(TurnsSpent);
        }
        self.lock.approach(rt);
        let ticket = self.lock.take_ticket(&mut pass.seat);
        self.lock.wait_turn(rt, &mut pass.seat, ticket);
        let value = self.lock.take_value(&mut pass.seat);
        pass.turns -= 1;
        pass.known = value.entries();
        Ok(Held { value, turn: Turn })
    }

    /// Returns the value, makes what was added to its history known, and passes the turn on.
    pub fn leave(&self, pass: &mut Pass<C>, held: Held<C>)
        requires own { IsPassOfTurnstile self.now pass.old }
        requires held { pass.old.holds ≡ true }
        requires origin { C.origin held.value ≡ self.now.origin }
        requires grown { (new : List C.Entry)
            × (C.history held.value ≡ pass.old.seen ++ new)
            × OthersOwnNone C.owner pass.old.number new }
        ensures { Leaves C.owner pass.old (C.history held.value) pass.new }
    {
        let Held { value, turn: Turn } = held;
        let entries = value.entries();
        let grown = entries - pass.known;
        self.lock.put_value(&mut pass.seat, value);
        self.lock.publish(&mut pass.seat, grown);
        self.lock.pass_turn(&mut pass.seat);
        pass.known = entries;
    }

    /// Reads how many entries the history has at some moment of the call, without a turn.
    pub fn count(&self, pass: &mut Pass<C>) -> u64
        requires own { IsPassOfTurnstile self.now pass.old }
        requires free { pass.old.holds ≡ false }
        ensures { LearnsCount pass.old result pass.new }
    {
        self.lock.count(&mut pass.seat)
    }

    /// Ends the pass. The turns that it has left are gone.
    pub fn end(&self, pass: Pass<C>) -> Ended<C>
        requires own { IsPassOfTurnstile self.now pass }
        requires free { pass.holds ≡ false }
        ensures { result ≡ end_of pass }
    {
        let Pass { seat, .. } = pass;
        Ended { seat }
    }

    /// Ends the turnstile, once each of its passes has ended, and gives the value.
    ///
    /// The list may have any order.
    pub fn close(self, mut ended: Vec<Ended<C>>) -> C
        requires own { All (λ e. e.table ≡ self.table) ended.items }
        requires whole { (n : ℕ) → n < self.passes → 0 < ended_count n ended.items }
        ensures origin { C.origin result ≡ self.origin }
        ensures seen { All (AgreesWith C.owner (C.history result)) ended.items }
        ensures others { (n : ℕ) → self.passes ≤ n → entries_of C.owner n (C.history result) ≡ [] }
    {
        let Turnstile { lock } = self;
        let mut seat = lock.gather();
        while let Some(one) = ended.pop() {
            take_in(&lock, &mut seat, one);
        }
        lock.close(seat)
    }
}

// The next pass, cut off the maker's seat.
fn make_pass<C: Chronicle>(
    lock: &TicketLock<C>,
    maker: &mut TurnSeat<C>,
    number: u32,
    turns: u32,
) -> Pass<C>
    requires table { maker.old.table_id ≡ lock.now.table.shared.table_id }
    requires left { IsMaker maker.old.me.0 (C.origin lock.now.table.shared.key.first.value)
        lock.now.table.shared.key.passes number turns
        × (number < lock.now.table.shared.key.passes) }
    ensures table { maker.new.table_id ≡ maker.old.table_id }
    ensures left { IsMaker maker.new.me.0 (C.origin lock.now.table.shared.key.first.value)
        lock.now.table.shared.key.passes (number + 1) turns }
    ensures pass { result ≡ new_pass lock.now.table.shared.table_id
        (C.origin lock.now.table.shared.key.first.value) turns number }
{
    let seat = lock.make_pass(maker);
    Pass {
        seat,
        number,
        turns,
        known: 0,
    }
}

// Takes in the seat of a pass that has ended.
fn take_in<C: Chronicle>(lock: &TicketLock<C>, seat: &mut TurnSeat<C>, one: Ended<C>)
    requires table { (seat.old.table_id ≡ lock.now.table.shared.table_id)
        × (one.table ≡ lock.now.table.shared.table_id) }
    ensures table { seat.new.table_id ≡ seat.old.table_id }
    ensures ended { seat.new.me.0.ended ≡ record_of_ended one ∷ seat.old.me.0.ended }
{
    let Ended { seat: other } = one;
    lock.take_in(seat, other);
}

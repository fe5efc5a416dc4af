//! What a thread goes through the turnstile with: a pass, the value while the pass holds a turn, and
//! a pass that has ended.
ghost use Rattle.std.specs.Prelude.{◌≡◌, length};

use crate::chronicle::Chronicle;
use crate::ticket_lock::TurnSeat;
use std::marker::Model;

/// A pass of a turnstile: it knows a beginning of the value's history, and the entries that it owns.
#[derive(Drop)]
pub struct Pass<C: Chronicle> {
    pub(crate) seat: TurnSeat<C>,
    pub(crate) number: u32,
    pub(crate) turns: u32,
    pub(crate) known: u64,
}

impl<C: Chronicle> Model for Pass<C> {
    ghost use Rattle.tc_turn.specs.Passes.{PassState, pass_state, IsPassSeat};

    ghost Value = { PassState C.Entry C.Origin };

    ghost view = { λ p. pass_state p.seat.table_id p.seat.me.0 };

    ghost invariant = { λ p. IsPassSeat C.owner p.seat.me p.number p.turns p.known };
}

impl<C: Chronicle> Pass<C> {
    /// Its number, under which it owns entries. The passes of a turnstile count from 0.
    pub fn number(&self) -> u32
        ensures { result ≡ self.now.number }
    {
        self.number
    }

    /// How many turns are left.
    pub fn turns(&self) -> u32
        ensures { result ≡ self.now.turns }
    {
        self.turns
    }

    /// How many entries it knows.
    pub fn known(&self) -> u64
        ensures { result ≡ length self.now.seen }
    {
        self.known
    }
}

/// The right to give the value back. It has no `Drop`.
pub(crate) struct Turn;

/// The value, checked out by the pass that holds a turn.
///
/// It has no `Drop`: give it back by `leave`.
pub struct Held<C> {
    pub value: C,
    pub(crate) turn: Turn,
}

/// A pass that has ended.
#[derive(Drop)]
pub struct Ended<C: Chronicle> {
    pub(crate) seat: TurnSeat<C>,
}

impl<C: Chronicle> Model for Ended<C> {
    ghost use Rattle.tc_turn.specs.Passes.{EndedState, ended_state, IsEndedSeat};

    ghost Value = { EndedState C.Entry };

    ghost view = { λ p. ended_state p.seat.table_id p.seat.me.0 };

    ghost invariant = { λ p. IsEndedSeat p.seat.me };
}

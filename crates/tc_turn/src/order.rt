//! The rule of the turnstile's table, and what each step on it tells.
//!
//! Word 0 counts the tickets, word 1 the turns that were passed on, word 2 the entries that are
//! known. Slot 0 is the value's.
use crate::chronicle::Chronicle;
use crate::view::View;
use atomic_table::{Join, Play, Split, TableRule};
use std::snapshot::Snapshot;

/// What the table is told once: the value as it was at first, how many passes, and the turns of each.
#[derive(Drop)]
pub struct Founding<C> {
    pub first: Snapshot<C>,
    pub passes: u64,
    pub turns: u64,
}

/// The rule of the table: who may do which step, and what each step leaves.
pub struct Order;

impl<C: Chronicle> TableRule<Option<C>, View<C::Entry, C::Origin>, Founding<C>> for Order {
    ghost use Rattle.tc_turn.specs.Order.{IsOrderly};
    ghost use Rattle.tc_turn.specs.Views.{maker_view};

    ghost holds = { λ key. IsOrderly C.history C.origin C.owner
        (C.origin key.first.value) key.passes key.turns };

    ghost first = { λ key. maker_view (C.origin key.first.value) key.passes key.turns };
}

pub(crate) struct TakeTicket;

impl<C: Chronicle> Play<Option<C>, View<C::Entry, C::Origin>> for TakeTicket {
    ghost use Rattle.tc_turn.specs.Steps.{TakesTicket};

    ghost then = { TakesTicket };
}

pub(crate) struct SeeTurn;

impl<C: Chronicle> Play<Option<C>, View<C::Entry, C::Origin>> for SeeTurn {
    ghost use Rattle.tc_turn.specs.Steps.{SeesTurn};

    ghost then = { SeesTurn C.history C.origin C.owner };
}

pub(crate) struct Publish;

impl<C: Chronicle> Play<Option<C>, View<C::Entry, C::Origin>> for Publish {
    ghost use Rattle.tc_turn.specs.Steps.{Publishes};

    ghost then = { Publishes C.history C.owner };
}

pub(crate) struct PassTurn;

impl<C: Chronicle> Play<Option<C>, View<C::Entry, C::Origin>> for PassTurn {
    ghost use Rattle.tc_turn.specs.Steps.{PassesTurn};

    ghost then = { PassesTurn };
}

pub(crate) struct ReadCount;

impl<C: Chronicle> Play<Option<C>, View<C::Entry, C::Origin>> for ReadCount {
    ghost use Rattle.tc_turn.specs.Steps.{ReadsCount};

    ghost then = { ReadsCount };
}

pub(crate) struct Gather;

impl<C: Chronicle> Play<Option<C>, View<C::Entry, C::Origin>> for Gather {
    ghost use Rattle.tc_turn.specs.Steps.{Gathers};

    ghost then = { Gathers };
}

pub(crate) struct MakePass;

impl<E, O> Split<View<E, O>> for MakePass {
    ghost use Rattle.tc_turn.specs.Views.{rest_view, pass_view};

    ghost left = { rest_view };

    ghost right = { pass_view };
}

pub(crate) struct TakeIn;

impl<E, O> Join<View<E, O>> for TakeIn {
    ghost use Rattle.tc_turn.specs.Views.{with_ended, blank_view};

    ghost both = { with_ended };

    ghost spent = { blank_view };
}

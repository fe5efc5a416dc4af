//! The table of a turnstile, and its single steps: what each needs of the seat, and what it makes of it.
//!
//! A thread takes no ticket while tickets are out, unless it was passed over for long: so tickets are
//! few, and a thread that comes back at once has its turn at once. Who has a ticket is served in the
//! order of tickets.
ghost use Rattle.std.specs.Prelude.{◌≡◌, ℕ, ◌<◌, ◌≤◌, ◌*◌, ◌^◌, [], ◌∷◌, Some};
ghost use Rattle.std.specs.Prelude.{None, length, IfOk, MatchBool, All, sum_by};
ghost use Rattle.tc_turn.specs.Owners.{entries_of, own_entries};
ghost use Rattle.tc_turn.specs.Views.{blank_view, maker_view, rest_view, pass_view, with_ticket};
ghost use Rattle.tc_turn.specs.Views.{with_entries, without_turn, with_floor, with_ended};
ghost use Rattle.tc_turn.specs.Order.{FitsRecord, one_if_record};
ghost use Rattle.tc_turn.specs.Steps.{TakesTurn};
ghost use Rattle.tc_turn.specs.Seats.{IsIdle, Awaits, Holds, HasNewEntries, HasAllKnown, KnowsItsOwn};
ghost use Rattle.tc_turn.specs.Passes.{IsEndedSeat};

use crate::bells::TicketBells;
use crate::chronicle::Chronicle;
use crate::entrance::Entrance;
use crate::order::{
    Founding, Gather, MakePass, Order, PassTurn, Publish, ReadCount, SeeTurn, TakeIn, TakeTicket,
};
use crate::view::View;
use atomic_table::{Refused, Seat, Table};
use std::alloc::Global;
use std::hint::spin_loop;
use std::sync::Wait;
use tc_lists::NoMemory;

/// The word that counts the tickets.
const TICKETS: usize = 0;
/// The word that counts the turns that were passed on.
const TURNS: usize = 1;
/// The word that counts the entries that are known.
const ENTRIES: usize = 2;

/// How often a thread looks whether its ticket is next, before it sleeps: less than a microsecond.
const LOOKS: u32 = 100;

/// So many looks find no ticket out where nobody comes back at once: some two microseconds.
const IDLE_LOOKS: u32 = 400;

/// How often the thread that watches looks before it dozes: some ten microseconds.
const WATCHED_LOOKS: u32 = 2_000;

/// After so many turns the thread that watches dozes: others come back at once.
const WATCHED_TURNS: u64 = 2;

/// How often the thread that watches dozes.
const DOZES: u32 = 3;

/// How often a thread sleeps at the entrance before it takes a ticket though others are out.
const SLEEPS: u32 = 2;

pub(crate) type TurnSeat<C> = Seat<
    Option<C>,
    View<<C as Chronicle>::Entry, <C as Chronicle>::Origin>,
>;

type TurnTable<C> = Table<
    Option<C>,
    View<<C as Chronicle>::Entry, <C as Chronicle>::Origin>,
    Founding<C>,
    Order,
    Global,
>;

#[derive(Drop)]
pub(crate) struct TicketLock<C: Chronicle> {
    pub(crate) table: TurnTable<C>,
    entrance: Entrance,
    bells: TicketBells,
    pub(crate) ghost sized: { (table.shared.table_id.words ≡ 3)
        × (table.shared.table_id.slots ≡ 1) },
}

impl<C: Chronicle> TicketLock<C> {
    /// Waits until no ticket is out, or long enough.
    ///
    /// One thread at a time watches: it leaves those alone who come back at once, since the value is
    /// then near at hand, and comes in between them after a doze. The others sleep; as long as one
    /// watches nobody wakes them, since that one will.
    pub(crate) fn approach<R: Wait>(&self, rt: &R) {
        if self.is_free() {
            return;
        }
        for _ in 0..SLEEPS {
            if self.watches(rt) {
                return;
            }
            self.entrance.seek();
            if self.is_free() && !self.entrance.is_watched() {
                return;
            }
            self.entrance.sleep(rt);
            self.entrance.seek();
        }
    }

    // Watches until it may come in, where no other thread does.
    fn watches<R: Wait>(&self, rt: &R) -> bool {
        if !self.entrance.watch() {
            return false;
        }
        let may_enter = self.becomes_idle() || self.finds_gap(rt);
        self.entrance.unwatch();
        may_enter
    }

    // Looks until nobody comes back at once.
    fn becomes_idle(&self) -> bool {
        let first = self.table.shared.peek(TURNS);
        for _ in 0..WATCHED_LOOKS {
            if self.stays_free() {
                return true;
            }
            if self.table.shared.peek(TURNS).wrapping_sub(first) > WATCHED_TURNS {
                return false;
            }
            spin_loop();
        }
        false
    }

    // Looks whether no ticket is out for a while.
    fn stays_free(&self) -> bool {
        for _ in 0..IDLE_LOOKS {
            if !self.is_free() {
                return false;
            }
            spin_loop();
        }
        true
    }

    // Dozes, and then looks for a moment in which no ticket is out.
    fn finds_gap<R: Wait>(&self, rt: &R) -> bool {
        for _ in 0..DOZES {
            self.entrance.doze(rt);
            if self.becomes_free() {
                return true;
            }
        }
        false
    }

    // Looks until no ticket is out.
    fn becomes_free(&self) -> bool {
        for _ in 0..IDLE_LOOKS {
            if self.is_free() {
                return true;
            }
            spin_loop();
        }
        false
    }

    // No ticket is out: the turns never run ahead of the tickets.
    fn is_free(&self) -> bool {
        let turn = self.table.shared.peek(TURNS);
        self.table.shared.peek(TICKETS) == turn
    }

    /// Takes the next ticket.
    pub(crate) fn take_ticket(&self, seat: &mut TurnSeat<C>) -> u64
        requires table { seat.old.table_id ≡ self.now.table.shared.table_id }
        requires idle { IsIdle seat.old.me }
        ensures table { seat.new.table_id ≡ seat.old.table_id }
        ensures seat { seat.new.me ≡ (with_ticket seat.old.me.0 result, seat.old.me.1) }
    {
        self.table.shared.fetch_add::<TakeTicket>(seat, TICKETS, 1)
    }

    /// Looks whether it is the ticket's turn, and takes the turn where it is.
    pub(crate) fn see_turn(&self, seat: &mut TurnSeat<C>, ticket: u64) -> bool
        requires table { seat.old.table_id ≡ self.now.table.shared.table_id }
        requires waits { Awaits ticket seat.old.me }
        ensures table { seat.new.table_id ≡ seat.old.table_id }
        ensures seat { MatchBool result
            (TakesTurn C.history C.origin C.owner seat.old.me seat.new.me)
            (seat.new.me ≡ seat.old.me) }
    {
        self.table.shared.load::<SeeTurn>(seat, TURNS) == ticket
    }

    /// Waits until it is the ticket's turn, and takes the turn.
    pub(crate) fn wait_turn<R: Wait>(&self, rt: &R, seat: &mut TurnSeat<C>, ticket: u64)
        requires table { seat.old.table_id ≡ self.now.table.shared.table_id }
        requires waits { Awaits ticket seat.old.me }
        ensures table { seat.new.table_id ≡ seat.old.table_id }
        ensures seat { TakesTurn C.history C.origin C.owner seat.old.me seat.new.me }
    {
        for _ in rt.forever() {
            if self.see_turn(seat, ticket) {
                return;
            }
            self.pause(rt, ticket);
        }
        unreachable!()
    }

    // Looks again for a moment where the ticket is next, and then sleeps. It may return early.
    fn pause<R: Wait>(&self, rt: &R, ticket: u64) {
        let shared = &self.table.shared;
        if shared.peek(TURNS).wrapping_add(1) == ticket {
            for _ in 0..LOOKS {
                spin_loop();
                if shared.peek(TURNS) == ticket {
                    return;
                }
            }
        }
        let is_next = ||
            requires { 1 < shared.now.table_id.words }
        { shared.peek(TURNS) == ticket };
        self.bells.of(ticket).sleep_unless(rt, is_next);
    }

    /// Takes the value out of the slot that the seat holds.
    pub(crate) fn take_value(&self, seat: &mut TurnSeat<C>) -> C
        requires table { seat.old.table_id ≡ self.now.table.shared.table_id }
        requires held { (value : C) × Holds (Some value) seat.old.me }
        ensures table { seat.new.table_id ≡ seat.old.table_id }
        ensures seat { seat.new.me ≡ (seat.old.me.0, (0, None) ∷ []) }
        ensures value { Holds (Some result) seat.old.me }
    {
        let Some(value) = self.table.shared.exchange(seat, 0, None) else {
            unreachable!()
        };
        value
    }

    /// Puts the value into the slot that the seat holds.
    pub(crate) fn put_value(&self, seat: &mut TurnSeat<C>, value: C)
        requires table { seat.old.table_id ≡ self.now.table.shared.table_id }
        requires held { Holds None seat.old.me }
        ensures table { seat.new.table_id ≡ seat.old.table_id }
        ensures seat { seat.new.me ≡ (seat.old.me.0, (0, Some value) ∷ []) }
    {
        let held = self.table.shared.exchange(seat, 0, Some(value));
        let None = held else { unreachable!() };
    }

    /// Makes the new entries of the value known. Where there are none, it makes no step.
    pub(crate) fn publish(&self, seat: &mut TurnSeat<C>, count: u64)
        requires table { seat.old.table_id ≡ self.now.table.shared.table_id }
        requires grown { HasNewEntries C.history C.origin C.owner count seat.old.me }
        requires mine { KnowsItsOwn C.owner seat.old.me }
        ensures table { seat.new.table_id ≡ seat.old.table_id }
        ensures seat { (value : C) → Holds (Some value) seat.old.me → seat.new.me
            ≡ (
              with_entries seat.old.me.0 (C.history value)
                  (own_entries C.owner seat.old.me.0.number (C.history value)),
              seat.old.me.1,
            ) }
    {
        if count > 0 {
            self.table.shared.fetch_add::<Publish>(seat, ENTRIES, count);
        }
    }

    /// Returns the value, and passes the turn on.
    pub(crate) fn pass_turn(&self, seat: &mut TurnSeat<C>)
        requires table { seat.old.table_id ≡ self.now.table.shared.table_id }
        requires known { HasAllKnown C.history C.origin C.owner seat.old.me }
        ensures table { seat.new.table_id ≡ seat.old.table_id }
        ensures seat { seat.new.me ≡ (without_turn seat.old.me.0, []) }
    {
        let turn = self.table.shared.fetch_add::<PassTurn>(seat, TURNS, 1);
        self.wake(turn.wrapping_add(1));
    }

    // Wakes the thread whose turn it is, or one that may come in.
    fn wake(&self, turn: u64) {
        if self.table.shared.peek(TICKETS) != turn {
            self.bells.of(turn).ring_sleepers();
        } else if !self.entrance.is_watched() {
            self.entrance.ring();
        }
    }

    /// Reads how many entries are known.
    pub(crate) fn count(&self, seat: &mut TurnSeat<C>) -> u64
        requires table { seat.old.table_id ≡ self.now.table.shared.table_id }
        ensures table { seat.new.table_id ≡ seat.old.table_id }
        ensures seat { seat.new.me ≡ (with_floor seat.old.me.0 result, seat.old.me.1) }
        ensures risen { (seat.old.me.0.floor ≤ result) × (length seat.old.me.0.seen ≤ result) }
    {
        self.table.shared.load::<ReadCount>(seat, ENTRIES)
    }

    /// The table, with the value of `slots` stored in it, and the maker's seat.
    pub(crate) fn new(
        alloc: Global,
        slots: Vec<Option<C>>,
        founding: &Founding<C>,
    ) -> Result<(TicketLock<C>, TurnSeat<C>), NoMemory>
    where
        C: Drop,
        requires slots { (value : C) × (slots.items ≡ Some value ∷ [])
            × (C.history value ≡ [])
            × (C.origin value ≡ C.origin founding.now.first.value) }
        requires fit { founding.now.passes * founding.now.turns < 2 ^ 64 }
        ensures lock { IfOk result (λ r. r.0.table.shared.key ≡ founding.now) }
        ensures table { IfOk result (λ r. r.1.table_id ≡ r.0.table.shared.table_id) }
        ensures seat { IfOk result (λ r. r.1.me ≡ (
          maker_view (C.origin founding.now.first.value)
              founding.now.passes founding.now.turns,
          [],
        )) }
    {
        let bells = TicketBells::new(alloc)?;
        match Table::new(alloc, &[0, 0, 0], slots, founding) {
            Ok((table, seat)) => Ok((
                TicketLock {
                    table,
                    entrance: Entrance::new(),
                    bells,
                },
                seat,
            )),
            Err(Refused { slots: _ }) => Err(NoMemory),
        }
    }

    /// Cuts a pass's seat off the maker's.
    pub(crate) fn make_pass(&self, maker: &mut TurnSeat<C>) -> TurnSeat<C>
        requires table { maker.old.table_id ≡ self.now.table.shared.table_id }
        requires left { (n : ℕ) × (maker.old.me.0.next ≡ Some n)
            × (n < self.now.table.shared.key.passes)
            × (maker.old.me.0.share ≤ maker.old.me.0.turns) }
        ensures table { (maker.new.table_id ≡ maker.old.table_id)
            × (result.table_id ≡ maker.old.table_id) }
        ensures maker { maker.new.me ≡ (rest_view maker.old.me.0, maker.old.me.1) }
        ensures seat { result.me ≡ (pass_view maker.old.me.0, []) }
    {
        self.table.shared.split_seat::<MakePass>(maker)
    }

    /// A seat that takes in those of the passes that have ended.
    pub(crate) fn gather(&self) -> TurnSeat<C>
        ensures table { result.table_id ≡ self.now.table.shared.table_id }
        ensures seat { result.me ≡ (blank_view, []) }
    {
        let (_, seat) = self.table.shared.load_new_seat::<Gather>(TICKETS);
        seat
    }

    /// Takes in the seat of a pass that has ended.
    pub(crate) fn take_in(&self, seat: &mut TurnSeat<C>, other: TurnSeat<C>)
        requires table { seat.old.table_id ≡ self.now.table.shared.table_id }
        requires other_table { other.table_id ≡ self.now.table.shared.table_id }
        requires other { IsEndedSeat other.me }
        ensures table { seat.new.table_id ≡ seat.old.table_id }
        ensures seat { seat.new.me ≡ (with_ended seat.old.me.0 other.me.0, seat.old.me.1) }
    {
        self.table.shared.join_seat::<TakeIn>(seat, other);
    }

    /// Ends the table. Each number that was given has ended, and the seat has its record.
    pub(crate) fn close(self, seat: TurnSeat<C>) -> C
        requires table { seat.table_id ≡ self.table.shared.table_id }
        requires whole { (n : ℕ) → n < self.table.shared.key.passes
            → 0 < sum_by (one_if_record n) seat.me.0.ended }
        ensures origin { C.origin result ≡ C.origin self.table.shared.key.first.value }
        ensures kept { All (FitsRecord C.owner (C.history result)) seat.me.0.ended }
        ensures others { (n : ℕ) → self.table.shared.key.passes ≤ n
            → entries_of C.owner n (C.history result) ≡ [] }
    {
        let TicketLock { table, .. } = self;
        let mut closed = table.close_with(seat);
        let held = closed.take(0);
        closed.free();
        let Some(value) = held else { unreachable!() };
        value
    }
}

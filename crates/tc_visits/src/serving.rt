//! Sessions at a door: one for each kit, as long as connections can be accepted.
ghost use Rattle.std.specs.Prelude.{◌≡◌, ◌≤◌, ◌++◌, ◌<◌, [], length, map};
ghost use Rattle.std.specs.Prelude.{vec_capacity};
ghost use Rattle.std.specs.Prelude.{IfNone, IfSome, IsNone, IsSome, true};
ghost use Rattle.tc_io.specs.Faults.{CountRises, Counts};
ghost use Rattle.tc_io.specs.Links.{connection_of, opened_more};
ghost use Rattle.tc_visits.specs.Seats.{SeatState};
ghost use Rattle.tc_visits.specs.Serving.{AreKitsOf, kit_of, opened_all};
ghost use Rattle.tc_visits.specs.Visits.{VisitState};

use crate::attending::attend_till_come;
use crate::calls::Calls;
use crate::seats::Seat;
use crate::visits::Visit;
use std::alloc::Global;
use std::sync::Wait;
use tc_io::{Door, Link};
use tc_policy::Roles;
use tc_site::{DeskKit, Site};

// The next connection, as long as none has failed. Till it has come sessions are attended to.
fn next_link<'s, R: Wait, D: Door>(
    rt: &R,
    alloc: Global,
    door: &mut D,
    calls: &Calls,
    seats: &mut Vec<Seat<'s, D::Conn>>,
    buffer: &mut [u8],
    goes_on: bool,
) -> Option<D::Conn>
    requires { 0 < length buffer.old }
    ensures opened { IfSome result (λ conn. D.opened door.new ≡ opened_more (D.opened door.old)
        (connection_of D.Conn.Source.left D.Conn.Source.sure D.Conn.Sink.sure conn)) }
    ensures same { IfNone result (D.opened door.new ≡ D.opened door.old) }
    ensures counted { Counts ((goes_on ≡ true) × IsNone result)
        (D.door_faults door.old) (D.door_faults door.new) }
    ensures closed { IsSome result → goes_on ≡ true }
    ensures seats { seats.new.items ≡ seats.old.items }
    ensures room { vec_capacity seats.new ≡ vec_capacity seats.old }
{
    if !goes_on {
        return None;
    }
    attend_till_come(rt, alloc, door, calls, seats, buffer);
    door.accept().ok()
}

/// Accepts a connection for each kit, in order, until one can't be accepted, and begins to serve
/// each. Meanwhile those that are there are attended to. The kits that follow are idle.
pub(crate) fn seat_each<'s, R: Wait, D: Door>(
    rt: &R,
    alloc: Global,
    site: &'s Site<Roles>,
    door: &mut D,
    calls: &Calls,
    kits: Vec<DeskKit<Roles>>,
    seats: &mut Vec<Seat<'s, D::Conn>>,
    idle: &mut Vec<DeskKit<Roles>>,
    buffer: &mut [u8],
)
    requires buffer { 0 < length buffer.old }
    requires site { AreKitsOf site.now kits.items }
    requires none { (seats.old.items ≡ []) × (idle.old.items ≡ []) }
    requires room { (length kits.items ≤ vec_capacity seats.old)
        × (length kits.items ≤ vec_capacity idle.old) }
    ensures kits { map (λ (s : SeatState). s.kit) seats.new.items ++ idle.new.items ≡ kits.items }
    ensures opened { D.opened door.new ≡ opened_all (D.opened door.old)
        (map (λ (s : SeatState). s.connection) seats.new.items) }
    ensures all { idle.new.items ≡ [] → D.door_faults door.new ≡ D.door_faults door.old }
    ensures lacking { (idle.new.items ≡ [] → ⊥)
        → CountRises (D.door_faults door.old) (D.door_faults door.new) }
{
    let mut goes_on = true;
    for kit in kits {
        match next_link(rt, alloc, door, calls, seats, buffer, goes_on) {
            Some(link) => {
                calls.stir(seats.len());
                seats.push_reserved(Seat::new(alloc, site, kit, link));
            }
            None => {
                goes_on = false;
                idle.push_reserved(kit);
            }
        }
    }
}

/// The visits that the sessions are at their ends, for which it waits.
pub(crate) fn collect<'s, R: Wait, L: Link + Drop>(
    rt: &R,
    alloc: Global,
    seats: Vec<Seat<'s, L>>,
    visits: &mut Vec<Visit<L>>,
    buffer: &mut [u8],
)
    requires buffer { 0 < length buffer.old }
    requires none { visits.old.items ≡ [] }
    requires room { length seats.items ≤ vec_capacity visits.old }
    ensures kits { map kit_of visits.new.items ≡ map (λ (s : SeatState). s.kit) seats.entry.items }
    ensures connections { map (λ (v : VisitState). v.connection) visits.new.items
        ≡ map (λ (s : SeatState). s.connection) seats.entry.items }
{
    for seat in seats {
        visits.push_reserved(seat.into_visit(rt, alloc, buffer));
    }
}

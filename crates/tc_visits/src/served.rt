//! The sessions of a site's agents, from the first connection to the last end.
ghost use Rattle.std.specs.Prelude.{◌≡◌, IfOk, OnErr, length};
ghost use Rattle.tc_visits.specs.Rooms.{HasRoom};
ghost use Rattle.tc_visits.specs.Serving.{AreKitsOf, AreServed};

use crate::attending::attend_to_the_end;
use crate::calls::Calls;
use crate::seats::Seat;
use crate::serving::{collect, seat_each};
use crate::visits::Visit;
use std::alloc::Global;
use std::sync::Wait;
use tc_io::{Door, Link};
use tc_lists::NoMemory;
use tc_policy::Roles;
use tc_site::{DeskKit, Site};

/// A visit for each agent for which a connection could be accepted, in order, and the kits of those
/// that follow.
#[derive(Drop)]
pub struct Served<L: Link> {
    pub visits: Vec<Visit<L>>,
    pub idle: Vec<DeskKit<Roles>>,
}

/// How many bytes are read at most at a time.
const MOST_READ: usize = 4_096;

// Room for the sessions of so many agents, taken before the first connection is accepted.
#[derive(Drop)]
struct Room<'s, L: Link + Drop> {
    seats: Vec<Seat<'s, L>>,
    visits: Vec<Visit<L>>,
    idle: Vec<DeskKit<Roles>>,
}

impl<'s, L: Link + Drop> Room<'s, L> {
    fn new(alloc: Global, agents: usize) -> Result<Room<'s, L>, NoMemory>
        ensures { IfOk result (HasRoom agents) }
    {
        Ok(Room {
            seats: Vec::with_capacity(alloc, agents)?,
            visits: Vec::with_capacity(alloc, agents)?,
            idle: Vec::with_capacity(alloc, agents)?,
        })
    }
}

/// Serves the agents of a site over the connections that a door accepts, all in this thread, until
/// all sessions have ended.
///
/// The connections are the agents', in order, and so are the kits. After the first connection that
/// can't be accepted none is. No session waits for another: each goes on when something has come,
/// or when its agent's pending call was answered.
pub fn serve_all<R: Wait, D: Door>(
    rt: &R,
    alloc: Global,
    site: &Site<Roles>,
    door: &mut D,
    kits: Vec<DeskKit<Roles>>,
) -> Result<Served<D::Conn>, NoMemory>
    requires { AreKitsOf site.now kits.items }
    ensures served { IfOk result (λ s. AreServed kits.items (D.opened door.old) (D.opened door.new)
        (D.door_faults door.old) (D.door_faults door.new) s.visits.items s.idle.items) }
    ensures same { OnErr result (door.new ≡ door.old) }
{
    let Room {
        mut seats,
        mut visits,
        mut idle,
    } = Room::new(alloc, kits.len())?;
    let calls = Calls::new(alloc, kits.len(), site.roll())?;
    let mut buffer = [0; MOST_READ];
    seat_each(
        rt,
        alloc,
        site,
        door,
        &calls,
        kits,
        &mut seats,
        &mut idle,
        &mut buffer,
    );
    attend_to_the_end(rt, alloc, door, &calls, &mut seats, &mut buffer);
    collect(rt, alloc, seats, &mut visits, &mut buffer);
    Ok(Served { visits, idle })
}

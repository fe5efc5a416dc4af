//! Connections over TCP from programs on the same machine.
//!
//! Nothing is told of the bytes: what the process is connected to is trusted. A door can tell a
//! user where it listens, and each connection. It watches over all that it has opened, so that one
//! thread serves them all.
//!
//! ```
//! let mut door = TcpDoor::new(&rt, alloc)?;
//! door.listen(7000)?;
//! let mut link = door.accept()?;
//! write_all(&mut link, b"done\n")?;
//! ```
#![tactic(auto)]

mod arrivals;
mod closing;
mod departures;
mod door;
mod link;
mod listening;
mod stirs;
mod telling;
mod tries;

pub use door::TcpDoor;
pub use link::TcpLink;
pub use telling::TellingDoor;

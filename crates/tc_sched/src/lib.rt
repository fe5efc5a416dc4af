//! Agents that make the asks of their scripts, each at a desk of its own, dealt out to threads.
//!
//! A step is one ask of an agent's scripts, or a look whether the ask before has its reply by now.
//! Here is nothing of centres: what becomes of an ask, the desk says.
//!
//! ```
//! let mut actors = vec![in alloc; Actor::new(desk, 0, scripts)]?;
//! drive(rt, &mut actors, alloc, &names, 4, &NoGate)?;
//! // every actor has ended, or its last row is pending
//! ```
//!
//! `drive_called` does the same and is told by a roll whose looks are worth a turn.
#![tactic(auto)]

mod actor;
mod crowd;

pub use actor::{Actor, Step};
pub use crowd::{drive, drive_called};
pub use tc_lists::NoMemory;

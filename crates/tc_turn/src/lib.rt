//! A ticket lock that hands a value on, with the whole history that the value stands for.
//!
//! Calls of many threads are served one after another in the order of their tickets, and what each
//! adds to the history becomes known by one atomic step. Nothing here knows what an entry is.
//!
//! A thread takes a turn with its pass, and gives the value back:
//!
//! ```
//! let mut held = turnstile.enter(rt, pass)?;
//! let added = held.value.add(pass.number()).is_ok();
//! turnstile.leave(pass, held);
//! ```
#![tactic(auto)]

mod bells;
mod chronicle;
mod entrance;
mod order;
mod pass;
mod ticket_lock;
mod turnstile;
mod view;

pub use chronicle::Chronicle;
pub use pass::{Ended, Held, Pass};
pub use tc_lists::NoMemory;
pub use turnstile::{TurnsSpent, Turnstile};

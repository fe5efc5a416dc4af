//! The body of a reaction: it fires as a whole, or fails at a goal and leaves nothing.
//!
//! A goal that looks for a tuple takes the oldest that matches. Nothing here knows which clauses an
//! event triggers, or how a centre serves a call.
//!
//! ```text
//! let done = execute(
//!     alloc, &mut store, &reaction, 1, clause, &event, &context, &mut bag, &mut steps,
//! )?;
//! let (item, events) = done;
//! ```
#![tactic(auto)]

mod body;
mod events;
mod goal;
mod laws;

pub use body::{execute, run_goals};
pub use goal::step;
pub use laws::{body_has_an_outcome, only_match_is_found_in_four_steps};
pub use tc_lists::NoMemory;

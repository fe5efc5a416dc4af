//! All that comes of an event: the reactions that it triggers, what these trigger, and so on, one
//! after another, within a budget.
//!
//! The oldest triggered reaction is tried first. Nothing here knows how a centre serves a call, or
//! what it does with a cascade that went over the budget.
//!
//! ```text
//! bag.mark()?;
//! let end = run(alloc, &mut store, &spec, &event, &context, budget, &mut bag, &mut steps);
//! keep_or_undo(&end, &mut bag); // the bag is as before, unless the cascade is whole
//! ```
#![tactic(auto)]

mod cascade;
mod laws;
mod queue;

pub use cascade::{Cascade, keep_or_undo, run};
pub use laws::cascade_has_an_end;
pub use tc_lists::NoMemory;

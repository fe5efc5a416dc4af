//! Goals that neither put a tuple nor look for one: tests of the event, what is current, equations
//! and arithmetic.
//!
//! They are done over the equations of a body alone. Nothing here knows of tuples, or of what a
//! goal does to them.
//!
//! ```text
//! if !succeeds(alloc, goal, reaction.vars(), &event, &context, &mut store, &mut steps)? {
//!     // the goal can't be done, and the body has failed
//! }
//! ```
#![tactic(auto)]

mod goal;

pub use goal::succeeds;
pub use tc_lists::NoMemory;

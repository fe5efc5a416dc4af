//! One phase of an operation at a tuple centre: what the operation does to the tuples, and then all
//! reactions to its event.
//!
//! The reactions run within a budget. Where they go over it, and where memory ends, the tuples are
//! as they were before the operation. Nothing here knows of requests that wait, nor of histories.
//!
//! ```
//! let (found, cascade) =
//!     search(alloc, &mut store, &regime, Wants::Take, &template, &mut bag, &mut steps)?;
//! match cascade {
//!     Cascade::Whole(items) => { .. } // what was found is taken, and all reactions have run
//!     Cascade::Over(items) => { .. }  // the bag is as before
//! }
//! ```
#![tactic(auto)]

mod laws;
mod phases;
mod regime;
mod running;

pub use laws::operation_has_an_outcome;
pub use phases::{answer, put, request, search, tell_absence};
pub use regime::Regime;
pub use tc_lists::NoMemory;

//! Names in order, of which no two are equal; the place of one is found in constant time.
//!
//! ```
//! let mut names = Names::new(alloc);
//! names.add(name)?; // one that isn't there yet
//! let place = names.place(&other); // from 0
//! ```
#![tactic(auto)]

mod names;

pub use names::Names;

/// Memory has run out.
pub use tc_lists::NoMemory;

//! The oldest tuple of a bag that a template matches.
//!
//! What a template matches is a matter of equations; keys only pass over tuples that can't match.
//! Nothing here knows of operations or histories.
//!
//! ```text
//! let found = oldest_match_of(&template, &bag, &mut steps);
//! assert!(rt; found.map(|row| row.0) == Some(1)); // its age
//! ```
#![tactic(auto)]

mod firsts;
mod matching;
mod search;

pub use matching::does_match;
pub use search::{oldest_match, oldest_match_of};
pub use tc_lists::NoMemory;

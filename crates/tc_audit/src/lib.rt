//! Histories of a tuple centre, judged entry by entry: the first entry that no run has there.
//!
//! What is recorded leaves one way at most, so that the history is followed once, and nothing is
//! chosen or served: no code that serves is used. Nothing here knows of texts or of agents' rows.
//!
//! ```text
//! let beginning = Beginning { name, agents, budget, clauses, tuples };
//! match first_bad(alloc, &beginning, &history)? {
//!     None => { .. } // the history of a run to a quiet state
//!     Some(number) => { .. } // entry `number`, from 1; behind the last: it ends too early
//! }
//! ```
//!
//! The files of src/, in reading order:
//!
//! | File | Holds |
//! |---|---|
//! | history | `first_bad`, and one entry beside what it follows |
//! | beginning | what a centre begins with |
//! | reached | what a history has led to, and whether a request can be answered |
//! | serving | a call's operation and an answer, beside what is recorded of them |
//! | looks | what an agent was told of an earlier call |
//! | noted | where the history tells of its calls, and each agent's last number |
#![tactic(auto)]

mod beginning;
mod history;
mod looks;
mod noted;
mod reached;
mod serving;

pub use beginning::Beginning;
pub use history::first_bad;
pub use tc_lists::NoMemory;

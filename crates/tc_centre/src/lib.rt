//! One tuple centre that serves one call after another.
//!
//! Its history is always a run, in which every choice is the first, and no request that waits could
//! be answered. A call that is refused leaves all as it was. Nothing here knows of threads, of
//! roles or of text.
//!
//! ```
//! let mut core = Core::new(alloc, name, agents, budget, clauses, tuples)?;
//! match core.turn(alloc, CallId { agent: 0, number: 1 }, op)? {
//!     Answer::Replied(reply) => { .. }
//!     Answer::Pending => { .. } // once a later turn has answered it, `look` tells the reply
//! }
//! ```
//!
//! The files of src/, in reading order:
//!
//! | File | Holds |
//! |---|---|
//! | centre | `Core`, the centre with its history: its public calls |
//! | answers | what it answers to a call and to a look, and why it refuses one |
//! | founding, holdings | what it began with; what it holds between two steps of a turn |
//! | serving | a call, its entry, and then the answers; back to what was before where memory ends |
//! | operations | what an operation does to what is held, by the phases of tc_phases |
//! | weights | what entries weigh |
//! | chronicle | a centre as a turnstile hands it on |
#![tactic(auto)]

mod answers;
mod centre;
mod chronicle;
mod founding;
mod holdings;
mod operations;
mod serving;
mod weights;

pub use answers::{Answer, Poll, PollFault, TurnFault};
pub use centre::Core;
pub use chronicle::{Beginning, agents_own_their_calls};
pub use tc_lists::NoMemory;

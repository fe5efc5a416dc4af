//! A tuple centre that threads share: each agent has a pass, and one turn at a time is served.
//!
//! What a pass knows of the history is always at rest: a run of first choices, at whose end no
//! request that waits could be answered. It knows more with each turn, and which of the entries are
//! its agent's own. An agent that waits sleeps until its own request was answered.
//!
//! ```
//! let (centre, mut passes) = SharedCentre::new(alloc, core, 1000)?;
//! // in the thread of each pass:
//! let reply = match centre.call(rt, alloc, pass, 1, op)? {
//!     Answer::Replied(reply) => reply,
//!     Answer::Pending => centre.wait(rt, alloc, pass, 1)?,
//! };
//! ```
//!
//! At the end each pass is ended, and `close` gives the core back, with the whole history.
#![tactic(auto)]

mod answers;
mod centre;
mod waking;

pub use answers::{CallFault, LookFault, SharedPollFault};
pub use centre::{CentrePass, EndedPass, Paused, SharedCentre, vouch};
pub use tc_lists::NoMemory;

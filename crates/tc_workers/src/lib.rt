//! Whole configurations on many threads: each agent goes through its scripts at a desk of its own,
//! at centres that all share, and what then is left goes on one thread.
//!
//! What an agent's passes have seen of a centre says nothing of what others see later. So once the
//! workers have ended, each pending row is looked at anew, on the closed cores, and the agents
//! whose request was answered go on there.
//!
//! ```
//! let run = work(rt, alloc, open(alloc, config)?, 4, &NoGate)?;
//! // run.cores have the histories, and run.logs the rows of each agent
//! ```
#![tactic(auto)]

mod crew;
mod working;

pub use tc_lists::NoMemory;
pub use working::work;

//! Whole configurations on one thread: the centres are opened, and each agent takes a step in its
//! turn, until all have ended or wait.
//!
//! A step is an ask of the agent's scripts, or a look whether the ask before has its reply by now.
//! The logs that it begins with may be those of a run that has come so far in any way. Nothing here
//! knows of text or of threads.
//!
//! ```
//! let run = go_on(alloc, open(alloc, config)?, &NoGate)?;
//! // run.cores have the histories, and run.logs the rows of each agent
//! ```
#![tactic(auto)]

mod clients;
mod opening;
mod plans;
mod running;
mod serving;
mod steps;

pub use opening::{Opened, open};
pub use plans::Plan;
pub use running::{finish, go_on};
pub use tc_lists::NoMemory;

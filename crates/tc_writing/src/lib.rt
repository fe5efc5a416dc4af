//! The text of histories and logs, written to a sink in pieces.
//!
//! Lines are kept until they are many, and then written, so that a text of any length takes little
//! memory. What a sink has taken and what is kept are, together, the text so far.
//!
//! A long history or log is printed in waves: in each, every worker prints a share of its lines, and
//! then the calling thread writes the shares in order.
//!
//! ```
//! let (mut kept, agents) = (Vec::new(alloc), core.agents());
//! write_version(&mut sink, &mut kept)?;
//! write_history(rt, alloc, 4, agents, core.name(), core.history(), &mut sink, &mut kept)?;
//! write_log(rt, alloc, 4, &agent, &log, &mut sink, &mut kept)?;
//! write_end(false, &mut sink, &mut kept)?;
//! ```
#![tactic(auto)]

mod history;
mod lines;
mod pieces;
mod shares;
mod waves;

pub use history::{write_end, write_history, write_log, write_version};

/// Memory has run out.
pub use tc_lists::NoMemory;

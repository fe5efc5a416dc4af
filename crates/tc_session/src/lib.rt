//! Sessions: lines from a link, each answered by an agent's desk.
//!
//! What a line comes to is what the desk's call comes to that it asks; the reply is read off the
//! row. Nothing here knows what the link is connected to, or of centres.
//!
//! ```
//! let mut desk = AgentDesk::new(alloc, &site, kit);
//! let end = serve_session(&rt, alloc, &mut desk, &mut link);
//! ```
#![tactic(auto)]

mod answering;
mod endings;
mod going;
mod laws;
mod sending;
mod session;
mod texts;

pub use endings::SessionEnd;
pub use going::{Session, Step};
pub use session::serve_session;

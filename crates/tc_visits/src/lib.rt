//! Visits: the agents of a site, served over connections, all in one loop.
//!
//! The connection that is accepted first is the first agent's, and so on. A session goes on when
//! something has come, or when its agent's pending call was answered. A visit keeps how its session
//! went, from a desk that had made no call; its text goes with the connection. An agent for which
//! no connection could be accepted keeps its kit. Nothing here knows what lines ask, where
//! connections come from, or how logs are written.
//!
//! ```
//! let opened = open(alloc, config)?;
//! let Service { run, all, enough } = serve(&rt, alloc, opened, &mut door)?;
//! // run.cores have the histories, and run.logs the rows of each agent
//! ```
#![tactic(auto)]

mod attending;
mod calls;
mod seats;
mod served;
mod service;
mod serving;
mod visits;

pub use served::{Served, serve_all};
pub use service::{Service, serve};
pub use tc_lists::NoMemory;
pub use visits::Visit;

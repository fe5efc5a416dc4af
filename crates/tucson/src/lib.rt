//! The top call: a configuration is read, its agents' scripts are run, or its agents are served
//! over connections, and what came of it is written; or a text is judged by the configuration
//! before it.
//!
//! `test_checked_runs` makes its calls by these lines:
//!
//! ```
//! let mut source = SureSource::new(configuration.to_vec(alloc)?);
//! let mut sink = SureSink::new(alloc);
//! let mut door = MemDoor::new(alloc, Vec::new(alloc), Vec::new(alloc))?;
//! let status = tucson(rt, alloc, &words, &mut source, &mut sink, gate, &mut door);
//! ```
//!
//! `status` is then `Status::Ended` or `Status::Blocked`, and `sink.taken()` the histories and the
//! logs; or it says why not. `run_main`, `load_main`, `serve_main` and `verify_main` each do what
//! the words for one command do, without words.
#![tactic(auto)]

mod command;
mod laws;
mod limits;
mod loading;
mod reading;
mod refusing;
mod running;
mod serving;
mod status;
mod top;
mod verifying;
mod writing;

pub use command::{Command, command_of};
pub use laws::{
    a_text_tells_its_histories, limits_are_these, what_run_writes_is_verified_yes,
    what_serve_writes_is_audited_yes,
};
pub use limits::{MOST_AGENTS, MOST_INPUT, MOST_PORT, MOST_START, MOST_WORKERS, USUAL_WORKERS};
pub use loading::load_main;
pub use running::run_main;
pub use serving::serve_main;
pub use status::Status;
pub use tc_config::ConfigCause;
pub use top::tucson;
pub use verifying::verify_main;

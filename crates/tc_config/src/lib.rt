//! Configurations: what a text of clauses sets up, or which clause is the first that is faulty.
//!
//! Each clause is judged by what those before it have declared. Which histories and logs a
//! configuration may lead to stands here as definitions; nothing here makes a call.
//!
//! ```
//! let text = b"centre(c). role(r). grant(r,c,out). agent(a,r). script(a,[c ? out(p(1))]).";
//! let config = read_config(alloc, text)?;
//! assert!(rt; config.roles().permits(0, 0, Primitive::Out).is_some());
//! ```
#![tactic(auto)]

mod adding;
mod ahead;
mod configs;
mod declaring;
mod draft;
mod faults;
mod filling;
mod forms;
mod growing;
mod laws;
mod limits;
mod lines;
mod pieces;
mod progress;
mod reading;
mod refusals;
mod words;

pub use configs::{AgentConf, CentreConf, Config, Society, agent_names, centre_names};
pub use faults::{ConfigCause, ConfigFault};
pub use laws::{
    a_refused_text_spells_nothing, configuration_of_a_text_is_unique, first_good_run_is_good,
    limits_are_these,
};
pub use limits::{MOST_AGENTS, MOST_BYTES, MOST_CENTRES, MOST_ITEMS, MOST_ROLES, USUAL_BUDGET};
pub use reading::{read_config, read_config_by};
pub use refusals::{cause_text, refused_text};
pub use tc_lists::NoMemory;

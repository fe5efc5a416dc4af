//! A check of texts of runs that shares no code with what serves calls, and configurations to run.
//!
//! The check (`checking`) reads the configuration, goes through the text call by call, and works out
//! each line by plain lists of tuples and requests. Bodies of reactions are run over such a list
//! too, and a cascade is a list of events. Only which agent calls next at a centre is taken from the
//! text. That call has to be the one that the agent's script asks next, with the values that came
//! before; so the histories of all centres together are those of calls that can have been made one
//! after another, in script order. Whatever else stands in the text, a letter more or less, is told
//! as wrong.
//!
//! Configurations are drawn from a seed (`draws`) or made so that their logs don't depend on the
//! order of calls, without reactions (`fixed`) and with them (`reactive`). The crate promises
//! nothing of its own: it is what runs are held against.
//!
//! ```
//! let mut draws = Draws::new(2026, false);
//! let drawn = next_drawn(alloc, &mut draws)?;
//! // .. the text of a run of it, and the status ..
//! check(alloc, &drawn.text, &text, status)?; // Fault::Wrong, where it is no run
//! ```
#![tactic(auto)]

mod agents;
mod bodies;
mod cascades;
mod centres;
mod checking;
mod clauses;
mod draws;
mod equations;
mod fault;
mod fixed;
mod lists;
mod numbers;
mod parts;
mod reactive;
mod texts;
mod values;
mod worlds;

pub use checking::check;
pub use draws::{Drawn, Draws, next_drawn};
pub use fault::Fault;
pub use fixed::{crowd, lock, meeting, pairs, ring};
pub use reactive::{barrier, counter, philosophers, replaced};
pub use texts::{append, append_all, append_count};

//! The workload of the command `load`: centres that count, agents that make them count at centres
//! drawn by chance, and the summary that holds what was drawn beside what was counted.
//!
//! The same number of agents and the same start of the generator give the same text. Nothing here
//! runs a configuration, or knows of desks, histories or threads.
//!
//! ```
//! let mut text = Vec::new(alloc);
//! load_text(alloc, 100, 7, &mut text)?; // a configuration, to be read and run
//! let counted = [count_of(&tuple), None]; // from the tuples of each centre
//! print_summary(alloc, 100, 7, &counted, false, &mut text)?; // c0 drawn 149 counted 149
//! ```
#![tactic(auto)]

mod configuration;
mod counts;
mod laws;
mod limits;
mod summaries;
mod words;

pub use configuration::load_text;
pub use counts::{count_of, counted_in};
pub use laws::the_workload_has_these_numbers;
pub use limits::{CENTRES, SCRIPTS, STREAM};
pub use summaries::print_summary;
pub use words::{drawn_in, words_of};

/// Memory has run out.
pub use tc_lists::NoMemory;

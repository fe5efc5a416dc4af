//! The text of a run as one page for a browser: its data, with counts, and the fixed parts round it.
//!
//! What bytes are a text, `tc_histtext` says; what is made of it here is for people who look, and
//! nothing of it is claimed.
//!
//! ```rattle
//! let (centres, agents) = names_in_headings(alloc, bytes)?;
//! let text = read_text(alloc, bytes, &centres, &agents)?;
//! append_page(alloc, &centres, &agents, &text, &mut page)?;
//! ```
#![tactic(auto)]

mod counts;
mod headings;
mod links;
mod literals;
mod order;
mod outline;
mod page;
mod results;
mod rows;
mod script;
mod steps;
mod style;
mod view;

pub use headings::names_in_headings;
pub use page::append_page;

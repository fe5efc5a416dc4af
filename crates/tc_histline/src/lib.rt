//! The lines of texts of histories, and their parts: as text, and read back.
//!
//! What the text of a line is, specs/Text defines, by version. After want of memory the lent text is
//! as before. An operation, a reply, a result and a refusal can be printed alone too.
//!
//! What is read of a line is a function on lists, in specs/Words to specs/Items, for each version;
//! the files that are named read_.. have its code.
//!
//! ```
//! let mut text = Vec::new(alloc);
//! print_version(Version::One, &mut text)?;
//! print_heading(alloc, Heading::Centre, core.name(), &mut text)?;
//! for entry in core.history() {
//!     print_entry(alloc, core.agents(), entry, &mut text)?; // call a 1 out(p(1)) = done
//! }
//! print_heading(alloc, Heading::Agent, &agent, &mut text)?;
//! for row in log {
//!     print_row(alloc, Version::One, row, &mut text)?; // 1 c done
//! }
//! print_end(false, &mut text)?;
//! ```
#![tactic(auto)]

mod answers;
mod entries;
mod headings;
mod items;
mod laws;
mod lines;
mod operations;
mod read_entries;
mod read_items;
mod read_lines;
mod read_operations;
mod read_outcomes;
mod read_rows;
mod read_words;
mod reading;
mod rows;
mod versions;

pub use answers::print_reply;
pub use entries::print_entry;
pub use headings::{Heading, print_end, print_heading, print_version};
pub use laws::{items_are_read_again, lines_of_one_text_are_one, parts_of_lines_are_read_again};
pub use lines::{Line, TextRow, WrittenLine};
pub use operations::print_op;
pub use read_operations::WrittenOp;
pub use reading::{read_line, read_reaction};
pub use rows::{print_refusal, print_result, print_row};
pub use versions::Version;

/// Memory has run out.
pub use tc_lists::NoMemory;

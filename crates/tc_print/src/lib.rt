//! Terms as canonical text: the one text of each term, up to the numbers of its variables.
//!
//! After want of memory the lent text is as before. Nothing here knows of reading or operators.
//!
//! ```
//! let mut text = Vec::new(alloc);
//! print_term(alloc, &term, &mut text)?;
//! assert_eq!(rt; text.as_slice(), b"[1,2|_0]");
//! ```
#![tactic(auto)]

mod names;
mod numbering;
mod terms;

pub use names::{print_name, print_quoted};
pub use terms::print_term;

/// Memory has run out.
pub use tc_lists::NoMemory;

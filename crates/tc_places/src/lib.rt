//! Tokens of clauses with their places, where a text stops being a clause, and what would be right
//! there.
//!
//! Whether a text is a clause, `tc_read` says; what is found here is for people who look for a fault
//! by eye, and nothing of it is claimed.
//!
//! ```rattle
//! let stop = clause_stop(alloc, text, from)?;
//! let finding = stuck_advice(alloc, text, from, &stop)?;
//! if let Some(mark) = finding.mark {
//!     append_excerpt(alloc, text, from, mark, &mut said)?;
//! }
//! ```
#![tactic(auto)]

mod advice;
mod bytes;
mod excerpt;
mod near;
mod parts;
mod spans;
mod stuck;
mod syntax;
mod tokens;
mod words;

pub use advice::{Finding, found, found_nowhere, found_two, lent, sentence};
pub use excerpt::append_excerpt;
pub use near::nearest;
pub use parts::{argument, arguments, find, first_of, first_variable, inside, leaves, split};
pub use spans::{Span, line_ends, part, rest};
pub use stuck::stuck_advice;
pub use syntax::{Odd, Stuck, Why, clause_stop};
pub use tokens::{Kind, Token, behind_layout, clause_end, last_end, next_token};
pub use words::{
    clause_words, event_words, form_of, goal_words, most_arguments, primitive_words, test_words,
};

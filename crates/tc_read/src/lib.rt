//! Terms read from text: what is read is what the tokens spell, and each fault has its place.
//!
//! A text is read clause by clause, up to its end or its first fault:
//!
//! ```rattle
//! let mut from = 0;
//! while let Some((_, behind)) = read_clause(alloc, text, from)? {
//!     from = behind;
//! }
//! ```
//!
//! The reader is the grammar. Nothing here knows of tuple centres or of what a clause is for.
#![tactic(auto)]

mod begin;
mod brackets;
mod budget;
mod build;
mod canonical;
mod clauses;
mod close;
mod compound;
mod cursor;
mod fault;
mod frames;
mod laws;
mod layout;
mod leaves;
mod lexeme;
mod longest;
mod measured;
mod numbers;
mod operators;
mod parse;
mod printed_names;
mod quote;
mod quoted;
mod read;
mod rest;
mod scan;
mod scanner;
mod tokens;
mod variables;

pub use canonical::{read_canonical, read_template};
pub use clauses::{Unread, next_clause};
pub use fault::ReadFault;
pub use laws::{
    canonical_reading_is_unique, canonical_text_reads_back, each_text_has_a_reading,
    printed_clause_is_read_back, printed_request_is_read_back, printed_term_is_read_back,
    read_names_hold_no_control_bytes, reading_is_unique,
};
pub use printed_names::{ReadName, name_at};
pub use quote::read_quoted;
pub use read::{read_clause, read_term};
pub use tc_lists::NoMemory;

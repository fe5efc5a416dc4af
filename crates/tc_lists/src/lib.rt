//! Lists for the fields of public types, and the words on plain lists that several crates want.
//!
//! Nothing here knows of terms, tuples or histories.
//!
//! ```
//! let mut text = Vec::new(alloc);
//! append_number(u64::MAX, &mut text)?;
//! let read = read_number(b"123", 99);
//! assert!(rt; read.is_some_and(|r| r.0 == 12 && r.1.len() == 1));
//! ```
#![tactic(auto)]

mod codes;
mod cut;
mod laws;
mod numbers;
mod seqs;
mod words;

pub use codes::{mix, mix_all};
pub use cut::cut_back;
pub use laws::texts_have_one_reading;
pub use numbers::{append_integer, append_number, read_integer, read_number};
pub use seqs::Seq;
pub use words::behind;

/// Memory has run out.
pub use std::alloc::AllocError as NoMemory;

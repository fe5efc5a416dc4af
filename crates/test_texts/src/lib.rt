//! The parts of a table's row, the texts that its terms stand for, and the bytes that it spells.
//!
//! Programs that print tables read their rows by this crate. It promises nothing of its own: what
//! they print is compared with answers that were worked out by hand.
//!
//! ```text
//! let (name, args) = parts(row);   // of `text(a,'b '*3)`: the name `text`, and two terms
//! let text = text_of(alloc, args)?; // `ab b b `
//! append_bytes(br"poll\n", 1, &mut bytes)?; // `poll` and an LF
//! ```
#![tactic(auto)]

mod bytes;
mod texts;

pub use bytes::append_bytes;
pub use texts::{parts, repeat, text_of};

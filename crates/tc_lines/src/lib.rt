//! Lines: bytes that come in pieces of any size, cut at each LF, and what each line asks, and the
//! lines of replies.
//!
//! A buffer holds what was read and isn't used yet, at most one byte more than a line may have,
//! and a line is read where it lies in it. So what lines ask doesn't depend on how their bytes
//! were cut. Nothing here knows of desks.
//!
//! ```
//! let mut lines = Lines::new(alloc);
//! lines.fill(&mut source, &mut buffer)?;
//! while let Some(asked) = lines.next_request(alloc) {
//!     // Ok(LineAsk::Poll) at a line `poll`
//! }
//! ```
#![tactic(auto)]

mod asked;
mod breaks;
mod laws;
mod limits;
mod lines;
mod replies;
mod requests;
mod spare;

pub use laws::lines_are_unique;
pub use limits::{MOST_LINE, MOST_SPARE, most_line_is_this};
pub use lines::{FillFault, Lines};
pub use replies::{print_reply, refusal_text};
pub use requests::{BadLine, LineAsk, read_line_request};
pub use spare::{push_bytes, release_spare};
pub use tc_lists::NoMemory;

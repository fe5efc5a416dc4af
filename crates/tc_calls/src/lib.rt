//! Where a history tells of an agent's calls: the place of what became of each, and each agent's
//! last number. Both are kept as the history grows, in about the same time however long it is.
//!
//! A caller that keeps them beside a history, entry by entry:
//!
//! ```text
//! let mut places = no_places(alloc, agents)?;
//! let mut numbers = no_numbers(alloc, agents)?;
//! // the entry at `place` is a call of an agent below `agents`
//! if is_above(&numbers, id) {
//!     make_room(&mut places, id.agent)?;
//!     note_call(&mut places, history, id, place);
//!     note_number(&mut numbers, id);
//! }
//! // and one behind it an answer: note_answer(&mut places, history, place)
//! if has_call(&places, history, id) {
//!     let reply = reply_to_call(alloc, &places, history, id)?;
//! }
//! ```
//!
//! The files of src/, in reading order:
//!
//! | File | Holds |
//! |---|---|
//! | places | `Places`: by agent, where the entry of each call stands |
//! | calls | one agent's calls with their places |
//! | numbers | each agent's last number |
//! | replies | what entries tell of a call |
#![tactic(auto)]

mod calls;
mod numbers;
mod places;
mod replies;

pub use numbers::{is_above, no_numbers, note_number};
pub use places::{
    Places, has_call, make_room, no_places, note_answer, note_call, note_turn, reply_to_call,
};
pub use replies::{reply_given, reply_to};
pub use tc_lists::NoMemory;

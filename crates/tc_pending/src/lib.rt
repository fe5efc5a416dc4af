//! Requests that wait for a tuple, or until none matches, and which of them is answered next.
//!
//! Nothing here knows of histories, or of what an answer brings about. A caller asks which request
//! a bag's tuples answer next, takes the tuple, if there is one, and removes the request:
//!
//! ```text
//! if let Some((place, age)) = pending.oldest_answerable(&bag)? {
//!     if let Some(age) = age {
//!         bag.take(age);
//!     }
//!     pending.remove(place);
//! }
//! ```
//!
//! The files of src/, in reading order:
//!
//! | File | Holds |
//! |---|---|
//! | pending | `Pending`, the list with its marks: its public calls |
//! | answering | which request is answered next, where all is looked at, and where some is known |
//! | asking, waiters | the oldest of lent requests that asks for a tuple that came, or that went |
//! | codes, index | codes of requests, and the serial numbers of requests by these codes |
//! | numbers | the lists of codes and of serial numbers beside the requests |
//! | changes | what is noted of each change since a mark, and how it is taken back |
#![tactic(auto)]

mod answering;
mod asking;
mod changes;
mod codes;
mod index;
mod numbers;
mod pending;
mod waiters;

pub use answering::Known;
pub use pending::Pending;
pub use tc_lists::NoMemory;

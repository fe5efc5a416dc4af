//! An agent's rows, as a text tells them, beside the histories of its centres: the first that is at
//! fault, of an agent that runs its scripts or of one that a service knows by its rows alone.
//!
//! The histories have to be those of runs to quiet states. An index of them is made once, and asked
//! for each agent. Nothing here serves a call.
//!
//! ```text
//! let index = Index::of(alloc, &config, &histories)?;
//! if let Some(number) = first_faulty(alloc, version, &config, &histories, &index, agent, &rows)? {
//!     // the row of this number, counted from 1, is the first at fault
//! }
//! ```
//!
//! The files of src/, in reading order:
//!
//! | File | Holds |
//! |---|---|
//! | rows | `first_faulty`: the rows one after another, and the end behind them |
//! | row | one row beside the item whose ask is known |
//! | told | its result: whether the ask may have come to it |
//! | ends | entries that have no row |
//! | served_rows | `first_unserved`: the rows of a service, one after another |
//! | agreeing | what one of them tells, beside the history of its centre |
//! | entries | whether each entry has its row |
//! | index | `Index`: what the histories tell |
//! | made, replies, fulls | a history's entries by agent, its replies, and where its centre was full |
//! | gaps | whether a centre was full where an entry could stand |
//! | same | operations and replies, compared |
//! | laws | what holds of rows that a service has left |
#![tactic(auto)]

mod agreeing;
mod ends;
mod entries;
mod fulls;
mod gaps;
mod index;
mod laws;
mod made;
mod replies;
mod row;
mod rows;
mod same;
mod served_rows;
mod told;

pub use index::Index;
pub use laws::rows_of_services_are_served;
pub use rows::first_faulty;
pub use served_rows::first_unserved;
pub use tc_lists::NoMemory;

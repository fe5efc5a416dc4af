//! What an agent's script asks next, and which operation an ask is.
//!
//! An item of a script is asked with the values of its variables that the tuples before it gave.
//! Here is nothing of centres or of what is permitted.
//!
//! ```
//! let mut asker = Asker::new(alloc, &scripts)?;
//! while let Some(next) = asker.next_ask(alloc, &scripts, &log)? {
//!     let op = op_of(alloc, next.ask.copy(alloc)?)?;
//!     // asks the centre at the place `next.centre`, and pushes the row to the log
//! }
//! ```
#![tactic(auto)]

mod asker;
mod asking;
mod bindings;
mod filling;
mod laws;
mod next;
mod operands;
mod places;
mod telling;

pub use asker::Asker;
pub use laws::asker_stays_fit;
pub use next::Next;
pub use operands::{OperandFault, op_of};
pub use tc_lists::NoMemory;

//! Bells: where threads sleep until something has happened.
//!
//! A bell knows nothing of what has happened: who sleeps at it looks for that itself, and again after
//! each sleep, which may end early. So a bell that rings for no reason does no harm. There are two
//! ways to sleep, and each goes with one way to ring:
//!
//! - `rung`, a look, `sleep`, and `ring`: a ring between `rung` and `sleep` is never missed, whatever
//!   takes place between the two.
//! - `sleep_unless`, which looks once more by itself, and `ring_sleepers`, which costs nothing where
//!   nobody sleeps: for what can be looked at by a closure, as an atomic number.
//!
//! ```
//! let rung = bell.rung();
//! if flag.load(SeqCst) == 0 {
//!     bell.sleep(rt, rung);
//! }
//! ```
//!
//! beside `flag.store(1, SeqCst); bell.ring();` in another thread.
//!
//! A roll is for who doesn't sleep, but goes round among many: it says for whom something may have
//! happened, so that nobody else has to be asked.
#![tactic(auto)]

mod bell;
mod bells;
mod roll;

pub use bell::Bell;
pub use bells::Bells;
pub use roll::Roll;
pub use tc_lists::NoMemory;

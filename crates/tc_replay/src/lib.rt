//! Operations, cascades and bodies beside what is recorded of them: whether an operation may have
//! had this outcome with these items, whether these may be the items of a cascade from an event, and
//! whether the goals of a reaction may have had these effects, whatever was chosen; and what recorded
//! choices fix.
//!
//! What is recorded leaves one way at most, so nothing is searched or chosen here, and nothing is
//! served: no code that runs bodies or cascades is used.
//!
//! ```text
//! let regime = Regime { spec: &spec, context: &context, budget: 100 };
//! if !is_served(alloc, &mut store, &regime, &op, &outcome, &items, &mut bag)? {
//!     // no choice leads to this outcome with these items; the bag has the marks that it had
//! }
//!
//! let ending = Ending::Whole; // or Over, where the items are those of a phase that was refused
//! if !is_cascade(alloc, &mut store, &spec, &event, &context, 100, &items, ending, &mut bag)? {
//!     // no choice leads to these items; the bag has the marks that it had
//! }
//! ```
//!
//! The files of src/, in reading order:
//!
//! | File | Holds |
//! |---|---|
//! | serving | whether an operation, or a request, may have this outcome with these items |
//! | demands | the tables of calls and of answers: what each row demands |
//! | acts | what an operation does to the tuples before its reactions, and its event |
//! | cascade | whether a cascade has these items and ends so |
//! | trying | one item: the triggered reaction that it tells, tried; and what an event triggers |
//! | agenda | the triggered reactions that are left |
//! | group | batches of these, which share their event, and how many are left of them |
//! | parts | which of some batches, or groups, a place lies in |
//! | body | whether a body may have fired with these effects, or failed at this goal |
//! | leading | goals, one after another |
//! | goal | one goal, by the effect that is recorded next; and whether a goal can do nothing |
//! | meeting | the tuple that an effect tells, found in the bag and met with a term |
//! | laws | what recorded choices fix |
#![tactic(auto)]

mod acts;
mod agenda;
mod body;
mod cascade;
mod demands;
mod goal;
mod group;
mod laws;
mod leading;
mod meeting;
mod parts;
mod serving;
mod trying;

pub use body::is_body;
pub use cascade::{Ending, is_cascade};
pub use goal::{follow, is_stuck};
pub use laws::{
    a_body_is_followed_goal_by_goal, entries_tell_quiet_points, items_fix_the_cascade,
    one_entry_is_the_first_bad_one, plain_goals_do_one_thing,
};
pub use leading::lead;
pub use meeting::age_of;
pub use serving::{Regime, is_given, is_served};
pub use tc_lists::NoMemory;

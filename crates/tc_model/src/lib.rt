//! What a tuple centre does: operations, events and reactions, their outcomes, the entries of a
//! history, and its runs.
//!
//! An entry records what was chosen, so the entries of a history fix the state that they lead to.
//! Nothing here knows how a centre serves a call, or how text is read.
//!
//! The files of src/, in reading order:
//!
//! | File | Holds |
//! |---|---|
//! | asks | what agents ask, and the primitives with their names, the one table of both |
//! | lines, parts | asks and lines, read from terms; atoms and arguments, moved out of terms |
//! | scripts | what agents ask one after another |
//! | calls | operations and who asks for them; requests, and what they want |
//! | events | events, their operations with their names, and in whose name reactions run |
//! | goals, reactions | goals of a body; guards, reactions, and the clauses of a centre |
//! | faults | what is wrong with a text of clauses |
//! | items, outcomes, entries | what reactions did, what became of a call; entries of a history |
//! | origins, limits | what a centre begins with, and the limits of all of it |
//! | laws | what holds of every run, for callers to cite |
//!
//! The definitions of specs/ go from what is asked and what happens (Asks, Events, Reactions) over
//! a body (Goals, Bodies) and all that it triggers (Triggers, Cascades) to the state of a centre
//! (State), the tables of calls and of answers (Tables), and runs (Run).
//!
//! ```
//! let name = Name::new(alloc, b"c")?;
//! let agents = vec![in alloc; Name::new(alloc, b"a")?]?;
//! check_origin(&name, &agents, 1000, &[], &Clauses::new(alloc))?;
//!
//! let id = CallId { agent: 0, number: 1 };
//! let (outcome, items) = (Outcome::Done, Seq::empty(alloc));
//! let entry = Entry::Called { id, op: Op::SetSpec(Clauses::new(alloc)), outcome, items };
//! let same = entry.copy(alloc)?;
//! ```
#![tactic(auto)]

mod asks;
mod calls;
mod entries;
mod events;
mod faults;
mod goals;
mod items;
mod laws;
mod limits;
mod lines;
mod origins;
mod outcomes;
mod parts;
mod reactions;
mod scripts;

pub use asks::{Ask, Primitive, primitive_of};
pub use calls::{CallId, Op, Request, Wants};
pub use entries::Entry;
pub use events::{Context, Event, EventOp, Phase, Sign, event_op_of};
pub use faults::{BadSpec, SpecCause};
pub use goals::Goal;
pub use items::{Effect, Item};
pub use laws::{
    beginning_is_run, entries_fix_the_state, first_run_is_run, first_run_is_typed,
    limits_are_these, nothing_waits_uncalled, numbers_rise, replies_are_typed, reply_stays,
    run_is_well_formed, typed_history_leads_to_a_typed_state, waiting_calls_have_no_reply,
    weights_add, what_is_written_is_asked_once,
};
pub use limits::{
    MOST_BUDGET, MOST_CLAUSES, MOST_GOALS, MOST_NAME_BYTES, MOST_TESTS, MOST_TUPLES, MOST_WEIGHT,
};
pub use lines::{Line, ask_of, line_of};
pub use origins::{OriginFault, check_origin};
pub use outcomes::{Outcome, Reply, bytes_fit};
pub use parts::{atom_of, one_of, two_of};
pub use reactions::{Clauses, Form, GuardTest, Reaction, test_of};
pub use scripts::{Script, ScriptItem};
pub use tc_lists::NoMemory;

//! Texts, judged: whether a text is that of a run of a configuration, whatever was chosen in it, or
//! that of a service of its agents, as far as it tells; or the first place at which it is not.
//!
//! Nothing is served here: what is recorded is followed, entry by entry and row by row.
//!
//! ```text
//! let (first, second) = parted(&input); // a configuration, a line `%%`, and a text
//! let config = read_config(alloc, first)?;
//! match verify(alloc, &config, second)? {
//!     Verdict::Yes => { .. }
//!     Verdict::NoEntry(centre, number) => { .. } // the centre's place, and the entry's number
//!     ..
//! }
//! ```
//!
//! The files of src/, in reading order:
//!
//! | File | Holds |
//! |---|---|
//! | judging | an input of a configuration and a text, judged |
//! | verdicts | `Question` and `Verdict`; `verify`, of a run, and `audit`, of a service |
//! | texts | the text of a configuration's centres and agents, read back |
//! | centres, agents | histories, one centre after another; rows, one agent after another |
//! | ends | whether some agent waits, by the rows |
//! | inputs | an input, parted |
//! | printing | verdicts as lines |
//! | laws | which texts are verified yes; that a text has one verdict, and an input one parting |
#![tactic(auto)]

mod agents;
mod centres;
mod ends;
mod inputs;
mod judging;
mod laws;
mod printing;
mod texts;
mod verdicts;

pub use agents::first_agent_of;
pub use centres::first_bad_of;
pub use inputs::parted;
pub use judging::{Judgement, judge};
pub use laws::{
    a_text_has_one_verdict, an_input_is_parted_in_one_way, yes_is_told_of_texts_of_runs,
};
pub use printing::verdict_text;
pub use tc_lists::NoMemory;
pub use texts::read_text_of;
pub use verdicts::{Question, Verdict, audit, verdict_on, verify};

//! The text of histories and logs.
//!
//! What a text is, specs/Text defines, by version. It is printed line by line, by the calls of
//! tc_histline, which stand here too: the parts, one behind another, are the text of a run, so a
//! caller may write it away in pieces as it grows.
//!
//! A text tells its histories: no two lists of them share one (`texts_tell_their_histories`).
//! `read_text` reads one back, or tells the first line at which bytes are none.
#![tactic(auto)]

mod laws;
mod read_texts;
mod reading;

pub use laws::{entries_of_runs_have_agents, text_grows_by_parts, texts_tell_their_histories};
pub use read_texts::{Text, TextFault, read_text};
pub use tc_histline::{
    Heading, TextRow, Version, print_end, print_entry, print_heading, print_op, print_refusal,
    print_reply, print_result, print_row, print_version,
};

/// Memory has run out.
pub use tc_lists::NoMemory;

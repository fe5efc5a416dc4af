//! How calls have ended.
use tc_lists::{NoMemory, append_number};
use tucson::Status;

/// How a call has ended, and what it has written.
#[derive(Drop)]
pub struct End {
    pub status: Status,
    pub text: Vec<u8>,
}

/// What of an end is looked at.
#[derive(Clone, Copy)]
pub enum Part {
    Whole,
    /// The status and the logs.
    Logs,
}

impl Part {
    /// How a line begins that tells with which numbers of workers it is the same.
    pub fn words(self) -> &'static [u8] {
        match self {
            Part::Whole => b"the same with ",
            Part::Logs => b"the same logs with ",
        }
    }

    /// Whether it is the same in two ends.
    pub fn is_same(self, left: &End, right: &End) -> bool {
        left.status.number() == right.status.number() && self.of(&left.text) == self.of(&right.text)
    }

    // What it is of a text.
    fn of(self, text: &[u8]) -> &[u8] {
        match self {
            Part::Whole => text,
            Part::Logs => logs_of(text),
        }
    }
}

// The logs of a text, which begin with the line of the first agent. Where none stands, the whole text.
fn logs_of(text: &[u8]) -> &[u8] {
    for place in 0..text.len() {
        let (_, behind) = text.split_at(place.min(text.len()));
        if behind.starts_with(b"\nagent ") {
            return behind;
        }
    }
    text
}

/// Appends how the call of this name has ended, so much of the text that it has written, and a line
/// end, since that text may stop anywhere.
pub fn print_end(name: &[u8], end: &End, shown: Part, into: &mut Vec<u8>) -> Result<(), NoMemory> {
    into.extend_from_slice(b"%% ")?;
    into.extend_from_slice(name)?;
    into.extend_from_slice(b"\nstatus ")?;
    append_number(u64::from(end.status.number()), into)?;
    into.extend_from_slice(b"\n")?;
    into.extend_from_slice(shown.of(&end.text))?;
    into.extend_from_slice(b"\n")
}

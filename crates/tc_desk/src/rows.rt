//! The rows of an agent's log, and what is done to a log.
ghost use Rattle.std.specs.Prelude.{◌≡◌, ◌<◌, vec_len, vec_capacity};
ghost use Rattle.tc_desk.specs.Desks.{PutsReply, with_row};
ghost use Rattle.tc_desk.specs.Logs.{any_pending, is_pending};

use tc_model::{Ask, BadSpec, Reply};
use tc_term::Name;
use thiserror::Error;

/// Why an ask was not served: the first of these that holds. It leaves no entry in any history.
#[derive(Clone, Copy, Debug, PartialEq, Eq, Error)]
pub enum Refusal {
    /// No centre has this name.
    #[error("unknown centre")]
    UnknownCentre,
    /// An earlier ask of the agent is pending.
    #[error("an earlier ask is pending")]
    Waiting,
    /// The agent's role isn't permitted to do that there.
    #[error("denied: no grant permits it")]
    Denied,
    /// The operand is beyond the limits of a tuple, a template or a text.
    #[error("the operand is too big")]
    TooBig,
    /// A variable stands in a tuple or a text.
    #[error("the operand is not ground")]
    NotGround,
    /// The operand is no text of clauses.
    #[error("bad spec: {0}")]
    BadSpec(BadSpec),
    /// The agent has no turn left at the centre.
    #[error("no turn is left at the centre")]
    TurnsSpent,
    /// The centre's history is so heavy that it takes no further call: what it weighed, and how
    /// many requests were pending.
    #[error("the centre is full: its history weighed {weight}, and {pending} requests were pending")]
    Full { weight: u64, pending: u64 },
    /// Memory has run out. It never stands in a row.
    #[error("out of memory")]
    NoMemory,
}

/// What became of an ask.
#[derive(Drop)]
pub enum LogResult {
    Replied(Reply),
    /// It waits for a tuple, or until none matches.
    Pending,
    Refused(Refusal),
    /// The agent asked what became of its pending ask; `None` says that it was still pending.
    Polled(Option<Reply>),
}

/// A row of an agent's log: what it asked of which centre, and what became of that. Rows are
/// numbered from 1 on. One that polls has no ask.
#[derive(Drop)]
pub struct LogRow {
    pub number: u64,
    pub centre: Name,
    pub ask: Option<Ask>,
    pub result: LogResult,
}

impl LogRow {
    /// Whether the row's ask waits.
    pub fn is_pending(&self) -> bool
        ensures { result ≡ is_pending self.now.result }
    {
        match self.result {
            LogResult::Pending => true,
            LogResult::Replied(_) | LogResult::Refused(_) | LogResult::Polled(_) => false,
        }
    }
}

/// Whether some row is pending.
pub fn has_pending(log: &[LogRow]) -> bool
    ensures { result ≡ any_pending log.now }
{
    log.iter().any(|row| row.is_pending())
}

/// Puts a row behind the others, with the next number. There is room.
pub fn push_row(log: &mut Vec<LogRow>, centre: Name, ask: Option<Ask>, became: LogResult)
    requires { vec_len log.old < vec_capacity log.old }
    ensures { log.new.items ≡ with_row log.old.items centre ask became }
{
    let number = log.len() as u64 + 1;
    let row = LogRow {
        number,
        centre,
        ask,
        result: became,
    };
    match log.push(row) {
        Ok(()) => {}
        Err(_) => unreachable!(),
    }
}

/// Puts the reply into the row at this place, from 0.
pub fn put_reply(log: &mut Vec<LogRow>, place: usize, reply: Reply)
    requires { place < vec_len log.old }
    ensures { PutsReply log.old.items place reply log.new.items }
{
    answer(&mut log[place], reply);
}

// Puts the reply into the row.
fn answer(row: &mut LogRow, reply: Reply)
    ensures { row.new ≡ record row.old { result = LogResult.Replied reply } }
{
    row.result = LogResult::Replied(reply);
}

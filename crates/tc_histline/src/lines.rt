//! The lines of a text.
ghost use Rattle.std.specs.Prelude.{IfSome};
ghost use Rattle.tc_desk.specs.Typed.{IsTypedResult};
ghost use Rattle.tc_model.specs.Typed.{IsTypedOutcome, IsTypedReply};
ghost use Rattle.tc_histline.specs.TypedLines.{IsTypedLine};

use crate::versions::Version;
use tc_desk::{LogResult, Refusal};
use tc_lists::Seq;
use tc_model::{BadSpec, CallId, Entry, Item, Outcome, Reply, bytes_fit};
use tc_term::Name;

/// A line of a text of histories and logs.
#[derive(Drop)]
pub enum Line {
    /// The first one.
    First(Version),
    /// The heading of the history of the centre of this name.
    Centre(Name),
    /// The heading of the log of the agent of this name.
    Agent(Name),
    /// An entry without its reactions, which have lines of their own.
    Entry(Entry),
    Reaction(Item),
    Row(TextRow),
    /// The last one: whether some agent's ask is pending.
    End(bool),
}

/// What the line of a row says: all of the row but its ask.
#[derive(Drop)]
pub struct TextRow {
    pub number: u64,
    pub centre: Name,
    pub result: LogResult,
}

/// A line as it is written: the call that replaces the clauses has their text.
#[derive(Drop)]
pub enum WrittenLine {
    Plain(Line),
    Replacing {
        id: CallId,
        text: Seq<u8>,
        outcome: Outcome,
    },
}

impl Line {
    /// Tells contracts what the types of the line's parts promise, and changes nothing.
    pub fn typed(&self)
        ensures { IsTypedLine self.now }
    {
        match self {
            Line::Centre(name) | Line::Agent(name) => bytes_fit(name.bytes()),
            Line::Entry(Entry::Called { outcome, .. } | Entry::Gave { outcome, .. }) => {
                outcome.typed();
            }
            Line::Entry(Entry::Looked { reply, .. }) => told_fits(reply),
            Line::Row(row) => {
                bytes_fit(row.centre.bytes());
                result_fits(&row.result);
            }
            Line::First(_) | Line::Reaction(_) | Line::End(_) => {}
        }
    }
}

// What an agent is told is what its type promises.
fn told_fits(told: &Option<Reply>)
    ensures { IfSome told.now IsTypedReply }
{
    if let Some(reply) = told {
        reply.typed();
    }
}

// So is the result, with the numbers that a refusal tells.
fn result_fits(became: &LogResult)
    ensures { IsTypedResult became.now }
{
    match became {
        LogResult::Replied(reply) | LogResult::Polled(Some(reply)) => reply.typed(),
        LogResult::Refused(Refusal::BadSpec(BadSpec { clause, .. })) => {
            let _clause = *clause;
        }
        LogResult::Refused(Refusal::Full { weight, pending }) => {
            let _weight = *weight;
            let _pending = *pending;
        }
        LogResult::Refused(_) | LogResult::Pending | LogResult::Polled(None) => {}
    }
}

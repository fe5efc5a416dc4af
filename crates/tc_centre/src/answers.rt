//! What a centre answers to a call and to a look.
use tc_model::Reply;
use thiserror::Error;

/// The answer to a call.
#[derive(Drop)]
pub enum Answer {
    Replied(Reply),
    /// The call waits for what it wants.
    Pending,
}

/// Why a call was not served. The centre is as before.
#[derive(Debug, Drop, Error)]
pub enum TurnFault {
    /// The history is too heavy for another call, with so many requests that wait.
    #[error("the history is full: it weighs {weight}, and {pending} requests wait")]
    Full { weight: u64, pending: u64 },
    /// Memory ended.
    #[error("out of memory")]
    NoMemory,
}

/// The answer to a look at an earlier call.
#[derive(Drop)]
pub enum Poll {
    /// The reply, twice, so that it can be kept in two places.
    Answered(Reply, Reply),
    /// The call still waits.
    NotYet,
}

/// Why a look was refused. The centre is as before.
#[derive(Debug, Drop, Error)]
pub enum PollFault {
    /// The agent has made no call of that number.
    #[error("no such call")]
    Stranger,
    /// The history is too heavy for another entry, with so many requests that wait.
    #[error("the history is full: it weighs {weight}, and {pending} requests wait")]
    Full { weight: u64, pending: u64 },
    /// Memory ended.
    #[error("out of memory")]
    NoMemory,
}

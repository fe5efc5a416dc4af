//! Why a call of a pass was refused.
ghost use Rattle.tc_shared.specs.Passes.{IsSameFault, IsSamePollFault};

use tc_centre::{PollFault, TurnFault};
use thiserror::Error;

/// Why a call was not served. The agent's entries are as before.
#[derive(Debug, Drop, Error)]
pub enum CallFault {
    /// The pass has no turn left.
    #[error("the pass has no turn left")]
    TurnsSpent,
    /// The history is too heavy for another call, with so many requests that wait.
    #[error("the history is full: it weighs {weight}, and {pending} requests wait")]
    Full { weight: u64, pending: u64 },
    /// Memory ended.
    #[error("out of memory")]
    NoMemory,
}

/// Why a look that leaves an entry was refused. The agent's entries are as before.
#[derive(Debug, Drop, Error)]
pub enum SharedPollFault {
    /// The pass has no turn left.
    #[error("the pass has no turn left")]
    TurnsSpent,
    /// The agent has made no call of that number.
    #[error("no such call")]
    Stranger,
    /// The history is too heavy for another entry, with so many requests that wait.
    #[error("the history is full: it weighs {weight}, and {pending} requests wait")]
    Full { weight: u64, pending: u64 },
    /// Memory ended.
    #[error("out of memory")]
    NoMemory,
}

/// Why a look or a wait was refused.
#[derive(Clone, Copy, Debug, PartialEq, Eq, Drop, Error)]
pub enum LookFault {
    /// The pass has no turn left.
    #[error("the pass has no turn left")]
    TurnsSpent,
    /// Memory ended.
    #[error("out of memory")]
    NoMemory,
}

/// The same fault of a turn.
pub(crate) fn call_fault(fault: TurnFault) -> CallFault
    ensures { IsSameFault fault result }
{
    match fault {
        TurnFault::Full { weight, pending } => CallFault::Full { weight, pending },
        TurnFault::NoMemory => CallFault::NoMemory,
    }
}

/// The same fault of a look that leaves an entry.
pub(crate) fn poll_fault(fault: PollFault) -> SharedPollFault
    ensures { IsSamePollFault fault result }
{
    match fault {
        PollFault::Stranger => SharedPollFault::Stranger,
        PollFault::Full { weight, pending } => SharedPollFault::Full { weight, pending },
        PollFault::NoMemory => SharedPollFault::NoMemory,
    }
}

//! Calls of the system that are made again.
use std::io;
use std::io::ErrorKind;

/// How often a call is made at most that a signal interrupts, or at which a peer goes away.
pub(crate) const MOST_TRIES: u32 = 1_000_000;

/// Whether a signal came in between, so that the call is to be made again.
pub(crate) fn is_interrupted(error: &io::Error) -> bool {
    error.kind() == ErrorKind::Interrupted
}

/// Whether the next connection may be accepted all the same: a signal came in between, or a peer
/// went away before it was accepted.
pub(crate) fn is_passing(error: &io::Error) -> bool {
    is_interrupted(error) || error.kind() == ErrorKind::ConnectionAborted
}

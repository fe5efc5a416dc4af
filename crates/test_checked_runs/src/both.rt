//! What is said of a text: by the check of test_run_check, and by `verify`.
use crate::running::is_verified;
use std::alloc::Global;
use test_run_check::{Fault, check};

/// What is said of a text.
#[derive(Clone, Copy, Debug, PartialEq, Eq)]
pub enum Said {
    /// By both, that it is right.
    Right,
    /// By both, that it is wrong; and by the check, why.
    Wrong(&'static str),
    /// By one of them, that it is right, and by the other, that it is wrong.
    Apart,
}

/// What the check says of a text that a run of this status has written, and `verify` of a text.
pub fn said_of(
    alloc: Global,
    configuration: &[u8],
    text: &[u8],
    status: u8,
) -> Result<Said, Fault> {
    let is_verified = is_verified(alloc, configuration, text)?;
    match (check(alloc, configuration, text, status), is_verified) {
        (Ok(()), true) => Ok(Said::Right),
        (Err(Fault::Wrong(why)), false) => Ok(Said::Wrong(why)),
        (Ok(()), false) | (Err(Fault::Wrong(_)), true) => Ok(Said::Apart),
        (Err(fault), _) => Err(fault),
    }
}

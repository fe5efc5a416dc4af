//! Why a text is no run, or could not be looked at.
use std::alloc::AllocError;
use tc_read::ReadFault;
use thiserror::Error;

/// What is wrong with a text, or with the configuration that it is held against; or memory has run
/// out.
#[derive(Clone, Copy, Debug, PartialEq, Eq, Error)]
pub enum Fault {
    #[error("{0}")]
    Wrong(&'static str),
    #[error("the configuration is beyond this check: {0}")]
    Beyond(&'static str),
    #[error("a clause was not read: {0}")]
    Read(#[from] ReadFault),
    #[error("out of memory")]
    NoMemory(#[from] AllocError),
}

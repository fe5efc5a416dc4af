//! Why a row could not be gone through.
use std::alloc::AllocError;
use tc_read::ReadFault;
use thiserror::Error;

/// What is wrong with how a row is set up; or memory has run out.
#[derive(Clone, Copy, Debug, PartialEq, Eq, Error)]
pub enum Fault {
    #[error("{0}")]
    Setup(&'static str),
    #[error("a term was not read: {0}")]
    Read(#[from] ReadFault),
    #[error("out of memory")]
    NoMemory(#[from] AllocError),
}

//! Why nothing is measured.
use std::alloc::AllocError;
use thiserror::Error;

/// Why rounds are not made: a text of the program is none, a call was refused, or memory ended.
#[derive(Clone, Copy, Debug, PartialEq, Eq, Error)]
pub enum BenchFault {
    #[error("a text was not read")]
    Text,
    #[error("a call was refused")]
    Refused,
    #[error("out of memory")]
    NoMemory(#[from] AllocError),
}

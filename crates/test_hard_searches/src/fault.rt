//! Why nothing is searched.
use std::alloc::AllocError;
use thiserror::Error;

/// Why a bag or a list isn't made: a term is no tuple, no age is left, or memory has run out.
#[derive(Clone, Copy, Debug, PartialEq, Eq, Error)]
pub enum Fault {
    #[error("a term is no tuple")]
    NoTuple,
    #[error("no age is left")]
    NoAge,
    #[error("out of memory")]
    NoMemory(#[from] AllocError),
}

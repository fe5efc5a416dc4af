//! Why a world is not served.
use std::alloc::AllocError;
use tc_read::ReadFault;
use thiserror::Error;

/// Why worlds are not served: a text that is no world, or memory has run out.
#[derive(Clone, Copy, Debug, PartialEq, Eq, Error)]
pub enum WorldFault {
    #[error("this is no world: {0}")]
    NoWorld(&'static str),
    #[error("a world was not read: {0}")]
    Text(ReadFault),
    #[error("out of memory")]
    NoMemory(#[from] AllocError),
}

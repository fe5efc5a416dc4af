//! What is wrong with a text.
use std::alloc::AllocError;
use thiserror::Error;

/// Why a text is no term: its tokens are none, an integer is no 64-bit number, it has too many
/// variables, or it is too big, each with its place; or memory has run out.
#[derive(Clone, Copy, Debug, PartialEq, Eq, Error)]
pub enum ReadFault {
    #[error("no term from byte {0} on")]
    Syntax(usize),
    #[error("the integer at byte {0} is no 64-bit number")]
    WideInt(usize),
    #[error("too many variables in the term at byte {0}")]
    TooMany(usize),
    #[error("the term at byte {0} is too big")]
    TooBig(usize),
    #[error("out of memory")]
    NoMemory,
}

impl From<AllocError> for ReadFault {
    ghost use Rattle.std.specs.Prelude.{◌≡◌};
    ghost use Rattle.tc_read.specs.declared.fault.ReadFault.TheVariants.{NoMemory};

    ghost from_gives = { λ _ e. e ≡ NoMemory };

    fn from(_error: AllocError) -> ReadFault {
        ReadFault::NoMemory
    }
}

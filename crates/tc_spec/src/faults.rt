//! Why a term is no reaction, and a text no clauses.
use std::alloc::AllocError;
use tc_model::{BadSpec, SpecCause};
use thiserror::Error;

/// Why a term was not read as a reaction: its first cause, or memory has run out.
#[derive(Clone, Copy, Debug, PartialEq, Eq, Error)]
pub enum ReactionFault {
    #[error("{0}")]
    Bad(SpecCause),
    #[error("out of memory")]
    NoMemory,
}

impl From<AllocError> for ReactionFault {
    ghost use Rattle.std.specs.Prelude.{◌≡◌};
    ghost use Rattle.tc_spec.specs.declared.faults.ReactionFault.TheVariants.{NoMemory};

    ghost from_gives = { λ _ e. e ≡ NoMemory };

    fn from(_error: AllocError) -> ReactionFault {
        ReactionFault::NoMemory
    }
}

/// Why a text was not read as clauses: its first faulty clause, or memory has run out.
#[derive(Clone, Copy, Debug, PartialEq, Eq, Error)]
pub enum SpecFault {
    #[error("{0}")]
    Bad(BadSpec),
    #[error("out of memory")]
    NoMemory,
}

impl From<AllocError> for SpecFault {
    ghost use Rattle.std.specs.Prelude.{◌≡◌};
    ghost use Rattle.tc_spec.specs.declared.faults.SpecFault.TheVariants.{NoMemory};

    ghost from_gives = { λ _ e. e ≡ NoMemory };

    fn from(_error: AllocError) -> SpecFault {
        SpecFault::NoMemory
    }
}

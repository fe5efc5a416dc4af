//! Why a text is no configuration.
use std::alloc::AllocError;
use thiserror::Error;

/// What is wrong with a clause: the first of these that holds.
#[derive(Clone, Copy, Debug, PartialEq, Eq, Error)]
pub enum ConfigCause {
    /// The text is no clause.
    #[error("no clause")]
    Syntax,
    /// The clause is too big for a template.
    #[error("the clause is too big")]
    Size,
    /// The term is of no form of a clause.
    #[error("no form of a clause")]
    Shape,
    /// What is to be a reaction is none, or can't be read back.
    #[error("no reaction")]
    Reaction,
    /// A centre isn't declared before.
    #[error("the centre isn't declared")]
    UnknownCentre,
    /// A role isn't declared before.
    #[error("the role isn't declared")]
    UnknownRole,
    /// An agent isn't declared before.
    #[error("the agent isn't declared")]
    UnknownAgent,
    /// The centre, role or agent is declared before, or the same grant stands before.
    #[error("it stands before")]
    Twice,
    /// What is to be a tuple has a variable.
    #[error("the tuple has a variable")]
    NotGround,
    /// There are more centres, roles, agents, clauses or items than the limits allow.
    #[error("too many")]
    Count,
    /// The whole text has too many bytes. No clause of it is looked at.
    #[error("the text is too long")]
    Length,
}

/// Why a text was not read as a configuration: its first faulty clause, counted from 1, or its
/// length, told of clause 0; or memory has run out.
#[derive(Clone, Copy, Debug, PartialEq, Eq, Error)]
pub enum ConfigFault {
    #[error("clause {clause}: {cause}")]
    Bad { clause: u32, cause: ConfigCause },
    #[error("out of memory")]
    NoMemory,
}

impl From<AllocError> for ConfigFault {
    ghost use Rattle.std.specs.Prelude.{◌≡◌};
    ghost use Rattle.tc_config.specs.declared.faults.ConfigFault.TheVariants.{NoMemory};

    ghost from_gives = { λ _ e. e ≡ NoMemory };

    fn from(_error: AllocError) -> ConfigFault {
        ConfigFault::NoMemory
    }
}

/// Why one clause was not added: its first cause, or memory has run out.
#[derive(Clone, Copy, Debug, PartialEq, Eq, Error)]
pub enum ClauseFault {
    #[error("{0}")]
    Bad(ConfigCause),
    #[error("out of memory")]
    NoMemory,
}

impl From<AllocError> for ClauseFault {
    ghost use Rattle.std.specs.Prelude.{◌≡◌};
    ghost use Rattle.tc_config.specs.declared.faults.ClauseFault.TheVariants.{NoMemory};

    ghost from_gives = { λ _ e. e ≡ NoMemory };

    fn from(_error: AllocError) -> ClauseFault {
        ClauseFault::NoMemory
    }
}

//! Why a text is no list of clauses.
use thiserror::Error;

/// What is wrong with a clause: the first of these that holds.
#[derive(Clone, Copy, Debug, PartialEq, Eq, Error)]
pub enum SpecCause {
    /// The text is no clause.
    #[error("no clause")]
    Syntax,
    /// The clause is too big for a template, or can't be read back.
    #[error("the clause is too big")]
    Size,
    /// The term is no `reaction(Head,Body)`, and no `reaction(Head,Guard,Body)` with a guard.
    #[error("no reaction of a head and a body")]
    Shape,
    /// The head is no operation on a term.
    #[error("the head is no operation on a term")]
    Head,
    /// A part of the body is no goal.
    #[error("a part of the body is no goal")]
    Goal,
    /// There are more goals or clauses than the limits allow.
    #[error("too many goals or clauses")]
    Count,
}

/// The first clause that is wrong, counted from 1, and what is wrong with it.
#[derive(Clone, Copy, Debug, PartialEq, Eq, Error)]
#[error("clause {clause}: {cause}")]
pub struct BadSpec {
    pub clause: u32,
    pub cause: SpecCause,
}

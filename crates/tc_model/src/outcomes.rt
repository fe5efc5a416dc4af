//! Outcomes, which entries record, and replies, which agents get.
ghost use Rattle.std.specs.Prelude.{◌≡◌, IfOk};
ghost use Rattle.tc_model.specs.Typed.{AreBytes};

use crate::events::Phase;
use std::alloc::Global;
use tc_lists::{NoMemory, Seq};
use tc_term::Ground;

/// What an agent is told.
#[derive(Drop)]
pub enum Reply {
    /// The operation is done.
    Done,
    /// The tuple that was taken or read.
    Tuple(Ground),
    /// No tuple matched.
    NoTuple,
    /// No tuple matches, as was asked or waited for.
    Absent,
    /// A tuple matches, though it was asked that none does.
    Found(Ground),
    /// The text of the centre's clauses.
    Spec(Seq<u8>),
    /// The reactions of the phase went over the budget: the operation has had no effect.
    OverBudget(Phase),
}

/// What became of an operation, or of a request that was pending.
#[derive(Drop)]
pub enum Outcome {
    /// The tuple is put, or the clauses are replaced.
    Done,
    /// The tuple that was taken or read.
    Took(Ground),
    /// No tuple matched.
    NoTuple,
    /// No tuple matches, as was asked or waited for.
    Absent,
    /// A tuple matches, though it was asked that none does. It stays.
    Found(Ground),
    /// The request waits.
    Pending,
    /// The text of the centre's clauses.
    Spec(Seq<u8>),
    /// The reactions of the phase went over the budget. The tuple is the one that was chosen, if
    /// any.
    Over(Phase, Option<Ground>),
}

impl Reply {
    ghost use Rattle.tc_model.specs.Typed.{IsTypedReply};

    /// Tells contracts what the reply's type promises, and does nothing.
    pub fn typed(&self)
        ensures { IsTypedReply self.now }
    {
        match self {
            Reply::Tuple(tuple) | Reply::Found(tuple) => {
                let _term = tuple.term();
            }
            Reply::Spec(text) => bytes_fit(text.items()),
            Reply::Done | Reply::NoTuple | Reply::Absent | Reply::OverBudget(_) => {}
        }
    }

    /// An equal reply.
    pub fn copy(&self, alloc: Global) -> Result<Reply, NoMemory>
        ensures { IfOk result (λ reply. reply ≡ self.now) }
    {
        match self {
            Reply::Done => Ok(Reply::Done),
            Reply::Tuple(tuple) => Ok(Reply::Tuple(tuple.copy(alloc)?)),
            Reply::NoTuple => Ok(Reply::NoTuple),
            Reply::Absent => Ok(Reply::Absent),
            Reply::Found(tuple) => Ok(Reply::Found(tuple.copy(alloc)?)),
            Reply::Spec(text) => Ok(Reply::Spec(copy_text(alloc, text)?)),
            Reply::OverBudget(phase) => Ok(Reply::OverBudget(*phase)),
        }
    }
}

impl Outcome {
    ghost use Rattle.tc_model.specs.Typed.{IsTypedOutcome};

    /// Tells contracts what the outcome's type promises, and does nothing.
    pub fn typed(&self)
        ensures { IsTypedOutcome self.now }
    {
        match self {
            Outcome::Took(tuple) | Outcome::Found(tuple) | Outcome::Over(_, Some(tuple)) => {
                let _term = tuple.term();
            }
            Outcome::Spec(text) => bytes_fit(text.items()),
            Outcome::Done
            | Outcome::NoTuple
            | Outcome::Absent
            | Outcome::Pending
            | Outcome::Over(_, None) => {}
        }
    }

    /// An equal outcome.
    pub fn copy(&self, alloc: Global) -> Result<Outcome, NoMemory>
        ensures { IfOk result (λ outcome. outcome ≡ self.now) }
    {
        match self {
            Outcome::Done => Ok(Outcome::Done),
            Outcome::Took(tuple) => Ok(Outcome::Took(tuple.copy(alloc)?)),
            Outcome::NoTuple => Ok(Outcome::NoTuple),
            Outcome::Absent => Ok(Outcome::Absent),
            Outcome::Found(tuple) => Ok(Outcome::Found(tuple.copy(alloc)?)),
            Outcome::Pending => Ok(Outcome::Pending),
            Outcome::Spec(text) => Ok(Outcome::Spec(copy_text(alloc, text)?)),
            Outcome::Over(phase, None) => Ok(Outcome::Over(*phase, None)),
            Outcome::Over(phase, Some(tuple)) => {
                Ok(Outcome::Over(*phase, Some(tuple.copy(alloc)?)))
            }
        }
    }
}

/// Tells contracts that each byte is one, and does nothing.
pub fn bytes_fit(bytes: &[u8])
    ensures { AreBytes bytes.now }
{
    let _length = bytes.len();
}

// The same bytes.
fn copy_text(alloc: Global, text: &Seq<u8>) -> Result<Seq<u8>, NoMemory>
    ensures { IfOk result (λ copy. copy ≡ text.now) }
{
    Ok(Seq::new(text.items().to_vec(alloc)?))
}

//! The goals of a reaction's body.
ghost use Rattle.std.specs.Prelude.{◌≡◌, IfOk};

use std::alloc::Global;
use tc_lists::NoMemory;
use tc_term::{Cmp, Term};

/// One goal: a test, an equation, or an operation on the tuples.
#[derive(Drop)]
pub enum Goal {
    /// `out_r(T)` puts the value of T.
    OutR(Term),
    /// `in_r(T)` takes a tuple that matches T.
    InR(Term),
    /// `rd_r(T)` reads one.
    RdR(Term),
    /// `no_r(T)`: no tuple matches T.
    NoR(Term),
    /// `pre`: the event is a request.
    Pre,
    /// `post`: the event is an answer.
    Post,
    /// `success`: the operation succeeded.
    Success,
    /// `failure`: it found no tuple.
    Failure,
    /// `true`.
    True,
    /// `current_agent(T)`: T is the agent's name.
    Agent(Term),
    /// `current_tc(T)`: T is the centre's name.
    Centre(Term),
    /// `current_op(T)`: T is the name of the event's operation.
    Operation(Term),
    /// `current_tuple(T)`: T is the event's term.
    Tuple(Term),
    /// `S = T`.
    Equal(Term, Term),
    /// `S \= T`: no values make both sides equal.
    Differ(Term, Term),
    /// `T is A`: T is what A evaluates to.
    Is(Term, Term),
    /// A comparison of what both sides evaluate to.
    Compare(Cmp, Term, Term),
}

impl Goal {
    /// An equal goal.
    pub fn copy(&self, alloc: Global) -> Result<Goal, NoMemory>
        ensures { IfOk result (λ goal. goal ≡ self.now) }
    {
        match self {
            Goal::OutR(t) => Ok(Goal::OutR(copy_term(alloc, t)?)),
            Goal::InR(t) => Ok(Goal::InR(copy_term(alloc, t)?)),
            Goal::RdR(t) => Ok(Goal::RdR(copy_term(alloc, t)?)),
            Goal::NoR(t) => Ok(Goal::NoR(copy_term(alloc, t)?)),
            Goal::Pre => Ok(Goal::Pre),
            Goal::Post => Ok(Goal::Post),
            Goal::Success => Ok(Goal::Success),
            Goal::Failure => Ok(Goal::Failure),
            Goal::True => Ok(Goal::True),
            Goal::Agent(t) => Ok(Goal::Agent(copy_term(alloc, t)?)),
            Goal::Centre(t) => Ok(Goal::Centre(copy_term(alloc, t)?)),
            Goal::Operation(t) => Ok(Goal::Operation(copy_term(alloc, t)?)),
            Goal::Tuple(t) => Ok(Goal::Tuple(copy_term(alloc, t)?)),
            Goal::Equal(s, t) => {
                let (s, t) = copy_both(alloc, s, t)?;
                Ok(Goal::Equal(s, t))
            }
            Goal::Differ(s, t) => {
                let (s, t) = copy_both(alloc, s, t)?;
                Ok(Goal::Differ(s, t))
            }
            Goal::Is(s, t) => {
                let (s, t) = copy_both(alloc, s, t)?;
                Ok(Goal::Is(s, t))
            }
            Goal::Compare(cmp, s, t) => {
                let (s, t) = copy_both(alloc, s, t)?;
                Ok(Goal::Compare(*cmp, s, t))
            }
        }
    }
}

// Two equal terms.
fn copy_both(alloc: Global, s: &Term, t: &Term) -> Result<(Term, Term), NoMemory>
    ensures { IfOk result (λ terms. (terms.0 ≡ s.now) × (terms.1 ≡ t.now)) }
{
    let first = s.copy(alloc)?;
    let second = t.copy(alloc)?;
    Ok((first, second))
}

/// An equal term.
pub fn copy_term(alloc: Global, t: &Term) -> Result<Term, NoMemory>
    ensures { IfOk result (λ term. term ≡ t.now) }
{
    let copy = t.copy(alloc)?;
    Ok(copy)
}

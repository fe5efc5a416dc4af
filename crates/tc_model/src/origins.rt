//! What a centre begins with, and whether it may.
ghost use Rattle.std.specs.Prelude.{◌≡◌, ◌≢◌, true, false, All, AllPairs, OnOk, IfErr};
ghost use Rattle.tc_term.specs.Tree.{IsTuple};
ghost use Rattle.tc_model.specs.State.{IsName, IsOrigin, origin_from};
ghost use Rattle.tc_model.specs.Origins.{IsFirstBroken};

use crate::limits::{MOST_BUDGET, MOST_NAME_BYTES, MOST_TUPLES};
use crate::reactions::Clauses;
use tc_term::{Ground, Name};
use thiserror::Error;

/// Why a centre can't begin so: a condition that doesn't hold.
#[derive(Clone, Copy, Debug, PartialEq, Eq, Error)]
pub enum OriginFault {
    #[error("the centre's name is too long")]
    CentreName,
    #[error("no agent, or too many")]
    AgentCount,
    #[error("an agent's name is too long")]
    AgentName,
    #[error("two agents have the same name")]
    SameNames,
    #[error("the budget is out of range")]
    Budget,
    #[error("too many tuples")]
    TupleCount,
}

/// Whether a centre may begin with these: its name, its agents' names, the budget of its reactions,
/// its tuples and its clauses.
///
/// Where several conditions don't hold, the first is told. No memory is taken. Each two agents'
/// names are compared, and each tuple is gone past.
pub fn check_origin(
    name: &Name,
    agents: &[Name],
    budget: u32,
    tuples: &[Ground],
    clauses: &Clauses,
) -> Result<(), OriginFault>
    ensures may { OnOk result
        (IsOrigin (origin_from name.now agents.now budget tuples.now clauses.now)) }
    ensures fault { IfErr result
        (IsFirstBroken (origin_from name.now agents.now budget tuples.now clauses.now)) }
{
    if !is_name(name.bytes()) {
        return Err(OriginFault::CentreName);
    }
    if agents.is_empty() || agents.len() > u32::MAX as usize {
        return Err(OriginFault::AgentCount);
    }
    if !are_names(agents) {
        return Err(OriginFault::AgentName);
    }
    if !all_differ(agents) {
        return Err(OriginFault::SameNames);
    }
    if budget == 0 || budget > MOST_BUDGET {
        return Err(OriginFault::Budget);
    }
    if tuples.len() > MOST_TUPLES {
        return Err(OriginFault::TupleCount);
    }
    are_tuples(tuples);
    let _clauses = clauses.items();
    Ok(())
}

// Whether the bytes may be the name of a centre or an agent.
fn is_name(bytes: &[u8]) -> bool
    ensures yes { result ≡ true → IsName bytes.now }
    ensures no { result ≡ false → IsName bytes.now → ⊥ }
{
    bytes.len() <= MOST_NAME_BYTES
}

// Whether each of the names may be one.
fn are_names(names: &[Name]) -> bool
    ensures yes { result ≡ true → All IsName names.now }
    ensures no { result ≡ false → All IsName names.now → ⊥ }
{
    for name in names {
        if !is_name(name.bytes()) {
            return false;
        }
    }
    true
}

// Whether the name is none of these.
fn is_new(name: &Name, names: &[Name]) -> bool
    ensures yes { result ≡ true → All (λ other. other ≢ name.now) names.now }
    ensures no { result ≡ false → All (λ other. other ≢ name.now) names.now → ⊥ }
{
    for other in names {
        if other == name {
            return false;
        }
    }
    true
}

// Whether no two of the names are equal.
fn all_differ(names: &[Name]) -> bool
    ensures yes { result ≡ true → AllPairs ◌≢◌ names.now }
    ensures no { result ≡ false → AllPairs ◌≢◌ names.now → ⊥ }
{
    for place in 0..names.len() {
        if !is_new(&names[place], &names[..place]) {
            return false;
        }
    }
    true
}

// Each of them is a tuple, as the type promises once it is read.
fn are_tuples(tuples: &[Ground])
    ensures { All IsTuple tuples.now }
{
    for tuple in tuples {
        let _term = tuple.term();
    }
}

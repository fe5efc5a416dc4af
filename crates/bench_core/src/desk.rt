//! A centre, and calls of its agents.

use crate::builders::{call, tuple};
use crate::cases::Case;
use crate::fault::BenchFault;
use std::alloc::Global;
use tc_centre::{Answer, Core};
use tc_lists::NoMemory;
use tc_model::{Clauses, Op, Reply, check_origin};
use tc_spec::read_spec;
use tc_term::{Ground, Name};

/// The centre of a case, with requests that wait.
pub fn centre_of(alloc: Global, case: Case, size: u32) -> Result<Core, BenchFault> {
    let Ok(clauses) = read_spec(alloc, case.clauses()) else {
        return Err(BenchFault::Text);
    };
    let tuples = tuples_of(alloc, case, case.tuples(size))?;
    let agents = agents(alloc)?;
    let mut core = found(alloc, agents, case.budget(), clauses, tuples)?;
    for k in 0..case.requests(size) {
        let op = call(case.request_verb(), case.request(alloc, k)?)?;
        ask(alloc, &mut core, 2, op)?;
    }
    Ok(core)
}

// Three agents.
fn agents(alloc: Global) -> Result<Vec<Name>, NoMemory> {
    let names: [&[u8]; 3] = [b"a", b"b", b"e"];
    let mut agents = Vec::new(alloc);
    for name in names {
        agents.push(Name::new(alloc, name)?)?;
    }
    Ok(agents)
}

// So many tuples of a case.
fn tuples_of(alloc: Global, case: Case, count: u32) -> Result<Vec<Ground>, BenchFault> {
    let mut tuples = Vec::new(alloc);
    for k in 0..count {
        let tuple = tuple(case.tuple(alloc, k)?)?;
        append(&mut tuples, tuple)?;
    }
    Ok(tuples)
}

/// Appends an element.
pub fn append<T: Drop>(list: &mut Vec<T>, element: T) -> Result<(), NoMemory> {
    list.push(element)?;
    Ok(())
}

// The centre that begins with these, where one may.
fn found(
    alloc: Global,
    agents: Vec<Name>,
    budget: u32,
    clauses: Clauses,
    tuples: Vec<Ground>,
) -> Result<Core, BenchFault> {
    let name = Name::new(alloc, b"c")?;
    match check_origin(&name, &agents, budget, &tuples, &clauses) {
        Ok(()) => Ok(Core::new(alloc, name, agents, budget, clauses, tuples)?),
        Err(_) => Err(BenchFault::Text),
    }
}

/// Makes the next call of an agent, and tells whether a tuple is the reply. It is a function of its own
/// when it runs, so that instructions can be counted in it.
#[inline(never)]
pub fn ask(alloc: Global, core: &mut Core, agent: u32, op: Op) -> Result<bool, BenchFault> {
    let Some(id) = core.next_call(agent) else {
        return Err(BenchFault::Refused);
    };
    match core.turn(alloc, id, op) {
        Ok(answer) => Ok(is_tuple(&answer)),
        Err(_) => Err(BenchFault::Refused),
    }
}

// Whether a tuple is the reply.
fn is_tuple(answer: &Answer) -> bool {
    matches!(answer, Answer::Replied(Reply::Tuple(_)))
}

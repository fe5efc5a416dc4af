//! What no centre may begin with.
use crate::fault::WorldFault;
use crate::lists::elements;
use std::alloc::Global;
use tc_lists::NoMemory;
use tc_model::{Clauses, OriginFault, check_origin};
use tc_print::print_name;
use tc_term::{Name, Term};

/// What a centre is to begin with: its name, the names of its agents, and its budget.
#[derive(Clone, Copy)]
pub struct Beginning<'t> {
    pub name: &'t Name,
    pub agents: &'t Term,
    pub budget: u32,
}

/// Prints whether a centre may begin so, or why not.
pub fn show_origin(
    alloc: Global,
    beginning: Beginning,
    into: &mut Vec<u8>,
) -> Result<(), WorldFault> {
    let agents = names_of(alloc, beginning.agents)?;
    let clauses = Clauses::new(alloc);
    let why = check_origin(beginning.name, &agents, beginning.budget, &[], &clauses).err();
    into.extend_from_slice(b"origin ")?;
    print_name(alloc, beginning.name, into)?;
    into.extend_from_slice(b" = ")?;
    into.extend_from_slice(word(why))?;
    Ok(into.extend_from_slice(b"\n")?)
}

// The names of a list.
fn names_of(alloc: Global, list: &Term) -> Result<Vec<Name>, WorldFault> {
    let mut names = Vec::new(alloc);
    for term in elements(alloc, list)? {
        let Term::Atom(name) = term else {
            return Err(WorldFault::NoWorld("an agent has a name"));
        };
        append(&mut names, name.copy(alloc)?)?;
    }
    Ok(names)
}

// Appends a name.
fn append(names: &mut Vec<Name>, name: Name) -> Result<(), NoMemory> {
    names.push(name)?;
    Ok(())
}

// The word of a fault, and of none.
fn word(why: Option<OriginFault>) -> &'static [u8] {
    match why {
        None => b"good",
        Some(OriginFault::CentreName) => b"its name",
        Some(OriginFault::AgentCount) => b"the number of agents",
        Some(OriginFault::AgentName) => b"an agent's name",
        Some(OriginFault::SameNames) => b"two agents of one name",
        Some(OriginFault::Budget) => b"its budget",
        Some(OriginFault::TupleCount) => b"the number of tuples",
    }
}

//! The centre of a world, before any call, and the next calls of agents.
ghost use Rattle.std.specs.Prelude.{IfSome};
ghost use Rattle.tc_model.specs.Run.{IsNext};

use crate::calls::{step_of, tuple_of};
use crate::fault::WorldFault;
use crate::lists::elements;
use crate::worlds::World;
use std::alloc::Global;
use tc_centre::Core;
use tc_lists::NoMemory;
use tc_model::{CallId, Clauses, check_origin};
use tc_spec::{SpecFault, read_spec};
use tc_term::{Ground, Name, Term};

/// The centre of a world, whose agents are those that take steps.
pub fn centre_of(alloc: Global, world: World, steps: &[&Term]) -> Result<Core, WorldFault> {
    let clauses = clauses_of(alloc, world.clauses)?;
    let tuples = tuples_of(alloc, world.tuples)?;
    let agents = agents_of(alloc, steps)?;
    let name = world.name.copy(alloc)?;
    found(alloc, name, agents, world.budget, clauses, tuples)
}

// The centre that begins with these, where one may.
fn found(
    alloc: Global,
    name: Name,
    agents: Vec<Name>,
    budget: u32,
    clauses: Clauses,
    tuples: Vec<Ground>,
) -> Result<Core, WorldFault> {
    match check_origin(&name, &agents, budget, &tuples, &clauses) {
        Ok(()) => Ok(Core::new(alloc, name, agents, budget, clauses, tuples)?),
        Err(_) => Err(WorldFault::NoWorld("no centre begins so")),
    }
}

// The clauses of a text.
fn clauses_of(alloc: Global, text: &[u8]) -> Result<Clauses, WorldFault> {
    match read_spec(alloc, text) {
        Ok(clauses) => Ok(clauses),
        Err(SpecFault::Bad(_)) => Err(WorldFault::NoWorld("a clause is faulty")),
        Err(SpecFault::NoMemory) => Err(WorldFault::NoMemory(NoMemory)),
    }
}

// The tuples of a list, in order.
fn tuples_of(alloc: Global, list: &Term) -> Result<Vec<Ground>, WorldFault> {
    let terms = elements(alloc, list)?;
    let mut tuples = Vec::new(alloc);
    for term in terms {
        let tuple = tuple_of(alloc, term)?;
        append(&mut tuples, tuple)?;
    }
    Ok(tuples)
}

// Appends an element.
fn append<T: Drop>(list: &mut Vec<T>, element: T) -> Result<(), NoMemory> {
    list.push(element)?;
    Ok(())
}

// The agents that take steps, each once, in the order of their first steps.
fn agents_of(alloc: Global, steps: &[&Term]) -> Result<Vec<Name>, WorldFault> {
    let mut agents = Vec::new(alloc);
    for term in steps {
        let Some(step) = step_of(term) else {
            return Err(WorldFault::NoWorld("a step is an agent's act"));
        };
        if place_of(&agents, step.agent).is_none() {
            append(&mut agents, step.agent.copy(alloc)?)?;
        }
    }
    Ok(agents)
}

/// The place of an agent among others.
pub fn place_of(agents: &[Name], agent: &Name) -> Option<usize> {
    agents.iter().position(|name| name == agent)
}

/// The next call of an agent: its number is one above those of all its entries.
pub fn next_call(core: &Core, agent: &Name) -> Option<CallId>
    ensures { IfSome result (IsNext core.now.origin core.now.history) }
{
    let place = place_of(core.agents(), agent)?;
    core.next_call(u32::try_from(place).ok()?)
}

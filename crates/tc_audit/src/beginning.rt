//! What a centre begins with.
ghost use Rattle.std.specs.Prelude.{◌≡◌, [], IfOk, slice_index_or};
ghost use Rattle.tc_model.specs.Tables.{setting_of};
ghost use Rattle.tc_audit.specs.Beginnings.{origin_in};

use std::alloc::Global;
use tc_lists::NoMemory;
use tc_model::{CallId, Clauses, Context, MOST_NAME_BYTES};
use tc_term::{Ground, Name};

/// What a centre begins with.
#[derive(Clone, Copy)]
pub struct Beginning<'c> {
    pub name: &'c Name,
    pub agents: &'c [Name],
    /// The most reactions that may be tried in a phase of a call.
    pub budget: u32,
    pub clauses: &'c Clauses,
    /// Oldest first.
    pub tuples: &'c [Ground],
}

/// In whose name the reactions to a call run, and where. There is none of a name that has too many
/// bytes.
pub(crate) fn context_of(
    alloc: Global,
    beginning: &Beginning,
    id: CallId,
) -> Result<Context, NoMemory>
    ensures { IfOk result (λ context. context ≡ setting_of (origin_in beginning.now) id) }
{
    let agent = name_of(alloc, beginning.agents, id.agent)?;
    let centre = beginning.name.copy(alloc)?;
    if agent.bytes().len() > MOST_NAME_BYTES || centre.bytes().len() > MOST_NAME_BYTES {
        return Err(NoMemory);
    }
    Ok(Context::new(agent, centre))
}

// The name of an agent. One beyond the list has the empty name.
fn name_of(alloc: Global, agents: &[Name], agent: u32) -> Result<Name, NoMemory>
    ensures { IfOk result (λ name. name ≡ slice_index_or agents.now agent []) }
{
    match agents.get(agent as usize) {
        Some(name) => name.copy(alloc),
        None => Name::new(alloc, &[]),
    }
}

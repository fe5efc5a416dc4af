//! Clauses that declare: centres, roles and agents.
ghost use Rattle.std.specs.Prelude.{◌≤◌, IfErr, IfSome, OnOk, length};
ghost use Rattle.tc_model.specs.State.{IsName};
ghost use Rattle.tc_model.specs.declared.limits.TheConstants.{MOST_BUDGET, MOST_NAME_BYTES};
ghost use Rattle.tc_config.specs.Answers.{IsClauseFault};
ghost use Rattle.tc_config.specs.Drafts.{AddsClause, IsDraft, config_of};
ghost use Rattle.tc_config.specs.declared.forms.Form.{Form};

use crate::configs::{AgentConf, CentreConf};
use crate::draft::Draft;
use crate::faults::{ClauseFault, ConfigCause};
use crate::growing::push;
use crate::limits::{MOST_AGENTS, MOST_CENTRES, MOST_ROLES, USUAL_BUDGET};
use std::alloc::Global;
use tc_lists::Seq;
use tc_model::Clauses;
use tc_term::Name;

/// `centre(C)` or `centre(C,B)`.
pub fn add_centre(
    alloc: Global,
    draft: &mut Draft,
    name: Name,
    budget: Option<u32>,
) -> Result<(), ClauseFault>
    requires draft { IsDraft draft.old }
    requires name { length name ≤ MOST_NAME_BYTES }
    requires budget { IfSome budget (λ b. (1 ≤ b) × (b ≤ MOST_BUDGET)) }
    ensures added { OnOk result (AddsClause 0 (Form.Centre name budget) draft.old draft.new) }
    ensures fault { IfErr result
        (IsClauseFault (config_of draft.old) (Form.Centre name budget)) }
{
    if draft.known_centres.place(&name).is_some() {
        return Err(ClauseFault::Bad(ConfigCause::Twice));
    }
    if draft.centres.len() >= MOST_CENTRES {
        return Err(ClauseFault::Bad(ConfigCause::Count));
    }
    tell_name(name.bytes());
    let known = name.copy(alloc)?;
    draft.known_centres.add(known)?;
    let centre = CentreConf {
        name,
        budget: budget.unwrap_or(USUAL_BUDGET),
        clauses: Clauses::new(alloc),
        tuples: Seq::empty(alloc),
    };
    push(&mut draft.centres, centre)?;
    Ok(())
}

/// `role(R)`.
pub fn add_role(alloc: Global, draft: &mut Draft, name: Name) -> Result<(), ClauseFault>
    requires draft { IsDraft draft.old }
    requires name { length name ≤ MOST_NAME_BYTES }
    ensures added { OnOk result (AddsClause 0 (Form.Role name) draft.old draft.new) }
    ensures fault { IfErr result (IsClauseFault (config_of draft.old) (Form.Role name)) }
{
    if draft.known_roles.place(&name).is_some() {
        return Err(ClauseFault::Bad(ConfigCause::Twice));
    }
    if draft.role_names.len() >= MOST_ROLES {
        return Err(ClauseFault::Bad(ConfigCause::Count));
    }
    tell_name(name.bytes());
    let known = name.copy(alloc)?;
    draft.known_roles.add(known)?;
    push(&mut draft.role_names, name)?;
    Ok(())
}

/// `agent(A,R)`.
pub fn add_agent(
    alloc: Global,
    draft: &mut Draft,
    name: Name,
    role: Name,
) -> Result<(), ClauseFault>
    requires draft { IsDraft draft.old }
    requires name { length name ≤ MOST_NAME_BYTES }
    ensures added { OnOk result (AddsClause 0 (Form.Agent name role) draft.old draft.new) }
    ensures fault { IfErr result (IsClauseFault (config_of draft.old) (Form.Agent name role)) }
{
    let Some(role) = draft.known_roles.place(&role) else {
        return Err(ClauseFault::Bad(ConfigCause::UnknownRole));
    };
    if draft.known_agents.place(&name).is_some() {
        return Err(ClauseFault::Bad(ConfigCause::Twice));
    }
    if draft.agents.len() >= MOST_AGENTS {
        return Err(ClauseFault::Bad(ConfigCause::Count));
    }
    tell_name(name.bytes());
    let known = name.copy(alloc)?;
    draft.known_agents.add(known)?;
    let agent = AgentConf {
        name,
        role: role as u32,
        scripts: Seq::empty(alloc),
    };
    push(&mut draft.agents, agent)?;
    Ok(())
}

// Tells contracts that bytes may be a name, and does nothing.
fn tell_name(bytes: &[u8])
    requires { length bytes.now ≤ MOST_NAME_BYTES }
    ensures { IsName bytes.now }
{
    let _length = bytes.len();
}

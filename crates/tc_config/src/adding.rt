//! One clause, added to what those before it have set up.
ghost use Rattle.std.specs.Prelude.{◌≡◌, IfErr, IsTrue, OnOk};
ghost use Rattle.tc_term.specs.NameBytes.{has_read_names};
ghost use Rattle.tc_term.specs.Variables.{IsPattern, var_bound};
ghost use Rattle.tc_config.specs.Answers.{IsClauseFault};
ghost use Rattle.tc_config.specs.Drafts.{AddsClause, HasRoom, IsDraft, config_of};
ghost use Rattle.tc_config.specs.Forms.{IsRight, form_term};

use crate::declaring::{add_agent, add_centre, add_role};
use crate::draft::Draft;
use crate::faults::ClauseFault;
use crate::filling::{add_clause, add_grant, add_script, add_tuple};
use crate::forms::Form;
use std::alloc::Global;

/// Adds a clause of this form, with so many variables, or tells what is wrong with it first.
///
/// Takes time in the clause, however much is set up. Where it is refused, the draft isn't needed
/// any more, and nothing is said of it.
pub fn add(alloc: Global, draft: &mut Draft, vars: u32, form: Form) -> Result<(), ClauseFault>
    requires draft { IsDraft draft.old }
    requires room { HasRoom (config_of draft.old) }
    requires right { IsRight form }
    requires pattern { IsPattern (form_term form) }
    requires names { IsTrue (has_read_names (form_term form)) }
    requires vars { vars ≡ var_bound (form_term form) }
    ensures added { OnOk result (AddsClause vars form draft.old draft.new) }
    ensures fault { IfErr result (IsClauseFault (config_of draft.old) form) }
{
    match form {
        Form::Centre(name, budget) => add_centre(alloc, draft, name, budget),
        Form::Tuple(centre, tuple) => add_tuple(alloc, draft, centre, tuple),
        Form::Spec(centre, reaction) => add_clause(alloc, draft, centre, reaction),
        Form::Role(name) => add_role(alloc, draft, name),
        Form::Grant(role, centre, primitive) => add_grant(draft, role, centre, primitive),
        Form::Agent(name, role) => add_agent(alloc, draft, name, role),
        Form::Script(agent, lines) => add_script(alloc, draft, vars, agent, lines),
    }
}

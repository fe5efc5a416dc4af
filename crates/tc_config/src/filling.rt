//! Clauses that add to what is declared: tuples and reactions of centres,
//! grants, scripts of agents.
ghost use Rattle.std.specs.Prelude.{◌≡◌, ◌<◌, ◌≤◌, All, Any, IfErr, IfNone, IfOk, IfSome};
ghost use Rattle.std.specs.Prelude.{IsTrue, OnOk, Some, length, slice_get};
ghost use Rattle.tc_term.specs.NameBytes.{has_read_names};
ghost use Rattle.tc_term.specs.Tree.{Fits, IsTuple};
ghost use Rattle.tc_term.specs.TreeView.{tree_of};
ghost use Rattle.tc_term.specs.Variables.{IsPattern};
ghost use Rattle.tc_model.specs.Asks.{operand_of};
ghost use Rattle.tc_model.specs.Within.{HasVarsBelow};
ghost use Rattle.tc_model.specs.declared.limits.TheConstants.{MOST_CLAUSES};
ghost use Rattle.tc_spec.specs.Written.{IsWrittenAs};
ghost use Rattle.tc_config.specs.Answers.{IsClauseFault, IsTupleFault, IsReactionFault};
ghost use Rattle.tc_config.specs.Drafts.{AddsClause, HasRoom, IsDraft, config_of};
ghost use Rattle.tc_config.specs.Meanings.{AreItems, changed, with_clause, with_script, with_tuple};
ghost use Rattle.tc_config.specs.Names.{IsUnknown};
ghost use Rattle.tc_names.specs.Names.{place_of};
ghost use Rattle.tc_config.specs.declared.configs.CentreConf.{CentreConf};
ghost use Rattle.tc_config.specs.declared.forms.Form.{Form};
ghost use Rattle.tc_model.specs.declared.lines.Line.{Line};
ghost use Rattle.tc_config.specs.declared.limits.TheConstants.{MOST_CENTRES};

use crate::configs::{AgentConf, CentreConf};
use crate::draft::Draft;
use crate::faults::{ClauseFault, ConfigCause};
use crate::growing::append;
use crate::limits::MOST_ITEMS;
use std::alloc::Global;
use tc_lists::{NoMemory, Seq};
use tc_model::{Line, MOST_CLAUSES, Primitive, Reaction, Script, ScriptItem};
use tc_names::Names;
use tc_policy::Grant;
use tc_spec::{ReactionFault, reaction_of};
use tc_term::{Ground, Name, NotPattern, NotTuple, Pattern, Term};

/// `tuple(C,T)`.
pub fn add_tuple(
    alloc: Global,
    draft: &mut Draft,
    centre: Name,
    tuple: Term,
) -> Result<(), ClauseFault>
    requires draft { IsDraft draft.old }
    requires room { HasRoom (config_of draft.old) }
    requires fits { Fits (tree_of tuple) }
    ensures added { OnOk result (AddsClause 0 (Form.Tuple centre tuple) draft.old draft.new) }
    ensures fault { IfErr result (IsClauseFault (config_of draft.old) (Form.Tuple centre tuple)) }
{
    let Some(place) = draft.known_centres.place(&centre) else {
        return Err(ClauseFault::Bad(ConfigCause::UnknownCentre));
    };
    let tuple = tuple_from(tuple)?;
    append_tuple(alloc, &mut draft.centres, place, tuple)?;
    Ok(())
}

/// `spec(C,R)`.
pub fn add_clause(
    alloc: Global,
    draft: &mut Draft,
    centre: Name,
    reaction: Term,
) -> Result<(), ClauseFault>
    requires draft { IsDraft draft.old }
    requires pattern { IsPattern (tree_of reaction) }
    requires names { IsTrue (has_read_names (tree_of reaction)) }
    ensures added { OnOk result (AddsClause 0 (Form.Spec centre reaction) draft.old draft.new) }
    ensures fault { IfErr result
        (IsClauseFault (config_of draft.old) (Form.Spec centre reaction)) }
{
    let reaction = reaction_from(alloc, reaction)?;
    let Some(place) = draft.known_centres.place(&centre) else {
        return Err(ClauseFault::Bad(ConfigCause::UnknownCentre));
    };
    if draft.centres[place].clauses.items().len() >= MOST_CLAUSES {
        return Err(ClauseFault::Bad(ConfigCause::Count));
    }
    append_clause(&mut draft.centres, place, reaction)?;
    Ok(())
}

/// `grant(R,C,P)`.
pub fn add_grant(
    draft: &mut Draft,
    role: Name,
    centre: Name,
    primitive: Primitive,
) -> Result<(), ClauseFault>
    requires draft { IsDraft draft.old }
    requires room { HasRoom (config_of draft.old) }
    ensures added { OnOk result
        (AddsClause 0 (Form.Grant role centre primitive) draft.old draft.new) }
    ensures fault { IfErr result
        (IsClauseFault (config_of draft.old) (Form.Grant role centre primitive)) }
{
    let Some(centre) = draft.known_centres.place(&centre) else {
        return Err(ClauseFault::Bad(ConfigCause::UnknownCentre));
    };
    let Some(role) = draft.known_roles.place(&role) else {
        return Err(ClauseFault::Bad(ConfigCause::UnknownRole));
    };
    let (role, centre) = (role as u32, centre as u32);
    if draft.roles.permits(role, centre, primitive).is_some() {
        return Err(ClauseFault::Bad(ConfigCause::Twice));
    }
    draft.roles.add(Grant {
        role,
        centre,
        primitive,
    })?;
    Ok(())
}

/// `script(A,L)`, a clause with so many variables.
pub fn add_script(
    alloc: Global,
    draft: &mut Draft,
    vars: u32,
    agent: Name,
    lines: Seq<Line>,
) -> Result<(), ClauseFault>
    requires draft { IsDraft draft.old }
    requires operands { All (λ (l : Line). IfSome (operand_of l.ask) (HasVarsBelow vars)) lines }
    ensures added { OnOk result (AddsClause vars (Form.Script agent lines) draft.old draft.new) }
    ensures fault { IfErr result (IsClauseFault (config_of draft.old) (Form.Script agent lines)) }
{
    let lines = lines.into_vec();
    let count = lines.len();
    let found = items_of(alloc, &draft.known_centres, lines)?;
    let Some(items) = found else {
        return Err(ClauseFault::Bad(ConfigCause::UnknownCentre));
    };
    let Some(place) = draft.known_agents.place(&agent) else {
        return Err(ClauseFault::Bad(ConfigCause::UnknownAgent));
    };
    if count > MOST_ITEMS - draft.items {
        return Err(ClauseFault::Bad(ConfigCause::Count));
    }
    append_script(alloc, &mut draft.agents, place, Script::new(vars, items))?;
    draft.items += count;
    Ok(())
}

// The tuple that a term within the limits is, or that it is none.
fn tuple_from(t: Term) -> Result<Ground, ClauseFault>
    requires { Fits (tree_of t) }
    ensures tuple { IfOk result (λ tuple. (tuple ≡ tree_of t) × IsTuple (tree_of t)) }
    ensures fault { IfErr result (IsTupleFault (tree_of t)) }
{
    match Ground::of(t) {
        Ok(tuple) => Ok(tuple),
        Err(NotTuple::NotGround(_)) => Err(ClauseFault::Bad(ConfigCause::NotGround)),
        Err(NotTuple::TooBig(_)) => unreachable!(),
    }
}

// The reaction that a template is written as, or that it is none.
fn reaction_from(alloc: Global, t: Term) -> Result<Reaction, ClauseFault>
    requires pattern { IsPattern (tree_of t) }
    requires names { IsTrue (has_read_names (tree_of t)) }
    ensures reaction { IfOk result (IsWrittenAs (tree_of t)) }
    ensures fault { IfErr result (IsReactionFault (tree_of t)) }
{
    let template = match Pattern::of(t) {
        Ok(template) => template,
        Err(NotPattern::TooBig(_)) => unreachable!(),
        Err(NotPattern::TooMany(_)) => unreachable!(),
        Err(NotPattern::NoMemory(_)) => return Err(ClauseFault::NoMemory),
    };
    match reaction_of(alloc, &template) {
        Ok(reaction) => Ok(reaction),
        Err(ReactionFault::Bad(_)) => Err(ClauseFault::Bad(ConfigCause::Reaction)),
        Err(ReactionFault::NoMemory) => Err(ClauseFault::NoMemory),
    }
}

// The items of a script with the places of their centres; `None` where one isn't known.
fn items_of(
    alloc: Global,
    centres: &Names,
    lines: Vec<Line>,
) -> Result<Option<Vec<ScriptItem>>, NoMemory>
    requires { length centres.now ≤ MOST_CENTRES }
    ensures some { IfOk result (λ found. IfSome found
        (λ items. AreItems centres.now lines.items items.items)) }
    ensures none { IfOk result (λ found. IfNone found
        (Any (λ (l : Line). IsUnknown centres.now l.centre) lines.items)) }
{
    let mut items = Vec::with_capacity(alloc, lines.len())?;
    for line in lines {
        let Some(item) = item_of(centres, line) else {
            return Ok(None);
        };
        items.push(item)?;
    }
    Ok(Some(items))
}

// The item that a line stands for, where its centre is known.
fn item_of(centres: &Names, line: Line) -> Option<ScriptItem>
    requires { length centres.now ≤ MOST_CENTRES }
    ensures some { IfSome result
        (λ item. (place_of centres.now line.centre ≡ Some item.centre)
        × (item.ask ≡ line.ask)) }
    ensures none { IfNone result (IsUnknown centres.now line.centre) }
{
    let Line { centre, ask } = line;
    let place = centres.place(&centre)?;
    Some(ScriptItem {
        centre: place as u32,
        ask,
    })
}

// Appends a tuple to those of the centre at a place.
fn append_tuple(
    alloc: Global,
    centres: &mut [CentreConf],
    place: usize,
    tuple: Ground,
) -> Result<(), NoMemory>
    requires { place < length centres.old }
    ensures { OnOk result (centres.new ≡ changed place (with_tuple tuple) centres.old) }
{
    let centre = &mut centres[place];
    append(alloc, &mut centre.tuples, tuple)
}

// Appends a clause to those of the centre at a place.
fn append_clause(
    centres: &mut [CentreConf],
    place: usize,
    reaction: Reaction,
) -> Result<(), NoMemory>
    requires place { place < length centres.old }
    requires room { (s : CentreConf) → slice_get centres.old place ≡ Some s
        → length s.clauses < MOST_CLAUSES }
    ensures { OnOk result (centres.new ≡ changed place (with_clause reaction) centres.old) }
{
    let centre = &mut centres[place];
    centre.clauses.push(reaction)
}

// Appends a script to those of the agent at a place.
fn append_script(
    alloc: Global,
    agents: &mut [AgentConf],
    place: usize,
    script: Script,
) -> Result<(), NoMemory>
    requires { place < length agents.old }
    ensures { OnOk result
        (agents.new ≡ changed place (with_script script.vars script.items) agents.old) }
{
    let agent = &mut agents[place];
    append(alloc, &mut agent.scripts, script)
}

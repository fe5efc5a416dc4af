//! From a term to a reaction.
ghost use Rattle.std.specs.Prelude.{◌≡◌, IsTrue, IfErr, IfOk};
ghost use Rattle.tc_term.specs.NameBytes.{has_read_names};
ghost use Rattle.tc_term.specs.TreeView.{tree_of};
ghost use Rattle.tc_model.specs.Reactions.{Rule};
ghost use Rattle.tc_model.specs.declared.faults.SpecCause.{SpecCause};
ghost use Rattle.tc_spec.specs.Answers.{IsReactionFault, IsThisCause, IsReactionWant};
ghost use Rattle.tc_spec.specs.Written.{IsCausedBy, IsShaped, IsWrittenAs};

use crate::arguments::{as_three, as_two};
use crate::bodies::goals_of;
use crate::brackets::is_small;
use crate::faults::ReactionFault;
use crate::guards::tests_of;
use crate::heads::as_head;
use crate::leaves::push_leaves;
use crate::terms::clause_of_terms;
use std::alloc::Global;
use tc_model::{Form, GuardTest, MOST_GOALS, Reaction, SpecCause};
use tc_term::{Pattern, Term};

/// The reaction that a clause `reaction(Head,Body)` or `reaction(Head,Guard,Body)` is written as,
/// or its first fault.
///
/// A clause with commas nested in any way is read, and the reaction's own is nested to the right.
/// Names of the template may hold no byte below 32 but line feeds and tabs, as those that were
/// read.
/// Takes time linear in the template.
pub fn reaction_of(alloc: Global, p: &Pattern) -> Result<Reaction, ReactionFault>
    requires { IsTrue (has_read_names p.now) }
    ensures reaction { IfOk result (IsWrittenAs p.now) }
    ensures fault { IfErr result (IsReactionFault p.now) }

    // Each answer comes exactly where it is due, but for want of memory.
    ensures written { (r : Rule) → IsWrittenAs p.now r → IfErr result IsReactionWant }
    ensures same { (r : Rule) → IsWrittenAs p.now r → IfOk result (λ read. read ≡ r) }
    ensures refused { (why : SpecCause) → IsCausedBy p.now why → IfOk result (λ _. ⊥) }
    ensures caused { (why : SpecCause) → IsCausedBy p.now why → IfErr result (IsThisCause why) }
{
    let read = read_reaction(alloc, p);
    read
}

// The same, with what each answer says.
fn read_reaction(alloc: Global, p: &Pattern) -> Result<Reaction, ReactionFault>
    requires { IsTrue (has_read_names p.now) }
    ensures reaction { IfOk result (IsWrittenAs p.now) }
    ensures fault { IfErr result (IsReactionFault p.now) }
{
    let t = p.term();
    if let Some((head, body)) = as_two(t, b"reaction") {
        return read_shaped(alloc, p, Form::Two, head, Vec::new(alloc), body);
    }
    let Some((head, guard, body)) = as_three(t, b"reaction") else {
        return Err(ReactionFault::Bad(SpecCause::Shape));
    };
    let found = tests_of(alloc, guard)?;
    let Some(tests) = found else {
        return Err(ReactionFault::Bad(SpecCause::Shape));
    };
    read_shaped(alloc, p, Form::Three, head, tests, body)
}

// The same of a template that is shaped as a clause of this form, head, guard and body.
fn read_shaped(
    alloc: Global,
    p: &Pattern,
    form: Form,
    head: &Term,
    guard: Vec<GuardTest>,
    body: &Term,
) -> Result<Reaction, ReactionFault>
    requires names { IsTrue (has_read_names p.now) }
    requires shaped { IsShaped p.now form (tree_of head.now) guard.items (tree_of body.now) }
    ensures reaction { IfOk result (IsWrittenAs p.now) }
    ensures fault { IfErr result (IsReactionFault p.now) }
{
    let Some((op, term)) = as_head(head) else {
        return Err(ReactionFault::Bad(SpecCause::Head));
    };
    let mut leaves = Vec::new(alloc);
    push_leaves(alloc, body, &mut leaves)?;
    let found = goals_of(alloc, form, &leaves)?;
    let Some(goals) = found else {
        return Err(ReactionFault::Bad(SpecCause::Goal));
    };
    if goals.len() > MOST_GOALS {
        return Err(ReactionFault::Bad(SpecCause::Count));
    }
    let clause = clause_of_terms(alloc, form, op, term, &guard, leaves)?;
    if !is_small(&clause) {
        return Err(ReactionFault::Bad(SpecCause::Size));
    }
    let term = term.copy(alloc)?;
    // Reading the term tells that it is a template.
    let _pattern = p.term();
    Ok(Reaction::new(p.vars(), form, op, term, guard, goals))
}

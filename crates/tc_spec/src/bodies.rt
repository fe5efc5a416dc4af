//! Terms as goals.
ghost use Rattle.std.specs.Prelude.{◌≡◌, All, IfNone, IfOk, IfSome, map};
ghost use Rattle.tc_term.specs.TreeView.{tree_of};
ghost use Rattle.tc_model.specs.Reactions.{goal_term};
ghost use Rattle.tc_spec.specs.Written.{IsGoalTerm};

use crate::goals::goal_of;
use std::alloc::Global;
use tc_lists::NoMemory;
use tc_model::{Form, Goal};
use tc_term::Term;

/// The goals whose terms these are in a clause of this form, if each is a goal's.
pub fn goals_of(alloc: Global, form: Form, terms: &[Term]) -> Result<Option<Vec<Goal>>, NoMemory>
    ensures goals { IfOk result (λ found. IfSome found
        (λ goals. map (goal_term form) goals.items ≡ map tree_of terms.now)) }
    ensures none { IfOk result (λ found. IfNone found
        (All (IsGoalTerm form) (map tree_of terms.now) → ⊥)) }
{
    let mut goals = Vec::new(alloc);
    for i in 0..terms.len() {
        let found = goal_of(alloc, form, &terms[i])?;
        let Some(goal) = found else {
            return Ok(None);
        };
        goals.push(goal)?;
    }
    Ok(Some(goals))
}

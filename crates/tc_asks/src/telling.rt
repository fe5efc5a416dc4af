//! What the result of an ask says of its variables.
ghost use Rattle.std.specs.Prelude.{◌≡◌, ◌++◌, [], ℕ, List, IfNone, IfSome, OnErr};
ghost use Rattle.std.specs.Prelude.{OnOk, Some};
ghost use Rattle.tc_term.specs.Equations.{Equation};
ghost use Rattle.tc_term.specs.TreeView.{tree_of};
ghost use Rattle.tc_model.specs.Asks.{operand_of};
ghost use Rattle.tc_model.specs.declared.asks.Ask.{Ask};
ghost use Rattle.tc_model.specs.declared.outcomes.Reply.{Reply};
ghost use Rattle.tc_model.specs.declared.outcomes.Reply.TheVariants.{Tuple};
ghost use Rattle.tc_desk.specs.Asks.{equation, told, told_of};
ghost use Rattle.tc_asks.specs.Bindings.{HasBounds, AreKnown};

use crate::bindings::Bindings;
use std::marker::Brand;
use std::sync::ledger::Blank;
use tc_desk::LogResult;
use tc_lists::NoMemory;
use tc_model::{Ask, Reply};
use tc_term::{Ground, Term};

/// The ask has come to this. Where a tuple came for its template, the bindings are told so.
pub(crate) fn tell(bindings: &mut Bindings, ask: &Ask, came: &LogResult) -> Result<(), NoMemory>
    requires { IfSome (operand_of ask.now) (HasBounds bindings.old) }
    ensures told { OnOk result ((vars : ℕ) (es : List Equation) → AreKnown vars es bindings.old
        → AreKnown vars (es ++ equation ask.now came.now) bindings.new) }
    ensures same { OnErr result (bindings.new ≡ bindings.old) }
{
    let Some(template) = template_in(ask) else {
        return Ok(());
    };
    let Some(tuple) = tuple_in(came) else {
        return Ok(());
    };
    bindings.tell::<Brand>(template, tuple, Blank::new(1))?;
    Ok(())
}

// The template of an ask that asks for a tuple.
fn template_in(ask: &Ask) -> Option<&Term>
    ensures some { IfSome result (λ t. (r : Reply)
        → told_of ask.now r ≡ told (tree_of t.now) r) }
    ensures operand { IfSome result (λ t. operand_of ask.now ≡ Some (tree_of t.now)) }
    ensures none { IfNone result ((r : Reply) → told_of ask.now r ≡ []) }
{
    match ask {
        Ask::In(t) | Ask::Rd(t) | Ask::Inp(t) | Ask::Rdp(t) => Some(t),
        Ask::No(_) | Ask::Nop(_) => None,
        Ask::Out(_) | Ask::SetSpec(_) | Ask::GetSpec => None,
    }
}

// The tuple that came, if one did.
fn tuple_in(came: &LogResult) -> Option<&Ground>
    ensures some { IfSome result (λ u. (ask : Ask)
        → equation ask came.now ≡ told_of ask (Tuple u.now)) }
    ensures none { IfNone result ((ask : Ask) → equation ask came.now ≡ []) }
{
    match came {
        LogResult::Replied(Reply::Tuple(tuple)) => Some(tuple),
        LogResult::Replied(_) => None,
        LogResult::Pending | LogResult::Refused(_) | LogResult::Polled(_) => None,
    }
}

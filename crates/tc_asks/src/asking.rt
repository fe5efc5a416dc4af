//! Asks with each variable replaced that has a value.
ghost use Rattle.std.specs.Prelude.{ℕ, List, Option, IfOk, IfSome};
ghost use Rattle.tc_term.specs.Equations.{Equation};
ghost use Rattle.tc_term.specs.Tree.{Tree};
ghost use Rattle.tc_model.specs.Asks.{operand_of};
ghost use Rattle.tc_desk.specs.Asks.{AreValues, IsFilled};
ghost use Rattle.tc_asks.specs.Bindings.{HasBounds, AreKnown};

use crate::bindings::Bindings;
use std::alloc::Global;
use tc_lists::NoMemory;
use tc_model::Ask;

/// The ask with each variable replaced that has a value.
pub(crate) fn filled_ask(alloc: Global, bindings: &Bindings, ask: &Ask) -> Result<Ask, NoMemory>
    requires { IfSome (operand_of ask.now) (HasBounds bindings.now) }
    ensures { IfOk result (λ filled. (vars : ℕ) (es : List Equation)
        (values : List (Option Tree))
        → AreKnown vars es bindings.now → AreValues vars es values
        → IsFilled values ask.now filled) }
{
    match ask {
        Ask::Out(t) => Ok(Ask::Out(bindings.fill(alloc, t)?)),
        Ask::In(t) => Ok(Ask::In(bindings.fill(alloc, t)?)),
        Ask::Rd(t) => Ok(Ask::Rd(bindings.fill(alloc, t)?)),
        Ask::Inp(t) => Ok(Ask::Inp(bindings.fill(alloc, t)?)),
        Ask::Rdp(t) => Ok(Ask::Rdp(bindings.fill(alloc, t)?)),
        Ask::No(t) => Ok(Ask::No(bindings.fill(alloc, t)?)),
        Ask::Nop(t) => Ok(Ask::Nop(bindings.fill(alloc, t)?)),
        Ask::SetSpec(t) => Ok(Ask::SetSpec(bindings.fill(alloc, t)?)),
        Ask::GetSpec => Ok(Ask::GetSpec),
    }
}

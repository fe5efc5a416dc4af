//! The clauses of an operation, and those of them whose heads meet an event.
ghost use Rattle.std.specs.Prelude.{◌≡◌, ◌≤◌, ◌+◌, ◌↔◌, ◌++◌, ◌∷◌, []};
ghost use Rattle.std.specs.Prelude.{if◌then◌else◌};
ghost use Rattle.std.specs.Prelude.{length, false, ℕ, List, IsTrue, IfOk, OnOk};
ghost use Rattle.tc_term.specs.Variables.{raised};
ghost use Rattle.tc_term.specs.Equations.{under};
ghost use Rattle.tc_term.specs.Tree.{Tree};
ghost use Rattle.tc_term.specs.TreeView.{tree_of};
ghost use Rattle.tc_model.specs.Triggers.{AreTriggered, IsTriggered};
ghost use Rattle.tc_model.specs.declared.limits.TheConstants.{MOST_CLAUSES};
ghost use Rattle.tc_steps.specs.Tops.{agree};
ghost use Rattle.tc_spec.specs.Costs.{trigger_steps};
ghost use Rattle.tc_spec.specs.Guards.{Allows, Forbids};
ghost use Rattle.tc_spec.specs.Indexed.{AreEnough, AreOf};

use crate::guards::allows;
use std::alloc::Global;
use std::sync::ledger::Ledger;
use tc_lists::NoMemory;
use tc_model::{Event, EventOp, Phase, Reaction, Sign};
use tc_steps::Steps;
use tc_term::Term;
use tc_unify::Store;

/// The numbers of the clauses of an operation, from 1, rising.
pub fn numbers_of(alloc: Global, clauses: &[Reaction], o: EventOp) -> Result<Vec<u32>, NoMemory>
    requires { length clauses.now ≤ MOST_CLAUSES }
    ensures { IfOk result (λ numbers. AreOf o clauses.now numbers.items) }
{
    let mut numbers = Vec::new(alloc);
    for i in 0..clauses.len() {
        let keep = has_op(&clauses[i], o);
        keep_if(&mut numbers, keep, i as u32 + 1)?;
    }
    Ok(numbers)
}

/// Those of the numbers whose clauses the event triggers; there are none besides.
pub fn triggered_of<L: Ledger>(
    alloc: Global,
    store: &mut Store,
    clauses: &[Reaction],
    numbers: &[u32],
    e: &Event,
    steps: &mut Steps<L>,
) -> Result<Vec<u32>, NoMemory>
    requires { AreEnough clauses.now e.now numbers.now }
    ensures triggered { IfOk result (λ found. AreTriggered clauses.now e.now found.items) }
    ensures counted { steps.new ≤ steps.old + trigger_steps clauses.now e.now }
    ensures rises { steps.old ≤ steps.new }
{
    let mut found = Vec::new(alloc);
    for i in 0..numbers.len() {
        let number = numbers[i];
        let triggers = is_triggered(store, &clauses[number as usize - 1], e, steps)?;
        keep_if(&mut found, triggers, number)?;
    }
    Ok(found)
}

// Whether a reaction is to this operation.
fn has_op(r: &Reaction, o: EventOp) -> bool
    ensures { IsTrue result ↔ (r.now.op ≡ o) }
{
    r.op() == o
}

/// Whether a reaction's guard holds of the events of this phase and sign.
#[inline(always)]
pub fn has_guard_for(r: &Reaction, phase: Phase, sign: Sign) -> bool
    ensures yes { IsTrue result → Allows phase sign r.now.guard }
    ensures no { result ≡ false → Forbids phase sign r.now.guard }
{
    allows(r.guard(), phase, sign)
}

/// Appends a number, if it is to be kept.
pub fn keep_if(numbers: &mut Vec<u32>, keep: bool, number: u32) -> Result<(), NoMemory>
    ensures { OnOk result (numbers.new.items
        ≡ (if keep then numbers.old.items ++ number ∷ [] else numbers.old.items)) }
{
    if keep {
        numbers.push(number)?;
    }
    Ok(())
}

// Whether an event triggers a reaction.
fn is_triggered<L: Ledger>(
    store: &mut Store,
    r: &Reaction,
    e: &Event,
    steps: &mut Steps<L>,
) -> Result<bool, NoMemory>
    ensures yes { IfOk result (λ y. IsTrue y → IsTriggered r.now e.now) }
    ensures no { IfOk result (λ y. y ≡ false → IsTriggered r.now e.now → ⊥) }
    ensures counted { steps.new ≤ steps.old + trigger_steps (r.now ∷ []) e.now }
    ensures rises { steps.old ≤ steps.new }
{
    if !has_op(r, e.op()) {
        return Ok(false);
    }
    let head = r.head();
    let term = e.term();
    if !could_meet(head, term.term()) {
        return Ok(false);
    }
    if !has_guard_for(r, e.phase(), e.sign()) {
        return Ok(false);
    }
    let met = store.meet(head, r.vars(), term, steps)?;
    Ok(met)
}

// Whether two terms are alike without their arguments, or one is a variable. Else no valuation
// makes them equal.
fn could_meet(head: &Term, term: &Term) -> bool
    ensures agree { IsTrue result → IsTrue (agree (tree_of head.now) (tree_of term.now)) }
    ensures apart { result ≡ false → (v : List Tree) (k : ℕ)
        → under v (tree_of head.now) ≡ under v (raised k (tree_of term.now)) → ⊥ }
{
    match (head, term) {
        (Term::Var(_), _) => true,
        (_, Term::Var(_)) => true,
        (Term::Atom(m), Term::Atom(n)) => m.bytes() == n.bytes(),
        (Term::Int(m), Term::Int(n)) => m == n,
        (Term::Comp(m, xs), Term::Comp(n, ys)) => {
            xs.items().len() == ys.items().len() && m.bytes() == n.bytes()
        }
        _ => false,
    }
}

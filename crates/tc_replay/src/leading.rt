//! Goals of a body, one after another, beside the effects that are recorded.
ghost use Rattle.std.specs.Prelude.{◌≡◌, ◌≤◌, ◌<◌, ◌+◌, [], false, length, slice_get, IfOk, IsTrue};
ghost use Rattle.std.specs.Prelude.{All, if◌then◌else◌};
ghost use Rattle.std.specs.Option.{option_copied};
ghost use Rattle.tc_term.specs.Equations.{Solvable};
ghost use Rattle.tc_term.specs.Variables.{var_bound};
ghost use Rattle.tc_model.specs.Within.{terms_of, HasVarsBelow};
ghost use Rattle.tc_bag.specs.Stock.{tuples_of, AddsYounger};
ghost use Rattle.tc_goals.specs.Moments.{moment, scene};
ghost use Rattle.tc_replay.specs.Following.{LeadsThere, LeadsNowhere, has_effect};

use crate::goal::follow;
use std::alloc::Global;
use std::sync::ledger::Ledger;
use tc_bag::Bag;
use tc_lists::NoMemory;
use tc_model::{Context, Effect, Event, Goal};
use tc_steps::Steps;
use tc_unify::Store;

/// Whether goals, of a body with so many variables, lead on with exactly these effects.
///
/// Where they do, they lead to one end alone, and the equations and the tuples are those there.
/// Else both may have changed.
pub fn lead<L: Ledger>(
    alloc: Global,
    goals: &[Goal],
    vars: u32,
    e: &Event,
    context: &Context,
    recorded: &[Effect],
    store: &mut Store,
    bag: &mut Bag,
    steps: &mut Steps<L>,
) -> Result<bool, NoMemory>
    requires width { store.old.vars ≡ vars + var_bound e.now.term }
    requires goals { All (λ g. All (HasVarsBelow vars) (terms_of g)) goals.now }
    requires solvable { Solvable store.old.vars store.old.pairs }
    requires next { bag.old.next + length goals.now ≤ u64.MAX }
    ensures yes { IfOk result (λ y. IsTrue y
        → LeadsThere (scene vars e.now context.now) goals.now
        (moment store.old (tuples_of bag.old.now) [])
        (moment store.new (tuples_of bag.new.now) recorded.now) recorded.now) }
    ensures no { IfOk result (λ y. y ≡ false
        → LeadsNowhere (scene vars e.now context.now) goals.now
        (moment store.old (tuples_of bag.old.now) []) recorded.now) }

    // After each answer:
    ensures vars { store.new.vars ≡ store.old.vars }
    ensures solvable { Solvable store.new.vars store.new.pairs }
    ensures saved { bag.new.saved ≡ bag.old.saved }
    ensures adds { AddsYounger bag.old bag.new }
    ensures room { bag.new.next ≤ bag.old.next + length goals.now }
{
    let mut done = 0;
    for goal in goals {
        let next = effect_at(recorded, done);
        if !follow(alloc, goal, vars, e, context, next, store, bag, steps)? {
            return Ok(false);
        }
        let behind = place_behind(goal, done);
        done = behind;
    }
    if done < recorded.len() {
        return Ok(false);
    }
    Ok(true)
}

// The effect at a place, if there is one.
fn effect_at(recorded: &[Effect], place: usize) -> Option<&Effect>
    ensures { option_copied result ≡ slice_get recorded.now place }
{
    recorded.get(place)
}

// The place of the effect behind a goal that was followed by the one at a place.
fn place_behind(goal: &Goal, place: usize) -> usize
    requires { place < usize.MAX }
    ensures { result ≡ (if has_effect goal.now then place + 1 else place) }
{
    if has_effect(goal) { place + 1 } else { place }
}

// Whether the goal has an effect.
fn has_effect(goal: &Goal) -> bool
    ensures { result ≡ has_effect goal.now }
{
    match goal {
        Goal::OutR(_) | Goal::InR(_) | Goal::RdR(_) => true,
        _ => false,
    }
}

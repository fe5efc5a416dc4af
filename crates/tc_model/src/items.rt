//! What the reactions of a phase did, as entries record it.
ghost use Rattle.std.specs.Prelude.{◌≡◌, IfOk};

use std::alloc::Global;
use tc_lists::{NoMemory, Seq};
use tc_term::Ground;

/// What a goal of a reaction did to the tuples.
#[derive(Drop)]
pub enum Effect {
    /// It put the tuple, behind all others.
    Put(Ground),
    /// It took the tuple away.
    Took(Ground),
    /// It read the tuple, which stays.
    Read(Ground),
}

/// One reaction that was executed.
///
/// `pick` is its place among the triggered reactions and `clause` the number of its clause.
/// Where it failed, `goal` is the number of the goal that could not succeed, and `effects` are
/// those of the goals before it. All three count from 1.
#[derive(Drop)]
pub enum Item {
    Fired {
        pick: u32,
        clause: u32,
        effects: Seq<Effect>,
    },
    Failed {
        pick: u32,
        clause: u32,
        goal: u32,
        effects: Seq<Effect>,
    },
}

impl Effect {
    /// Another effect on an equal tuple.
    pub fn copy(&self, alloc: Global) -> Result<Effect, NoMemory>
        ensures { IfOk result (λ effect. effect ≡ self.now) }
    {
        match self {
            Effect::Put(tuple) => Ok(Effect::Put(tuple.copy(alloc)?)),
            Effect::Took(tuple) => Ok(Effect::Took(tuple.copy(alloc)?)),
            Effect::Read(tuple) => Ok(Effect::Read(tuple.copy(alloc)?)),
        }
    }
}

impl Item {
    /// An equal item.
    pub fn copy(&self, alloc: Global) -> Result<Item, NoMemory>
        ensures { IfOk result (λ item. item ≡ self.now) }
    {
        match self {
            Item::Fired {
                pick,
                clause,
                effects,
            } => Ok(Item::Fired {
                pick: *pick,
                clause: *clause,
                effects: Seq::new(copy_effects(alloc, effects.items())?),
            }),
            Item::Failed {
                pick,
                clause,
                goal,
                effects,
            } => Ok(Item::Failed {
                pick: *pick,
                clause: *clause,
                goal: *goal,
                effects: Seq::new(copy_effects(alloc, effects.items())?),
            }),
        }
    }
}

// Each effect, in order.
fn copy_effects(alloc: Global, effects: &[Effect]) -> Result<Vec<Effect>, NoMemory>
    ensures { IfOk result (λ copies. copies.items ≡ effects.now) }
{
    let mut copies = Vec::with_capacity(alloc, effects.len())?;
    for effect in effects {
        copies.push(effect.copy(alloc)?)?;
    }
    Ok(copies)
}

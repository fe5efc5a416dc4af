//! Reactions as text.
ghost use Rattle.std.specs.Prelude.{◌≡◌, ◌++◌, OnOk, codes, decimal, ◌∷◌, []};
ghost use mathlib.Core.List.{IsPrefix};
ghost use Rattle.tc_lists.specs.Texts.{joined};
ghost use Rattle.tc_histline.specs.Text.{effect_text, effects_text, item_text, items_text};

use crate::answers::write_tuple;
use std::alloc::Global;
use tc_lists::{NoMemory, append_number};
use tc_model::{Effect, Item};

// Appends the lines of reactions.
pub(crate) fn write_items(alloc: Global, items: &[Item], into: &mut Vec<u8>) -> Result<(), NoMemory>
    ensures appended { OnOk result (into.new.items ≡ into.old.items ++ items_text items.now) }
    ensures kept { IsPrefix into.old.items into.new.items }
{
    for item in items {
        write_item(alloc, item, into)?;
    }
    Ok(())
}

// Appends the line of a reaction.
fn write_item(alloc: Global, item: &Item, into: &mut Vec<u8>) -> Result<(), NoMemory>
    ensures appended { OnOk result (into.new.items ≡ into.old.items ++ item_text item.now) }
    ensures kept { IsPrefix into.old.items into.new.items }
{
    match item {
        Item::Fired {
            pick,
            clause,
            effects,
        } => {
            write_place(*pick, b" fired ", *clause, into)?;
            write_effects(alloc, effects.items(), into)
        }
        Item::Failed {
            pick,
            clause,
            goal,
            effects,
        } => {
            write_place(*pick, b" failed ", *clause, into)?;
            into.extend_from_slice(b" at ")?;
            append_number(*goal as u64, into)?;
            write_effects(alloc, effects.items(), into)
        }
    }
}

// Appends two spaces, a number, a word and a number.
fn write_place(pick: u32, word: &[u8], clause: u32, into: &mut Vec<u8>) -> Result<(), NoMemory>
    ensures appended { OnOk result (into.new.items ≡ into.old.items
        ++ joined (codes "  " ∷ decimal pick ∷ word.now ∷ decimal clause ∷ [])) }
    ensures kept { IsPrefix into.old.items into.new.items }
{
    into.extend_from_slice(b"  ")?;
    append_number(pick as u64, into)?;
    into.extend_from_slice(word)?;
    append_number(clause as u64, into)
}

// Appends effects, each behind a space, and the end of the line.
fn write_effects(alloc: Global, effects: &[Effect], into: &mut Vec<u8>) -> Result<(), NoMemory>
    ensures appended { OnOk result (into.new.items
        ≡ into.old.items ++ (effects_text effects.now ++ codes "\n")) }
    ensures kept { IsPrefix into.old.items into.new.items }
{
    for effect in effects {
        write_effect(alloc, effect, into)?;
    }
    into.extend_from_slice(b"\n")
}

// Appends an effect, behind a space.
fn write_effect(alloc: Global, effect: &Effect, into: &mut Vec<u8>) -> Result<(), NoMemory>
    ensures appended { OnOk result (into.new.items ≡ into.old.items ++ effect_text effect.now) }
    ensures kept { IsPrefix into.old.items into.new.items }
{
    match effect {
        Effect::Put(tuple) => write_tuple(alloc, b" put ", tuple, into),
        Effect::Took(tuple) => write_tuple(alloc, b" took ", tuple, into),
        Effect::Read(tuple) => write_tuple(alloc, b" read ", tuple, into),
    }
}

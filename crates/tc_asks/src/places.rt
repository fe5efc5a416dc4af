//! Where an item stands among scripts.
ghost use Rattle.std.specs.Prelude.{◌≡◌, ◌≢◌, ◌+◌, ◌^◌, ◌<◌, ◌≤◌};
ghost use Rattle.std.specs.Prelude.{ℕ, length, IfNone, IfSome};
ghost use Rattle.tc_asks.specs.Places.{IsBehindItems, IsItemAt, IsPlaced, script_at};

use tc_model::{Script, ScriptItem};

/// The place of a script, and of an item in it, each counted from 0.
#[derive(Clone, Copy)]
pub(crate) struct Place {
    pub(crate) script: usize,
    pub(crate) item: usize,
}

/// Where the next item stands, from this place on. It may be at the beginning of a later script, or
/// behind all of them.
pub(crate) fn next_place(scripts: &[Script], place: Place) -> Place
    ensures placed { (rows : ℕ) → IsPlaced scripts.now place.script place.item rows
        → IsPlaced scripts.now result.script result.item rows }
    ensures same { result.script ≡ place.script → result.item ≡ place.item }
    ensures first { result.script ≢ place.script → result.item ≡ 0 }
    ensures last { IsBehindItems scripts.now result.script result.item
        → length scripts.now ≤ result.script }
{
    let mut at = place;
    while at.script < scripts.len() && at.item >= scripts[at.script].items().len() {
        at = Place {
            script: at.script + 1,
            item: 0,
        };
    }
    at
}

/// How many variables the script at a place has; none where there is no script.
pub(crate) fn vars_at(scripts: &[Script], script: usize) -> u32
    ensures { result ≡ (script_at scripts.now script).vars }
{
    match scripts.get(script) {
        Some(script) => script.vars(),
        None => 0,
    }
}

/// The item at a place.
pub(crate) fn item_at(scripts: &[Script], place: Place) -> Option<&ScriptItem>
    ensures found { IfSome result (λ item. IsItemAt scripts.now place.script place.item item.now) }
    ensures room { IfSome result (λ _. place.item + 1 < 2 ^ 64) }
    ensures none { IfNone result (IsBehindItems scripts.now place.script place.item) }
{
    let script = scripts.get(place.script)?;
    let items = script.items();
    if place.item < items.len() {
        Some(&items[place.item])
    } else {
        None
    }
}

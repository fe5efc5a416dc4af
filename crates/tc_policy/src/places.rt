//! The first place of each grant in a list.
ghost use Rattle.std.specs.Prelude.{◌≡◌, ◌+◌, ◌<◌, ◌≤◌, ◌++◌, ◌∷◌, [], if◌then◌else◌, Some, None};
ghost use Rattle.std.specs.Prelude.{Contains, IfNone, IfSome, List, length, remove};
ghost use Rattle.std.specs.HashMap.{spare};
ghost use Rattle.std.specs.Option.{option_map};
ghost use Rattle.tc_policy.specs.Places.{IsFirstAt, IsIndex, lowered, place_in};
ghost use Rattle.tc_policy.specs.Same.{same_grant};
ghost use Rattle.tc_policy.specs.declared.grants.Grant.{Grant};
ghost use Rattle.tc_policy.specs.declared.grants.TheConstants.{MOST_GRANTS};

use crate::grants::{Grant, MOST_GRANTS};
use std::collections::HashMap;

/// The place, from 0, at which each grant stands first.
pub type Places = HashMap<Grant, u32>;

/// Notes a grant that was appended at this place, where it stands there first. There is room.
pub fn note(places: &mut Places, g: Grant, place: u32)
    requires { 0 < spare places.old }
    ensures { (grants : List Grant) → length grants ≡ place
        → IsIndex (place_in places.old) grants
        → IsIndex (place_in places.new) (grants ++ g ∷ []) }
{
    if places.contains_key(&g) {
        return;
    }
    set(places, g, place);
}

/// Makes the places those in the grants that are left, where the first of this grant, which stood
/// at this place, has been removed.
pub fn forget(places: &mut Places, grants: &[Grant], g: Grant, place: u32)
    requires there { place_in places.old g ≡ Some place }
    requires few { length grants.now ≤ MOST_GRANTS }
    ensures { (old : List Grant) → grants.now ≡ remove old place
        → IsIndex (place_in places.old) old → IsIndex (place_in places.new) grants.now }
{
    lower(places, place);
    match first_place(grants, g) {
        Some(next) => set(places, g, next),
        None => clear(places, g),
    }
}

// Puts a place. There is room, where the grant has none.
fn set(places: &mut Places, g: Grant, place: u32)
    requires { place_in places.old g ≡ None → 0 < spare places.old }
    ensures { (other : Grant) → place_in places.new other
        ≡ (if same_grant g other then Some place else place_in places.old other) }
{
    match places.insert(g, place) {
        Ok(_) => {}
        Err(_) => unreachable!(),
    }
}

// Takes the place of a grant away.
fn clear(places: &mut Places, g: Grant)
    ensures { (other : Grant) → place_in places.new other
        ≡ (if same_grant g other then None else place_in places.old other) }
{
    let _place = places.remove(&g);
}

// Lowers each place behind this one by one.
fn lower(places: &mut Places, removed: u32)
    ensures { (other : Grant) → place_in places.new other
        ≡ option_map (lowered removed) (place_in places.old other) }
{
    places.retain(|_, place| {
        if *place > removed {
            *place -= 1;
        }
        true
    });
}

// The place at which a grant stands first.
fn first_place(grants: &[Grant], g: Grant) -> Option<u32>
    requires { length grants.now ≤ MOST_GRANTS }
    ensures first { IfSome result (IsFirstAt g grants.now) }
    ensures none { IfNone result (Contains grants.now g → ⊥) }
{
    for place in 0..grants.len() {
        if grants[place] == g {
            return Some(place as u32);
        }
    }
    None
}

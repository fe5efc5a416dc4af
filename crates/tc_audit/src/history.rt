//! Histories, entry by entry.
ghost use Rattle.std.specs.Prelude.{◌≡◌, ◌↔◌, ◌+◌, ◌<◌, ℕ, Some, length, take, slice_get};
ghost use Rattle.std.specs.Prelude.{IfOk, IfSome, IfNone, IsTrue};
ghost use Rattle.tc_model.specs.Choices.{AnyOne};
ghost use Rattle.tc_model.specs.Run.{IsLegal, IsNext};
ghost use Rattle.tc_model.specs.State.{IsQuiescent, after_entry, after_history, opening};
ghost use Rattle.tc_model.specs.declared.entries.Entry.{Entry};
ghost use Rattle.tc_replay.specs.Bad.{IsBadAt, IsQuietRun};
ghost use Rattle.tc_audit.specs.Beginnings.{origin_in};
ghost use Rattle.tc_audit.specs.Followed.{IsFollowed};
ghost use Rattle.tc_audit.specs.Reached.{IsSound, state_of};

use crate::beginning::Beginning;
use crate::looks::is_told;
use crate::noted::{Noted, is_next, note, nothing};
use crate::reached::{Reached, begin, is_quiet, rest};
use crate::serving::{give, serve};
use std::alloc::Global;
use std::marker::Brand;
use std::sync::ledger::Blank;
use tc_lists::NoMemory;
use tc_model::{CallId, Entry};

/// The first entry, counted from 1, that isn't legal after those before it, whatever was chosen;
/// behind the last one where the state at the end isn't quiet. `None` where the history is that of
/// a run to a quiet state.
///
/// Takes about the time of the run itself, and for each answer some nanoseconds for each request
/// that waits. Where ages would come to their end, or a name has more than 65,535 bytes, it answers
/// `NoMemory`.
pub fn first_bad(
    alloc: Global,
    beginning: &Beginning,
    history: &[Entry],
) -> Result<Option<usize>, NoMemory>
    ensures bad { IfOk result
        (λ found. IfSome found (IsBadAt (origin_in beginning.now) history.now)) }
    ensures none { IfOk result
        (λ found. IfNone found (IsQuietRun (origin_in beginning.now) history.now)) }
{
    let mut reached = begin(alloc, beginning)?;
    let mut noted = nothing(alloc, beginning.agents.len())?;
    for place in 0..history.len() {
        if !follow(alloc, beginning, history, place, &mut reached, &mut noted)? {
            return Ok(Some(place + 1));
        }
    }
    if is_quiet::<Brand>(&reached, Blank::new(1)) {
        return Ok(None);
    }
    Ok(Some(history.len() + 1))
}

// Whether the entry at a place is legal after those before it. Where it is, it is followed.
fn follow(
    alloc: Global,
    beginning: &Beginning,
    history: &[Entry],
    place: usize,
    reached: &mut Reached,
    noted: &mut Noted,
) -> Result<bool, NoMemory>
    requires inside { place < length history.now }
    requires followed { IsFollowed (origin_in beginning.now) (take place history.now)
        reached.old noted.old }
    ensures bad { (e : Entry) → slice_get history.now place ≡ Some e
        → IfOk result (λ y. IsTrue y ↔ IsLegal AnyOne (origin_in beginning.now)
        (take place history.now)
        (after_history (opening (origin_in beginning.now)) (take place history.now)) e) }
    ensures followed { IfOk result (λ y. IsTrue y → IsFollowed (origin_in beginning.now)
        (take (place + 1) history.now) reached.new noted.new) }
{
    let entry = &history[place];
    if !is_legal(alloc, beginning, &history[..place], noted, entry, reached)? {
        return Ok(false);
    }
    note(beginning, history, place, noted)?;
    Ok(true)
}

// Whether an entry may follow the history, which has led here. Where it may, it has led on.
fn is_legal(
    alloc: Global,
    beginning: &Beginning,
    history: &[Entry],
    noted: &Noted,
    entry: &Entry,
    reached: &mut Reached,
) -> Result<bool, NoMemory>
    requires { IsFollowed (origin_in beginning.now) history.now reached.old noted.now }
    ensures exact { IfOk result (λ y. IsTrue y ↔ IsLegal AnyOne (origin_in beginning.now)
        history.now (state_of reached.old) entry.now) }
    ensures state { IfOk result (λ y. IsTrue y → state_of reached.new
        ≡ after_entry entry.now (state_of reached.old)) }
    ensures sound { IfOk result (λ y. IsTrue y → IsSound reached.new) }
{
    match entry {
        Entry::Called {
            id,
            op,
            outcome,
            items,
        } => {
            if !is_heard(beginning, history, noted, *id, reached) {
                return Ok(false);
            }
            rest(reached)?;
            serve(alloc, beginning, reached, *id, op, outcome, items.items())
        }
        Entry::Gave { id, outcome, items } => {
            give(alloc, beginning, reached, *id, outcome, items.items())
        }
        Entry::Looked { id, asked, reply } => {
            if !is_heard(beginning, history, noted, *id, reached) {
                return Ok(false);
            }
            rest(reached)?;
            is_told(alloc, &noted.places, history, *id, *asked, reply)
        }
    }
}

// Whether the agent is listened to: no request can be answered, and the id is its next.
fn is_heard(
    beginning: &Beginning,
    history: &[Entry],
    noted: &Noted,
    id: CallId,
    reached: &Reached,
) -> bool
    requires { IsFollowed (origin_in beginning.now) history.now reached.now noted.now }
    ensures { IsTrue result ↔ (IsQuiescent (state_of reached.now)
        × IsNext (origin_in beginning.now) history.now id) }
{
    if !is_quiet::<Brand>(reached, Blank::new(1)) {
        return false;
    }
    is_next(beginning, noted, history, id)
}

//! Where the history tells what became of each of its calls.
ghost use Rattle.std.specs.Prelude.{◌≡◌, ◌↔◌, ◌+◌, ◌<◌, None, Some, [], All};
ghost use Rattle.std.specs.Prelude.{length, take, drop, slice_get};
ghost use Rattle.std.specs.Prelude.{List, IfOk, OnOk, IfSome, IfNone, IsTrue};
ghost use Rattle.tc_model.specs.Replies.{reply_in};
ghost use Rattle.tc_model.specs.Run.{HasCall};
ghost use Rattle.tc_model.specs.declared.entries.Entry.{Entry};
ghost use Rattle.tc_calls.specs.Calls.{IsAbove, Rises};
ghost use Rattle.tc_calls.specs.Places.{ArePlaces, IsCallAt, IsGave, IsSomeRun, Puts};
ghost use Rattle.tc_calls.specs.Places.{calls_in, lists_of, place_in, reply_from, room_in};

use crate::calls::{place_of, put_again, put_behind};
use crate::replies::reply_given;
use std::alloc::Global;
use tc_lists::NoMemory;
use tc_model::{CallId, Entry, Reply};

/// By agent, the numbers of its calls, which rise: each with the place of its answer, or of its own
/// entry where it has had none.
pub type Places = Vec<Vec<(u64, usize)>>;

/// No call yet of any of so many agents.
pub fn no_places(alloc: Global, agents: usize) -> Result<Places, NoMemory>
    ensures agents { IfOk result (λ places. length places.items ≡ agents) }
    ensures none { IfOk result (λ places. ArePlaces (lists_of places.items) []) }
{
    let mut places = Vec::with_capacity(alloc, agents)?;
    for _ in 0..agents {
        places.push(Vec::new(alloc))?;
    }
    Ok(places)
}

/// Makes room for one more call of an agent.
pub fn make_room(places: &mut Places, agent: u32) -> Result<(), NoMemory>
    requires { agent < length places.old.items }
    ensures room { OnOk result (0 < room_in places.new.items agent) }
    ensures kept { (history : List Entry) → ArePlaces (lists_of places.old.items) history
        → ArePlaces (lists_of places.new.items) history }
    ensures agents { length places.new.items ≡ length places.old.items }
{
    places[agent as usize].reserve(1)?;
    Ok(())
}

/// Whether the history, whose places these are, has the call.
pub fn has_call(places: &Places, history: &[Entry], id: CallId) -> bool
    requires { ArePlaces (lists_of places.now.items) history.now }
    ensures { IsTrue result ↔ HasCall id history.now }
{
    entry_of(places, history, id).is_some()
}

/// The reply to a call of the history, whose places these are; `None` while it waits.
pub fn reply_to_call(
    alloc: Global,
    places: &Places,
    history: &[Entry],
    id: CallId,
) -> Result<Option<Reply>, NoMemory>
    requires places { ArePlaces (lists_of places.now.items) history.now }
    requires called { HasCall id history.now }
    ensures { IfOk result (λ reply. reply ≡ reply_in history.now id) }
{
    match entry_of(places, history, id) {
        Some(entry) => reply_given(alloc, entry),
        None => unreachable!(),
    }
}

// The entry that tells what became of a call; `None` where the history has no such call.
fn entry_of<'a>(places: &Places, history: &'a [Entry], id: CallId) -> Option<&'a Entry>
    requires { ArePlaces (lists_of places.now.items) history.now }
    ensures called { IfSome result (λ entry. HasCall id history.now) }
    ensures reply { IfSome result (λ entry. reply_from entry.now ≡ reply_in history.now id) }
    ensures none { IfNone result (HasCall id history.now → ⊥) }
{
    match place_in(places, id) {
        Some(place) => Some(&history[place]),
        None => None,
    }
}

// The place of a call.
fn place_in(places: &Places, id: CallId) -> Option<usize>
    requires { Rises (calls_in (lists_of places.now.items) id.agent) }
    ensures { result ≡ place_in (lists_of places.now.items) id }
{
    match places.get(id.agent as usize) {
        Some(calls) => place_of(calls, id.number),
        None => None,
    }
}

/// Notes the call at a place of the history, for which there is room, and the answers behind it. No
/// memory is taken.
pub fn note_turn(places: &mut Places, history: &[Entry], id: CallId, before: usize)
    requires run { IsSomeRun history.now }
    requires called { IsCallAt history.now before id }
    requires answers { All IsGave (drop (before + 1) history.now) }
    requires room { 0 < room_in places.old.items id.agent }
    requires places { ArePlaces (lists_of places.old.items) (take before history.now) }
    ensures places { ArePlaces (lists_of places.new.items) history.now }
    ensures agents { length places.new.items ≡ length places.old.items }
{
    note_call(places, history, id, before);
    for place in before + 1..history.len() {
        note_answer(places, history, place);
    }
}

/// Notes the call at a place of the history, for which there is room. No memory is taken.
pub fn note_call(places: &mut Places, history: &[Entry], id: CallId, place: usize)
    requires run { IsSomeRun (take (place + 1) history.now) }
    requires called { IsCallAt history.now place id }
    requires room { 0 < room_in places.old.items id.agent }
    requires places { ArePlaces (lists_of places.old.items) (take place history.now) }
    ensures places { ArePlaces (lists_of places.new.items) (take (place + 1) history.now) }
    ensures agents { length places.new.items ≡ length places.old.items }
{
    append(places, id, place);
}

/// Notes the answer at a place of the history, over the place of its call. No memory is taken.
pub fn note_answer(places: &mut Places, history: &[Entry], place: usize)
    requires run { IsSomeRun (take (place + 1) history.now) }
    requires inside { place < length history.now }
    requires answer { (e : Entry) → slice_get history.now place ≡ Some e → IsGave e }
    requires places { ArePlaces (lists_of places.old.items) (take place history.now) }
    ensures places { ArePlaces (lists_of places.new.items) (take (place + 1) history.now) }
    ensures agents { length places.new.items ≡ length places.old.items }
{
    match &history[place] {
        Entry::Gave { id, .. } => replace(places, *id, place),
        Entry::Called { .. } | Entry::Looked { .. } => unreachable!(),
    }
}

// Puts the place of an agent's next call, for which there is room.
fn append(places: &mut Places, id: CallId, place: usize)
    requires room { 0 < room_in places.old.items id.agent }
    requires rises { Rises (calls_in (lists_of places.old.items) id.agent) }
    requires above { IsAbove id.number (calls_in (lists_of places.old.items) id.agent) }
    ensures puts { Puts id place (lists_of places.old.items) (lists_of places.new.items) }
    ensures agents { length places.new.items ≡ length places.old.items }
{
    put_behind(&mut places[id.agent as usize], id.number, place);
}

// Puts another place for a call that has one.
fn replace(places: &mut Places, id: CallId, place: usize)
    requires rises { Rises (calls_in (lists_of places.old.items) id.agent) }
    requires there { place_in (lists_of places.old.items) id ≡ None → ⊥ }
    ensures puts { Puts id place (lists_of places.old.items) (lists_of places.new.items) }
    ensures agents { length places.new.items ≡ length places.old.items }
{
    put_again(&mut places[id.agent as usize], id.number, place);
}

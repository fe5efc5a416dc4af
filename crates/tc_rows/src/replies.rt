//! Where a history tells what became of each of its calls.
ghost use Rattle.std.specs.Prelude.{◌≡◌, ◌+◌, ◌<◌, None, IfNone, IfOk, IfSome, OnOk};
ghost use Rattle.std.specs.Prelude.{length, take};
ghost use Rattle.tc_calls.specs.Calls.{IsAt, Rises, place_of};
ghost use Rattle.tc_calls.specs.Places.{ArePlaces, calls_in, lists_of, place_in, reply_from};
ghost use Rattle.tc_model.specs.Replies.{reply_in};
ghost use Rattle.tc_model.specs.Run.{HasCall};
ghost use Rattle.tc_rows.specs.Made.{IsRunOf};

use std::alloc::Global;
use tc_calls::{Places, make_room, no_places, note_answer, note_call};
use tc_lists::NoMemory;
use tc_model::{CallId, Entry};

/// The places of the replies to the calls of a history.
pub(crate) fn replies_in(
    alloc: Global,
    agents: usize,
    history: &[Entry],
) -> Result<Places, NoMemory>
    requires { IsRunOf agents history.now }
    ensures { IfOk result (λ places. ArePlaces (lists_of places.items) history.now) }
{
    let mut places = no_places(alloc, agents)?;
    for place in 0..history.len() {
        note_reply(&mut places, history, place)?;
    }
    Ok(places)
}

// Notes the entry at a place of the history, where it is a call or an answer.
fn note_reply(places: &mut Places, history: &[Entry], place: usize) -> Result<(), NoMemory>
    requires run { IsRunOf (length places.old.items) history.now }
    requires inside { place < length history.now }
    requires places { ArePlaces (lists_of places.old.items) (take place history.now) }
    ensures places { OnOk result
        (ArePlaces (lists_of places.new.items) (take (place + 1) history.now)) }
    ensures agents { length places.new.items ≡ length places.old.items }
{
    match &history[place] {
        Entry::Called { id, .. } => {
            make_room(places, id.agent)?;
            note_call(places, history, *id, place);
        }
        Entry::Gave { .. } => note_answer(places, history, place),
        Entry::Looked { .. } => {}
    }
    Ok(())
}

/// The entry that tells what became of a call of the history, whose places these are: its own, or
/// its answer; `None` where the history has no such call.
pub(crate) fn entry_telling<'a>(
    places: &Places,
    history: &'a [Entry],
    id: CallId,
) -> Option<&'a Entry>
    requires { ArePlaces (lists_of places.now.items) history.now }
    ensures reply { IfSome result (λ e. reply_from e.now ≡ reply_in history.now id) }
    ensures none { IfNone result (HasCall id history.now → ⊥) }
{
    match place_in(places, id) {
        Some(place) => Some(&history[place]),
        None => None,
    }
}

// The place that tells what became of a call.
fn place_in(places: &Places, id: CallId) -> Option<usize>
    requires { Rises (calls_in (lists_of places.now.items) id.agent) }
    ensures { result ≡ place_in (lists_of places.now.items) id }
{
    match places.get(id.agent as usize) {
        Some(calls) => place_of(calls, id.number),
        None => None,
    }
}

// The same of the calls of one agent.
fn place_of(calls: &[(u64, usize)], number: u64) -> Option<usize>
    requires { Rises calls.now }
    ensures { result ≡ place_of calls.now number }
{
    match position(calls, number) {
        Some(at) => Some(calls[at].1),
        None => None,
    }
}

// Where the call of this number stands among them.
fn position(calls: &[(u64, usize)], number: u64) -> Option<usize>
    requires { Rises calls.now }
    ensures found { IfSome result (IsAt calls.now number) }
    ensures none { IfNone result (place_of calls.now number ≡ None) }
{
    calls.binary_search_by_key(&number, |call| call.0).ok()
}

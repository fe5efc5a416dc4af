//! What is noted of a history as it grows.
ghost use Rattle.std.specs.Prelude.{◌≡◌, ◌↔◌, ◌+◌, ◌<◌, [], length, take, slice_get};
ghost use Rattle.std.specs.Prelude.{IfOk, IsTrue, OnOk};
ghost use Rattle.tc_model.specs.Run.{IsNext, IsRun};
ghost use Rattle.tc_audit.specs.Beginnings.{origin_in};
ghost use Rattle.tc_audit.specs.Noted.{IsNoted};

use crate::beginning::Beginning;
use std::alloc::Global;
use tc_calls::{
    Places, is_above, make_room, no_numbers, no_places, note_answer, note_call, note_number,
};
use tc_lists::NoMemory;
use tc_model::{CallId, Entry};

/// Where the history tells of its calls, and each agent's last number.
#[derive(Drop)]
pub(crate) struct Noted {
    pub(crate) places: Places,
    pub(crate) numbers: Vec<Option<u64>>,
}

/// What is noted of no history, for so many agents.
pub(crate) fn nothing(alloc: Global, agents: usize) -> Result<Noted, NoMemory>
    ensures { IfOk result (IsNoted agents []) }
{
    Ok(Noted {
        places: no_places(alloc, agents)?,
        numbers: no_numbers(alloc, agents)?,
    })
}

/// Whether the agent is one of the centre's, and the number above those of the entries that it
/// made.
pub(crate) fn is_next(beginning: &Beginning, noted: &Noted, history: &[Entry], id: CallId) -> bool
    requires { IsNoted (length beginning.now.agents.now) history.now noted.now }
    ensures { IsTrue result ↔ IsNext (origin_in beginning.now) history.now id }
{
    (id.agent as usize) < beginning.agents.len() && is_above(&noted.numbers, id)
}

/// Notes the entry at a place of the history.
pub(crate) fn note(
    beginning: &Beginning,
    history: &[Entry],
    place: usize,
    noted: &mut Noted,
) -> Result<(), NoMemory>
    requires run { IsRun (origin_in beginning.now) (take (place + 1) history.now) }
    requires inside { place < length history.now }
    requires noted { IsNoted (length beginning.now.agents.now) (take place history.now) noted.old }
    ensures { OnOk result
        (IsNoted (length beginning.now.agents.now) (take (place + 1) history.now) noted.new) }
{
    match &history[place] {
        Entry::Called { id, .. } => {
            make_room(&mut noted.places, id.agent)?;
            note_call(&mut noted.places, history, *id, place);
            note_number(&mut noted.numbers, *id);
        }
        Entry::Gave { .. } => note_answer(&mut noted.places, history, place),
        Entry::Looked { id, .. } => note_number(&mut noted.numbers, *id),
    }
    Ok(())
}

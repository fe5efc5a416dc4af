//! Whether a row is one that the agent's item at its place may have come to.
ghost use Rattle.std.specs.Prelude.{◌≡◌, ◌↔◌, ◌<◌, ◌+◌, false, true, Contains, IfOk};
ghost use Rattle.std.specs.Prelude.{IsTrue, Some, ◌^◌, length, slice_get};
ghost use Rattle.tc_config.specs.declared.configs.AgentConf.{AgentConf};
ghost use Rattle.tc_desk.specs.Logs.{is_served};
ghost use Rattle.tc_policy.specs.Places.{grant};
ghost use Rattle.tc_rows.specs.Index.{IsIndexOf};
ghost use Rattle.tc_rows.specs.Made.{AreAllMade, HasNoEntry, lists_of};
ghost use Rattle.tc_rows.specs.Rows.{AreQuietRuns};
ghost use Rattle.tc_rows.specs.Sound.{HasMade, HasName, IsAlone, IsPlaced, IsSoundAt, IsToldThere};

use crate::index::Index;
use crate::made::{Makers, entry_of};
use crate::told::is_told_result;
use std::alloc::Global;
use tc_asks::Next;
use tc_config::Config;
use tc_desk::LogResult;
use tc_histline::{TextRow, Version};
use tc_lists::{NoMemory, Seq};
use tc_model::{CallId, Entry, Primitive};
use tc_term::Name;

/// Whether the row at this place, from 0, is sound of an agent that asks this there: it has the
/// number and the centre's name, only the last row is pending, no other history has an entry of its
/// number, and its result is one that the ask may have come to.
pub(crate) fn is_sound(
    alloc: Global,
    version: Version,
    config: &Config,
    histories: &[Seq<Entry>],
    index: &Index,
    agent: usize,
    next: Next,
    place: usize,
    last: bool,
    row: &TextRow,
) -> Result<bool, NoMemory>
    requires quiet { AreQuietRuns config.now histories.now }
    requires index { IsIndexOf config.now histories.now index.now }
    requires inside { agent < length config.now.agents }
    requires there { next.centre < length config.now.centres }
    requires small { place < usize.MAX }
    ensures { (a : AgentConf) → slice_get config.now.agents agent ≡ Some a
        → IfOk result (λ y. IsTrue y
        ↔ IsSoundAt version config.now histories.now agent a next place last row.now) }
{
    let _agents = config.agents();
    if !is_placed(
        config,
        histories,
        index,
        agent,
        next.centre,
        place,
        last,
        row,
    ) {
        return Ok(false);
    }
    is_told_there(alloc, version, config, histories, index, agent, next, row)
}

// Whether the row has its number and the centre's name, is pending only as the last, and no other
// history has an entry of its number.
fn is_placed(
    config: &Config,
    histories: &[Seq<Entry>],
    index: &Index,
    agent: usize,
    centre: u32,
    place: usize,
    last: bool,
    row: &TextRow,
) -> bool
    requires made { HasMade histories.now index.now }
    requires few { agent < 2 ^ 32 }
    requires there { centre < length config.now.centres }
    requires small { place < usize.MAX }
    ensures { IsTrue result
        ↔ IsPlaced config.now histories.now agent centre place last row.now }
{
    if !is_named(config, centre, place, row) || !may_stand(&row.result, last) {
        return false;
    }
    let served = is_served(&row.result);
    is_alone(index, histories, agent, row.number, served, centre)
}

// Whether the row has the number of this place, from 0, and the centre's name.
fn is_named(config: &Config, centre: u32, place: usize, row: &TextRow) -> bool
    requires there { centre < length config.now.centres }
    requires small { place < usize.MAX }
    ensures { IsTrue result
        ↔ ((row.now.number ≡ place + 1) × HasName config.now centre row.now.centre) }
{
    row.number == place as u64 + 1 && has_name(config, centre, &row.centre)
}

// Whether the result is one that the ask may have come to, by the history of its centre.
fn is_told_there(
    alloc: Global,
    version: Version,
    config: &Config,
    histories: &[Seq<Entry>],
    index: &Index,
    agent: usize,
    next: Next,
    row: &TextRow,
) -> Result<bool, NoMemory>
    requires quiet { AreQuietRuns config.now histories.now }
    requires index { IsIndexOf config.now histories.now index.now }
    requires inside { agent < length config.now.agents }
    requires there { next.centre < length config.now.centres }
    requires alone { IsAlone histories.now agent row.now.number (is_served row.now.result)
        next.centre }
    ensures { (a : AgentConf) → slice_get config.now.agents agent ≡ Some a
        → IfOk result (λ y. IsTrue y
        ↔ IsToldThere version config.now histories.now agent a next row.now) }
{
    let _agents = config.agents();
    let id = CallId {
        agent: agent as u32,
        number: row.number,
    };
    let place = next.centre as usize;
    let permitted = is_permitted(config, agent, next.centre, next.ask.primitive());
    is_told_result(
        alloc,
        version,
        &index.centres[place],
        histories[place].items(),
        id,
        permitted,
        next.ask,
        &row.result,
    )
}

/// Whether a grant permits the agent to use the primitive on the centre.
pub(crate) fn is_permitted(config: &Config, agent: usize, centre: u32, primitive: Primitive) -> bool
    requires { agent < length config.now.agents }
    ensures { (a : AgentConf) → slice_get config.now.agents agent ≡ Some a
        → (IsTrue result ↔ Contains config.now.roles (grant a.role centre primitive)) }
{
    let role = config.agents()[agent].role;
    config.roles().permits(role, centre, primitive).is_some()
}

// Whether the centre at this place has the name.
fn has_name(config: &Config, place: u32, name: &Name) -> bool
    requires { place < length config.now.centres }
    ensures { IsTrue result ↔ HasName config.now place name.now }
{
    config.centres()[place as usize].name == *name
}

// Whether a row with this result may stand there: a pending one only as the last.
fn may_stand(became: &LogResult, last: bool) -> bool
    ensures { IsTrue result ↔ (became.now ≡ LogResult.Pending → last ≡ true) }
{
    match became {
        LogResult::Pending => last,
        LogResult::Replied(_) | LogResult::Refused(_) | LogResult::Polled(_) => true,
    }
}

/// Whether the ask was served.
pub(crate) fn is_served(became: &LogResult) -> bool
    ensures { result ≡ is_served became.now }
{
    match became {
        LogResult::Replied(_) | LogResult::Pending => true,
        LogResult::Refused(_) | LogResult::Polled(_) => false,
    }
}

// Whether no history has an entry of the agent's with this number, but for the one at the centre
// where the ask was served.
fn is_alone(
    index: &Index,
    histories: &[Seq<Entry>],
    agent: usize,
    number: u64,
    served: bool,
    centre: u32,
) -> bool
    requires made { HasMade histories.now index.now }
    requires small { agent < 2 ^ 32 }
    ensures { IsTrue result ↔ IsAlone histories.now agent number served centre }
{
    for (place, history) in histories.iter().enumerate() {
        let own = is_own(served, place, centre);
        let makers = &index.centres[place].makers;
        if !is_clear(makers, history.items(), agent as u32, number, own) {
            return false;
        }
    }
    true
}

// Whether this is the centre at which the ask was served.
fn is_own(served: bool, place: usize, centre: u32) -> bool
    ensures { IsTrue result ↔ ((served ≡ true) × (place ≡ centre)) }
{
    served && place == centre as usize
}

// Whether the history has no entry of the agent's with this number, or it is the one that may have.
fn is_clear(makers: &Makers, history: &[Entry], agent: u32, number: u64, own: bool) -> bool
    requires { AreAllMade (lists_of makers.now.items) history.now }
    ensures { IsTrue result ↔ (own ≡ false → HasNoEntry agent number history.now) }
{
    own || entry_of(makers, history, agent, number).is_none()
}

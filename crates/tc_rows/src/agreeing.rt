//! Whether what a row tells agrees with the history of its centre.
ghost use Rattle.std.specs.Prelude.{◌≡◌, ◌↔◌, ◌<◌, ◌+◌, None, Some, IsTrue, Contains, length};
ghost use Rattle.std.specs.Prelude.{slice_get, take};
ghost use Rattle.tc_calls.specs.Places.{ArePlaces, lists_of, reply_from};
ghost use Rattle.tc_config.specs.Good.{Permits};
ghost use Rattle.tc_config.specs.declared.configs.AgentConf.{AgentConf};
ghost use Rattle.tc_desk.specs.Agreeing.{HasPolled};
ghost use Rattle.tc_histtext.specs.ReadTexts.{as_logged};
ghost use Rattle.tc_model.specs.Calls.{call_of};
ghost use Rattle.tc_model.specs.Replies.{reply_in, reply_of};
ghost use Rattle.tc_model.specs.Run.{HasCall};
ghost use Rattle.tc_model.specs.State.{Origin};
ghost use Rattle.tc_rows.specs.Beside.{IsLastAt, IsLookOf, IsPermittedEntry};
ghost use Rattle.tc_rows.specs.Index.{IsIndexed, IsSomeIndex};
ghost use Rattle.tc_rows.specs.Rows.{logged};
ghost use Rattle.tc_rows.specs.ServedRows.{AgreesTold, IsPermittedCall, IsToldRefusal};
ghost use Rattle.tc_rows.specs.ServedRows.{op_primitive};

use crate::fulls::Load;
use crate::index::CentreIndex;
use crate::made::entry_of;
use crate::replies::entry_telling;
use crate::row::is_permitted;
use crate::same::{same_name, same_told, same_tuple};
use crate::told::is_told_full;
use tc_calls::Places;
use tc_config::Config;
use tc_desk::{LogResult, Refusal};
use tc_histline::{TextRow, Version};
use tc_model::{CallId, Entry, Op, Outcome, Primitive, Reply};

/// Whether what a row tells, behind those before its place, agrees with the history of its centre.
/// The last of them that was served is known.
pub(crate) fn agrees(
    version: Version,
    config: &Config,
    index: &CentreIndex,
    history: &[Entry],
    agent: usize,
    centre: u32,
    rows: &[TextRow],
    last: Option<usize>,
    place: usize,
    row: &TextRow,
) -> bool
    requires index { IsSomeIndex history.now index.now }
    requires inside { agent < length config.now.agents }
    requires there { place < length rows.now }
    requires last { IsLastAt rows.now place last }
    ensures { (origin : Origin) (a : AgentConf) → IsIndexed origin history.now index.now
        → slice_get config.now.agents agent ≡ Some a
        → (IsTrue result
        ↔ AgreesTold version (Permits config.now a.role centre) origin history.now
        (call_of agent (place + 1)) (logged (take place rows.now)) (as_logged row.now)
        row.now.result) }
{
    let _agents = config.agents();
    let id = CallId {
        agent: agent as u32,
        number: place as u64 + 1,
    };
    match &row.result {
        LogResult::Replied(reply) => is_replied(config, index, history, agent, centre, id, reply),
        LogResult::Pending => is_waiting(config, index, history, agent, centre, id),
        LogResult::Refused(why) => is_told_refusal(version, index, history, id, *why),
        LogResult::Polled(told) => has_polled(index, history, id, rows, last, place, row, told),
    }
}

// Whether the history has the call, with an operation that a grant permits, and this reply to it.
fn is_replied(
    config: &Config,
    index: &CentreIndex,
    history: &[Entry],
    agent: usize,
    centre: u32,
    id: CallId,
    reply: &Reply,
) -> bool
    requires index { IsSomeIndex history.now index.now }
    requires inside { agent < length config.now.agents }
    ensures { (a : AgentConf) → slice_get config.now.agents agent ≡ Some a
        → (IsTrue result
        ↔ (IsPermittedCall (Permits config.now a.role centre) history.now id
        × (reply_in history.now id ≡ Some reply.now))) }
{
    is_permitted_call(config, index, history, agent, centre, id)
        && has_reply(&index.replies, history, id, reply)
}

// Whether it has the call, with an operation that a grant permits, and no reply to it.
fn is_waiting(
    config: &Config,
    index: &CentreIndex,
    history: &[Entry],
    agent: usize,
    centre: u32,
    id: CallId,
) -> bool
    requires index { IsSomeIndex history.now index.now }
    requires inside { agent < length config.now.agents }
    ensures { (a : AgentConf) → slice_get config.now.agents agent ≡ Some a
        → (IsTrue result
        ↔ (IsPermittedCall (Permits config.now a.role centre) history.now id
        × (reply_in history.now id ≡ None))) }
{
    is_permitted_call(config, index, history, agent, centre, id)
        && has_no_reply(&index.replies, history, id)
}

// Whether the history has the call, with an operation that a grant permits.
fn is_permitted_call(
    config: &Config,
    index: &CentreIndex,
    history: &[Entry],
    agent: usize,
    centre: u32,
    id: CallId,
) -> bool
    requires index { IsSomeIndex history.now index.now }
    requires inside { agent < length config.now.agents }
    ensures { (a : AgentConf) → slice_get config.now.agents agent ≡ Some a
        → (IsTrue result ↔ IsPermittedCall (Permits config.now a.role centre) history.now id) }
{
    match entry_of(&index.makers, history, id.agent, id.number) {
        Some(entry) => is_permitted_entry(config, agent, centre, entry),
        None => false,
    }
}

// Whether the entry is a call with an operation that a grant permits.
fn is_permitted_entry(config: &Config, agent: usize, centre: u32, entry: &Entry) -> bool
    requires inside { agent < length config.now.agents }
    ensures { (a : AgentConf) → slice_get config.now.agents agent ≡ Some a
        → (IsTrue result ↔ IsPermittedEntry (Permits config.now a.role centre) entry.now) }
{
    match entry {
        Entry::Called { op, .. } => is_permitted(config, agent, centre, op_primitive(op)),
        Entry::Gave { .. } | Entry::Looked { .. } => false,
    }
}

// What has to be permitted for an operation.
fn op_primitive(op: &Op) -> Primitive
    ensures { result ≡ op_primitive op.now }
{
    match op {
        Op::Out(_) => Primitive::Out,
        Op::In(_) => Primitive::In,
        Op::Rd(_) => Primitive::Rd,
        Op::Inp(_) => Primitive::Inp,
        Op::Rdp(_) => Primitive::Rdp,
        Op::No(_) => Primitive::No,
        Op::Nop(_) => Primitive::Nop,
        Op::SetSpec(_) => Primitive::SetSpec,
        Op::GetSpec => Primitive::GetSpec,
    }
}

// Whether the history gives the call this reply.
fn has_reply(places: &Places, history: &[Entry], id: CallId, reply: &Reply) -> bool
    requires places { ArePlaces (lists_of places.now.items) history.now }
    requires called { HasCall id history.now }
    ensures { IsTrue result ↔ (reply_in history.now id ≡ Some reply.now) }
{
    match entry_telling(places, history, id) {
        Some(entry) => tells_reply(entry, reply),
        None => unreachable!(),
    }
}

// Whether the history gives the call no reply.
fn has_no_reply(places: &Places, history: &[Entry], id: CallId) -> bool
    requires places { ArePlaces (lists_of places.now.items) history.now }
    requires called { HasCall id history.now }
    ensures { IsTrue result ↔ (reply_in history.now id ≡ None) }
{
    match entry_telling(places, history, id) {
        Some(entry) => tells_none(entry),
        None => unreachable!(),
    }
}

// Whether the entry gives its call this reply.
fn tells_reply(entry: &Entry, reply: &Reply) -> bool
    ensures { IsTrue result ↔ (reply_from entry.now ≡ Some reply.now) }
{
    match entry {
        Entry::Called { outcome, .. } | Entry::Gave { outcome, .. } => is_reply_of(outcome, reply),
        Entry::Looked { .. } => false,
    }
}

// Whether the entry gives its call no reply.
fn tells_none(entry: &Entry) -> bool
    ensures { IsTrue result ↔ (reply_from entry.now ≡ None) }
{
    match entry {
        Entry::Called { outcome, .. } | Entry::Gave { outcome, .. } => is_pending(outcome),
        Entry::Looked { .. } => true,
    }
}

// Whether this is the reply of the outcome.
fn is_reply_of(outcome: &Outcome, reply: &Reply) -> bool
    ensures { IsTrue result ↔ (reply_of outcome.now ≡ Some reply.now) }
{
    match (outcome, reply) {
        (Outcome::Done, Reply::Done) => true,
        (Outcome::Took(t), Reply::Tuple(u)) => same_tuple(t, u),
        (Outcome::NoTuple, Reply::NoTuple) => true,
        (Outcome::Absent, Reply::Absent) => true,
        (Outcome::Found(t), Reply::Found(u)) => same_tuple(t, u),
        (Outcome::Spec(text), Reply::Spec(other)) => text.items() == other.items(),
        (Outcome::Over(phase, _), Reply::OverBudget(other)) => phase == other,
        _ => false,
    }
}

// Whether the outcome has no reply.
fn is_pending(outcome: &Outcome) -> bool
    ensures { IsTrue result ↔ (reply_of outcome.now ≡ None) }
{
    match outcome {
        Outcome::Pending => true,
        Outcome::Done | Outcome::Took(_) | Outcome::NoTuple | Outcome::Absent => false,
        Outcome::Found(_) | Outcome::Spec(_) | Outcome::Over(..) => false,
    }
}

// Whether a refusal of this ask, told so, agrees with the history: a full centre was full where the
// ask could stand. Of the other causes nothing is seen there; want of memory is none.
fn is_told_refusal(
    version: Version,
    index: &CentreIndex,
    history: &[Entry],
    id: CallId,
    why: Refusal,
) -> bool
    requires index { IsSomeIndex history.now index.now }
    ensures { (origin : Origin) → IsIndexed origin history.now index.now
        → (IsTrue result ↔ IsToldRefusal version origin history.now id why) }
{
    match why {
        Refusal::Full { weight, pending } => {
            entry_of(&index.makers, history, id.agent, id.number).is_none()
                && is_told_full(version, index, history, id, Load { weight, pending })
        }
        Refusal::NoMemory => false,
        Refusal::UnknownCentre => true,
        Refusal::Waiting => true,
        Refusal::Denied => true,
        Refusal::TooBig => true,
        Refusal::NotGround => true,
        Refusal::BadSpec(_) => true,
        Refusal::TurnsSpent => true,
    }
}

// Whether the agent looked there what had become of its last ask that was served, and was told this.
fn has_polled(
    index: &CentreIndex,
    history: &[Entry],
    id: CallId,
    rows: &[TextRow],
    last: Option<usize>,
    place: usize,
    row: &TextRow,
    told: &Option<Reply>,
) -> bool
    requires index { IsSomeIndex history.now index.now }
    requires there { place < length rows.now }
    requires last { IsLastAt rows.now place last }
    ensures { IsTrue result
        ↔ HasPolled history.now id (logged (take place rows.now))
        (length (logged (take place rows.now))) (as_logged row.now) told.now }
{
    match last {
        Some(last) => {
            let earlier = &rows[last];
            same_name(&earlier.centre, &row.centre)
                && has_looked(index, history, id, earlier.number, told)
        }
        None => false,
    }
}

// Whether the history has the look of this id at the call of this number, which was told this.
fn has_looked(
    index: &CentreIndex,
    history: &[Entry],
    id: CallId,
    number: u64,
    told: &Option<Reply>,
) -> bool
    requires index { IsSomeIndex history.now index.now }
    ensures { IsTrue result ↔ Contains history.now (Entry.Looked id number told.now) }
{
    match entry_of(&index.makers, history, id.agent, id.number) {
        Some(entry) => is_look_of(entry, number, told),
        None => false,
    }
}

// Whether the entry is a look at the call of this number, and tells this.
fn is_look_of(entry: &Entry, number: u64, told: &Option<Reply>) -> bool
    ensures { IsTrue result ↔ IsLookOf number told.now entry.now }
{
    match entry {
        Entry::Looked { asked, reply, .. } => *asked == number && same_told(reply, told),
        Entry::Called { .. } | Entry::Gave { .. } => false,
    }
}

//! Whether a row's result is one that its ask may have come to.
ghost use Rattle.std.specs.Prelude.{◌≡◌, ◌≢◌, ◌↔◌, false, true, IfOk, IsTrue};
ghost use Rattle.tc_asks.specs.Operands.{refusal_of};
ghost use Rattle.tc_desk.specs.Logs.{is_served};
ghost use Rattle.tc_desk.specs.Operands.{OpOf, Sound};
ghost use Rattle.tc_desk.specs.Served.{HasCalled};
ghost use Rattle.tc_model.specs.Replies.{reply_in};
ghost use Rattle.tc_model.specs.State.{Origin};
ghost use Rattle.tc_model.specs.declared.asks.Ask.{Ask};
ghost use Rattle.tc_rows.specs.Index.{IsIndexed, IsSomeIndex};
ghost use Rattle.tc_rows.specs.Made.{AreAllMade, HasNoEntry, lists_of};
ghost use Rattle.tc_rows.specs.Told.{HasOp, IsToldFull, IsToldResult, IsToldServed, IsUntold};

use crate::fulls::Load;
use crate::gaps::{was_full, was_full_with};
use crate::index::CentreIndex;
use crate::made::entry_of;
use crate::same::{same_op, same_reply};
use std::alloc::Global;
use tc_asks::{OperandFault, op_of};
use tc_calls::reply_to_call;
use tc_desk::{LogResult, Refusal, ask_is_one_operation};
use tc_histline::Version;
use tc_lists::NoMemory;
use tc_model::{Ask, CallId, Entry, Op, Reply};

/// Whether the result is one that the ask may have come to at the centre with this history. Where
/// it was refused, the history has no entry of the call's number.
pub(crate) fn is_told_result(
    alloc: Global,
    version: Version,
    index: &CentreIndex,
    history: &[Entry],
    id: CallId,
    permitted: bool,
    ask: Ask,
    became: &LogResult,
) -> Result<bool, NoMemory>
    requires index { IsSomeIndex history.now index.now }
    requires alone { is_served became.now ≡ false → HasNoEntry id.agent id.number history.now }
    ensures { (origin : Origin) → IsIndexed origin history.now index.now
        → IfOk result (λ y. IsTrue y
        ↔ IsToldResult version (permitted ≡ true) origin history.now id ask became.now) }
{
    if is_refused(became, Refusal::Denied) {
        return Ok(!permitted);
    }
    if !permitted {
        return Ok(false);
    }
    is_told_served(alloc, version, index, history, id, ask, became)
}

// The same of an ask that was permitted.
fn is_told_served(
    alloc: Global,
    version: Version,
    index: &CentreIndex,
    history: &[Entry],
    id: CallId,
    ask: Ask,
    became: &LogResult,
) -> Result<bool, NoMemory>
    requires index { IsSomeIndex history.now index.now }
    requires alone { is_served became.now ≡ false → HasNoEntry id.agent id.number history.now }
    ensures { (origin : Origin) → IsIndexed origin history.now index.now
        → IfOk result (λ y. IsTrue y
        ↔ IsToldServed version origin history.now id ask became.now) }
{
    ask_is_one_operation();
    match op_of(alloc, ask) {
        Ok(op) => is_told_of(alloc, version, index, history, id, &op, became),
        Err(fault) => is_told_fault(fault, became),
    }
}

// Whether the ask was refused for its operand's fault. Where that is want of memory, nothing is
// known.
fn is_told_fault(fault: OperandFault, became: &LogResult) -> Result<bool, NoMemory>
    ensures told { IfOk result
        (λ y. IsTrue y ↔ (became.now ≡ LogResult.Refused (refusal_of fault))) }
    ensures known { IfOk result (λ _. fault ≢ OperandFault.NoMemory) }
{
    match fault {
        OperandFault::NoMemory => Err(NoMemory),
        OperandFault::TooBig => Ok(is_refused(became, Refusal::TooBig)),
        OperandFault::NotGround => Ok(is_refused(became, Refusal::NotGround)),
        OperandFault::BadSpec(bad) => Ok(is_refused(became, Refusal::BadSpec(bad))),
    }
}

// The same of an ask that is this operation.
fn is_told_of(
    alloc: Global,
    version: Version,
    index: &CentreIndex,
    history: &[Entry],
    id: CallId,
    op: &Op,
    became: &LogResult,
) -> Result<bool, NoMemory>
    requires index { IsSomeIndex history.now index.now }
    requires alone { is_served became.now ≡ false → HasNoEntry id.agent id.number history.now }
    ensures { (origin : Origin) (asked : Ask) → IsIndexed origin history.now index.now
        → OpOf asked (Sound op.now)
        → IfOk result (λ y. IsTrue y
        ↔ IsToldServed version origin history.now id asked became.now) }
{
    match became {
        LogResult::Replied(reply) => is_answered(alloc, index, history, id, op, reply),
        LogResult::Pending => is_waiting(alloc, index, history, id, op),
        LogResult::Refused(why) => Ok(is_turned_away(version, index, history, id, *why)),
        LogResult::Polled(_) => Ok(false),
    }
}

// Whether this refusal tells that the centre was full where the call could stand. The history has no
// entry of the call's number.
fn is_turned_away(
    version: Version,
    index: &CentreIndex,
    history: &[Entry],
    id: CallId,
    why: Refusal,
) -> bool
    requires index { IsSomeIndex history.now index.now }
    requires none { HasNoEntry id.agent id.number history.now }
    ensures { (origin : Origin) → IsIndexed origin history.now index.now
        → (IsTrue result ↔ IsToldFull version origin history.now id why) }
{
    match why {
        Refusal::Full { weight, pending } => {
            is_told_full(version, index, history, id, Load { weight, pending })
        }
        _ => false,
    }
}

// Whether the history has the call with this operation, and gives it this reply.
fn is_answered(
    alloc: Global,
    index: &CentreIndex,
    history: &[Entry],
    id: CallId,
    op: &Op,
    reply: &Reply,
) -> Result<bool, NoMemory>
    requires { IsSomeIndex history.now index.now }
    ensures { IfOk result (λ y. IsTrue y
        ↔ (HasCalled id op.now history.now × (reply_in history.now id ≡ Some reply.now))) }
{
    if !is_called(alloc, index, history, id, op)? {
        return Ok(false);
    }
    match reply_to_call(alloc, &index.replies, history, id)? {
        Some(given) => Ok(same_reply(&given, reply)),
        None => Ok(false),
    }
}

// Whether the history has the call with this operation, and gives it no reply.
fn is_waiting(
    alloc: Global,
    index: &CentreIndex,
    history: &[Entry],
    id: CallId,
    op: &Op,
) -> Result<bool, NoMemory>
    requires { IsSomeIndex history.now index.now }
    ensures { IfOk result (λ y. IsTrue y
        ↔ (HasCalled id op.now history.now × (reply_in history.now id ≡ None))) }
{
    if !is_called(alloc, index, history, id, op)? {
        return Ok(false);
    }
    Ok(reply_to_call(alloc, &index.replies, history, id)?.is_none())
}

// Whether the history has the call with this operation.
fn is_called(
    alloc: Global,
    index: &CentreIndex,
    history: &[Entry],
    id: CallId,
    op: &Op,
) -> Result<bool, NoMemory>
    requires { AreAllMade (lists_of index.now.makers.items) history.now }
    ensures { IfOk result (λ y. IsTrue y ↔ HasCalled id op.now history.now) }
{
    match entry_of(&index.makers, history, id.agent, id.number) {
        Some(entry) => has_op(alloc, entry, op),
        None => Ok(false),
    }
}

// Whether the entry is a call with this operation.
fn has_op(alloc: Global, entry: &Entry, op: &Op) -> Result<bool, NoMemory>
    ensures { IfOk result (λ y. IsTrue y ↔ HasOp op.now entry.now) }
{
    match entry {
        Entry::Called { op: called, .. } => same_op(alloc, called, op),
        Entry::Gave { .. } | Entry::Looked { .. } => Ok(false),
    }
}

/// Whether the centre was full where the call could stand, with this load where the version tells
/// one. The history has no entry of the call's number.
pub(crate) fn is_told_full(
    version: Version,
    index: &CentreIndex,
    history: &[Entry],
    id: CallId,
    load: Load,
) -> bool
    requires index { IsSomeIndex history.now index.now }
    requires none { HasNoEntry id.agent id.number history.now }
    ensures { (origin : Origin) → IsIndexed origin history.now index.now
        → (IsTrue result
        ↔ IsToldFull version origin history.now id (Refusal.Full load.weight load.pending)) }
{
    match version {
        Version::One => { is_untold(load) && was_full(&index.points, &index.makers, history, id) }
        Version::Two => was_full_with(&index.points, &index.makers, history, id, load),
    }
}

// Whether the load is what a text has that doesn't tell it.
fn is_untold(load: Load) -> bool
    ensures { IsTrue result ↔ IsUntold load }
{
    load.weight == 0 && load.pending == 0
}

// Whether the ask was refused for this reason.
fn is_refused(became: &LogResult, why: Refusal) -> bool
    ensures { IsTrue result ↔ (became.now ≡ LogResult.Refused why) }
{
    match became {
        LogResult::Refused(told) => *told == why,
        LogResult::Replied(_) | LogResult::Pending | LogResult::Polled(_) => false,
    }
}

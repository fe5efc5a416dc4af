//! What an agent was told of an earlier call, beside what the history tells of it.
ghost use Rattle.std.specs.Prelude.{◌≡◌, ◌↔◌, IfOk, IsTrue};
ghost use Rattle.tc_calls.specs.Places.{ArePlaces, lists_of};
ghost use Rattle.tc_model.specs.Run.{IsTold};

use std::alloc::Global;
use tc_calls::{Places, has_call, reply_to_call};
use tc_lists::NoMemory;
use tc_model::{CallId, Entry, Reply};

/// Whether an agent has made the call that it asks for, and the history, whose places these are,
/// gives it this reply.
pub(crate) fn is_told(
    alloc: Global,
    places: &Places,
    history: &[Entry],
    id: CallId,
    asked: u64,
    reply: &Option<Reply>,
) -> Result<bool, NoMemory>
    requires { ArePlaces (lists_of places.now.items) history.now }
    ensures { IfOk result (λ y. IsTrue y ↔ IsTold history.now id asked reply.now) }
{
    let call = CallId {
        agent: id.agent,
        number: asked,
    };
    if !has_call(places, history, call) {
        return Ok(false);
    }
    let told = reply_to_call(alloc, places, history, call)?;
    Ok(are_equal(reply, &told))
}

// Whether two replies are the same, or there is neither.
fn are_equal(a: &Option<Reply>, b: &Option<Reply>) -> bool
    ensures { IsTrue result ↔ (a.now ≡ b.now) }
{
    match (a, b) {
        (None, None) => true,
        (Some(a), Some(b)) => is_equal(a, b),
        (None, Some(_)) | (Some(_), None) => false,
    }
}

// Whether two replies are the same.
fn is_equal(a: &Reply, b: &Reply) -> bool
    ensures { IsTrue result ↔ (a.now ≡ b.now) }
{
    match (a, b) {
        (Reply::Done, Reply::Done) => true,
        (Reply::NoTuple, Reply::NoTuple) => true,
        (Reply::Absent, Reply::Absent) => true,
        (Reply::Tuple(t), Reply::Tuple(u)) => *t.term() == *u.term(),
        (Reply::Found(t), Reply::Found(u)) => *t.term() == *u.term(),
        (Reply::Spec(text), Reply::Spec(other)) => text.items() == other.items(),
        (Reply::OverBudget(p), Reply::OverBudget(q)) => *p == *q,
        _ => false,
    }
}

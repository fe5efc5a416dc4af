//! What a history tells of a call.
ghost use Rattle.std.specs.Prelude.{◌≡◌, IfOk, IfSome, IfNone};
ghost use Rattle.tc_calls.specs.Places.{reply_from};
ghost use Rattle.tc_model.specs.Replies.{reply_of, outcome_given, outcome_in, reply_in};

use std::alloc::Global;
use tc_lists::{NoMemory, Seq};
use tc_model::{CallId, Entry, Outcome, Reply};

/// The reply that the entries give to a call; `None` while they give none.
pub fn reply_to(alloc: Global, entries: &[Entry], id: CallId) -> Result<Option<Reply>, NoMemory>
    ensures { IfOk result (λ reply. reply ≡ reply_in entries.now id) }
{
    match outcome_of(entries, id) {
        Some(outcome) => reply_for(alloc, outcome),
        None => Ok(None),
    }
}

// The outcome of a call: that of its entry, or of the first answer behind it where it was pending.
fn outcome_of(entries: &[Entry], id: CallId) -> Option<&Outcome>
    ensures some { IfSome result (λ outcome. outcome.now ≡ outcome_in entries.now id) }
    ensures none { IfNone result (outcome_in entries.now id ≡ Outcome.Pending) }
{
    for (place, entry) in entries.iter().enumerate() {
        if let Entry::Called {
            id: called,
            outcome,
            ..
        } = entry
        {
            if *called == id {
                return match outcome {
                    Outcome::Pending => given(&entries[place + 1..], id),
                    _ => Some(outcome),
                };
            }
        }
    }
    None
}

// The outcome of the first answer to a call.
fn given(entries: &[Entry], id: CallId) -> Option<&Outcome>
    ensures some { IfSome result (λ outcome. outcome.now ≡ outcome_given entries.now id) }
    ensures none { IfNone result (outcome_given entries.now id ≡ Outcome.Pending) }
{
    for entry in entries {
        if let Entry::Gave {
            id: answered,
            outcome,
            ..
        } = entry
        {
            if *answered == id {
                return Some(outcome);
            }
        }
    }
    None
}

/// The reply that an entry gives to its call; `None` where it gives none.
pub fn reply_given(alloc: Global, entry: &Entry) -> Result<Option<Reply>, NoMemory>
    ensures { IfOk result (λ reply. reply ≡ reply_from entry.now) }
{
    match entry {
        Entry::Called { outcome, .. } | Entry::Gave { outcome, .. } => reply_for(alloc, outcome),
        Entry::Looked { .. } => Ok(None),
    }
}

// What the agent is told of an outcome.
fn reply_for(alloc: Global, outcome: &Outcome) -> Result<Option<Reply>, NoMemory>
    ensures { IfOk result (λ reply. reply ≡ reply_of outcome.now) }
{
    match outcome {
        Outcome::Done => Ok(Some(Reply::Done)),
        Outcome::Took(tuple) => Ok(Some(Reply::Tuple(tuple.copy(alloc)?))),
        Outcome::NoTuple => Ok(Some(Reply::NoTuple)),
        Outcome::Absent => Ok(Some(Reply::Absent)),
        Outcome::Found(tuple) => Ok(Some(Reply::Found(tuple.copy(alloc)?))),
        Outcome::Pending => Ok(None),
        Outcome::Spec(text) => Ok(Some(Reply::Spec(Seq::new(text.items().to_vec(alloc)?)))),
        Outcome::Over(phase, _) => Ok(Some(Reply::OverBudget(*phase))),
    }
}

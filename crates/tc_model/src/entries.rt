//! The entries of a history.
ghost use Rattle.std.specs.Prelude.{◌≡◌, IfOk};

use crate::calls::{CallId, Op};
use crate::items::Item;
use crate::outcomes::{Outcome, Reply};
use std::alloc::Global;
use tc_lists::{NoMemory, Seq};

/// What a centre did at one time: it served a call, answered a pending request, or told an agent
/// what became of an earlier call of its own.
///
/// An `out(p(1))` of agent 0, and then two `inp(p(1))` of it, leave
/// `Called` 1 `Done`, `Called` 2 `Took(p(1))` and `Called` 3 `NoTuple`.
#[derive(Drop)]
pub enum Entry {
    Called {
        id: CallId,
        op: Op,
        outcome: Outcome,
        items: Seq<Item>,
    },
    /// The call of this id, which was pending, got its answer.
    Gave {
        id: CallId,
        outcome: Outcome,
        items: Seq<Item>,
    },
    /// The agent asked for the reply to its call `asked`; `None` says that it was still pending.
    Looked {
        id: CallId,
        asked: u64,
        reply: Option<Reply>,
    },
}

impl Entry {
    /// An equal entry.
    pub fn copy(&self, alloc: Global) -> Result<Entry, NoMemory>
        ensures { IfOk result (λ entry. entry ≡ self.now) }
    {
        match self {
            Entry::Called {
                id,
                op,
                outcome,
                items,
            } => Ok(Entry::Called {
                id: *id,
                op: op.copy(alloc)?,
                outcome: outcome.copy(alloc)?,
                items: Seq::new(copy_items(alloc, items.items())?),
            }),
            Entry::Gave { id, outcome, items } => Ok(Entry::Gave {
                id: *id,
                outcome: outcome.copy(alloc)?,
                items: Seq::new(copy_items(alloc, items.items())?),
            }),
            Entry::Looked { id, asked, reply } => Ok(Entry::Looked {
                id: *id,
                asked: *asked,
                reply: copy_reply(alloc, reply)?,
            }),
        }
    }
}

// Each item, in order.
fn copy_items(alloc: Global, items: &[Item]) -> Result<Vec<Item>, NoMemory>
    ensures { IfOk result (λ copies. copies.items ≡ items.now) }
{
    let mut copies = Vec::with_capacity(alloc, items.len())?;
    for item in items {
        copies.push(item.copy(alloc)?)?;
    }
    Ok(copies)
}

// The reply, where there is one.
fn copy_reply(alloc: Global, reply: &Option<Reply>) -> Result<Option<Reply>, NoMemory>
    ensures { IfOk result (λ copy. copy ≡ reply.now) }
{
    match reply {
        None => Ok(None),
        Some(reply) => Ok(Some(reply.copy(alloc)?)),
    }
}

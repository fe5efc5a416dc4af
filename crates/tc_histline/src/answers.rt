//! Outcomes and replies as text.
ghost use Rattle.std.specs.Prelude.{◌≡◌, ◌++◌, OnErr, OnOk, codes};
ghost use mathlib.Core.List.{IsPrefix};
ghost use Rattle.tc_term.specs.Text.{canonical, quoted};
ghost use Rattle.tc_histline.specs.Text.{chosen_text, outcome_text, over_text, reply_text};
ghost use Rattle.tc_histline.specs.Text.{told_text};

use std::alloc::Global;
use tc_lists::{NoMemory, cut_back};
use tc_model::{Outcome, Phase, Reply};
use tc_print::{print_quoted, print_term};
use tc_term::Ground;

/// Appends a reply, as it stands in the line of its row.
///
/// Takes time linear in the length of the text.
pub fn print_reply(alloc: Global, reply: &Reply, into: &mut Vec<u8>) -> Result<(), NoMemory>
    ensures appended { OnOk result (into.new.items ≡ into.old.items ++ reply_text reply.now) }
    ensures same { OnErr result (into.new.items ≡ into.old.items) }
{
    let before = into.len();
    let written = write_reply(alloc, reply, into);
    cut_back(written, before, into)
}

// Appends the outcome of an entry.
pub(crate) fn write_outcome(
    alloc: Global,
    outcome: &Outcome,
    into: &mut Vec<u8>,
) -> Result<(), NoMemory>
    ensures appended { OnOk result (into.new.items ≡ into.old.items ++ outcome_text outcome.now) }
    ensures kept { IsPrefix into.old.items into.new.items }
{
    match outcome {
        Outcome::Done => into.extend_from_slice(b"done"),
        Outcome::Took(tuple) => write_tuple(alloc, b"tuple ", tuple, into),
        Outcome::NoTuple => into.extend_from_slice(b"none"),
        Outcome::Absent => into.extend_from_slice(b"absent"),
        Outcome::Found(tuple) => write_tuple(alloc, b"found ", tuple, into),
        Outcome::Pending => into.extend_from_slice(b"pending"),
        Outcome::Spec(text) => write_spec(alloc, text.items(), into),
        Outcome::Over(phase, tuple) => write_over(alloc, *phase, tuple, into),
    }
}

// Appends what an agent is told that asks: the reply, or that there is none yet.
pub(crate) fn write_told(
    alloc: Global,
    told: &Option<Reply>,
    into: &mut Vec<u8>,
) -> Result<(), NoMemory>
    ensures appended { OnOk result (into.new.items ≡ into.old.items ++ told_text told.now) }
    ensures kept { IsPrefix into.old.items into.new.items }
{
    match told {
        Some(reply) => write_reply(alloc, reply, into),
        None => into.extend_from_slice(b"pending"),
    }
}

// Appends a reply.
pub(crate) fn write_reply(alloc: Global, reply: &Reply, into: &mut Vec<u8>) -> Result<(), NoMemory>
    ensures appended { OnOk result (into.new.items ≡ into.old.items ++ reply_text reply.now) }
    ensures kept { IsPrefix into.old.items into.new.items }
{
    match reply {
        Reply::Done => into.extend_from_slice(b"done"),
        Reply::Tuple(tuple) => write_tuple(alloc, b"tuple ", tuple, into),
        Reply::NoTuple => into.extend_from_slice(b"none"),
        Reply::Absent => into.extend_from_slice(b"absent"),
        Reply::Found(tuple) => write_tuple(alloc, b"found ", tuple, into),
        Reply::Spec(text) => write_spec(alloc, text.items(), into),
        Reply::OverBudget(phase) => into.extend_from_slice(over(*phase)),
    }
}

// Appends a word, and a tuple behind it.
pub(crate) fn write_tuple(
    alloc: Global,
    word: &[u8],
    tuple: &Ground,
    into: &mut Vec<u8>,
) -> Result<(), NoMemory>
    ensures appended { OnOk result (into.new.items
        ≡ into.old.items ++ (word.now ++ canonical tuple.now)) }
    ensures kept { IsPrefix into.old.items into.new.items }
{
    into.extend_from_slice(word)?;
    print_term(alloc, tuple.term(), into)
}

// Appends the text of a centre's clauses, in quotes.
fn write_spec(alloc: Global, text: &[u8], into: &mut Vec<u8>) -> Result<(), NoMemory>
    ensures appended { OnOk result (into.new.items
        ≡ into.old.items ++ (codes "spec " ++ quoted text.now)) }
    ensures kept { IsPrefix into.old.items into.new.items }
{
    into.extend_from_slice(b"spec ")?;
    print_quoted(alloc, text, into)
}

// Appends that the reactions of a phase went over the budget, and the tuple that was chosen.
fn write_over(
    alloc: Global,
    phase: Phase,
    tuple: &Option<Ground>,
    into: &mut Vec<u8>,
) -> Result<(), NoMemory>
    ensures appended { OnOk result (into.new.items
        ≡ into.old.items ++ (over_text phase ++ chosen_text tuple.now)) }
    ensures kept { IsPrefix into.old.items into.new.items }
{
    into.extend_from_slice(over(phase))?;
    match tuple {
        Some(tuple) => write_tuple(alloc, b" ", tuple, into),
        None => Ok(()),
    }
}

// That the reactions of a phase went over the budget.
fn over(phase: Phase) -> &'static [u8]
    ensures { result.now ≡ over_text phase }
{
    match phase {
        Phase::Pre => b"over pre",
        Phase::Post => b"over post",
    }
}

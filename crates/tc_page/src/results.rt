//! What became of a step, as a text writes it.
use std::alloc::Global;
use tc_histtext::print_reply;
use tc_lists::NoMemory;
use tc_model::{Outcome, Phase, Reply};
use tc_print::{print_quoted, print_term};
use tc_term::Ground;

/// Appends an outcome.
pub fn append_outcome(
    alloc: Global,
    outcome: &Outcome,
    into: &mut Vec<u8>,
) -> Result<(), NoMemory> {
    match outcome {
        Outcome::Done => into.extend_from_slice(b"done"),
        Outcome::Took(tuple) => append_tuple(alloc, b"tuple ", tuple, into),
        Outcome::NoTuple => into.extend_from_slice(b"none"),
        Outcome::Absent => into.extend_from_slice(b"absent"),
        Outcome::Found(tuple) => append_tuple(alloc, b"found ", tuple, into),
        Outcome::Pending => into.extend_from_slice(b"pending"),
        Outcome::Spec(text) => {
            into.extend_from_slice(b"spec ")?;
            print_quoted(alloc, text.items(), into)
        }
        Outcome::Over(phase, tuple) => append_over(alloc, *phase, tuple, into),
    }
}

/// Appends what an agent was told.
pub fn append_told(
    alloc: Global,
    told: &Option<Reply>,
    into: &mut Vec<u8>,
) -> Result<(), NoMemory> {
    match told {
        Some(reply) => print_reply(alloc, reply, into),
        None => into.extend_from_slice(b"pending"),
    }
}

fn append_over(
    alloc: Global,
    phase: Phase,
    tuple: &Option<Ground>,
    into: &mut Vec<u8>,
) -> Result<(), NoMemory> {
    match phase {
        Phase::Pre => into.extend_from_slice(b"over pre")?,
        Phase::Post => into.extend_from_slice(b"over post")?,
    }
    match tuple {
        Some(tuple) => append_tuple(alloc, b" ", tuple, into),
        None => Ok(()),
    }
}

fn append_tuple(
    alloc: Global,
    word: &[u8],
    tuple: &Ground,
    into: &mut Vec<u8>,
) -> Result<(), NoMemory> {
    into.extend_from_slice(word)?;
    print_term(alloc, tuple.term(), into)
}

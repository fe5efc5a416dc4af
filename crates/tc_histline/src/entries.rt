//! Entries of histories as text.
ghost use Rattle.std.specs.Prelude.{◌≡◌, ◌<◌, ◌++◌, OnErr, OnOk, codes, decimal};
ghost use Rattle.std.specs.Prelude.{length, ◌∷◌, []};
ghost use mathlib.Core.List.{IsPrefix};
ghost use Rattle.tc_lists.specs.Texts.{joined};
ghost use Rattle.tc_model.specs.Calls.{id_of};
ghost use Rattle.tc_histline.specs.Text.{call_text, entry_text, items_text, op_text, outcome_text};
ghost use Rattle.tc_histline.specs.Text.{told_text};

use crate::answers::{write_outcome, write_told};
use crate::items::write_items;
use crate::operations::write_op;
use std::alloc::Global;
use tc_lists::{NoMemory, append_number, cut_back};
use tc_model::{CallId, Entry, Item, Op, Outcome, Reply};
use tc_print::print_name;
use tc_term::Name;

/// Appends the line of an entry, and those of its reactions; its agent is one of these.
///
/// Takes time linear in the length of the text.
pub fn print_entry(
    alloc: Global,
    agents: &[Name],
    e: &Entry,
    into: &mut Vec<u8>,
) -> Result<(), NoMemory>
    requires agent { (id_of e.now).agent < length agents.now }
    ensures appended { OnOk result
        (into.new.items ≡ into.old.items ++ entry_text agents.now e.now) }
    ensures same { OnErr result (into.new.items ≡ into.old.items) }
{
    let before = into.len();
    let written = write_entry(alloc, agents, e, into);
    cut_back(written, before, into)
}

fn write_entry(
    alloc: Global,
    agents: &[Name],
    e: &Entry,
    into: &mut Vec<u8>,
) -> Result<(), NoMemory>
    requires agent { (id_of e.now).agent < length agents.now }
    ensures appended { OnOk result
        (into.new.items ≡ into.old.items ++ entry_text agents.now e.now) }
    ensures kept { IsPrefix into.old.items into.new.items }
{
    match e {
        Entry::Called {
            id,
            op,
            outcome,
            items,
        } => {
            write_call(alloc, b"call ", agents, *id, into)?;
            write_served(alloc, op, outcome, items.items(), into)
        }
        Entry::Gave { id, outcome, items } => {
            write_call(alloc, b"give ", agents, *id, into)?;
            write_result(alloc, outcome, items.items(), into)
        }
        Entry::Looked { id, asked, reply } => {
            write_call(alloc, b"look ", agents, *id, into)?;
            write_look(alloc, *asked, reply, into)
        }
    }
}

// Appends what an entry is, the agent's name and the number of its call.
fn write_call(
    alloc: Global,
    word: &[u8],
    agents: &[Name],
    id: CallId,
    into: &mut Vec<u8>,
) -> Result<(), NoMemory>
    requires agent { id.agent < length agents.now }
    ensures appended { OnOk result (into.new.items
        ≡ into.old.items ++ joined (word.now ∷ call_text agents.now id ∷ [])) }
    ensures kept { IsPrefix into.old.items into.new.items }
{
    into.extend_from_slice(word)?;
    print_name(alloc, &agents[id.agent as usize], into)?;
    into.extend_from_slice(b" ")?;
    append_number(id.number, into)
}

// Appends an operation with its outcome, and the lines of reactions.
fn write_served(
    alloc: Global,
    op: &Op,
    outcome: &Outcome,
    items: &[Item],
    into: &mut Vec<u8>,
) -> Result<(), NoMemory>
    ensures appended { OnOk result (into.new.items ≡ into.old.items
        ++ joined (codes " " ∷ op_text op.now ∷ codes " = " ∷ outcome_text outcome.now ∷
        codes "\n" ∷ items_text items.now ∷ [])) }
    ensures kept { IsPrefix into.old.items into.new.items }
{
    into.extend_from_slice(b" ")?;
    write_op(alloc, op, into)?;
    write_result(alloc, outcome, items, into)
}

// Appends an outcome, the end of its line, and the lines of reactions.
fn write_result(
    alloc: Global,
    outcome: &Outcome,
    items: &[Item],
    into: &mut Vec<u8>,
) -> Result<(), NoMemory>
    ensures appended { OnOk result (into.new.items ≡ into.old.items
        ++ joined (codes " = " ∷ outcome_text outcome.now ∷ codes "\n" ∷
        items_text items.now ∷ [])) }
    ensures kept { IsPrefix into.old.items into.new.items }
{
    into.extend_from_slice(b" = ")?;
    write_outcome(alloc, outcome, into)?;
    into.extend_from_slice(b"\n")?;
    write_items(alloc, items, into)
}

// Appends the number of a call, what its agent is told of it, and the end of the line.
fn write_look(
    alloc: Global,
    asked: u64,
    told: &Option<Reply>,
    into: &mut Vec<u8>,
) -> Result<(), NoMemory>
    ensures appended { OnOk result (into.new.items ≡ into.old.items
        ++ joined (codes " " ∷ decimal asked ∷ codes " = " ∷ told_text told.now ∷
        codes "\n" ∷ [])) }
    ensures kept { IsPrefix into.old.items into.new.items }
{
    write_asked(asked, into)?;
    write_told(alloc, told, into)?;
    into.extend_from_slice(b"\n")
}

fn write_asked(asked: u64, into: &mut Vec<u8>) -> Result<(), NoMemory>
    ensures appended { OnOk result (into.new.items
        ≡ into.old.items ++ joined (codes " " ∷ decimal asked ∷ codes " = " ∷ [])) }
    ensures kept { IsPrefix into.old.items into.new.items }
{
    into.extend_from_slice(b" ")?;
    append_number(asked, into)?;
    into.extend_from_slice(b" = ")
}

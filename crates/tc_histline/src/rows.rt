//! Rows of logs as text.
ghost use Rattle.std.specs.Prelude.{◌≡◌, ◌++◌, ◌∷◌, [], OnErr, OnOk, codes};
ghost use Rattle.std.specs.Prelude.{decimal};
ghost use mathlib.Core.List.{IsPrefix};
ghost use Rattle.tc_lists.specs.Texts.{joined};
ghost use Rattle.tc_term.specs.Text.{atom_text};
ghost use Rattle.tc_histline.specs.Text.{cause_text, full_text, refusal_text, result_text};
ghost use Rattle.tc_histline.specs.Text.{row_text};

use crate::answers::{write_reply, write_told};
use crate::versions::Version;
use std::alloc::Global;
use tc_desk::{LogResult, LogRow, Refusal};
use tc_lists::{NoMemory, append_number, cut_back};
use tc_model::{BadSpec, SpecCause};
use tc_print::print_name;
use tc_term::Name;

/// Appends the line of a row.
///
/// Takes time linear in the length of the text.
pub fn print_row(
    alloc: Global,
    version: Version,
    r: &LogRow,
    into: &mut Vec<u8>,
) -> Result<(), NoMemory>
    ensures appended { OnOk result (into.new.items ≡ into.old.items ++ row_text version r.now) }
    ensures same { OnErr result (into.new.items ≡ into.old.items) }
{
    let before = into.len();
    let written = write_row(alloc, version, r, into);
    cut_back(written, before, into)
}

/// Appends what became of an ask, as it stands in the line of its row.
///
/// Takes time linear in the length of the text.
pub fn print_result(
    alloc: Global,
    version: Version,
    became: &LogResult,
    into: &mut Vec<u8>,
) -> Result<(), NoMemory>
    ensures appended { OnOk result (into.new.items
        ≡ into.old.items ++ result_text version became.now) }
    ensures same { OnErr result (into.new.items ≡ into.old.items) }
{
    let before = into.len();
    let written = write_result(alloc, version, became, into);
    cut_back(written, before, into)
}

/// Appends why an ask was not served, as it stands in the line of its row.
pub fn print_refusal(version: Version, why: Refusal, into: &mut Vec<u8>) -> Result<(), NoMemory>
    ensures appended { OnOk result (into.new.items
        ≡ into.old.items ++ refusal_text version why) }
    ensures same { OnErr result (into.new.items ≡ into.old.items) }
{
    let before = into.len();
    let written = write_refusal(version, why, into);
    cut_back(written, before, into)
}

fn write_row(
    alloc: Global,
    version: Version,
    r: &LogRow,
    into: &mut Vec<u8>,
) -> Result<(), NoMemory>
    ensures appended { OnOk result (into.new.items ≡ into.old.items ++ row_text version r.now) }
    ensures kept { IsPrefix into.old.items into.new.items }
{
    write_place(alloc, r.number, &r.centre, into)?;
    write_result(alloc, version, &r.result, into)?;
    into.extend_from_slice(b"\n")
}

// Appends the number of a row and its centre, with a space behind each.
fn write_place(
    alloc: Global,
    number: u64,
    centre: &Name,
    into: &mut Vec<u8>,
) -> Result<(), NoMemory>
    ensures appended { OnOk result (into.new.items ≡ into.old.items
        ++ joined (decimal number ∷ codes " " ∷ atom_text centre.now ∷ codes " " ∷ [])) }
    ensures kept { IsPrefix into.old.items into.new.items }
{
    append_number(number, into)?;
    into.extend_from_slice(b" ")?;
    print_name(alloc, centre, into)?;
    into.extend_from_slice(b" ")
}

// Appends what became of an ask.
fn write_result(
    alloc: Global,
    version: Version,
    became: &LogResult,
    into: &mut Vec<u8>,
) -> Result<(), NoMemory>
    ensures appended { OnOk result (into.new.items
        ≡ into.old.items ++ result_text version became.now) }
    ensures kept { IsPrefix into.old.items into.new.items }
{
    match became {
        LogResult::Replied(reply) => write_reply(alloc, reply, into),
        LogResult::Pending => into.extend_from_slice(b"pending"),
        LogResult::Refused(why) => write_refusal(version, *why, into),
        LogResult::Polled(told) => {
            into.extend_from_slice(b"poll ")?;
            write_told(alloc, told, into)
        }
    }
}

// Appends why an ask was not served.
fn write_refusal(version: Version, why: Refusal, into: &mut Vec<u8>) -> Result<(), NoMemory>
    ensures appended { OnOk result (into.new.items
        ≡ into.old.items ++ refusal_text version why) }
    ensures kept { IsPrefix into.old.items into.new.items }
{
    match why {
        Refusal::UnknownCentre => into.extend_from_slice(b"unknown centre"),
        Refusal::Waiting => into.extend_from_slice(b"waiting"),
        Refusal::Denied => into.extend_from_slice(b"denied"),
        Refusal::TooBig => into.extend_from_slice(b"too big"),
        Refusal::NotGround => into.extend_from_slice(b"not ground"),
        Refusal::BadSpec(bad) => write_bad(version, bad, into),
        Refusal::TurnsSpent => into.extend_from_slice(b"turns spent"),
        Refusal::Full { weight, pending } => write_full(version, weight, pending, into),
        Refusal::NoMemory => into.extend_from_slice(b"no memory"),
    }
}

// Appends the first faulty clause, and what is wrong with it.
fn write_bad(version: Version, bad: BadSpec, into: &mut Vec<u8>) -> Result<(), NoMemory>
    ensures appended { OnOk result (into.new.items
        ≡ into.old.items ++ refusal_text version (Refusal.BadSpec bad)) }
    ensures kept { IsPrefix into.old.items into.new.items }
{
    into.extend_from_slice(b"bad spec ")?;
    append_number(bad.clause as u64, into)?;
    into.extend_from_slice(b" ")?;
    into.extend_from_slice(cause(bad.cause))
}

// Appends that a centre was full, which weighed so much, with so many pending requests.
fn write_full(
    version: Version,
    weight: u64,
    pending: u64,
    into: &mut Vec<u8>,
) -> Result<(), NoMemory>
    ensures appended { OnOk result (into.new.items
        ≡ into.old.items ++ full_text version weight pending) }
    ensures kept { IsPrefix into.old.items into.new.items }
{
    match version {
        Version::One => into.extend_from_slice(b"full"),
        Version::Two => write_load(weight, pending, into),
    }
}

fn write_load(weight: u64, pending: u64, into: &mut Vec<u8>) -> Result<(), NoMemory>
    ensures appended { OnOk result (into.new.items
        ≡ into.old.items ++ full_text Version.Two weight pending) }
    ensures kept { IsPrefix into.old.items into.new.items }
{
    into.extend_from_slice(b"full ")?;
    append_number(weight, into)?;
    into.extend_from_slice(b" ")?;
    append_number(pending, into)
}

// The word for what is wrong with a clause.
fn cause(cause: SpecCause) -> &'static [u8]
    ensures { result.now ≡ cause_text cause }
{
    match cause {
        SpecCause::Syntax => b"syntax",
        SpecCause::Size => b"size",
        SpecCause::Shape => b"shape",
        SpecCause::Head => b"head",
        SpecCause::Goal => b"goal",
        SpecCause::Count => b"count",
    }
}

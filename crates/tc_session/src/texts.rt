//! Reply lines.
ghost use Rattle.std.specs.Prelude.{◌≡◌, ◌++◌, ◌+◌, ◌<◌, ◌≤◌, OnErr, OnOk, Some, length};
ghost use Rattle.std.specs.Prelude.{slice_get, vec_len, vec_capacity};
ghost use mathlib.Core.List.{IsPrefix};
ghost use Rattle.tc_desk.specs.declared.rows.LogRow.{LogRow};
ghost use Rattle.tc_histline.specs.Text.{result_text};
ghost use Rattle.tc_histline.specs.declared.versions.Version.TheVariants.{One};
ghost use Rattle.tc_lines.specs.Replies.{error_line, reply_line};

use std::alloc::Global;
use tc_desk::{LogResult, LogRow};
use tc_histtext::{Version, print_result};
use tc_lines::push_bytes;
use tc_lists::{NoMemory, cut_back};

/// Appends a reply of these words, for which there is room.
pub(crate) fn push_words(words: &[u8], into: &mut Vec<u8>)
    requires { vec_len into.old + length words.now + 1 ≤ vec_capacity into.old }
    ensures { into.new.items ≡ into.old.items ++ reply_line words.now }
{
    push_bytes(words, into);
    push_bytes(b"\n", into);
}

/// Appends what is wrong, in these words, for which there is room.
pub(crate) fn push_error(words: &[u8], into: &mut Vec<u8>)
    requires { vec_len into.old + length words.now + 7 ≤ vec_capacity into.old }
    ensures { into.new.items ≡ into.old.items ++ error_line words.now }
{
    push_bytes(b"error ", into);
    push_words(words, into);
}

/// Appends what became of the ask whose row stands at this place.
pub(crate) fn push_row(
    alloc: Global,
    log: &[LogRow],
    place: usize,
    into: &mut Vec<u8>,
) -> Result<(), NoMemory>
    requires { place < length log.now }
    ensures appended { OnOk result ((row : LogRow) → slice_get log.now place ≡ Some row
        → into.new.items ≡ into.old.items ++ reply_line (result_text One row.result)) }
    ensures same { OnErr result (into.new.items ≡ into.old.items) }
{
    push_result(alloc, &log[place].result, into)
}

// Appends what became of an ask.
fn push_result(alloc: Global, became: &LogResult, into: &mut Vec<u8>) -> Result<(), NoMemory>
    ensures appended { OnOk result
        (into.new.items ≡ into.old.items ++ reply_line (result_text One became.now)) }
    ensures same { OnErr result (into.new.items ≡ into.old.items) }
{
    let before = into.len();
    let written = write_result(alloc, became, into);
    cut_back(written, before, into)
}

// Appends what became of an ask, or a beginning of it.
fn write_result(alloc: Global, became: &LogResult, into: &mut Vec<u8>) -> Result<(), NoMemory>
    ensures appended { OnOk result
        (into.new.items ≡ into.old.items ++ reply_line (result_text One became.now)) }
    ensures kept { IsPrefix into.old.items into.new.items }
{
    print_result(alloc, Version::One, became, into)?;
    into.extend_from_slice(b"\n")
}

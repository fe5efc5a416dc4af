//! Replies, a line each.
ghost use Rattle.std.specs.Prelude.{◌≡◌, ◌++◌, OnErr, OnOk};
ghost use mathlib.Core.List.{IsPrefix};
ghost use Rattle.tc_histline.specs.Text.{reply_text};
ghost use Rattle.tc_histline.specs.Text.{refusal_text as refusal_words};
ghost use Rattle.tc_histline.specs.declared.versions.Version.TheVariants.{One};
ghost use Rattle.tc_lines.specs.Replies.{error_line, reply_line};

use std::alloc::Global;
use tc_desk::Refusal;
use tc_histtext::Version;
use tc_lists::{NoMemory, cut_back};
use tc_model::Reply;

/// Appends the line of a reply.
///
/// Takes time linear in the length of the line.
pub fn print_reply(alloc: Global, r: &Reply, into: &mut Vec<u8>) -> Result<(), NoMemory>
    ensures appended { OnOk result
        (into.new.items ≡ into.old.items ++ reply_line (reply_text r.now)) }
    ensures same { OnErr result (into.new.items ≡ into.old.items) }
{
    let before = into.len();
    let written = write_reply(alloc, r, into);
    cut_back(written, before, into)
}

/// Appends the line of a refusal.
pub fn refusal_text(r: Refusal, into: &mut Vec<u8>) -> Result<(), NoMemory>
    ensures appended { OnOk result
        (into.new.items ≡ into.old.items ++ error_line (refusal_words One r)) }
    ensures same { OnErr result (into.new.items ≡ into.old.items) }
{
    let before = into.len();
    let written = write_refusal(r, into);
    cut_back(written, before, into)
}

// Appends the words of a reply, and the end of its line.
fn write_reply(alloc: Global, r: &Reply, into: &mut Vec<u8>) -> Result<(), NoMemory>
    ensures appended { OnOk result
        (into.new.items ≡ into.old.items ++ reply_line (reply_text r.now)) }
    ensures kept { IsPrefix into.old.items into.new.items }
{
    tc_histtext::print_reply(alloc, r, into)?;
    into.extend_from_slice(b"\n")
}

// Appends the words of a refusal behind `error`, and the end of their line.
fn write_refusal(r: Refusal, into: &mut Vec<u8>) -> Result<(), NoMemory>
    ensures appended { OnOk result
        (into.new.items ≡ into.old.items ++ error_line (refusal_words One r)) }
    ensures kept { IsPrefix into.old.items into.new.items }
{
    into.extend_from_slice(b"error ")?;
    tc_histtext::print_refusal(Version::One, r, into)?;
    into.extend_from_slice(b"\n")
}

//! The lines between: the first, the headings of histories and logs, and the last.
ghost use Rattle.std.specs.Prelude.{◌≡◌, ◌++◌, OnErr, OnOk};
ghost use mathlib.Core.List.{IsPrefix};
ghost use Rattle.tc_histline.specs.Text.{end_text, version_text};
ghost use Rattle.tc_histline.specs.Headings.{heading_text};

use crate::versions::Version;
use std::alloc::Global;
use tc_lists::{NoMemory, cut_back};
use tc_print::print_name;
use tc_term::Name;

/// What a heading stands before: the history of a centre, or the log of an agent.
#[derive(Clone, Copy, Debug, PartialEq, Eq)]
pub enum Heading {
    Centre,
    Agent,
}

/// Appends the first line, which says the version of the text.
pub fn print_version(version: Version, into: &mut Vec<u8>) -> Result<(), NoMemory>
    ensures appended { OnOk result (into.new.items ≡ into.old.items ++ version_text version) }
    ensures same { OnErr result (into.new.items ≡ into.old.items) }
{
    match version {
        Version::One => into.extend_from_slice(b"tucson 1\n"),
        Version::Two => into.extend_from_slice(b"tucson 2\n"),
    }
}

/// Appends the line before the history of a centre, or the log of an agent, of this name.
pub fn print_heading(
    alloc: Global,
    word: Heading,
    name: &Name,
    into: &mut Vec<u8>,
) -> Result<(), NoMemory>
    ensures appended { OnOk result
        (into.new.items ≡ into.old.items ++ heading_text word name.now) }
    ensures same { OnErr result (into.new.items ≡ into.old.items) }
{
    let before = into.len();
    let written = write_heading(alloc, word, name, into);
    cut_back(written, before, into)
}

/// Appends the last line, which says whether some agent's ask is pending.
pub fn print_end(blocked: bool, into: &mut Vec<u8>) -> Result<(), NoMemory>
    ensures appended { OnOk result (into.new.items ≡ into.old.items ++ end_text blocked) }
    ensures same { OnErr result (into.new.items ≡ into.old.items) }
{
    if blocked {
        into.extend_from_slice(b"end blocked\n")
    } else {
        into.extend_from_slice(b"end ended\n")
    }
}

fn write_heading(
    alloc: Global,
    word: Heading,
    name: &Name,
    into: &mut Vec<u8>,
) -> Result<(), NoMemory>
    ensures appended { OnOk result
        (into.new.items ≡ into.old.items ++ heading_text word name.now) }
    ensures kept { IsPrefix into.old.items into.new.items }
{
    match word {
        Heading::Centre => into.extend_from_slice(b"centre ")?,
        Heading::Agent => into.extend_from_slice(b"agent ")?,
    }
    print_name(alloc, name, into)?;
    into.extend_from_slice(b"\n")
}

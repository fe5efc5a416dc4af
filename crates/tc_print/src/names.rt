//! Names as text: plain where they have the form of a name token, else quoted.
ghost use Rattle.std.specs.Prelude.{◌≡◌, ◌++◌, OnErr, OnOk};
ghost use Rattle.tc_term.specs.Text.{atom_text, name_text, quoted, quoted_byte};
ghost use mathlib.Core.List.{IsPrefix};

use std::alloc::Global;
use tc_lists::{NoMemory, cut_back};
use tc_term::{Name, is_name};

/// Appends a name as an atom is printed, so the name of the empty list is plain.
pub fn print_name(_alloc: Global, n: &Name, into: &mut Vec<u8>) -> Result<(), NoMemory>
    ensures appended { OnOk result (into.new.items ≡ into.old.items ++ atom_text n.now) }
    ensures same { OnErr result (into.new.items ≡ into.old.items) }
{
    append_atom(n.bytes(), into)
}

/// Appends bytes between quotes.
pub fn print_quoted(_alloc: Global, bytes: &[u8], into: &mut Vec<u8>) -> Result<(), NoMemory>
    ensures appended { OnOk result (into.new.items ≡ into.old.items ++ quoted bytes.now) }
    ensures same { OnErr result (into.new.items ≡ into.old.items) }
{
    append_quoted(bytes, into)
}

// A name as an atom's is printed: the name of the empty list is plain.
pub(crate) fn append_atom(name: &[u8], into: &mut Vec<u8>) -> Result<(), NoMemory>
    ensures appended { OnOk result (into.new.items ≡ into.old.items ++ atom_text name.now) }
    ensures same { OnErr result (into.new.items ≡ into.old.items) }
{
    if name == b"[]".as_slice() {
        into.extend_from_slice(b"[]")
    } else {
        append_name(name, into)
    }
}

// A name as a compound's is printed: the name of the empty list is quoted.
pub(crate) fn append_name(name: &[u8], into: &mut Vec<u8>) -> Result<(), NoMemory>
    ensures appended { OnOk result (into.new.items ≡ into.old.items ++ name_text name.now) }
    ensures same { OnErr result (into.new.items ≡ into.old.items) }
{
    if is_name(name) {
        into.extend_from_slice(name)
    } else {
        append_quoted(name, into)
    }
}

fn append_quoted(bytes: &[u8], into: &mut Vec<u8>) -> Result<(), NoMemory>
    ensures appended { OnOk result (into.new.items ≡ into.old.items ++ quoted bytes.now) }
    ensures same { OnErr result (into.new.items ≡ into.old.items) }
{
    let before = into.len();
    let written = write_quoted(bytes, into);
    cut_back(written, before, into)
}

fn write_quoted(bytes: &[u8], into: &mut Vec<u8>) -> Result<(), NoMemory>
    ensures appended { OnOk result (into.new.items ≡ into.old.items ++ quoted bytes.now) }
    ensures kept { IsPrefix into.old.items into.new.items }
{
    into.push(b'\'')?;
    for byte in bytes {
        append_quoted_byte(*byte, into)?;
    }
    into.push(b'\'')?;
    Ok(())
}

// A byte as it is written between quotes.
fn append_quoted_byte(byte: u8, into: &mut Vec<u8>) -> Result<(), NoMemory>
    ensures appended { OnOk result (into.new.items ≡ into.old.items ++ quoted_byte byte) }
    ensures same { OnErr result (into.new.items ≡ into.old.items) }
{
    match byte {
        b'\'' => into.extend_from_slice(b"\\'"),
        b'\\' => into.extend_from_slice(b"\\\\"),
        b'\n' => into.extend_from_slice(b"\\n"),
        b'\t' => into.extend_from_slice(b"\\t"),
        _ => into.extend_from_slice(&[byte]),
    }
}

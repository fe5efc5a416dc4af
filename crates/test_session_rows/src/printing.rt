//! What is printed of a row.
use crate::playing::{Cut, Failing, Played, play};
use crate::rows::{Half, Row, Way};
use anyhow::bail;
use std::alloc::Global;
use std::sync::Wait;
use std::thread::Threads;
use tc_lists::{NoMemory, append_number};
use tc_session::SessionEnd;

/// The usual length of a piece.
const USUAL_PIECE: u64 = 4096;

/// The other lengths of pieces.
const OTHER_PIECES: [u64; 3] = [7, 2, 1];

/// The most calls of a link that fail, each once.
const MOST_FAILING: u64 = 64;

/// Appends what a row has come to.
pub fn print_row<R: Threads + Wait + Sync>(
    rt: &R,
    alloc: Global,
    row: &Row<'_>,
    into: &mut Vec<u8>,
) -> anyhow::Result<()> {
    match row.way {
        Way::InPieces => print_pieces(rt, alloc, row, into),
        Way::Failing(half, piece) => print_failing(rt, alloc, row, half, piece, into),
    }
}

// Plays a row in pieces of each length. Those in which it comes to the same are listed.
fn print_pieces<R: Threads + Wait + Sync>(
    rt: &R,
    alloc: Global,
    row: &Row<'_>,
    into: &mut Vec<u8>,
) -> anyhow::Result<()> {
    let first = play(rt, alloc, row, Cut::sure(USUAL_PIECE))?;
    print_heading(row.name, None, into)?;
    into.extend_from_slice(&first.told)?;
    let mut same = Vec::new(alloc);
    for piece in OTHER_PIECES {
        let other = play(rt, alloc, row, Cut::sure(piece))?;
        if other.told == first.told {
            append_listed(piece, &mut same)?;
        } else {
            print_heading(row.name, Some((b" in pieces of ", piece)), into)?;
            into.extend_from_slice(&other.told)?;
        }
    }
    if !same.is_empty() {
        into.extend_from_slice(b"the same in pieces of ")?;
        into.extend_from_slice(&same)?;
        into.extend_from_slice(b"\n")?;
    }
    into.extend_from_slice(b"\n")?;
    Ok(())
}

// Plays a row once for each call of the last session's link that fails, and then without a failure.
fn print_failing<R: Threads + Wait + Sync>(
    rt: &R,
    alloc: Global,
    row: &Row<'_>,
    half: Half,
    piece: u64,
    into: &mut Vec<u8>,
) -> anyhow::Result<()> {
    for number in 1..=MOST_FAILING {
        let failing = Some(Failing { half, number });
        let Played { last, told } = play(rt, alloc, row, Cut { piece, failing })?;
        print_heading(row.name, Some((word_of(half), number)), into)?;
        into.extend_from_slice(&told)?;
        into.extend_from_slice(b"\n")?;
        if last != fault_of(half) {
            return Ok(());
        }
    }
    bail!("a row has more reads, or writes, than fail");
}

// What a heading says of a call that fails, before its number.
fn word_of(half: Half) -> &'static [u8] {
    match half {
        Half::Reads => b", read ",
        Half::Writes => b", write ",
    }
}

// How a session ends of which such a call fails.
fn fault_of(half: Half) -> SessionEnd {
    match half {
        Half::Reads => SessionEnd::ReadFault,
        Half::Writes => SessionEnd::WriteFault,
    }
}

// Appends the name of a row, with words and a number.
fn print_heading(
    name: &[u8],
    more: Option<(&[u8], u64)>,
    into: &mut Vec<u8>,
) -> Result<(), NoMemory> {
    into.extend_from_slice(b"%% ")?;
    into.extend_from_slice(name)?;
    if let Some((words, number)) = more {
        into.extend_from_slice(words)?;
        append_number(number, into)?;
    }
    into.extend_from_slice(b"\n")
}

// Appends a number to those before, behind a comma if there are some.
fn append_listed(number: u64, into: &mut Vec<u8>) -> Result<(), NoMemory> {
    if !into.is_empty() {
        into.extend_from_slice(b", ")?;
    }
    append_number(number, into)
}

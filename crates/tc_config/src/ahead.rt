//! Clauses that are read ahead of those before them: several threads read a share of the text each.
ghost use Rattle.std.specs.Prelude.{◌≡◌, ◌<◌, ◌≤◌, ◌+◌, ◌*◌, All, length, vec_len};
ghost use Rattle.tc_config.specs.Pieces.{ArePiecesOf};

use crate::pieces::{Piece, piece_at};
use std::alloc::Global;
use std::thread;
use std::thread::Threads;

/// How many bytes of a text are worth a thread.
const LEAST_SHARE: usize = 4_096;

/// The most bytes of a share.
const MOST_SHARE: usize = 65_536;

/// Clauses that stand behind this place, share by share, each in order. Where memory is wanting for
/// threads, there are none.
///
/// Only the first share begins where a clause is known to. The others begin where one is likely to,
/// so that what they have need not be what the text is read as.
pub fn read_ahead<R: Threads + Sync>(
    rt: &R,
    alloc: Global,
    workers: usize,
    text: &[u8],
    from: usize,
) -> Vec<Vec<Piece>>
    requires workers { 0 < workers }
    requires place { from ≤ length text.now }
    ensures { All (λ share. ArePiecesOf text.now share.items) result.items }
{
    let left = text.len() - from;
    let size = left.div_ceil(workers).clamp(LEAST_SHARE, MOST_SHARE);
    let shares = thread::map_indices(
        rt,
        alloc,
        left.div_ceil(size).min(workers),
        &|n: usize| -> Vec<Piece>
            requires { (0 < size) × (from + n * size < length text.now) }
            ensures { ArePiecesOf text.entry.now result.items }
        { read_share(alloc, text, from, size, n) },
    );
    match shares {
        Ok(shares) => shares,
        Err(_) => Vec::new(alloc),
    }
}

// The clauses of the share of this number, from 0, in shares of this size from a place on.
fn read_share(alloc: Global, text: &[u8], from: usize, size: usize, n: usize) -> Vec<Piece>
    requires { from + n * size < length text.now }
    ensures { ArePiecesOf text.now result.items }
{
    let first = from + n * size;
    let end = first + size.min(text.len() - first);
    let start = if n == 0 {
        first
    } else {
        likely_start(text, first, end)
    };
    pieces_between(alloc, text, start, end)
}

// Where a clause is likely to begin: the first place behind a `.` at the end of a line, or the end.
fn likely_start(text: &[u8], from: usize, end: usize) -> usize
    requires from { from ≤ end }
    requires end { end ≤ length text.now }
    ensures { result ≤ end }
{
    for place in from..end {
        if place > 0 && text[place] == b'\n' && text[place - 1] == b'.' {
            return place;
        }
    }
    end
}

// The clauses from a place on that begin before the end of a share, up to where the reader finds
// none or memory is wanting.
fn pieces_between(alloc: Global, text: &[u8], start: usize, end: usize) -> Vec<Piece>
    requires start { start ≤ end }
    requires end { end ≤ length text.now }
    ensures { ArePiecesOf text.now result.items }
{
    let mut pieces = Vec::new(alloc);
    let mut from = start;
    while from < end {
        let Ok(Some(piece)) = piece_at(alloc, text, from) else {
            break;
        };
        from = piece.behind;
        if pieces.push(piece).is_err() {
            break;
        }
    }
    pieces
}

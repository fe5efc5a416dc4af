//! Waves of lines: in each, every worker prints a share, and then the shares are handed on in order.
ghost use Rattle.std.specs.Prelude.{◌≡◌, ◌<◌, ◌*◌, drop, length, take};
ghost use Rattle.tc_io.specs.Flow.{HandsOn, flow};
ghost use Rattle.tc_writing.specs.Lines.{AreNamed, AreShares, IsPrintedOf, share_texts, text_of};
ghost use Rattle.tc_writing.specs.Lines.{texts};

use crate::lines::Lines;
use crate::shares::{Printed, print_share, write_lines, write_share};
use std::alloc::Global;
use std::thread;
use std::thread::Threads;
use tc_io::{Sink, SinkFault};

/// How many lines are worth a thread.
const LEAST_SHARE: usize = 1_024;

/// The most lines of a share.
const MOST_SHARE: usize = 4_096;

/// Hands on lines, which so many workers print. Few lines are printed by the calling thread alone.
pub(crate) fn write_by<R: Threads + Sync, K: Sink>(
    rt: &R,
    alloc: Global,
    workers: usize,
    lines: Lines,
    sink: &mut K,
    kept: &mut Vec<u8>,
) -> Result<(), SinkFault>
    requires workers { 0 < workers }
    requires named { AreNamed lines }
    ensures { HandsOn (text_of lines.entry)
        (flow K.taken K.write_faults K.sure sink.old kept.old.items)
        (flow K.taken K.write_faults K.sure sink.new kept.new.items) result }
{
    let mut rest = lines;
    while workers > 1 && rest.len() > LEAST_SHARE {
        let size = rest.len().div_ceil(workers).clamp(LEAST_SHARE, MOST_SHARE);
        let (wave, behind) = rest.split_at(size.saturating_mul(workers).min(rest.len()));
        write_wave(rt, alloc, wave, size, sink, kept)?;
        rest = behind;
    }
    write_lines(alloc, rest, sink, kept)
}

// Prints the shares of a wave, each of this size, in a thread of its own, and hands them on in
// order. Where memory is wanting for that, the calling thread does all.
fn write_wave<R: Threads + Sync, K: Sink>(
    rt: &R,
    alloc: Global,
    wave: Lines,
    size: usize,
    sink: &mut K,
    kept: &mut Vec<u8>,
) -> Result<(), SinkFault>
    requires size { 0 < size }
    requires named { AreNamed wave }
    ensures { HandsOn (text_of wave.entry)
        (flow K.taken K.write_faults K.sure sink.old kept.old.items)
        (flow K.taken K.write_faults K.sure sink.new kept.new.items) result }
{
    let printed = thread::map_indices(
        rt,
        alloc,
        wave.len().div_ceil(size),
        &|n: usize| -> Printed
            requires { (0 < size) × AreNamed wave × (n * size < length (texts wave)) }
            ensures { IsPrintedOf (share_texts size wave.entry n) result }
        { print_share(alloc, share_at(wave, size, n)) },
    );
    match printed {
        Ok(shares) => write_shares(alloc, wave, size, shares, sink, kept),
        Err(_) => write_lines(alloc, wave, sink, kept),
    }
}

// The share of this number, from 0, in shares of this size.
fn share_at(wave: Lines, size: usize, n: usize) -> Lines
    requires place { n * size < length (texts wave) }
    requires named { AreNamed wave }
    ensures texts { texts result ≡ share_texts size wave.entry n }
    ensures named { AreNamed result }
{
    let (_, rest) = wave.split_at(n * size);
    let (share, _) = rest.split_at(size.min(rest.len()));
    share
}

// Hands on the shares of a wave, in order.
fn write_shares<K: Sink>(
    alloc: Global,
    wave: Lines,
    size: usize,
    shares: Vec<Printed>,
    sink: &mut K,
    kept: &mut Vec<u8>,
) -> Result<(), SinkFault>
    requires size { 0 < size }
    requires named { AreNamed wave }
    requires shares { AreShares size wave shares.items }
    ensures { HandsOn (text_of wave.entry)
        (flow K.taken K.write_faults K.sure sink.old kept.old.items)
        (flow K.taken K.write_faults K.sure sink.new kept.new.items) result }
{
    let mut rest = wave;
    for printed in shares {
        let (share, behind) = rest.split_at(size.min(rest.len()));
        write_share(alloc, share, printed, sink, kept)?;
        rest = behind;
    }
    Ok(())
}

//! Texts of clauses as configurations.
ghost use Rattle.std.specs.Prelude.{◌≡◌, ◌<◌, ◌≤◌, All, IfErr, IfOk, List, OnOk, length, ℕ};
ghost use Rattle.tc_config.specs.Answers.{IsConfigFault, IsConfigWant, IsThisRefusal};
ghost use Rattle.tc_config.specs.Configurations.{Configuration};
ghost use Rattle.tc_config.specs.Pieces.{ArePiecesOf, IsProgressIn};
ghost use Rattle.tc_config.specs.Texts.{IsRefused, Spells};
ghost use Rattle.tc_config.specs.declared.faults.ConfigCause.{ConfigCause};
ghost use Rattle.tc_config.specs.declared.limits.TheConstants.{MOST_BYTES};

use crate::ahead::read_ahead;
use crate::configs::Config;
use crate::faults::{ConfigCause, ConfigFault};
use crate::limits::MOST_BYTES;
use crate::pieces::Piece;
use crate::progress::{Progress, add_due, read_rest};
use std::alloc::Global;
use std::thread::Threads;

/// How many bytes are left at least where clauses are read ahead.
const LEAST_AHEAD: usize = 8_192;

/// The configuration that the text spells, or its first faulty clause, counted from 1, with its
/// first cause.
///
/// A text of more than 16,777,216 bytes is refused as clause 0. Reading ends at the first faulty
/// clause. Takes time linear in what is read.
pub fn read_config(alloc: Global, text: &[u8]) -> Result<Config, ConfigFault>
    ensures found { IfOk result (Spells text.now) }
    ensures bad { IfErr result (IsConfigFault text.now) }

    // Each answer comes exactly where it is due, but for want of memory.
    ensures whole { (c : Configuration) → Spells text.now c → IfErr result IsConfigWant }
    ensures same { (c : Configuration) → Spells text.now c → IfOk result (λ read. read ≡ c) }
    ensures refused { (clause : ℕ) (why : ConfigCause) → IsRefused text.now clause why
        → IfOk result (λ _. ⊥) }
    ensures first { (clause : ℕ) (why : ConfigCause) → IsRefused text.now clause why
        → IfErr result (IsThisRefusal clause why) }
{
    let read = read_text(alloc, text);
    read
}

/// The same, where so many workers read the clauses of a long text ahead.
///
/// Clauses are added by the calling thread, in order, and faults are told by what it reads, so that
/// the answer is that of one worker.
pub fn read_config_by<R: Threads + Sync>(
    rt: &R,
    alloc: Global,
    workers: usize,
    text: &[u8],
) -> Result<Config, ConfigFault>
    requires workers { 0 < workers }
    ensures found { IfOk result (Spells text.now) }
    ensures bad { IfErr result (IsConfigFault text.now) }

    // Each answer comes exactly where it is due, but for want of memory.
    ensures whole { (c : Configuration) → Spells text.now c → IfErr result IsConfigWant }
    ensures same { (c : Configuration) → Spells text.now c → IfOk result (λ read. read ≡ c) }
    ensures refused { (clause : ℕ) (why : ConfigCause) → IsRefused text.now clause why
        → IfOk result (λ _. ⊥) }
    ensures first { (clause : ℕ) (why : ConfigCause) → IsRefused text.now clause why
        → IfErr result (IsThisRefusal clause why) }
{
    let read = read_text_by(rt, alloc, workers, text);
    read
}

// The same as `read_config`, with what each answer says.
fn read_text(alloc: Global, text: &[u8]) -> Result<Config, ConfigFault>
    ensures found { IfOk result (Spells text.now) }
    ensures bad { IfErr result (IsConfigFault text.now) }
{
    if text.len() > MOST_BYTES {
        return Err(too_long());
    }
    read_rest(alloc, text, Progress::new(alloc))
}

// The same by so many workers, in waves: in each the clauses of a share of the text for each worker
// are read ahead, and then added.
fn read_text_by<R: Threads + Sync>(
    rt: &R,
    alloc: Global,
    workers: usize,
    text: &[u8],
) -> Result<Config, ConfigFault>
    requires workers { 0 < workers }
    ensures found { IfOk result (Spells text.now) }
    ensures bad { IfErr result (IsConfigFault text.now) }
{
    if text.len() > MOST_BYTES {
        return Err(too_long());
    }
    let mut progress = Progress::new(alloc);
    while workers > 1 && text.len() - progress.from >= LEAST_AHEAD {
        let from = progress.from;
        let ahead = read_ahead(rt, alloc, workers, text, from);
        add_wave(alloc, text, &mut progress, ahead)?;
        if progress.from == from {
            break;
        }
    }
    read_rest(alloc, text, progress)
}

// What is told of a text that is too long.
fn too_long() -> ConfigFault
    ensures { (text : List ℕ) → MOST_BYTES < length text → IsConfigFault text result }
{
    ConfigFault::Bad {
        clause: 0,
        cause: ConfigCause::Length,
    }
}

// Adds the clauses of a wave, share by share.
fn add_wave(
    alloc: Global,
    text: &[u8],
    progress: &mut Progress,
    wave: Vec<Vec<Piece>>,
) -> Result<(), ConfigFault>
    requires progress { IsProgressIn text.now progress.old }
    requires short { length text.now ≤ MOST_BYTES }
    requires wave { All (λ share. ArePiecesOf text.now share.items) wave.items }
    ensures progress { OnOk result (IsProgressIn text.now progress.new) }
    ensures onward { OnOk result (progress.old.from ≤ progress.new.from) }
    ensures fault { IfErr result (IsConfigFault text.now) }
{
    for share in wave {
        add_share(alloc, text, progress, share)?;
    }
    Ok(())
}

// Adds the clauses of a share where the text is read as these, and what is read between them.
fn add_share(
    alloc: Global,
    text: &[u8],
    progress: &mut Progress,
    share: Vec<Piece>,
) -> Result<(), ConfigFault>
    requires progress { IsProgressIn text.now progress.old }
    requires short { length text.now ≤ MOST_BYTES }
    requires share { ArePiecesOf text.now share.items }
    ensures progress { OnOk result (IsProgressIn text.now progress.new) }
    ensures onward { OnOk result (progress.old.from ≤ progress.new.from) }
    ensures fault { IfErr result (IsConfigFault text.now) }
{
    for piece in share {
        add_due(alloc, text, progress, piece)?;
    }
    Ok(())
}

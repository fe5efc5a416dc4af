//! Bytes that were read and are not used yet, cut into lines.
ghost use Rattle.std.specs.Prelude.{◌≡◌, ◌+◌, ◌<◌, ◌≤◌, [], IfNone, IfOk, IfSome, IsTrue, OnErr};
ghost use Rattle.std.specs.Prelude.{OnOk, drop, length, vec_len, vec_capacity};
ghost use Rattle.std.specs.Result.{IsErrOf};
ghost use Rattle.tc_io.specs.Faults.{Counts};
ghost use Rattle.tc_lines.specs.Lines.{Fills, HasNoBreak};
ghost use Rattle.tc_lines.specs.Requests.{BeginsWith};
ghost use Rattle.tc_lines.specs.declared.limits.TheConstants.{MOST_LINE};

use crate::breaks::{next_break, without_return};
use crate::limits::{MOST_LINE, MOST_SPARE};
use crate::requests::{BadLine, LineAsk, read_line_request};
use crate::spare::{push_bytes, release_spare};
use std::alloc::Global;
use std::marker::Model;
use tc_io::{Failed, Source};
use tc_lists::NoMemory;
use thiserror::Error;

/// Why nothing more was read.
#[derive(Clone, Copy, Debug, PartialEq, Eq, Drop, Error)]
pub enum FillFault {
    /// The read has failed. It is counted.
    #[error("the line cannot be read")]
    Failed,
    /// Memory has run out.
    #[error("memory has run out")]
    NoMemory,
}

impl From<Failed> for FillFault {
    ghost use Rattle.tc_lines.specs.declared.lines.FillFault.{FillFault};

    ghost from_gives = { λ _ fault. fault ≡ FillFault.Failed };

    fn from(_: Failed) -> FillFault {
        FillFault::Failed
    }
}

impl From<NoMemory> for FillFault {
    ghost use Rattle.tc_lines.specs.declared.lines.FillFault.{FillFault};

    ghost from_gives = { λ _ fault. fault ≡ FillFault.NoMemory };

    fn from(_: NoMemory) -> FillFault {
        FillFault::NoMemory
    }
}

/// Bytes that were read and are not used yet: at most one more than a line may have.
///
/// A line too long is one whose LF isn't among so many bytes. It is never held as a whole.
#[derive(Drop)]
pub struct Lines {
    bytes: Vec<u8>,
    // How many of the bytes are used, and how many were searched for an LF.
    from: usize,
    looked: usize,
}

impl Model for Lines {
    ghost use Rattle.std.specs.Prelude.{ℕ, List, drop};
    ghost use Rattle.tc_lines.specs.Lines.{AreUnread};

    ghost Value = { List ℕ };

    ghost view = { λ l. drop l.from l.bytes.items };

    ghost invariant = { λ l. AreUnread l.from l.looked l.bytes.items };
}

impl Lines {
    /// No bytes.
    pub fn new(alloc: Global) -> Lines
        ensures { result ≡ [] }
    {
        Lines {
            bytes: Vec::new(alloc),
            from: 0,
            looked: 0,
        }
    }

    /// How many bytes there are.
    pub fn count(&self) -> usize
        ensures count { result ≡ length self.now }
        ensures few { length self.now ≤ MOST_LINE + 1 }
    {
        self.bytes.len() - self.from
    }

    /// What the next line asks, or why it asks nothing; the line is used then. `None` says that
    /// no LF is there.
    ///
    /// The line is read in place. Each byte is searched for an LF once, in however many pieces it
    /// came.
    pub fn next_request(&mut self, alloc: Global) -> Option<Result<LineAsk, BadLine>>
        ensures some { IfSome result (λ asked. BeginsWith self.old asked self.new) }
        ensures none { IfNone result (HasNoBreak self.new) }
        ensures same { IfNone result (self.new ≡ self.old) }
    {
        let Some(end) = next_break(&self.bytes, self.looked) else {
            self.looked = self.bytes.len();
            return None;
        };
        let asked = read_line_request(alloc, without_return(&self.bytes[self.from..end]));
        self.from = end + 1;
        self.looked = end + 1;
        Some(asked)
    }

    /// Reads more bytes behind those that are there; none only at the end of the source.
    ///
    /// What `buffer` holds afterwards isn't told.
    pub fn fill<S: Source>(&mut self, source: &mut S, buffer: &mut [u8]) -> Result<usize, FillFault>
        requires room { length self.old ≤ MOST_LINE }
        requires buffer { 0 < length buffer.old }
        ensures more { IfOk result
            (λ n. Fills (S.left source.old) (S.left source.new) n self.old self.new) }
        ensures same { OnErr result (self.new ≡ self.old) }
        ensures left { OnErr result (S.left source.new ≡ S.left source.old) }

        ensures counted { Counts (IsErrOf result FillFault.Failed)
            (S.read_faults source.old) (S.read_faults source.new) }
        ensures sure { IsTrue (S.sure source.old) → IsErrOf result FillFault.Failed → ⊥ }
        ensures stays_sure { S.sure source.new ≡ S.sure source.old }
        ensures other { S.other source.new ≡ S.other source.old }
    {
        drop_front(&mut self.bytes, self.from);
        self.looked -= self.from;
        self.from = 0;
        let room = room(self.bytes.len(), buffer.len());
        make_room(&mut self.bytes, room)?;
        let n = source.read(&mut buffer[..room])?;
        push_bytes(&buffer[..n], &mut self.bytes);
        Ok(n)
    }
}

// Forgets the bytes that were used, and the room of many.
fn drop_front(bytes: &mut Vec<u8>, from: usize)
    requires { from ≤ length bytes.old.items }
    ensures { bytes.new.items ≡ drop from bytes.old.items }
{
    if from > 0 {
        bytes.drain(..from);
    }
    release_spare(bytes);
}

// How many bytes may be read, where so many are there already.
fn room(there: usize, buffer: usize) -> usize
    requires there { there ≤ MOST_LINE }
    requires buffer { 0 < buffer }
    ensures some { 0 < result }
    ensures within { result ≤ buffer }
    ensures few { there + result ≤ MOST_LINE + 1 }
{
    (MOST_LINE + 1 - there).min(buffer)
}

// Makes room for so many bytes more; for those of a whole line, where it is long already.
fn make_room(bytes: &mut Vec<u8>, room: usize) -> Result<(), NoMemory>
    requires { vec_len bytes.old + room ≤ MOST_LINE + 1 }
    ensures items { bytes.new.items ≡ bytes.old.items }
    ensures room { OnOk result (vec_len bytes.new + room ≤ vec_capacity bytes.new) }
{
    if bytes.len() > MOST_SPARE {
        return bytes.reserve_exact(MOST_LINE + 1 - bytes.len());
    }
    bytes.reserve(room)
}

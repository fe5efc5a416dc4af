//! A source and a sink in memory whose calls fail as told.
ghost use Rattle.std.specs.Prelude.{◌≡◌, ◌<◌, ◌≤◌, ◌↔◌, max, min, [], length};
ghost use Rattle.std.specs.Prelude.{drop, Some, None, IsTrue, IsErr, IfOk, OnErr};
ghost use Rattle.std.specs.Result.{IsErrOf};
ghost use Rattle.tc_io.specs.Memory.{MemReading, MemWriting, MakesCall, GivesPiece};
ghost use Rattle.tc_io.specs.Memory.{TakesPiece, never_fails, no_call};

use crate::calls::NumberedCalls;
use crate::{Failed, Sink, SinkFault, Source};
use std::alloc::Global;
use std::marker::Model;

/// Bytes in memory that are read in pieces. Some of the reads fail.
#[derive(Drop)]
pub struct MemSource {
    bytes: Vec<u8>,
    at: usize,
    piece: usize,
    calls: NumberedCalls,
}

impl Model for MemSource {
    ghost Value = { MemReading };

    ghost view = { λ s.
        record { left = drop s.at s.bytes.items; piece = s.piece; calls = s.calls } };

    ghost invariant = { λ s. record { at : s.at ≤ length s.bytes.items; piece : 0 < s.piece } };
}

impl MemSource {
    /// A source of these bytes. A read gives at most `piece` of them, and at least one.
    ///
    /// The k-th read fails exactly where k stands in `failing`.
    pub fn new(bytes: Vec<u8>, piece: usize, failing: Vec<u64>) -> MemSource
        ensures begins { result
            ≡ record { left = bytes.items; piece = max 1 piece; calls = no_call failing.items } }
        ensures left { ⟦<MemSource as Source>⟧.left result ≡ Some bytes.items }
        ensures sure { IsTrue (⟦<MemSource as Source>⟧.sure result) ↔ (failing.items ≡ []) }
    {
        MemSource {
            bytes,
            at: 0,
            piece: piece.max(1),
            calls: NumberedCalls::new(failing),
        }
    }

    /// The bytes not yet read.
    pub fn left(&self) -> &[u8]
        ensures { ⟦<MemSource as Source>⟧.left self.now ≡ Some result.now }
    {
        &self.bytes[self.at..]
    }

    /// Whether no read fails.
    pub fn is_sure(&self) -> bool
        ensures { result ≡ ⟦<MemSource as Source>⟧.sure self.now }
    {
        self.calls.never_fail()
    }
}

impl Source for MemSource {
    ghost left = { λ s. Some s.left };

    ghost read_faults = { λ s. s.calls.failed };

    ghost sure = { λ s. never_fails s.calls };

    ghost other = { λ _. None };

    fn read(&mut self, into: &mut [u8]) -> Result<usize, Failed>
        ensures call { MakesCall self.old.calls self.new.calls (IsErr result) }
        ensures piece { IfOk result (λ n.
            GivesPiece self.old self.new n into.old into.new) }
        ensures same { OnErr result (self.new.left ≡ self.old.left) }
        ensures buffer { OnErr result (into.new ≡ into.old) }
        ensures size { self.new.piece ≡ self.old.piece }
    {
        if self.calls.next_fails() {
            return Err(Failed);
        }
        let left = self.left();
        let n = left.len().min(self.piece).min(into.len());
        into[..n].copy_from_slice(&left[..n]);
        self.at += n;
        Ok(n)
    }
}

/// A sink in memory that takes bytes in pieces. Some of the writes fail.
#[derive(Drop)]
pub struct MemSink {
    bytes: Vec<u8>,
    piece: usize,
    calls: NumberedCalls,
}

impl Model for MemSink {
    ghost Value = { MemWriting };

    ghost view = { λ s. record { taken = s.bytes.items; piece = s.piece; calls = s.calls } };

    ghost invariant = { λ s. 0 < s.piece };
}

impl MemSink {
    /// A sink that has taken nothing yet. A write takes at most `piece` bytes, and at least one.
    ///
    /// The k-th write fails exactly where k stands in `failing`.
    pub fn new(alloc: Global, piece: usize, failing: Vec<u64>) -> MemSink
        ensures begins { result
            ≡ record { taken = []; piece = max 1 piece; calls = no_call failing.items } }
        ensures taken { ⟦<MemSink as Sink>⟧.taken result ≡ Some [] }
        ensures sure { IsTrue (⟦<MemSink as Sink>⟧.sure result) ↔ (failing.items ≡ []) }
    {
        MemSink {
            bytes: Vec::new(alloc),
            piece: piece.max(1),
            calls: NumberedCalls::new(failing),
        }
    }

    /// The bytes taken so far.
    pub fn taken(&self) -> &[u8]
        ensures { ⟦<MemSink as Sink>⟧.taken self.now ≡ Some result.now }
    {
        &self.bytes
    }

    /// Whether no write fails.
    pub fn is_sure(&self) -> bool
        ensures { result ≡ ⟦<MemSink as Sink>⟧.sure self.now }
    {
        self.calls.never_fail()
    }
}

impl Sink for MemSink {
    ghost taken = { λ s. Some s.taken };

    ghost write_faults = { λ s. s.calls.failed };

    ghost sure = { λ s. never_fails s.calls };

    ghost other = { λ _. None };

    fn write(&mut self, piece: &[u8]) -> Result<usize, SinkFault>
        ensures call { MakesCall self.old.calls self.new.calls (IsErrOf result SinkFault.Failed) }
        ensures piece { IfOk result (λ n. TakesPiece self.old self.new n piece.now) }
        ensures same { OnErr result (self.new.taken ≡ self.old.taken) }
        ensures size { self.new.piece ≡ self.old.piece }
    {
        if self.calls.next_fails() {
            return Err(SinkFault::Failed);
        }
        let n = piece.len().min(self.piece);
        self.bytes.extend_from_slice(&piece[..n])?;
        Ok(n)
    }
}

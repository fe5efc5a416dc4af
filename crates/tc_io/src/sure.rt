//! A source and a sink in memory that never fail.
ghost use Rattle.std.specs.Prelude.{◌≡◌, ◌≤◌, ℕ, List, [], ◌++◌, length, drop, Some, None, true};
ghost use Rattle.std.specs.Prelude.{IfOk, IfErr, OnOk, OnErr};

use crate::{Failed, Sink, SinkFault, Source};
use std::alloc::Global;
use std::marker::Model;

/// Bytes in memory that are read without a failure.
#[derive(Drop)]
pub struct SureSource {
    bytes: Vec<u8>,
    at: usize,
}

impl Model for SureSource {
    ghost Value = { List ℕ };

    ghost view = { λ s. drop s.at s.bytes.items };

    ghost invariant = { λ s. s.at ≤ length s.bytes.items };
}

impl SureSource {
    /// A source of these bytes.
    pub fn new(bytes: Vec<u8>) -> SureSource
        ensures left { ⟦<SureSource as Source>⟧.left result ≡ Some bytes.items }
        ensures sure { ⟦<SureSource as Source>⟧.sure result ≡ true }
    {
        SureSource { bytes, at: 0 }
    }
}

impl Source for SureSource {
    ghost left = { λ s. Some s };

    ghost read_faults = { λ _. 0 };

    ghost sure = { λ _. true };

    ghost other = { λ _. None };

    fn read(&mut self, into: &mut [u8]) -> Result<usize, Failed> {
        let left = &self.bytes[self.at..];
        let n = left.len().min(into.len());
        into[..n].copy_from_slice(&left[..n]);
        self.at += n;
        Ok(n)
    }
}

/// A sink in memory that takes each piece whole, as long as memory lasts.
#[derive(Drop)]
pub struct SureSink {
    bytes: Vec<u8>,
}

impl Model for SureSink {
    ghost Value = { List ℕ };

    ghost view = { λ s. s.bytes.items };
}

impl SureSink {
    /// A sink that has taken nothing yet.
    pub fn new(alloc: Global) -> SureSink
        ensures taken { ⟦<SureSink as Sink>⟧.taken result ≡ Some [] }
        ensures sure { ⟦<SureSink as Sink>⟧.sure result ≡ true }
    {
        SureSink {
            bytes: Vec::new(alloc),
        }
    }

    /// The bytes taken so far.
    pub fn taken(&self) -> &[u8]
        ensures { ⟦<SureSink as Sink>⟧.taken self.now ≡ Some result.now }
    {
        &self.bytes
    }
}

impl Sink for SureSink {
    ghost taken = { λ s. Some s };

    ghost write_faults = { λ _. 0 };

    ghost sure = { λ _. true };

    ghost other = { λ _. None };

    fn write(&mut self, piece: &[u8]) -> Result<usize, SinkFault>
        ensures whole { IfOk result (λ n. n ≡ length piece.now) }
        ensures taken { OnOk result (self.new ≡ self.old ++ piece.now) }
        ensures same { OnErr result (self.new ≡ self.old) }
        ensures memory { IfErr result (λ fault. fault ≡ SinkFault.NoMemory) }
    {
        self.bytes.extend_from_slice(piece)?;
        Ok(piece.len())
    }
}

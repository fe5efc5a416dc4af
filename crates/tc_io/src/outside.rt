//! std's readers and writers as a source and a sink.
//!
//! Nothing is told of the bytes: what the process is connected to is trusted.
ghost use Rattle.std.specs.Prelude.{◌≡◌, ◌<◌, ◌≤◌, length, take, true, false, not};
ghost use Rattle.std.specs.Prelude.{IfOk, IfErr, IsErr, OnOk, OnErr, None};
ghost use Rattle.std.specs.Io.KnownBytes.{ReadConsumes, WriteAppends, Appends, Keeps};
ghost use Rattle.tc_io.specs.Faults.{Counts};
ghost use Rattle.tc_io.specs.Sinks.{AppendsAtMost};

use crate::{Failed, Sink, SinkFault, Source};
use std::io;
use std::io::{ErrorKind, Read, Write};

// How often a call is made at most that a signal interrupts.
const MOST_TRIES: u32 = 1_000_000;

/// A reader, whose errors are counted. A read that a signal interrupts is made again, and is none.
#[derive(Drop)]
pub struct StdSource<R> {
    reader: R,
    faults: u64,
}

impl<R: Read> StdSource<R> {
    /// Reads from this reader; no read has failed yet.
    pub fn new(reader: R) -> StdSource<R>
        ensures { result ≡ record { reader = reader; faults = 0 } }
    {
        StdSource { reader, faults: 0 }
    }

    // Reads once more where a signal came in between.
    fn give(&mut self, into: &mut [u8]) -> Result<usize, io::Error>
        ensures count { IfOk result (λ n. n ≤ length into.old) }
        ensures given { ReadConsumes
            (R.remaining self.old.reader) (R.remaining self.new.reader) result into.new }
        ensures faults { self.new.faults ≡ self.old.faults }
    {
        for _ in 0..MOST_TRIES {
            match self.reader.read(into) {
                Err(e) if e.kind() == ErrorKind::Interrupted => {}
                result => return result,
            }
        }
        self.reader.read(into)
    }
}

impl<R: Read> Source for StdSource<R> {
    ghost left = { λ _. None };

    ghost read_faults = { λ s. s.faults };

    ghost sure = { λ _. false };

    ghost other = { λ _. None };

    fn read(&mut self, into: &mut [u8]) -> Result<usize, Failed>
        ensures count { IfOk result (λ n. n ≤ length into.old) }
        ensures counted { Counts (IsErr result) self.old.faults self.new.faults }

        // The bytes are the reader's next ones, and none only at their end, where those are known.
        ensures given { ReadConsumes
            (R.remaining self.old.reader) (R.remaining self.new.reader) result into.new }
    {
        match self.give(into) {
            Ok(n) => Ok(n),
            Err(_) => {
                self.faults = self.faults.saturating_add(1);
                Err(Failed)
            }
        }
    }
}

/// A writer, whose errors are counted. Each piece is flushed as it is written. A call that a signal
/// interrupts is made again, and is no error.
#[derive(Drop)]
pub struct StdSink<W> {
    writer: W,
    // Whether something was written that is not flushed yet.
    unflushed: bool,
    faults: u64,
}

impl<W: Write> StdSink<W> {
    /// Writes to this writer; no write has failed yet.
    pub fn new(writer: W) -> StdSink<W>
        ensures { result ≡ record { writer = writer; unflushed = false; faults = 0 } }
    {
        StdSink {
            writer,
            unflushed: false,
            faults: 0,
        }
    }

    // Writes a front of the piece.
    fn put(&mut self, piece: &[u8]) -> Result<usize, io::Error>
        ensures count { IfOk result (λ n. n ≤ length piece.now) }
        ensures written { WriteAppends
            (W.contents self.old.writer) (W.contents self.new.writer) result piece.now }
        ensures unflushed { self.new.unflushed ≡ true }
        ensures faults { self.new.faults ≡ self.old.faults }
    {
        self.unflushed = true;
        for _ in 0..MOST_TRIES {
            match self.writer.write(piece) {
                Err(e) if e.kind() == ErrorKind::Interrupted => {}
                result => return result,
            }
        }
        self.writer.write(piece)
    }

    // Whether all that was written is flushed.
    fn flush(&mut self) -> bool
        ensures flushed { result ≡ not self.new.unflushed }
        ensures kept { Keeps (W.contents self.old.writer) (W.contents self.new.writer) }
        ensures faults { self.new.faults ≡ self.old.faults }
    {
        self.unflushed = true;
        for _ in 0..MOST_TRIES {
            match self.writer.flush() {
                Ok(()) => {
                    self.unflushed = false;
                    return true;
                }
                Err(e) if e.kind() == ErrorKind::Interrupted => {}
                Err(_) => return false,
            }
        }
        false
    }
}

impl<W: Write> Sink for StdSink<W> {
    ghost taken = { λ _. None };

    ghost write_faults = { λ s. s.faults };

    ghost sure = { λ _. false };

    ghost other = { λ _. None };

    fn write(&mut self, piece: &[u8]) -> Result<usize, SinkFault>
        ensures count { IfOk result (λ n. (0 < n) × (n ≤ length piece.now)) }
        ensures failed { IfErr result (λ fault. fault ≡ SinkFault.Failed) }
        ensures counted { Counts (IsErr result) self.old.faults self.new.faults }

        // The bytes went to the writer, where what it holds is known, and were flushed.
        ensures written { IfOk result (λ n. Appends
            (W.contents self.old.writer) (W.contents self.new.writer) (take n piece.now)) }
        ensures flushed { OnOk result (self.new.unflushed ≡ false) }

        // After a fault the writer holds what it held, or a front of the piece behind it, once.
        ensures kept { OnErr result (AppendsAtMost
            (W.contents self.old.writer) (W.contents self.new.writer) piece.now) }
    {
        match self.put(piece) {
            Ok(n) if n > 0 && self.flush() => Ok(n),
            _ => {
                self.faults = self.faults.saturating_add(1);
                Err(SinkFault::Failed)
            }
        }
    }
}

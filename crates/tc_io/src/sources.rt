//! What bytes are read from.
ghost use Rattle.std.specs.Prelude.{◌≡◌, ◌<◌, ◌≤◌, ℕ, Bool, List, length, IfOk, OnErr, IsOk, IsErr, IsTrue};
ghost use Rattle.std.specs.declared.option.Option.{Option};
ghost use Rattle.tc_io.specs.Faults.{Counts};
ghost use Rattle.tc_io.specs.Sources.{Reads};
ghost use Rattle.tc_io.specs.Sinks.{SinkState};

use thiserror::Error;

/// A read, or a call of a listener, has failed.
#[derive(Debug, Clone, Copy, PartialEq, Eq, Drop, Error)]
#[error("the input cannot be read")]
pub struct Failed;

/// Bytes that are read one after another.
pub trait Source {
    /// The bytes not yet read, where they are told.
    ghost left: { Self → Option (List ℕ) };

    /// How often a read has failed.
    ghost read_faults: { Self → ℕ };

    /// No read fails.
    ghost sure: { Self → Bool };

    /// What the same object keeps as a sink, where it is one too. No read changes it.
    ghost other: { Self → Option SinkState };

    /// Reads some of the bytes that are left into the front of the buffer. `Ok(0)` is their end.
    ///
    /// What stands in the buffer behind them, or after a failure, is not told here: a reader of the
    /// outside may have written to it. `MemSource` leaves it as it was.
    fn read(&mut self, into: &mut [u8]) -> Result<usize, Failed>
        requires { 0 < length into.old }
        ensures count { IfOk result (λ n. n ≤ length into.old) }
        ensures bytes { IfOk result (λ n. Reads (left self.old) (left self.new) n into.new) }
        ensures same { OnErr result (left self.new ≡ left self.old) }

        ensures counted { Counts (IsErr result) (read_faults self.old) (read_faults self.new) }
        ensures sure { IsTrue (sure self.old) → IsOk result }
        ensures stays_sure { sure self.new ≡ sure self.old }
        ensures other { other self.new ≡ other self.old };
}

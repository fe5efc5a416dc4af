//! What bytes are written to.
ghost use Rattle.std.specs.Prelude.{◌≡◌, ◌<◌, ◌≤◌, ℕ, Bool, List, length, take, IfOk, OnErr, IsTrue};
ghost use Rattle.std.specs.Result.{IsErrOf};
ghost use Rattle.std.specs.declared.option.Option.{Option};
ghost use Rattle.tc_io.specs.Faults.{Counts};
ghost use Rattle.tc_io.specs.Sources.{SourceState};
ghost use Rattle.tc_io.specs.Sinks.{appended};

use tc_lists::NoMemory;
use thiserror::Error;

/// Why nothing was taken.
#[derive(Debug, Clone, Copy, PartialEq, Eq, Drop, Error)]
pub enum SinkFault {
    /// The write has failed. It is counted.
    #[error("the output cannot be written")]
    Failed,
    /// Memory has run out.
    #[error("memory has run out")]
    NoMemory,
}

impl From<NoMemory> for SinkFault {
    ghost use Rattle.tc_io.specs.declared.sinks.SinkFault.{SinkFault};

    ghost from_gives = { λ _ fault. fault ≡ SinkFault.NoMemory };

    fn from(_: NoMemory) -> SinkFault {
        SinkFault::NoMemory
    }
}

/// Bytes that are written one after another.
pub trait Sink {
    /// The bytes taken so far, where they are told.
    ghost taken: { Self → Option (List ℕ) };

    /// How often a write has failed.
    ghost write_faults: { Self → ℕ };

    /// No write fails, unless memory runs out.
    ghost sure: { Self → Bool };

    /// What the same object keeps as a source, where it is one too. No write changes it.
    ghost other: { Self → Option SourceState };

    /// Takes one byte of the piece or more, from its front.
    fn write(&mut self, piece: &[u8]) -> Result<usize, SinkFault>
        requires { 0 < length piece.now }
        ensures count { IfOk result (λ n. (0 < n) × (n ≤ length piece.now)) }
        ensures bytes { IfOk result (λ n.
            taken self.new ≡ appended (taken self.old) (take n piece.now)) }
        ensures same { OnErr result (taken self.new ≡ taken self.old) }

        ensures counted { Counts (IsErrOf result SinkFault.Failed)
            (write_faults self.old) (write_faults self.new) }
        ensures sure { IsTrue (sure self.old) → IsErrOf result SinkFault.Failed → ⊥ }
        ensures stays_sure { sure self.new ≡ sure self.old }
        ensures other { other self.new ≡ other self.old };
}

//! The whole of an input, and the whole of a text.
ghost use Rattle.std.specs.Prelude.{◌≡◌, ◌+◌, ◌^◌, ◌<◌, IfOk, OnOk, OnErr, IsTrue};
ghost use Rattle.std.specs.Result.{IsErrOf};
ghost use Rattle.tc_io.specs.Faults.{Counts};
ghost use Rattle.tc_io.specs.Sources.{ReadsAll, ReadsPast, ReadsSome};
ghost use Rattle.tc_io.specs.Sinks.{appended, AppendsFront};

use crate::{Failed, Sink, SinkFault, Source};
use std::alloc::Global;
use tc_lists::NoMemory;
use thiserror::Error;

/// Why an input was not read.
#[derive(Debug, Clone, Copy, PartialEq, Eq, Drop, Error)]
pub enum InputFault {
    /// A read has failed. It is counted.
    #[error("the input cannot be read")]
    Failed,
    /// There are more bytes than are allowed.
    #[error("the input is too long")]
    TooLong,
    /// Memory has run out.
    #[error("memory has run out")]
    NoMemory,
}

impl From<Failed> for InputFault {
    ghost use Rattle.std.specs.Prelude.{◌≡◌};
    ghost use Rattle.tc_io.specs.declared.whole.InputFault.{InputFault};

    ghost from_gives = { λ _ fault. fault ≡ InputFault.Failed };

    fn from(_: Failed) -> InputFault {
        InputFault::Failed
    }
}

impl From<NoMemory> for InputFault {
    ghost use Rattle.std.specs.Prelude.{◌≡◌};
    ghost use Rattle.tc_io.specs.declared.whole.InputFault.{InputFault};

    ghost from_gives = { λ _ fault. fault ≡ InputFault.NoMemory };

    fn from(_: NoMemory) -> InputFault {
        InputFault::NoMemory
    }
}

/// Reads to the end, which comes within `limit` bytes or is not looked for.
///
/// Of a longer input one byte more than `limit` is read.
pub fn read_all<S: Source>(
    alloc: Global,
    source: &mut S,
    limit: usize,
) -> Result<Vec<u8>, InputFault>
    requires { limit < 2 ^ 32 }
    ensures all { IfOk result (λ bytes.
        ReadsAll (S.left source.old) (S.left source.new) limit bytes.items) }
    ensures too_long { IsErrOf result InputFault.TooLong
        → ReadsPast (S.left source.old) (S.left source.new) limit }
    ensures rest { OnErr result (ReadsSome (S.left source.old) (S.left source.new) (limit + 1)) }

    ensures counted { Counts (IsErrOf result InputFault.Failed)
        (S.read_faults source.old) (S.read_faults source.new) }
    ensures sure { IsTrue (S.sure source.old) → IsErrOf result InputFault.Failed → ⊥ }
    ensures stays_sure { S.sure source.new ≡ S.sure source.old }
    ensures other { S.other source.new ≡ S.other source.old }
{
    let mut bytes = Vec::new(alloc);
    let mut buffer = [0; 4096];
    while bytes.len() <= limit {
        let room = (limit + 1 - bytes.len()).min(buffer.len());
        let n = source.read(&mut buffer[..room])?;
        if n == 0 {
            return Ok(bytes);
        }
        bytes.extend_from_slice(&buffer[..n])?;
    }
    Err(InputFault::TooLong)
}

/// Writes all the bytes. After a fault a front of them was taken.
pub fn write_all<K: Sink>(sink: &mut K, bytes: &[u8]) -> Result<(), SinkFault>
    ensures all { OnOk result (K.taken sink.new ≡ appended (K.taken sink.old) bytes.now) }
    ensures front { AppendsFront (K.taken sink.old) (K.taken sink.new) bytes.now }

    ensures counted { Counts (IsErrOf result SinkFault.Failed)
        (K.write_faults sink.old) (K.write_faults sink.new) }
    ensures sure { IsTrue (K.sure sink.old) → IsErrOf result SinkFault.Failed → ⊥ }
    ensures stays_sure { K.sure sink.new ≡ K.sure sink.old }
    ensures other { K.other sink.new ≡ K.other sink.old }
{
    let mut at = 0;
    while at < bytes.len() {
        at += sink.write(&bytes[at..])?;
    }
    Ok(())
}

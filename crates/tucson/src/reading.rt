//! A configuration, read to its end; or why a call has none.
ghost use Rattle.std.specs.Prelude.{◌≡◌, ◌<◌, ◌+◌, IfErr, IfOk};
ghost use Rattle.std.specs.Result.{IsErrOf};
ghost use Rattle.tc_config.specs.Texts.{IsRefused, Spells};
ghost use Rattle.tc_config.specs.declared.limits.TheConstants.{MOST_BYTES};
ghost use Rattle.tc_io.specs.Faults.{Counts};
ghost use Rattle.tc_io.specs.Sources.{ReadsSome, source_of};
ghost use Rattle.tucson.specs.Answer.{FindsConfig};
ghost use Rattle.tucson.specs.Reading.{IsStopFor, StopsReading};

use std::alloc::Global;
use std::thread::Threads;
use tc_config::{Config, ConfigCause, ConfigFault, MOST_BYTES, read_config, read_config_by};
use tc_io::{InputFault, Source, read_all};
use tc_lists::NoMemory;

/// Why a call has no configuration.
#[derive(Clone, Copy, PartialEq, Eq, Debug)]
pub enum Stop {
    /// The first faulty clause of its text, from 1, or 0 for the whole of it; and why.
    Refused { clause: u32, cause: ConfigCause },
    ReadFault,
    NoMemory,
}

impl From<InputFault> for Stop {
    ghost use Rattle.std.specs.Prelude.{◌≡◌};
    ghost use Rattle.tucson.specs.Reading.{stop_of_input};

    ghost from_gives = { λ fault stop. stop ≡ stop_of_input fault };

    fn from(fault: InputFault) -> Stop {
        match fault {
            InputFault::Failed => Stop::ReadFault,
            InputFault::TooLong => Stop::Refused {
                clause: 0,
                cause: ConfigCause::Length,
            },
            InputFault::NoMemory => Stop::NoMemory,
        }
    }
}

impl From<ConfigFault> for Stop {
    ghost use Rattle.std.specs.Prelude.{◌≡◌};
    ghost use Rattle.tucson.specs.Reading.{stop_of_config};

    ghost from_gives = { λ fault stop. stop ≡ stop_of_config fault };

    fn from(fault: ConfigFault) -> Stop {
        match fault {
            ConfigFault::Bad { clause, cause } => Stop::Refused { clause, cause },
            ConfigFault::NoMemory => Stop::NoMemory,
        }
    }
}

impl From<NoMemory> for Stop {
    ghost use Rattle.std.specs.Prelude.{◌≡◌};
    ghost use Rattle.tucson.specs.declared.reading.Stop.TheVariants.{NoMemory};

    ghost from_gives = { λ _ stop. stop ≡ NoMemory };

    fn from(_: NoMemory) -> Stop {
        Stop::NoMemory
    }
}

/// Reads a source to its end, and the configuration that this spells.
pub fn read_source<S: Source>(alloc: Global, source: &mut S) -> Result<Config, Stop>
    ensures found { IfOk result (FindsConfig (S.left source.old) (S.left source.new)) }
    ensures stopped { IfErr result (StopsReading MOST_BYTES IsRefused
        (source_of S.left S.read_faults S.sure source.old)
        (source_of S.left S.read_faults S.sure source.new)) }
    ensures rest { ReadsSome (S.left source.old) (S.left source.new) (MOST_BYTES + 1) }
    ensures reads { Counts (IsErrOf result Stop.ReadFault)
        (S.read_faults source.old) (S.read_faults source.new) }
{
    let text = read_all(alloc, source, MOST_BYTES)?;
    read_text(alloc, &text)
}

/// The same, where so many workers read the clauses of a long text.
pub fn read_source_by<R: Threads + Sync, S: Source>(
    rt: &R,
    alloc: Global,
    workers: usize,
    source: &mut S,
) -> Result<Config, Stop>
    requires workers { 0 < workers }
    ensures found { IfOk result (FindsConfig (S.left source.old) (S.left source.new)) }
    ensures stopped { IfErr result (StopsReading MOST_BYTES IsRefused
        (source_of S.left S.read_faults S.sure source.old)
        (source_of S.left S.read_faults S.sure source.new)) }
    ensures rest { ReadsSome (S.left source.old) (S.left source.new) (MOST_BYTES + 1) }
    ensures reads { Counts (IsErrOf result Stop.ReadFault)
        (S.read_faults source.old) (S.read_faults source.new) }
{
    let text = read_all(alloc, source, MOST_BYTES)?;
    read_text_by(rt, alloc, workers, &text)
}

/// Reads the configuration that a text spells.
pub fn read_text(alloc: Global, text: &[u8]) -> Result<Config, Stop>
    ensures found { IfOk result (Spells text.now) }
    ensures stopped { IfErr result (IsStopFor IsRefused text.now) }
{
    Ok(read_config(alloc, text)?)
}

// The same by so many workers.
fn read_text_by<R: Threads + Sync>(
    rt: &R,
    alloc: Global,
    workers: usize,
    text: &[u8],
) -> Result<Config, Stop>
    requires workers { 0 < workers }
    ensures found { IfOk result (Spells text.now) }
    ensures stopped { IfErr result (IsStopFor IsRefused text.now) }
{
    Ok(read_config_by(rt, alloc, workers, text)?)
}

//! What is written where a call has no configuration.
ghost use Rattle.std.specs.Prelude.{◌≡◌};
ghost use Rattle.tc_config.specs.Refusals.{refused_text};
ghost use Rattle.tc_io.specs.Faults.{Counts};
ghost use Rattle.tc_io.specs.Sinks.{sink_of};
ghost use Rattle.tucson.specs.Ending.{Writes};
ghost use Rattle.tucson.specs.Reading.{TellsStop};

use crate::reading::Stop;
use crate::status::Status;
use crate::writing::written;
use std::alloc::Global;
use tc_config::{ConfigCause, refused_text};
use tc_io::Sink;

/// Tells why a call has no configuration: of one that is refused a line is written.
pub fn stopped<K: Sink>(alloc: Global, stop: Stop, sink: &mut K) -> Status
    ensures tells { TellsStop stop (sink_of K.taken K.write_faults K.sure sink.old)
        (sink_of K.taken K.write_faults K.sure sink.new) result }
    ensures writes { Counts (result ≡ Status.WriteFault)
        (K.write_faults sink.old) (K.write_faults sink.new) }
    ensures reads { result ≡ Status.ReadFault → stop ≡ Stop.ReadFault }
{
    match stop {
        Stop::Refused { clause, cause } => refused(alloc, clause, cause, sink),
        Stop::ReadFault => Status::ReadFault,
        Stop::NoMemory => Status::NoMemory,
    }
}

// Writes that the configuration is refused.
fn refused<K: Sink>(alloc: Global, clause: u32, cause: ConfigCause, sink: &mut K) -> Status
    ensures wrote { Writes (Status.Refused clause cause) (refused_text clause cause)
        (sink_of K.taken K.write_faults K.sure sink.old)
        (sink_of K.taken K.write_faults K.sure sink.new) result }
    ensures writes { Counts (result ≡ Status.WriteFault)
        (K.write_faults sink.old) (K.write_faults sink.new) }
{
    match refused_text(alloc, clause, cause) {
        Ok(text) => written(Status::Refused { clause, cause }, &text, sink),
        Err(_) => Status::NoMemory,
    }
}

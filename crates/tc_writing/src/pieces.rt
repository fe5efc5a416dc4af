//! Pieces: bytes are kept until they are many, and then written.
ghost use Rattle.std.specs.Prelude.{[]};
ghost use Rattle.tc_io.specs.Flow.{HandsOn, flow};

use tc_io::{Sink, SinkFault, write_kept};

/// How many bytes are kept at least before they are written.
const MOST_KEPT: usize = 65_536;

/// Writes what is kept, where it is large enough.
pub(crate) fn spill<K: Sink>(sink: &mut K, kept: &mut Vec<u8>) -> Result<(), SinkFault>
    ensures { HandsOn [] (flow K.taken K.write_faults K.sure sink.old kept.old.items)
        (flow K.taken K.write_faults K.sure sink.new kept.new.items) result }
{
    if kept.len() < MOST_KEPT {
        return Ok(());
    }
    write_kept(sink, kept)
}

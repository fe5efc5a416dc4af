//! Bytes that are kept until they are many, and then written.
ghost use Rattle.std.specs.Prelude.{◌≡◌, [], OnOk, OnErr};
ghost use Rattle.tc_io.specs.Flow.{HandsOn, flow};

use crate::{Sink, SinkFault, write_all};

/// Writes all that is kept. After a fault it is all kept still.
pub fn write_kept<K: Sink>(sink: &mut K, kept: &mut Vec<u8>) -> Result<(), SinkFault>
    ensures hands { HandsOn [] (flow K.taken K.write_faults K.sure sink.old kept.old.items)
        (flow K.taken K.write_faults K.sure sink.new kept.new.items) result }
    ensures empty { OnOk result (kept.new.items ≡ []) }
    ensures same { OnErr result (kept.new.items ≡ kept.old.items) }
    ensures other { K.other sink.new ≡ K.other sink.old }
{
    write_all(sink, kept)?;
    kept.clear();
    Ok(())
}

//! Shares of lines: what a worker prints, and what is written of that.
ghost use Rattle.std.specs.Prelude.{◌≡◌};
ghost use Rattle.tc_io.specs.Flow.{HandsOn, flow};
ghost use Rattle.tc_writing.specs.Lines.{AreNamed, IsPrinted, text_of};

use crate::lines::Lines;
use crate::pieces::spill;
use std::alloc::Global;
use tc_io::{Sink, SinkFault, write_kept};

/// How many bytes a worker has printed at least where it stops before the end of its share.
const MOST_PRINTED: usize = 1_048_576;

/// What was printed of a share: the text of so many of its first lines.
#[derive(Drop)]
pub(crate) struct Printed {
    pub(crate) text: Vec<u8>,
    pub(crate) lines: usize,
}

/// Prints a share, to its end or until the text is long or memory is wanting.
pub(crate) fn print_share(alloc: Global, share: Lines) -> Printed
    requires { AreNamed share }
    ensures { IsPrinted share.entry result }
{
    let mut text = Vec::new(alloc);
    for place in 0..share.len() {
        if text.len() >= MOST_PRINTED || share.print(alloc, place, &mut text).is_err() {
            return Printed { text, lines: place };
        }
    }
    Printed {
        text,
        lines: share.len(),
    }
}

/// Hands on what was printed of a share, and prints and hands on the rest of it.
pub(crate) fn write_share<K: Sink>(
    alloc: Global,
    share: Lines,
    printed: Printed,
    sink: &mut K,
    kept: &mut Vec<u8>,
) -> Result<(), SinkFault>
    requires named { AreNamed share }
    requires printed { IsPrinted share printed }
    ensures { HandsOn (text_of share.entry)
        (flow K.taken K.write_faults K.sure sink.old kept.old.items)
        (flow K.taken K.write_faults K.sure sink.new kept.new.items) result }
{
    let Printed { text, lines } = printed;
    write_kept(sink, kept)?;
    *kept = text;
    write_kept(sink, kept)?;
    let (_, rest) = share.split_at(lines);
    write_lines(alloc, rest, sink, kept)
}

/// Prints lines and hands them on, one by one.
pub(crate) fn write_lines<K: Sink>(
    alloc: Global,
    lines: Lines,
    sink: &mut K,
    kept: &mut Vec<u8>,
) -> Result<(), SinkFault>
    requires { AreNamed lines }
    ensures { HandsOn (text_of lines.entry)
        (flow K.taken K.write_faults K.sure sink.old kept.old.items)
        (flow K.taken K.write_faults K.sure sink.new kept.new.items) result }
{
    for place in 0..lines.len() {
        lines.print(alloc, place, kept)?;
        spill(sink, kept)?;
    }
    Ok(())
}

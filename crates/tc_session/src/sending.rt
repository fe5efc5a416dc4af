//! The link's two halves: replies are gathered and written, and more bytes are read.
ghost use Rattle.std.specs.Prelude.{◌≡◌, ◌+◌, ◌<◌, ◌≤◌, ℕ, List, [], Err, IfNone, IfOk, OnErr};
ghost use Rattle.std.specs.Prelude.{OnOk, IsTrue, length, vec_len, vec_capacity};
ghost use Rattle.std.specs.Result.{IsErrOf};
ghost use Rattle.tc_desk.specs.Desks.{DeskState};
ghost use Rattle.tc_io.specs.Faults.{Counts};
ghost use Rattle.tc_io.specs.Flow.{HandsOn, flow};
ghost use Rattle.tc_io.specs.Sinks.{sink_of};
ghost use Rattle.tc_io.specs.Sources.{source_of};
ghost use Rattle.tc_lines.specs.Lines.{Fills};
ghost use Rattle.tc_lines.specs.declared.limits.TheConstants.{MOST_LINE};
ghost use Rattle.tc_session.specs.declared.endings.SessionEnd.{SessionEnd};
ghost use Rattle.tc_session.specs.SoFar.{EndIs, Finishes, IsSoFar, IsStop, Moment, StepsTo, moment};

use crate::answering::ROOM;
use crate::endings::SessionEnd;
use tc_io::{Link, SinkFault, write_kept};
use tc_lines::{FillFault, Lines, release_spare};

/// How many bytes of replies are kept at most before they are written.
const MOST_KEPT: usize = 16_384;

/// Makes room for the next reply; where many are kept, they are written first. How the session
/// ends, if it does.
pub(crate) fn prepare<L: Link>(link: &mut L, replies: &mut Vec<u8>) -> Option<SessionEnd>
    ensures steps { (from : Moment) (held : List ℕ) (d : DeskState) → IsSoFar from
        (moment L.Source.left L.Source.read_faults L.Source.sure L.Sink.taken L.Sink.write_faults
        L.Sink.sure link.old held replies.old.items d)
        → StepsTo from result
        (moment L.Source.left L.Source.read_faults L.Source.sure L.Sink.taken L.Sink.write_faults
        L.Sink.sure link.new held replies.new.items d) }
    ensures room { IfNone result (vec_len replies.new + ROOM ≤ vec_capacity replies.new) }
{
    if replies.len() > MOST_KEPT {
        return flush(link, replies);
    }
    match replies.reserve(ROOM) {
        Ok(()) => None,
        Err(_) => Some(finish(link, replies, SessionEnd::NoMemory)),
    }
}

/// Writes all replies, and makes room for the next one. How the session ends, if it does.
pub(crate) fn flush<L: Link>(link: &mut L, replies: &mut Vec<u8>) -> Option<SessionEnd>
    ensures steps { (from : Moment) (held : List ℕ) (d : DeskState) → IsSoFar from
        (moment L.Source.left L.Source.read_faults L.Source.sure L.Sink.taken L.Sink.write_faults
        L.Sink.sure link.old held replies.old.items d)
        → StepsTo from result
        (moment L.Source.left L.Source.read_faults L.Source.sure L.Sink.taken L.Sink.write_faults
        L.Sink.sure link.new held replies.new.items d) }
    ensures empty { IfNone result (replies.new.items ≡ []) }
    ensures room { IfNone result (vec_len replies.new + ROOM ≤ vec_capacity replies.new) }
{
    match write_replies(link, replies) {
        Ok(()) => match replies.reserve(ROOM) {
            Ok(()) => None,
            Err(_) => Some(SessionEnd::NoMemory),
        },
        Err(fault) => Some(stopped(fault)),
    }
}

/// Writes the last replies. The end is the one that is due, unless the writing is stopped.
pub(crate) fn finish<L: Link>(link: &mut L, replies: &mut Vec<u8>, due: SessionEnd) -> SessionEnd
    ensures source { source_of L.Source.left L.Source.read_faults L.Source.sure link.new
        ≡ source_of L.Source.left L.Source.read_faults L.Source.sure link.old }
    ensures finishes { Finishes due
        (flow L.Sink.taken L.Sink.write_faults L.Sink.sure link.old replies.old.items)
        (flow L.Sink.taken L.Sink.write_faults L.Sink.sure link.new replies.new.items) result }
{
    match write_replies(link, replies) {
        Ok(()) => due,
        Err(fault) => stopped(fault),
    }
}

// Writes all replies, and gives back the room of many.
fn write_replies<L: Link>(link: &mut L, replies: &mut Vec<u8>) -> Result<(), SinkFault>
    ensures hands { HandsOn []
        (flow L.Sink.taken L.Sink.write_faults L.Sink.sure link.old replies.old.items)
        (flow L.Sink.taken L.Sink.write_faults L.Sink.sure link.new replies.new.items) result }
    ensures empty { OnOk result (replies.new.items ≡ []) }
    ensures source { source_of L.Source.left L.Source.read_faults L.Source.sure link.new
        ≡ source_of L.Source.left L.Source.read_faults L.Source.sure link.old }
{
    let written = write_kept(link, replies);
    release_spare(replies);
    written
}

// How a session ends that a fault of the link stops.
fn stopped(fault: SinkFault) -> SessionEnd
    ensures ends { (due : SessionEnd) → EndIs due (Err fault) result }
    ensures stop { IsStop result }
{
    match fault {
        SinkFault::Failed => SessionEnd::WriteFault,
        SinkFault::NoMemory => SessionEnd::NoMemory,
    }
}

/// Reads more bytes behind those that are held.
pub(crate) fn read_more<L: Link>(
    link: &mut L,
    lines: &mut Lines,
    buffer: &mut [u8],
) -> Result<usize, FillFault>
    requires room { length lines.old ≤ MOST_LINE }
    requires buffer { 0 < length buffer.old }
    ensures more { IfOk result (λ n.
        Fills (L.Source.left link.old) (L.Source.left link.new) n lines.old lines.new) }
    ensures same { OnErr result (lines.new ≡ lines.old) }
    ensures left { OnErr result (L.Source.left link.new ≡ L.Source.left link.old) }
    ensures counted { Counts (IsErrOf result FillFault.Failed)
        (L.Source.read_faults link.old) (L.Source.read_faults link.new) }
    ensures sure { IsTrue (L.Source.sure link.old) → IsErrOf result FillFault.Failed → ⊥ }
    ensures stays_sure { L.Source.sure link.new ≡ L.Source.sure link.old }
    ensures sink { sink_of L.Sink.taken L.Sink.write_faults L.Sink.sure link.new
        ≡ sink_of L.Sink.taken L.Sink.write_faults L.Sink.sure link.old }
{
    lines.fill(link, buffer)
}

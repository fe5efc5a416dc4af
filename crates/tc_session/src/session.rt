//! Sessions, from the first line to the end.
ghost use Rattle.std.specs.Prelude.{◌≡◌, ◌+◌, ◌<◌, ◌≤◌, ℕ, List, [], ◌++◌, true, IsTrue, IfNone};
ghost use Rattle.std.specs.Prelude.{length, vec_len, vec_capacity};
ghost use Rattle.tc_desk.specs.Desks.{DeskState, Keeps};
ghost use Rattle.tc_io.specs.Faults.{Counts};
ghost use Rattle.tc_io.specs.Flow.{flow};
ghost use Rattle.tc_io.specs.Sinks.{sink_of};
ghost use Rattle.tc_io.specs.Sources.{source_of};
ghost use Rattle.tc_lines.specs.Lines.{HasNoBreak};
ghost use Rattle.tc_lines.specs.Requests.{BeginsWith};
ghost use Rattle.tc_lines.specs.declared.limits.TheConstants.{MOST_LINE};
ghost use Rattle.tc_session.specs.Answering.{PendsAt};
ghost use Rattle.tc_session.specs.Sessions.{IsSession, cut_text};
ghost use Rattle.tc_session.specs.SoFar.{Finishes, IsSoFar, Moment, StepsTo, moment};

use crate::answering::{Came, ROOM, answer, pending_place};
use crate::endings::SessionEnd;
use crate::sending::{finish, flush, prepare, read_more};
use crate::texts::push_error;
use std::alloc::Global;
use std::sync::Wait;
use tc_desk::Desk;
use tc_io::Link;
use tc_lines::{BadLine, FillFault, LineAsk, Lines, MOST_LINE};

/// How many bytes are read at most at a time.
const MOST_READ: usize = 4_096;

/// Serves the lines of a link at a desk, until one asks for the end or no further one comes.
///
/// Replies are gathered, and written when no whole line is left to answer, before a wait for a
/// pending call, and where they are many; so lines that come together are answered at the price of
/// one. The place of the pending call's row is kept, so no line costs a walk through the log.
pub fn serve_session<R: Wait, D: Desk, L: Link>(
    rt: &R,
    alloc: Global,
    desk: &mut D,
    link: &mut L,
) -> SessionEnd
    requires free { (D.state desk.old).free ≡ true }
    ensures session { IsSession (D.state desk.old)
        (source_of L.Source.left L.Source.read_faults L.Source.sure link.old)
        (source_of L.Source.left L.Source.read_faults L.Source.sure link.new)
        (sink_of L.Sink.taken L.Sink.write_faults L.Sink.sure link.old)
        (sink_of L.Sink.taken L.Sink.write_faults L.Sink.sure link.new)
        result (D.state desk.new) }
    ensures kept { Keeps (D.state desk.old) (D.state desk.new) }
    ensures bond { D.bond desk.new ≡ D.bond desk.old }
    ensures sound { D.sound desk.old → D.sound desk.new }

    // A fault of the link is told as such, and nothing else is.
    ensures reads { Counts (result ≡ SessionEnd.ReadFault)
        (L.Source.read_faults link.old) (L.Source.read_faults link.new) }
    ensures writes { Counts (result ≡ SessionEnd.WriteFault)
        (L.Sink.write_faults link.old) (L.Sink.write_faults link.new) }
    ensures read_sure { IsTrue (L.Source.sure link.old)
        → result ≡ SessionEnd.ReadFault → ⊥ }
    ensures write_sure { IsTrue (L.Sink.sure link.old)
        → result ≡ SessionEnd.WriteFault → ⊥ }
{
    let mut lines = Lines::new(alloc);
    let mut replies = Vec::new(alloc);
    let mut buffer = [0; MOST_READ];
    let mut pending = pending_place(desk.log());
    for _ in rt.forever() {
        let over = step(
            rt,
            alloc,
            desk,
            &mut pending,
            link,
            &mut lines,
            &mut replies,
            &mut buffer,
        );
        if let Some(end) = over {
            return end;
        }
    }
    unreachable!()
}

// Answers the next line, or reads more where none is whole. How the session ends, if it does.
fn step<R: Wait, D: Desk, L: Link>(
    rt: &R,
    alloc: Global,
    desk: &mut D,
    pending: &mut Option<usize>,
    link: &mut L,
    lines: &mut Lines,
    replies: &mut Vec<u8>,
    buffer: &mut [u8],
) -> Option<SessionEnd>
    requires free { (D.state desk.old).free ≡ true }
    requires pends { PendsAt (D.state desk.old).log pending.old }
    requires buffer { 0 < length buffer.old }
    ensures steps { (from : Moment) → IsSoFar from
        (moment L.Source.left L.Source.read_faults L.Source.sure L.Sink.taken L.Sink.write_faults
        L.Sink.sure link.old lines.old replies.old.items (D.state desk.old))
        → StepsTo from result
        (moment L.Source.left L.Source.read_faults L.Source.sure L.Sink.taken L.Sink.write_faults
        L.Sink.sure link.new lines.new replies.new.items (D.state desk.new)) }
    ensures pends { PendsAt (D.state desk.new).log pending.new }
    ensures kept { Keeps (D.state desk.old) (D.state desk.new) }
    ensures bond { D.bond desk.new ≡ D.bond desk.old }
    ensures sound { D.sound desk.old → D.sound desk.new }
{
    if let Some(end) = prepare(link, replies) {
        return Some(end);
    }
    match lines.next_request(alloc) {
        Some(asked) => serve_line(rt, alloc, desk, pending, link, asked, replies),
        None => refill(link, lines, replies, buffer),
    }
}

// Serves a line that asks this. Before a wait for a pending call all replies are written. How the
// session ends, if it does.
pub(crate) fn serve_line<R: Wait, D: Desk, L: Link>(
    rt: &R,
    alloc: Global,
    desk: &mut D,
    pending: &mut Option<usize>,
    link: &mut L,
    asked: Result<LineAsk, BadLine>,
    replies: &mut Vec<u8>,
) -> Option<SessionEnd>
    requires free { (D.state desk.old).free ≡ true }
    requires pends { PendsAt (D.state desk.old).log pending.old }
    requires room { vec_len replies.old + ROOM ≤ vec_capacity replies.old }
    ensures steps { (from : Moment) (held rest : List ℕ) → BeginsWith held asked rest
        → IsSoFar from
        (moment L.Source.left L.Source.read_faults L.Source.sure L.Sink.taken L.Sink.write_faults
        L.Sink.sure link.old held replies.old.items (D.state desk.old))
        → StepsTo from result
        (moment L.Source.left L.Source.read_faults L.Source.sure L.Sink.taken L.Sink.write_faults
        L.Sink.sure link.new rest replies.new.items (D.state desk.new)) }
    ensures pends { PendsAt (D.state desk.new).log pending.new }
    ensures kept { Keeps (D.state desk.old) (D.state desk.new) }
    ensures bond { D.bond desk.new ≡ D.bond desk.old }
    ensures sound { D.sound desk.old → D.sound desk.new }
{
    if let Some(end) = flush_before(link, &asked, pending.is_some(), replies) {
        return Some(end);
    }
    match answer(rt, alloc, desk, pending, asked, replies) {
        Came::GoesOn => None,
        Came::Quits => Some(finish(link, replies, SessionEnd::Quit)),
        Came::NoMemory => Some(finish(link, replies, SessionEnd::NoMemory)),
        Came::Unwritten => Some(finish(link, replies, SessionEnd::NoMemory)),
    }
}

// Writes all replies, where the line asks to wait for a call that is pending. How the session ends,
// if it does.
fn flush_before<L: Link>(
    link: &mut L,
    asked: &Result<LineAsk, BadLine>,
    is_pending: bool,
    replies: &mut Vec<u8>,
) -> Option<SessionEnd>
    requires room { vec_len replies.old + ROOM ≤ vec_capacity replies.old }
    ensures steps { (from : Moment) (held : List ℕ) (d : DeskState) → IsSoFar from
        (moment L.Source.left L.Source.read_faults L.Source.sure L.Sink.taken L.Sink.write_faults
        L.Sink.sure link.old held replies.old.items d)
        → StepsTo from result
        (moment L.Source.left L.Source.read_faults L.Source.sure L.Sink.taken L.Sink.write_faults
        L.Sink.sure link.new held replies.new.items d) }
    ensures room { IfNone result (vec_len replies.new + ROOM ≤ vec_capacity replies.new) }
{
    match asked {
        Ok(LineAsk::Wait) if is_pending => flush(link, replies),
        Ok(LineAsk::Call(..) | LineAsk::Poll | LineAsk::Wait | LineAsk::Quit) | Err(_) => None,
    }
}

// Reads more, where no whole line is held. How the session ends, if it does.
pub(crate) fn refill<L: Link>(
    link: &mut L,
    lines: &mut Lines,
    replies: &mut Vec<u8>,
    buffer: &mut [u8],
) -> Option<SessionEnd>
    requires room { vec_len replies.old + ROOM ≤ vec_capacity replies.old }
    requires buffer { 0 < length buffer.old }
    requires none { HasNoBreak lines.old }
    ensures steps { (from : Moment) (d : DeskState) → IsSoFar from
        (moment L.Source.left L.Source.read_faults L.Source.sure L.Sink.taken L.Sink.write_faults
        L.Sink.sure link.old lines.old replies.old.items d)
        → StepsTo from result
        (moment L.Source.left L.Source.read_faults L.Source.sure L.Sink.taken L.Sink.write_faults
        L.Sink.sure link.new lines.new replies.new.items d) }
{
    if lines.count() > MOST_LINE {
        push_error(b"line too long", replies);
        return Some(finish(link, replies, SessionEnd::LineTooLong));
    }
    if let Some(end) = flush(link, replies) {
        return Some(end);
    }
    read_on(link, lines, replies, buffer)
}

// Reads more, where no reply is kept. How the session ends, if it does.
fn read_on<L: Link>(
    link: &mut L,
    lines: &mut Lines,
    replies: &mut Vec<u8>,
    buffer: &mut [u8],
) -> Option<SessionEnd>
    requires empty { replies.old.items ≡ [] }
    requires room { vec_len replies.old + ROOM ≤ vec_capacity replies.old }
    requires buffer { 0 < length buffer.old }
    requires few { length lines.old ≤ MOST_LINE }
    requires none { HasNoBreak lines.old }
    ensures steps { (from : Moment) (d : DeskState) → IsSoFar from
        (moment L.Source.left L.Source.read_faults L.Source.sure L.Sink.taken L.Sink.write_faults
        L.Sink.sure link.old lines.old replies.old.items d)
        → StepsTo from result
        (moment L.Source.left L.Source.read_faults L.Source.sure L.Sink.taken L.Sink.write_faults
        L.Sink.sure link.new lines.new replies.new.items d) }
{
    match read_more(link, lines, buffer) {
        Ok(0) => Some(end_input(link, lines, replies)),
        Ok(_) => None,
        Err(FillFault::Failed) => Some(SessionEnd::ReadFault),
        Err(FillFault::NoMemory) => Some(SessionEnd::NoMemory),
    }
}

// Ends a session at the end of its input, where these bytes are held.
fn end_input<L: Link>(link: &mut L, lines: &Lines, replies: &mut Vec<u8>) -> SessionEnd
    requires room { vec_len replies.old + ROOM ≤ vec_capacity replies.old }
    ensures source { source_of L.Source.left L.Source.read_faults L.Source.sure link.new
        ≡ source_of L.Source.left L.Source.read_faults L.Source.sure link.old }
    ensures finishes { Finishes SessionEnd.EndOfInput (flow L.Sink.taken L.Sink.write_faults
        L.Sink.sure link.old (replies.old.items ++ cut_text lines.now))
        (flow L.Sink.taken L.Sink.write_faults L.Sink.sure link.new replies.new.items) result }
{
    if lines.count() > 0 {
        push_error(b"line cut", replies);
    }
    finish(link, replies, SessionEnd::EndOfInput)
}

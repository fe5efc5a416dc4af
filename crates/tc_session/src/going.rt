//! A session that goes on as lines come.
ghost use Rattle.std.specs.Prelude.{◌≡◌, ◌+◌, ◌<◌, ◌≤◌, ℕ, List, [], None, Ok, Some, true};
ghost use Rattle.std.specs.Prelude.{IfNone, IsTrue, length, vec_len, vec_capacity};
ghost use Rattle.tc_desk.specs.Desks.{DeskState, Keeps};
ghost use Rattle.tc_desk.specs.Logs.{any_pending};
ghost use Rattle.tc_io.specs.Sinks.{sink_of};
ghost use Rattle.tc_io.specs.Sources.{source_of};
ghost use Rattle.tc_lines.specs.Lines.{HasNoBreak};
ghost use Rattle.tc_session.specs.SoFar.{IsSoFar, Moment, moment};
ghost use Rattle.tc_session.specs.Underway.{ComesTo, GoesOn, Holds, IsUnderway};

use crate::answering::{ROOM, pending_place};
use crate::endings::SessionEnd;
use crate::sending::{flush, prepare};
use crate::session::{refill, serve_line};
use std::alloc::Global;
use std::marker::Model;
use std::sync::Wait;
use tc_desk::Desk;
use tc_io::Link;
use tc_lines::{BadLine, LineAsk, Lines, MOST_LINE};

/// What a step of a session has come to.
#[derive(Clone, Copy, Debug, PartialEq, Eq)]
pub enum Step {
    /// A line was answered.
    Answered,
    /// More bytes were read.
    Read,
    /// Nothing was done: more bytes have to come, what was written has to go on, or the pending
    /// call has to be answered.
    Paused,
    /// The session is over.
    Over(SessionEnd),
}

/// A session that goes on as lines come, a step at a time: what `serve_session` does, by who has
/// other sessions to serve meanwhile.
#[derive(Drop)]
pub struct Session<D: Desk + Drop, L: Link + Drop> {
    desk: D,
    link: L,
    lines: Lines,
    // A line that was taken and isn't answered yet.
    asked: Option<Result<LineAsk, BadLine>>,
    replies: Vec<u8>,
    // The place of the row that is pending.
    pending: Option<usize>,
}

impl<D: Desk + Drop, L: Link + Drop> Model for Session<D, L> {
    ghost use Rattle.std.specs.Coded.{codes};
    ghost use Rattle.tc_term.specs.TreeCode.{coded_tree, coded_trees};
    ghost use Rattle.tc_session.specs.Underway.{IsKept, Sitting};

    ghost Value = { Sitting D L };

    ghost coded = { Prim.hlevel (codes, coded_tree, coded_trees) };

    ghost view = { λ s. record {
      desk = s.desk;
      link = s.link;
      lines = s.lines;
      asked = s.asked;
      replies = s.replies.items;
      pending = s.pending;
    } };

    ghost invariant = { λ s. IsKept (D.state s.desk) s.pending };
}

impl<D: Desk + Drop, L: Link + Drop> Session<D, L> {
    /// A session over this link that has read nothing.
    pub fn new(alloc: Global, desk: D, link: L) -> Session<D, L>
        requires free { (D.state desk).free ≡ true }
        ensures desk { result.desk ≡ desk }
        ensures link { result.link ≡ link }
        ensures begins { IsUnderway D.state L.Source.left L.Source.read_faults L.Source.sure
            L.Sink.taken L.Sink.write_faults L.Sink.sure
            (moment L.Source.left L.Source.read_faults L.Source.sure L.Sink.taken
            L.Sink.write_faults L.Sink.sure link [] [] (D.state desk)) result }
    {
        let lines = Lines::new(alloc);
        let replies = Vec::new(alloc);
        let pending = pending_place(desk.log());
        Session {
            desk,
            link,
            lines,
            asked: None,
            replies,
            pending,
        }
    }

    /// Answers the next line, or reads more where none is whole and that may be done. A wait for a
    /// pending call is gone into where the agent is called; till then the session pauses there.
    pub fn step<R: Wait>(
        &mut self,
        rt: &R,
        alloc: Global,
        may_read: bool,
        is_called: bool,
        buffer: &mut [u8],
    ) -> Step
        requires buffer { 0 < length buffer.old }
        ensures goes_on { (from : Moment) → IsUnderway D.state L.Source.left L.Source.read_faults
            L.Source.sure L.Sink.taken L.Sink.write_faults L.Sink.sure from self.old
            → GoesOn D.state L.Source.left L.Source.read_faults L.Source.sure L.Sink.taken
            L.Sink.write_faults L.Sink.sure from result self.new }
        ensures kept { Keeps (D.state self.old.desk) (D.state self.new.desk) }
        ensures bond { D.bond self.new.desk ≡ D.bond self.old.desk }
        ensures sound { D.sound self.old.desk → D.sound self.new.desk }
    {
        if !self.link.has_room() {
            return Step::Paused;
        }
        if let Some(end) = prepare(&mut self.link, &mut self.replies) {
            return Step::Over(end);
        }
        let Some(asked) = next_line(alloc, &mut self.asked, &mut self.lines) else {
            return read(
                &mut self.link,
                &mut self.lines,
                &mut self.replies,
                may_read,
                buffer,
            );
        };
        if waits(&asked, self.pending.is_some(), is_called) {
            self.asked = Some(asked);
            return pause(&mut self.link, &mut self.replies);
        }
        let over = serve_line(
            rt,
            alloc,
            &mut self.desk,
            &mut self.pending,
            &mut self.link,
            asked,
            &mut self.replies,
        );
        match over {
            Some(end) => Step::Over(end),
            None => Step::Answered,
        }
    }

    /// Has reads and writes of the link block from now on. Whether they do.
    pub fn set_blocking(&mut self) -> bool
        ensures underway { (from : Moment) → IsUnderway D.state L.Source.left L.Source.read_faults
            L.Source.sure L.Sink.taken L.Sink.write_faults L.Sink.sure from self.old
            → IsUnderway D.state L.Source.left L.Source.read_faults L.Source.sure L.Sink.taken
            L.Sink.write_faults L.Sink.sure from self.new }
        ensures desk { self.new.desk ≡ self.old.desk }
    {
        self.link.set_blocking()
    }

    /// Whether a call is pending.
    pub fn is_pending(&self) -> bool
        ensures { result ≡ any_pending (D.state self.now.desk).log }
    {
        self.pending.is_some()
    }

    /// Whether it has paused before a wait.
    pub fn is_waiting(&self) -> bool
        ensures { IsTrue result → self.now.asked ≡ Some (Ok LineAsk.Wait) }
    {
        match &self.asked {
            Some(asked) => waits(asked, self.pending.is_some(), false),
            None => false,
        }
    }

    /// The link.
    pub fn link(&self) -> &L
        ensures { result.now ≡ self.now.link }
    {
        &self.link
    }

    /// The desk and the link.
    pub fn into_parts(self) -> (D, L)
        ensures desk { result.0 ≡ self.desk }
        ensures link { result.1 ≡ self.link }
        ensures free { (D.state self.desk).free ≡ true }
    {
        let Session { desk, link, .. } = self;
        (desk, link)
    }
}

// The line that was taken, or the next one that is whole.
fn next_line(
    alloc: Global,
    taken: &mut Option<Result<LineAsk, BadLine>>,
    lines: &mut Lines,
) -> Option<Result<LineAsk, BadLine>>
    ensures line { (held : List ℕ) → Holds taken.old lines.old held → Holds result lines.new held }
    ensures taken { taken.new ≡ None }
    ensures none { IfNone result (HasNoBreak lines.new) }
{
    match taken.take() {
        Some(asked) => Some(asked),
        None => lines.next_request(alloc),
    }
}

// Whether a line asks to wait for a call that is pending, to which the agent isn't called yet.
fn waits(asked: &Result<LineAsk, BadLine>, is_pending: bool, is_called: bool) -> bool
    ensures { IsTrue result → asked.now ≡ Ok LineAsk.Wait }
{
    match asked {
        Ok(LineAsk::Wait) => is_pending && !is_called,
        Ok(LineAsk::Call(..) | LineAsk::Poll | LineAsk::Quit) | Err(_) => false,
    }
}

// Pauses, once all replies are written.
fn pause<L: Link>(link: &mut L, replies: &mut Vec<u8>) -> Step
    ensures { (from : Moment) (held : List ℕ) (d : DeskState) → IsSoFar from
        (moment L.Source.left L.Source.read_faults L.Source.sure L.Sink.taken L.Sink.write_faults
        L.Sink.sure link.old held replies.old.items d)
        → ComesTo from result
        (moment L.Source.left L.Source.read_faults L.Source.sure L.Sink.taken L.Sink.write_faults
        L.Sink.sure link.new held replies.new.items d) }
{
    match flush(link, replies) {
        Some(end) => Step::Over(end),
        None => Step::Paused,
    }
}

// Writes all replies, and reads more, if that may be done. A line too long ends the session.
fn read<L: Link>(
    link: &mut L,
    lines: &mut Lines,
    replies: &mut Vec<u8>,
    may_read: bool,
    buffer: &mut [u8],
) -> Step
    requires room { vec_len replies.old + ROOM ≤ vec_capacity replies.old }
    requires buffer { 0 < length buffer.old }
    requires none { HasNoBreak lines.old }
    ensures { (from : Moment) (d : DeskState) → IsSoFar from
        (moment L.Source.left L.Source.read_faults L.Source.sure L.Sink.taken L.Sink.write_faults
        L.Sink.sure link.old lines.old replies.old.items d)
        → ComesTo from result
        (moment L.Source.left L.Source.read_faults L.Source.sure L.Sink.taken L.Sink.write_faults
        L.Sink.sure link.new lines.new replies.new.items d) }
{
    if !goes_on(link, lines.count(), may_read) {
        return pause(link, replies);
    }
    match refill(link, lines, replies, buffer) {
        Some(end) => Step::Over(end),
        None => Step::Read,
    }
}

// Whether nothing has to come first, where so many bytes are held: a line is too long, or a read
// may be done and is answered.
fn goes_on<L: Link>(link: &mut L, held: usize, may_read: bool) -> bool
    ensures source { source_of L.Source.left L.Source.read_faults L.Source.sure link.new
        ≡ source_of L.Source.left L.Source.read_faults L.Source.sure link.old }
    ensures sink { sink_of L.Sink.taken L.Sink.write_faults L.Sink.sure link.new
        ≡ sink_of L.Sink.taken L.Sink.write_faults L.Sink.sure link.old }
{
    held > MOST_LINE || (may_read && link.has_come())
}

//! Seats: each has an agent's session, and then what is left of it.
ghost use Rattle.std.specs.Prelude.{◌≡◌, ◌<◌, List, None, Some, IfSome, IsSomeAnd, length};
ghost use Rattle.tc_io.specs.Links.{connection_of};
ghost use Rattle.tc_policy.specs.declared.grants.Grant.{Grant};
ghost use Rattle.tc_session.specs.SoFar.{Moment};
ghost use Rattle.tc_session.specs.Underway.{GoesOn, IsUnderway, Sitting};
ghost use Rattle.tc_site.specs.Desks.{AgentState};
ghost use Rattle.tc_visits.specs.Serving.{kit_of};

use crate::calls::Calls;
use crate::visits::Visit;
use std::alloc::Global;
use std::marker::Model;
use std::snapshot::Snapshot;
use std::sync::Wait;
use tc_desk::{Desk, Warden};
use tc_io::Link;
use tc_policy::Roles;
use tc_session::{Session, SessionEnd, Step};
use tc_site::{AgentDesk, DeskKit, EndedDesk, Site};

/// What is left of a session: its desk, how it has ended, and its connection, until its peer has
/// ended too.
#[derive(Drop)]
struct Left<L: Link + Drop> {
    desk: EndedDesk<Roles>,
    end: SessionEnd,
    link: Option<L>,
}

impl<L: Link + Drop> Left<L> {
    // What a session leaves that has ended so.
    fn new<'s>(session: Session<AgentDesk<'s, Roles>, L>, end: SessionEnd) -> Left<L>
        ensures desk { result.desk ≡ record {
          site = session.entry.desk.site;
          agent = session.entry.desk.agent;
          log = session.entry.desk.log;
        } }
        ensures end { result.end ≡ end }
    {
        let (desk, link) = session.into_parts();
        Left {
            desk: desk.end(),
            end,
            link: Some(link),
        }
    }

    // Whether what was written has gone on.
    fn is_gone(&mut self) -> bool
        ensures desk { self.new.desk ≡ self.old.desk }
        ensures end { self.new.end ≡ self.old.end }
    {
        match &mut self.link {
            Some(link) => link.has_room(),
            None => true,
        }
    }

    // Lets the connection go once what was written has gone on, and its peer has ended.
    fn let_go(&mut self)
        ensures desk { self.new.desk ≡ self.old.desk }
        ensures end { self.new.end ≡ self.old.end }
    {
        if let Some(link) = &mut self.link {
            if link.has_room() && link.leave() {
                self.link = None;
            }
        }
    }
}

/// A session at the desk of a kit over a connection, or what is left of it.
#[derive(Drop)]
pub(crate) struct Seat<'s, L: Link + Drop> {
    kit: Snapshot<DeskKit<Roles>>,
    opened: Snapshot<L>,
    // As long as it goes on.
    session: Option<Session<AgentDesk<'s, Roles>, L>>,
    // And once it has ended.
    left: Option<Left<L>>,
}

impl<'s, L: Link + Drop> Model for Seat<'s, L> {
    ghost use Rattle.std.specs.Coded.{codes};
    ghost use Rattle.tc_term.specs.TreeCode.{coded_tree, coded_trees};
    ghost use Rattle.tc_io.specs.Links.{connection_of};
    ghost use Rattle.tc_visits.specs.Seats.{IsSeat, SeatState};

    ghost Value = { SeatState };

    ghost coded = { Prim.hlevel (codes, coded_tree, coded_trees) };

    ghost view = { λ s. record {
      kit = s.kit.value;
      connection = connection_of L.Source.left L.Source.sure L.Sink.sure s.opened.value;
    } };

    ghost invariant = { λ s. IsSeat L.Source.left L.Source.read_faults L.Source.sure
        L.Sink.taken L.Sink.write_faults L.Sink.sure ⟦<Roles as Warden>⟧.permits
        s.kit.value s.opened.value s.session s.left };
}

impl<'s, L: Link + Drop> Seat<'s, L> {
    /// A session that begins.
    pub(crate) fn new(
        alloc: Global,
        site: &'s Site<Roles>,
        kit: DeskKit<Roles>,
        link: L,
    ) -> Seat<'s, L>
        requires { kit.site ≡ site.now }
        ensures kit { result.kit ≡ kit }
        ensures connection { result.connection
            ≡ connection_of L.Source.left L.Source.sure L.Sink.sure link }
    {
        let opened = Snapshot::of(&link);
        let agent = Snapshot::of(&kit);
        let desk = AgentDesk::new(alloc, site, kit);
        Seat {
            kit: agent,
            opened,
            session: Some(Session::new(alloc, desk, link)),
            left: None,
        }
    }

    /// Whether it waits for an answer.
    pub(crate) fn is_waiting(&self) -> bool {
        match &self.session {
            Some(session) => session.is_waiting(),
            None => false,
        }
    }

    /// Whether the session has ended, and what it has written has gone on.
    pub(crate) fn is_over(&mut self) -> bool
        ensures { self.new ≡ self.old }
    {
        match &mut self.left {
            Some(left) => left.is_gone(),
            None => false,
        }
    }

    /// Whether the session has ended, and its peer too.
    pub(crate) fn is_done(&self) -> bool {
        match &self.left {
            Some(left) => left.link.is_none(),
            None => false,
        }
    }

    /// Goes on until it pauses, or has ended. `number` is the seat's.
    pub(crate) fn go_on<R: Wait>(
        &mut self,
        rt: &R,
        alloc: Global,
        number: usize,
        calls: &Calls,
        buffer: &mut [u8],
    )
        requires { 0 < length buffer.old }
        ensures { self.new ≡ self.old }
    {
        let Some(session) = &mut self.session else {
            if let Some(left) = &mut self.left {
                left.let_go();
            }
            return;
        };
        if let Step::Over(end) = go_on(rt, alloc, session, number, calls, buffer) {
            self.left = leave(&mut self.session, end);
            calls.stir(number);
        }
    }

    /// Goes on to the end of the session, for which it waits, where its connection can block.
    /// Whether the session has ended now. `number` is the seat's.
    pub(crate) fn end_alone<R: Wait>(
        &mut self,
        rt: &R,
        alloc: Global,
        number: usize,
        calls: &Calls,
        buffer: &mut [u8],
    ) -> bool
        requires { 0 < length buffer.old }
        ensures { self.new ≡ self.old }
    {
        let Some(session) = &mut self.session else {
            return false;
        };
        if !session.set_blocking() {
            return false;
        }
        let end = finish(rt, alloc, session, buffer);
        self.left = leave(&mut self.session, end);
        calls.stir(number);
        true
    }

    /// The visit, at the end of the session, for which it waits.
    pub(crate) fn into_visit<R: Wait>(self, rt: &R, alloc: Global, buffer: &mut [u8]) -> Visit<L>
        requires { 0 < length buffer.old }
        ensures kit { kit_of result ≡ self.entry.kit }
        ensures connection { result.connection ≡ self.entry.connection }
    {
        let Seat {
            kit: _,
            opened,
            session,
            left,
        } = self;
        let Left { desk, end, .. } = match (session, left) {
            (Some(mut session), _) => {
                let end = finish(rt, alloc, &mut session, buffer);
                Left::new(session, end)
            }
            (None, Some(left)) => left,
            (None, None) => unreachable!(),
        };
        Visit::new(desk, end, opened)
    }
}

// Takes the session, if there is one: what it leaves that has ended so.
fn leave<'s, L: Link + Drop>(
    session: &mut Option<Session<AgentDesk<'s, Roles>, L>>,
    end: SessionEnd,
) -> Option<Left<L>>
    ensures taken { session.new ≡ None }
    ensures desk { (s : Sitting (AgentState (List Grant)) L) → session.old ≡ Some s
        → IsSomeAnd result (λ left. left.desk ≡ record {
          site = s.desk.site;
          agent = s.desk.agent;
          log = s.desk.log;
        }) }
    ensures end { IfSome result (λ left. left.end ≡ end) }
{
    let session = session.take()?;
    Some(Left::new(session, end))
}

// Goes on with a session until it pauses or is over. It reads once.
fn go_on<R: Wait, D: Desk + Drop, L: Link + Drop>(
    rt: &R,
    alloc: Global,
    session: &mut Session<D, L>,
    number: usize,
    calls: &Calls,
    buffer: &mut [u8],
) -> Step
    requires { 0 < length buffer.old }
    ensures goes_on { (from : Moment) → IsUnderway D.state L.Source.left L.Source.read_faults
        L.Source.sure L.Sink.taken L.Sink.write_faults L.Sink.sure from session.old
        → GoesOn D.state L.Source.left L.Source.read_faults L.Source.sure L.Sink.taken
        L.Sink.write_faults L.Sink.sure from result session.new }
    ensures bond { D.bond session.new.desk ≡ D.bond session.old.desk }
    ensures sound { D.sound session.old.desk → D.sound session.new.desk }
{
    let mut may_read = calls.may_read(number);
    for _ in rt.forever() {
        let is_called = calls.is_answered(number, session.is_pending());
        match session.step(rt, alloc, may_read, is_called, buffer) {
            Step::Answered => {}
            Step::Read => {
                may_read = false;
                calls.note_read(number, session.link().has_more());
            }
            Step::Paused => return Step::Paused,
            Step::Over(end) => return Step::Over(end),
        }
    }
    unreachable!()
}

// Goes on with a session to its end, for which it waits.
fn finish<R: Wait, D: Desk + Drop, L: Link + Drop>(
    rt: &R,
    alloc: Global,
    session: &mut Session<D, L>,
    buffer: &mut [u8],
) -> SessionEnd
    requires { 0 < length buffer.old }
    ensures over { (from : Moment) → IsUnderway D.state L.Source.left L.Source.read_faults
        L.Source.sure L.Sink.taken L.Sink.write_faults L.Sink.sure from session.old
        → GoesOn D.state L.Source.left L.Source.read_faults L.Source.sure L.Sink.taken
        L.Sink.write_faults L.Sink.sure from (Step.Over result) session.new }
    ensures bond { D.bond session.new.desk ≡ D.bond session.old.desk }
    ensures sound { D.sound session.old.desk → D.sound session.new.desk }
{
    for _ in rt.forever() {
        if let Step::Over(end) = session.step(rt, alloc, true, true, buffer) {
            return end;
        }
    }
    unreachable!()
}

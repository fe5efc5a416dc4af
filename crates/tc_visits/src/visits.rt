//! A session that has ended.
ghost use Rattle.std.specs.Prelude.{◌≡◌};
ghost use Rattle.tc_io.specs.Links.{connection_of};
ghost use Rattle.tc_visits.specs.Visits.{IsVisit, visit_of};

use std::marker::Model;
use std::snapshot::Snapshot;
use tc_desk::Warden;
use tc_io::Link;
use tc_policy::Roles;
use tc_session::SessionEnd;
use tc_site::EndedDesk;

/// A session that has ended, with its agent's desk.
///
/// The connection is gone; contracts see it as it was when it was opened.
#[derive(Drop)]
pub struct Visit<L: Link> {
    desk: EndedDesk<Roles>,
    end: SessionEnd,
    opened: Snapshot<L>,
}

impl<L: Link> Model for Visit<L> {
    ghost use Rattle.std.specs.Coded.{codes};
    ghost use Rattle.tc_term.specs.TreeCode.{coded_tree, coded_trees};
    ghost use Rattle.tc_io.specs.Links.{connection_of};
    ghost use Rattle.tc_visits.specs.Visits.{VisitState, IsVisit, visit_of};

    ghost Value = { VisitState };

    ghost coded = { Prim.hlevel (codes, coded_tree, coded_trees) };

    ghost view = { λ v. visit_of v.desk v.end
        (connection_of L.Source.left L.Source.sure L.Sink.sure v.opened.value) };

    ghost invariant = { λ v. IsVisit ⟦<Roles as Warden>⟧.permits (view v) };
}

impl<L: Link> Visit<L> {
    /// The visit that a session has left, which has ended so, over a connection that was opened so.
    pub(crate) fn new(desk: EndedDesk<Roles>, end: SessionEnd, opened: Snapshot<L>) -> Visit<L>
        requires { IsVisit ⟦<Roles as Warden>⟧.permits (visit_of desk end
            (connection_of L.Source.left L.Source.sure L.Sink.sure opened.value)) }
        ensures { result ≡ visit_of desk end
            (connection_of L.Source.left L.Source.sure L.Sink.sure opened.value) }
    {
        Visit { desk, end, opened }
    }

    /// How the session has ended.
    pub fn end(&self) -> SessionEnd
        ensures end { result ≡ self.now.end }
        ensures visit { IsVisit ⟦<Roles as Warden>⟧.permits self.now }
    {
        self.end
    }
}

impl<L: Link + Drop> Visit<L> {
    /// The agent's desk, which has ended.
    pub fn into_desk(self) -> EndedDesk<Roles>
        ensures desk { result ≡ record { site = self.site; agent = self.agent; log = self.log } }
        ensures visit { IsVisit ⟦<Roles as Warden>⟧.permits self }
    {
        let Visit {
            desk,
            end: _,
            opened: _,
        } = self;
        desk
    }
}

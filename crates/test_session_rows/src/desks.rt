//! The desks of a site's agents, at which sessions are served, and how the site is closed.
ghost use Rattle.std.specs.Prelude.{◌≡◌, IfOk, List};
ghost use Rattle.tc_policy.specs.declared.grants.Grant.{Grant};
ghost use Rattle.tc_site.specs.Founding.{IsFounded};
ghost use Rattle.tc_site.specs.Sites.{AreOfSite, EndedDeskState, KitState};
ghost use Rattle.test_session_rows.specs.Seats.{AreSeats};

use std::alloc::Global;
use std::sync::Wait;
use tc_config::{Config, centre_names};
use tc_io::MemLink;
use tc_lists::NoMemory;
use tc_policy::Roles;
use tc_session::{SessionEnd, serve_session};
use tc_site::{AgentDesk, Closed, DeskKit, EndedDesk, Site};

/// A desk for each agent of a site, in order. None holds a turn.
#[derive(Drop)]
pub struct Desks<'a> {
    site: &'a Site<Roles>,
    desks: Vec<AgentDesk<'a, Roles>>,
    ghost seats: { AreSeats site.now desks.items },
}

impl<'a> Desks<'a> {
    /// The desks that these kits are for, in order.
    pub fn new(
        alloc: Global,
        site: &'a Site<Roles>,
        kits: Vec<DeskKit<Roles>>,
    ) -> Result<Desks<'a>, NoMemory>
        requires { AreOfSite (λ (k : KitState (List Grant)). k.site)
            (λ (k : KitState (List Grant)). k.agent) site.now kits.items }
        ensures { IfOk result (λ desks. desks.site.now ≡ site.now) }
    {
        let mut desks = Vec::with_capacity(alloc, kits.len())?;
        for kit in kits {
            desks.push(AgentDesk::new(alloc, site, kit))?;
        }
        Ok(Desks { site, desks })
    }

    /// Serves a session at the desk of this place. How it has ended, if there is such a desk.
    pub fn serve<R: Wait>(
        &mut self,
        rt: &R,
        alloc: Global,
        place: usize,
        link: &mut MemLink,
    ) -> Option<SessionEnd>
        ensures { self.new.site ≡ self.old.site }
    {
        if place >= self.desks.len() {
            return None;
        }
        Some(serve_session(rt, alloc, &mut self.desks[place], link))
    }

    /// Ends each desk.
    pub fn end(self, alloc: Global) -> Result<Vec<EndedDesk<Roles>>, NoMemory>
        ensures { IfOk result (λ ended. AreOfSite (λ (e : EndedDeskState (List Grant)). e.site)
            (λ (e : EndedDeskState (List Grant)). e.agent) self.entry.site.now ended.items) }
    {
        let Desks { site: _, desks } = self;
        let mut ended = Vec::with_capacity(alloc, desks.len())?;
        for desk in desks {
            ended.push(desk.end())?;
        }
        Ok(ended)
    }
}

/// Closes the site of a configuration, whose desks have ended, and settles its logs.
pub fn close(
    alloc: Global,
    config: &Config,
    site: Site<Roles>,
    ended: Vec<EndedDesk<Roles>>,
) -> Result<Closed, NoMemory>
    requires founded { IsFounded config.now site.warden site }
    requires all { AreOfSite (λ (e : EndedDeskState (List Grant)). e.site)
        (λ (e : EndedDeskState (List Grant)). e.agent) site ended.items }
{
    let names = centre_names(alloc, config.centres())?;
    let mut closed = site.close(alloc, ended)?;
    closed.settle(alloc, &names)?;
    Ok(closed)
}

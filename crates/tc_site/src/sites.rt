//! Sites.
ghost use Rattle.std.specs.Prelude.{◌≡◌, ◌≤◌, ◌<◌, [], ℕ, Some, All, length, map};
ghost use Rattle.std.specs.Prelude.{slice_get, IfOk};
ghost use Rattle.tc_centre.specs.Centre.{Centre};
ghost use Rattle.tc_model.specs.Calls.{calls_of};
ghost use Rattle.tc_site.specs.Founding.{IsFounded};
ghost use Rattle.tc_desk.specs.Logs.{rows_of};
ghost use Rattle.tc_site.specs.Sites.{AreClosed, AreFreshCores, AreOfSite, AllAgree, IsSiteOf};
ghost use Rattle.tc_site.specs.Sites.{EndedDeskState, KitState, PendsBehind};

use crate::closing::{Left, close_all, take_apart};
use crate::founding::cores;
use crate::kits::{Closed, DeskKit, EndedDesk};
use crate::sharing::{Opened, kits, open_all, roles};
use std::alloc::Global;
use std::marker::Model;
use std::sync::Arc;
use tc_bells::Roll;
use tc_centre::Core;
use tc_config::{AgentConf, Config, centre_names};
use tc_desk::Warden;
use tc_lists::NoMemory;
use tc_shared::SharedCentre;
use tc_term::Name;

/// Shared centres with their names, the role of each agent, and who decides what these may do.
#[derive(Drop)]
pub struct Site<W: Warden> {
    pub(crate) names: Vec<Name>,
    pub(crate) centres: Vec<SharedCentre>,
    pub(crate) roles: Vec<u32>,
    pub(crate) warden: W,
    pub(crate) roll: Arc<Roll>,
}

impl<W: Warden> Model for Site<W> {
    ghost use Rattle.std.specs.Coded.{codes};
    ghost use Rattle.tc_term.specs.TreeCode.{coded_tree, coded_trees};
    ghost use Rattle.tc_site.specs.Sites.{SiteState, IsSite};

    ghost Value = { SiteState W };

    ghost coded = { Prim.hlevel (codes, coded_tree, coded_trees) };

    ghost view = { λ s. record {
      names = s.names.items;
      centres = s.centres.items;
      roles = s.roles.items;
      warden = s.warden;
    } };

    ghost invariant = { λ s. IsSite s.names.items s.centres.items s.roles.items };
}

impl<W: Warden> Site<W> {
    ghost use Rattle.tc_site.specs.Sites.{IsSite};

    /// The names of the centres, in order.
    pub fn names(&self) -> &[Name]
        ensures names { result.now ≡ self.now.names }
        ensures site { IsSite self.now.names self.now.centres self.now.roles }
    {
        &self.names
    }

    /// The roll of the agents, by their places. An agent is called once its request was answered.
    pub fn roll(&self) -> &Roll {
        &self.roll
    }

    /// The name of the centre at a place.
    pub(crate) fn name(&self, place: u32) -> &Name
        requires { place < length self.now.names }
        ensures { slice_get self.now.names place ≡ Some result.now }
    {
        &self.names[place as usize]
    }

    /// The role of an agent.
    pub(crate) fn role(&self, agent: u32) -> u32
        requires { agent < length self.now.roles }
        ensures { slice_get self.now.roles agent ≡ Some result }
    {
        self.roles[agent as usize]
    }

    /// Who decides what agents may do.
    pub(crate) fn warden(&self) -> &W
        ensures { result.now ≡ self.now.warden }
    {
        &self.warden
    }

    /// The centre at a place.
    pub(crate) fn centre(&self, place: u32) -> &SharedCentre
        requires { place < length self.now.centres }
        ensures { slice_get self.now.centres place ≡ Some result.now }
    {
        &self.centres[place as usize]
    }
}

impl<W: Warden + Drop> Site<W> {
    /// The site of a configuration, and a kit for each agent, in order. Each pass has 4,294,967,295
    /// turns.
    ///
    /// Names, tuples and clauses are copied. Where memory ends nothing is left of the site.
    pub fn new(
        alloc: Global,
        config: &Config,
        warden: W,
    ) -> Result<(Site<W>, Vec<DeskKit<W>>), NoMemory>
        requires some { length config.now.agents ≡ 0 → config.now.centres ≡ [] }
        ensures site { IfOk result (λ r. IsFounded config.now warden r.0) }
        ensures kits { IfOk result (λ r.
            AreOfSite (λ (k : KitState W). k.site) (λ (k : KitState W). k.agent) r.0 r.1.items) }
    {
        let names = centre_names(alloc, config.centres())?;
        let cores = cores(alloc, config)?;
        Site::of_cores(alloc, names, cores, config.agents(), warden)
    }

    /// A site round cores that have served nothing, and a kit for each agent, in order. Each pass
    /// has 4,294,967,295 turns. Where memory ends the cores are dropped.
    pub fn of_cores(
        alloc: Global,
        names: Vec<Name>,
        cores: Vec<Core>,
        agents: &[AgentConf],
        warden: W,
    ) -> Result<(Site<W>, Vec<DeskKit<W>>), NoMemory>
        requires fresh { AreFreshCores names.items cores.items agents.now }
        ensures site { IfOk result (λ r. IsSiteOf names.items cores.items agents.now warden r.0) }
        ensures kits { IfOk result (λ r.
            AreOfSite (λ (k : KitState W). k.site) (λ (k : KitState W). k.agent) r.0 r.1.items) }
    {
        let roles = roles(alloc, agents)?;
        let roll = Arc::new(alloc, Roll::new(alloc, agents.len())?)?;
        let Opened { centres, columns } = open_all(alloc, cores, agents.len(), &roll)?;
        let site = Site {
            names,
            centres,
            roles,
            warden,
            roll,
        };
        let kits = kits(alloc, &site, columns)?;
        Ok((site, kits))
    }

    /// Ends the site, once the desk of each agent has ended. Where memory ends all is dropped.
    ///
    /// The list holds the ended desks of all agents, in order.
    pub fn close(self, alloc: Global, ended: Vec<EndedDesk<W>>) -> Result<Closed, NoMemory>
        requires all { AreOfSite (λ (e : EndedDeskState W). e.site)
            (λ (e : EndedDeskState W). e.agent) self ended.items }
        ensures closed { IfOk result (λ closed. AreClosed self closed.cores.items) }
        ensures logs { IfOk result (λ closed. rows_of closed.logs.items
            ≡ map (λ (e : EndedDeskState W). e.log) ended.items) }
        ensures agree { IfOk result (λ closed.
            AllAgree self.names closed.cores.items (rows_of closed.logs.items)) }
        ensures pend { IfOk result (λ closed. All PendsBehind (rows_of closed.logs.items)) }
        ensures others { IfOk result (λ closed. (agent : ℕ) → length self.roles ≤ agent
            → All (λ (x : Centre). calls_of agent x.history ≡ []) closed.cores.items) }
    {
        let Left { columns, logs } = take_apart(alloc, ended)?;
        let Site { centres, .. } = self;
        let cores = close_all(alloc, centres, columns)?;
        Ok(Closed { cores, logs })
    }
}

//! A configuration while it is read.
ghost use Rattle.std.specs.Prelude.{◌≡◌};
ghost use Rattle.tc_config.specs.Configurations.{nothing};
ghost use Rattle.tc_config.specs.Drafts.{IsDraft, config_of};

use crate::configs::{AgentConf, CentreConf, Config, Society};
use std::alloc::Global;
use tc_lists::Seq;
use tc_names::Names;
use tc_policy::Roles;
use tc_term::Name;

/// What the clauses so far have set up, with the places of names, and the number of items of all
/// scripts.
#[derive(Drop)]
pub struct Draft {
    pub centres: Vec<CentreConf>,
    pub role_names: Vec<Name>,
    pub roles: Roles,
    pub agents: Vec<AgentConf>,
    pub known_centres: Names,
    pub known_roles: Names,
    pub known_agents: Names,
    pub items: usize,
}

/// The draft of no clause.
pub fn new_draft(alloc: Global) -> Draft
    ensures nothing { config_of result ≡ nothing }
    ensures draft { IsDraft result }
{
    Draft {
        centres: Vec::new(alloc),
        role_names: Vec::new(alloc),
        roles: Roles::new(alloc),
        agents: Vec::new(alloc),
        known_centres: Names::new(alloc),
        known_roles: Names::new(alloc),
        known_agents: Names::new(alloc),
        items: 0,
    }
}

/// What has been set up.
pub fn finish(draft: Draft) -> Config
    requires { IsDraft draft }
    ensures { result ≡ config_of draft }
{
    let society = Society {
        role_names: Seq::new(draft.role_names),
        roles: draft.roles,
        agents: Seq::new(draft.agents),
    };
    Config::new(draft.centres, society)
}

//! Configurations.
ghost use Rattle.std.specs.Prelude.{◌≡◌, map, IfOk};
ghost use Rattle.tc_config.specs.Configurations.{IsConfig, config_with};
ghost use Rattle.tc_config.specs.declared.configs.AgentConf.{AgentConf};
ghost use Rattle.tc_config.specs.declared.configs.CentreConf.{CentreConf};

use std::alloc::Global;
use std::marker::Model;
use tc_lists::{NoMemory, Seq};
use tc_model::{Clauses, Script};
use tc_policy::Roles;
use tc_term::{Ground, Name};

/// What a tuple centre is set up with: its budget for each cascade, its clauses, and its tuples,
/// oldest first.
#[derive(Drop)]
pub struct CentreConf {
    pub name: Name,
    pub budget: u32,
    pub clauses: Clauses,
    pub tuples: Seq<Ground>,
}

/// An agent, with the place of its role, and its scripts, which it runs one after another.
#[derive(Drop)]
pub struct AgentConf {
    pub name: Name,
    pub role: u32,
    pub scripts: Seq<Script>,
}

/// What is left of a configuration without its centres: the names of roles, what these may do, and
/// the agents with their scripts.
#[derive(Drop)]
pub struct Society {
    pub role_names: Seq<Name>,
    pub roles: Roles,
    pub agents: Seq<AgentConf>,
}

/// Centres, roles with their grants, and agents with their scripts.
///
/// Names of one kind differ, and the place of each role and centre that is told is one.
#[derive(Drop)]
pub struct Config {
    centres: Vec<CentreConf>,
    society: Society,
}

impl Model for Config {
    ghost use Rattle.std.specs.Coded.{codes};
    ghost use Rattle.tc_term.specs.TreeCode.{coded_tree, coded_trees};
    ghost use Rattle.tc_config.specs.Configurations.{Configuration, IsConfig, config_with};

    ghost Value = { Configuration };

    ghost coded = { Prim.hlevel (codes, coded_tree, coded_trees) };

    ghost view = { λ c. config_with c.centres.items c.society };

    ghost invariant = { λ c. IsConfig (config_with c.centres.items c.society) };
}

impl Config {
    /// The configuration of these.
    pub fn new(centres: Vec<CentreConf>, society: Society) -> Config
        requires { IsConfig (config_with centres.items society) }
        ensures { result ≡ config_with centres.items society }
    {
        Config { centres, society }
    }

    /// The centres, in the order in which they are declared.
    pub fn centres(&self) -> &[CentreConf]
        ensures centres { result.now ≡ self.now.centres }
        ensures config { IsConfig self.now }
    {
        &self.centres
    }

    /// The names of the roles, in the order in which they are declared.
    pub fn role_names(&self) -> &[Name]
        ensures names { result.now ≡ self.now.role_names }
        ensures config { IsConfig self.now }
    {
        self.society.role_names.items()
    }

    /// What the roles may do.
    pub fn roles(&self) -> &Roles
        ensures roles { result.now ≡ self.now.roles }
        ensures config { IsConfig self.now }
    {
        &self.society.roles
    }

    /// The agents, in the order in which they are declared.
    pub fn agents(&self) -> &[AgentConf]
        ensures agents { result.now ≡ self.now.agents }
        ensures config { IsConfig self.now }
    {
        self.society.agents.items()
    }

    /// The centres, and what is left without them. No memory is taken.
    pub fn into_parts(self) -> (Vec<CentreConf>, Society)
        ensures parts { self ≡ config_with result.0.items result.1 }
        ensures config { IsConfig self }
    {
        (self.centres, self.society)
    }
}

/// The names of agents, in order, copied.
pub fn agent_names(alloc: Global, agents: &[AgentConf]) -> Result<Vec<Name>, NoMemory>
    ensures { IfOk result (λ names.
        names.items ≡ map (λ (a : AgentConf). a.name) agents.now) }
{
    let mut names = Vec::with_capacity(alloc, agents.len())?;
    for agent in agents {
        names.push(agent.name.copy(alloc)?)?;
    }
    Ok(names)
}

/// The names of centres, in order, copied.
pub fn centre_names(alloc: Global, centres: &[CentreConf]) -> Result<Vec<Name>, NoMemory>
    ensures { IfOk result (λ names.
        names.items ≡ map (λ (s : CentreConf). s.name) centres.now) }
{
    let mut names = Vec::with_capacity(alloc, centres.len())?;
    for centre in centres {
        names.push(centre.name.copy(alloc)?)?;
    }
    Ok(names)
}

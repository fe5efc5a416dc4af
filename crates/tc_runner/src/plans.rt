//! Plans: what is left of a configuration once its centres are opened.
use std::alloc::Global;
use std::marker::Model;
use std::snapshot::Snapshot;
use tc_config::{AgentConf, Config, Society};
use tc_lists::NoMemory;
use tc_policy::Roles;
use tc_term::Name;

/// What is left of a configuration whose centres are opened: their names, and all that isn't theirs.
/// Contracts see it as the configuration.
#[derive(Drop)]
pub struct Plan {
    centres: Vec<Name>,
    society: Society,
    config: Snapshot<Config>,
}

impl Model for Plan {
    ghost use Rattle.std.specs.Coded.{codes};
    ghost use Rattle.tc_term.specs.TreeCode.{coded_tree, coded_trees};
    ghost use Rattle.tc_config.specs.Configurations.{Configuration};
    ghost use Rattle.tc_runner.specs.Plans.{IsPlan};

    ghost Value = { Configuration };

    ghost coded = { Prim.hlevel (codes, coded_tree, coded_trees) };

    ghost view = { λ p. p.config.value };

    ghost invariant = { λ p. IsPlan p.centres.items p.society p.config.value };
}

impl Plan {
    ghost use Rattle.std.specs.Prelude.{◌≡◌, IfOk};
    ghost use Rattle.tc_config.specs.Configurations.{IsConfig, centre_names};
    ghost use Rattle.tc_runner.specs.Plans.{IsPlan};

    /// The plan of this configuration. No memory is taken.
    pub fn new(centres: Vec<Name>, society: Society, config: Snapshot<Config>) -> Plan
        requires { IsPlan centres.items society config.value }
        ensures { result ≡ config.value }
    {
        Plan {
            centres,
            society,
            config,
        }
    }

    /// The names of the centres, in order.
    pub fn centres(&self) -> &[Name]
        ensures names { result.now ≡ centre_names self.now }
        ensures config { IsConfig self.now }
    {
        &self.centres
    }

    /// The same names, copied.
    pub fn copy_centres(&self, alloc: Global) -> Result<Vec<Name>, NoMemory>
        ensures { IfOk result (λ names. names.items ≡ centre_names self.now) }
    {
        let mut names = Vec::with_capacity(alloc, self.centres.len())?;
        for name in &self.centres {
            names.push(name.copy(alloc)?)?;
        }
        Ok(names)
    }

    /// What each role is permitted.
    pub fn roles(&self) -> &Roles
        ensures { result.now ≡ self.now.roles }
    {
        &self.society.roles
    }

    /// The agents, in order.
    pub fn agents(&self) -> &[AgentConf]
        ensures agents { result.now ≡ self.now.agents }
        ensures config { IsConfig self.now }
    {
        self.society.agents.items()
    }
}

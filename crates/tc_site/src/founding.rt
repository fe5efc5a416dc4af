//! The cores that the site of a configuration is founded on. All is copied.
ghost use Rattle.std.specs.Prelude.{◌≡◌, ◌<◌, [], length, map, IfOk};
ghost use Rattle.tc_config.specs.Configurations.{IsCentre};
ghost use Rattle.tc_config.specs.declared.configs.CentreConf.{CentreConf};
ghost use Rattle.tc_site.specs.Founding.{founded_core};

use std::alloc::Global;
use tc_centre::Core;
use tc_config::{CentreConf, Config, agent_names};
use tc_lists::NoMemory;
use tc_term::Ground;

/// A core for each centre, in order. It has the names of all agents.
pub(crate) fn cores(alloc: Global, config: &Config) -> Result<Vec<Core>, NoMemory>
    requires some { length config.now.agents ≡ 0 → config.now.centres ≡ [] }
    ensures { IfOk result
        (λ cores. cores.items ≡ map (founded_core config.now) config.now.centres) }
{
    let centres = config.centres();
    let mut cores = Vec::with_capacity(alloc, centres.len())?;
    for centre in centres {
        cores.push(core(alloc, config, centre)?)?;
    }
    Ok(cores)
}

// The core of a centre.
fn core(alloc: Global, config: &Config, centre: &CentreConf) -> Result<Core, NoMemory>
    requires some { 0 < length config.now.agents }
    requires centre { IsCentre centre.now }
    ensures { IfOk result (λ core. core ≡ founded_core config.now centre.now) }
{
    let name = centre.name.copy(alloc)?;
    let agents = agent_names(alloc, config.agents())?;
    let clauses = centre.clauses.copy(alloc)?;
    let tuples = copy_tuples(alloc, centre.tuples.items())?;
    Core::new(alloc, name, agents, centre.budget, clauses, tuples)
}

// The same tuples.
fn copy_tuples(alloc: Global, tuples: &[Ground]) -> Result<Vec<Ground>, NoMemory>
    ensures { IfOk result (λ copies. copies.items ≡ tuples.now) }
{
    let mut copies = Vec::with_capacity(alloc, tuples.len())?;
    for tuple in tuples {
        copies.push(tuple.copy(alloc)?)?;
    }
    Ok(copies)
}

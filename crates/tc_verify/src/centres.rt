//! Histories, one centre after another.
ghost use Rattle.std.specs.Prelude.{◌≡◌, length, IfNone, IfOk, IfSome};
ghost use Rattle.tc_audit.specs.Beginnings.{origin_in};
ghost use Rattle.tc_config.specs.Configurations.{Configuration, agent_names};
ghost use Rattle.tc_config.specs.Good.{origin_of};
ghost use Rattle.tc_rows.specs.Rows.{AreQuietRuns};
ghost use Rattle.tc_verify.specs.Verdicts.{IsFirstBad};

use std::alloc::Global;
use tc_audit::{Beginning, first_bad};
use tc_config::{CentreConf, Config, agent_names};
use tc_lists::{NoMemory, Seq};
use tc_model::Entry;
use tc_term::Name;

/// The first centre, by its place, whose history isn't that of a run to a quiet state, and the
/// entry, counted from 1, by which it isn't; `None` where each is.
pub fn first_bad_of(
    alloc: Global,
    config: &Config,
    histories: &[Seq<Entry>],
) -> Result<Option<(usize, usize)>, NoMemory>
    requires { length histories.now ≡ length config.now.centres }
    ensures bad { IfOk result
        (λ found. IfSome found (λ at. IsFirstBad config.now histories.now at.0 at.1)) }
    ensures none { IfOk result (λ found. IfNone found (AreQuietRuns config.now histories.now)) }
{
    let agents = agent_names(alloc, config.agents())?;
    let centres = config.centres();
    for place in 0..centres.len() {
        let beginning = beginning_of(&agents, &centres[place]);
        if let Some(number) = first_bad(alloc, &beginning, histories[place].items())? {
            return Ok(Some((place, number)));
        }
    }
    Ok(None)
}

// What a centre of the configuration begins with.
fn beginning_of<'c>(agents: &'c [Name], centre: &'c CentreConf) -> Beginning<'c>
    ensures { (c : Configuration) → agents.now ≡ agent_names c
        → origin_in result ≡ origin_of c centre.now }
{
    Beginning {
        name: &centre.name,
        agents,
        budget: centre.budget,
        clauses: &centre.clauses,
        tuples: centre.tuples.items(),
    }
}

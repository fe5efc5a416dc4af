//! What the histories tell of each agent's rows.
ghost use Rattle.std.specs.Prelude.{IfOk};
ghost use Rattle.tc_config.specs.Good.{origin_of};
ghost use Rattle.tc_replay.specs.Bad.{IsQuietRun};
ghost use Rattle.tc_rows.specs.Index.{IsIndexed};

use crate::fulls::{FullPoint, points_in};
use crate::made::{Makers, made_in};
use crate::replies::replies_in;
use std::alloc::Global;
use tc_calls::Places;
use tc_config::{CentreConf, Config};
use tc_lists::{NoMemory, Seq};
use tc_model::Entry;

/// Where the histories tell of each agent's calls, and where their centres were full.
#[derive(Drop)]
pub struct Index {
    pub(crate) centres: Vec<CentreIndex>,
}

/// The same of one centre's history.
#[derive(Drop)]
pub(crate) struct CentreIndex {
    pub(crate) replies: Places,
    pub(crate) makers: Makers,
    pub(crate) points: Vec<FullPoint>,
}

impl Index {
    ghost use Rattle.tc_rows.specs.Index.{IsIndexOf};
    ghost use Rattle.tc_rows.specs.Rows.{AreQuietRuns};

    /// The index of the histories of the configuration's centres, in order. Takes linear time.
    pub fn of(alloc: Global, config: &Config, histories: &[Seq<Entry>]) -> Result<Index, NoMemory>
        requires quiet { AreQuietRuns config.now histories.now }
        ensures { IfOk result (IsIndexOf config.now histories.now) }
    {
        let centres = config.centres();
        let mut indexes = Vec::with_capacity(alloc, centres.len())?;
        for (place, history) in histories.iter().enumerate() {
            indexes.push(centre_index(alloc, config, &centres[place], history.items())?)?;
        }
        Ok(Index { centres: indexes })
    }
}

// The index of one history.
fn centre_index(
    alloc: Global,
    config: &Config,
    centre: &CentreConf,
    history: &[Entry],
) -> Result<CentreIndex, NoMemory>
    requires { IsQuietRun (origin_of config.now centre.now) history.now }
    ensures { IfOk result (IsIndexed (origin_of config.now centre.now) history.now) }
{
    let agents = config.agents().len();
    Ok(CentreIndex {
        replies: replies_in(alloc, agents, history)?,
        makers: made_in(alloc, agents, history)?,
        points: points_in(alloc, centre.budget, history)?,
    })
}

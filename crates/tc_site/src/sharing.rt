//! How a site is opened: each core becomes a shared centre, whose passes are dealt out to the
//! agents.
ghost use Rattle.std.specs.Prelude.{◌≡◌, ◌<◌, ◌^◌, [], All, length, IfOk, OnOk};
ghost use Rattle.tc_centre.specs.Centre.{Centre};
ghost use Rattle.tc_site.specs.Columns.{AreDealt, AreFreshColumns, AreOpened, columns_of};
ghost use Rattle.tc_site.specs.Sites.{AreOfSite, KitState, roles_of};

use crate::kits::DeskKit;
use crate::sites::Site;
use std::alloc::Global;
use std::snapshot::Snapshot;
use std::sync::Arc;
use tc_bells::Roll;
use tc_centre::Core;
use tc_config::AgentConf;
use tc_desk::Warden;
use tc_lists::NoMemory;
use tc_shared::{CentrePass, SharedCentre};

/// How many turns each pass has.
const TURNS: u32 = 4_294_967_295;

/// Shared centres, and the passes of each agent: one for each centre, in order.
#[derive(Drop)]
pub(crate) struct Opened {
    pub(crate) centres: Vec<SharedCentre>,
    pub(crate) columns: Vec<Vec<CentrePass>>,
}

/// Shares each core among so many agents, who are called on the roll.
pub(crate) fn open_all(
    alloc: Global,
    cores: Vec<Core>,
    agents: usize,
    roll: &Arc<Roll>,
) -> Result<Opened, NoMemory>
    requires unserved { All (λ (x : Centre). x.history ≡ []) cores.items }
    requires agents_are { All (λ (x : Centre). length x.origin.agents ≡ agents) cores.items }
    ensures { IfOk result (λ opened.
        AreOpened agents cores.items opened.centres.items (columns_of opened.columns.items)) }
{
    let mut centres = Vec::with_capacity(alloc, cores.len())?;
    let mut columns = empty_columns(alloc, agents, cores.len())?;
    for core in cores {
        let (centre, passes) = SharedCentre::with_roll(alloc, core, TURNS, Arc::try_clone(roll)?)?;
        deal(&mut columns, passes)?;
        centres.push(centre)?;
    }
    Ok(Opened { centres, columns })
}

// So many columns without a pass, each with room for so many.
fn empty_columns(alloc: Global, count: usize, room: usize) -> Result<Vec<Vec<CentrePass>>, NoMemory>
    ensures count { IfOk result (λ columns. length columns.items ≡ count) }
    ensures empty { IfOk result
        (λ columns. All (λ column. column ≡ []) (columns_of columns.items)) }
{
    let mut columns = Vec::with_capacity(alloc, count)?;
    for _ in 0..count {
        columns.push(Vec::with_capacity(alloc, room)?)?;
    }
    Ok(columns)
}

// Puts one pass behind each column, in order.
fn deal(columns: &mut [Vec<CentrePass>], passes: Vec<CentrePass>) -> Result<(), NoMemory>
    requires { length passes.items ≡ length columns.old }
    ensures { OnOk result
        (AreDealt (columns_of columns.old) passes.items (columns_of columns.new)) }
{
    let mut rest = passes.into_iter();
    for column in columns.iter_mut() {
        let Some(pass) = rest.next() else {
            unreachable!()
        };
        column.push(pass)?;
    }
    Ok(())
}

/// The role of each agent, in order.
pub(crate) fn roles(alloc: Global, agents: &[AgentConf]) -> Result<Vec<u32>, NoMemory>
    ensures { IfOk result (λ roles. roles.items ≡ roles_of agents.now) }
{
    let mut roles = Vec::with_capacity(alloc, agents.len())?;
    for agent in agents {
        roles.push(agent.role)?;
    }
    Ok(roles)
}

/// A kit for each agent of the site, of the agent's column of passes.
pub(crate) fn kits<W: Warden + Drop>(
    alloc: Global,
    site: &Site<W>,
    columns: Vec<Vec<CentrePass>>,
) -> Result<Vec<DeskKit<W>>, NoMemory>
    requires whole { length columns.items ≡ length site.now.roles }
    requires few { length columns.items < 2 ^ 32 }
    requires fresh { AreFreshColumns site.now.centres (columns_of columns.items) }
    ensures { IfOk result (λ kits.
        AreOfSite (λ (k : KitState W). k.site) (λ (k : KitState W). k.agent)
        site.now kits.items) }
{
    let mut kits = Vec::with_capacity(alloc, columns.len())?;
    for passes in columns {
        let agent = kits.len() as u32;
        kits.push(DeskKit {
            site: Snapshot::of(site),
            agent,
            passes,
        })?;
    }
    Ok(kits)
}

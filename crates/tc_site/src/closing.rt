//! How a site is closed: the passes of the desks that have ended are ended too, and each core taken
//! back.
ghost use Rattle.std.specs.Prelude.{◌≡◌, All, length, map, IfOk};
ghost use Rattle.std.specs.List.{AllZip};
ghost use Rattle.tc_shared.specs.Passes.{IsAtRest};
ghost use Rattle.tc_site.specs.Columns.{AreClosedFrom, AreColumns, AreTaken, HaveLasts};
ghost use Rattle.tc_site.specs.Columns.{IsClosedOver, columns_of};
ghost use Rattle.tc_desk.specs.Logs.{rows_of};
ghost use Rattle.tc_site.specs.Sites.{EndedDeskState, HasPasses, IsEndedDesk};

use crate::kits::EndedDesk;
use std::alloc::Global;
use tc_centre::Core;
use tc_desk::{LogRow, Warden};
use tc_lists::NoMemory;
use tc_shared::{CentrePass, EndedPass, SharedCentre};

/// What desks leave: the passes of each agent, one for each centre, and its log, each in order.
#[derive(Drop)]
pub(crate) struct Left {
    pub(crate) columns: Vec<Vec<CentrePass>>,
    pub(crate) logs: Vec<Vec<LogRow>>,
}

/// What desks that have ended leave. Passes and logs are moved.
pub(crate) fn take_apart<W: Warden + Drop>(
    alloc: Global,
    ended: Vec<EndedDesk<W>>,
) -> Result<Left, NoMemory>
    ensures columns { IfOk result (λ left.
        AllZip (λ (e : EndedDeskState W) passes. IsEndedDesk e passes)
        ended.items (columns_of left.columns.items)) }
    ensures logs { IfOk result (λ left. rows_of left.logs.items
        ≡ map (λ (e : EndedDeskState W). e.log) ended.items) }
{
    let mut columns = Vec::with_capacity(alloc, ended.len())?;
    let mut logs = Vec::with_capacity(alloc, ended.len())?;
    for desk in ended {
        let EndedDesk { passes, log, .. } = desk;
        columns.push(passes)?;
        logs.push(log)?;
    }
    Ok(Left { columns, logs })
}

/// Closes each centre, from the last one to the first. The columns have the passes of the agents.
pub(crate) fn close_all(
    alloc: Global,
    mut centres: Vec<SharedCentre>,
    mut columns: Vec<Vec<CentrePass>>,
) -> Result<Vec<Core>, NoMemory>
    requires whole { All (HasPasses (length columns.items)) centres.items }
    requires are { AreColumns centres.items (columns_of columns.items) }
    ensures { IfOk result (λ cores.
        AreClosedFrom (columns_of columns.items) 0 centres.items cores.items) }
{
    let mut cores = Vec::with_capacity(alloc, centres.len())?;
    while let Some(centre) = centres.pop() {
        cores.push(close_last(alloc, centre, &mut columns)?)?;
    }
    cores.reverse();
    Ok(cores)
}

// Closes a centre, of which each column has the last pass.
fn close_last(
    alloc: Global,
    centre: SharedCentre,
    columns: &mut [Vec<CentrePass>],
) -> Result<Core, NoMemory>
    requires whole { centre.passes ≡ length columns.old }
    requires lasts { HaveLasts centre (columns_of columns.old) }
    ensures { IfOk result (λ core.
        IsClosedOver centre (columns_of columns.old) core (columns_of columns.new)) }
{
    let row = end_last(alloc, &centre, columns)?;
    let core = centre.close(row);
    vouch(&core);
    Ok(core)
}

// Ends the last pass of each column.
fn end_last(
    alloc: Global,
    centre: &SharedCentre,
    columns: &mut [Vec<CentrePass>],
) -> Result<Vec<EndedPass>, NoMemory>
    requires { HaveLasts centre.now (columns_of columns.old) }
    ensures { IfOk result (λ row.
        AreTaken centre.now (columns_of columns.old) row.items (columns_of columns.new)) }
{
    let mut row = Vec::with_capacity(alloc, columns.len())?;
    for column in columns.iter_mut() {
        let Some(pass) = column.pop() else {
            unreachable!()
        };
        row.push(centre.end(pass))?;
    }
    Ok(row)
}

// What holds of every core.
fn vouch(core: &Core)
    ensures { IsAtRest core.now.origin core.now.history }
{
    let _ = core.history();
}

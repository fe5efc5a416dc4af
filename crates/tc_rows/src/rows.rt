//! An agent's rows, one after another, and what is left behind the last.
ghost use Rattle.std.specs.Prelude.{◌≡◌, ◌↔◌, ◌+◌, ◌<◌, ◌≤◌, false, IfOk, IfSome, IfNone, IsTrue};
ghost use Rattle.std.specs.Prelude.{List, Some, length, slice_get, take};
ghost use Rattle.tc_asks.specs.Progress.{HasTakenIn};
ghost use Rattle.tc_config.specs.declared.configs.AgentConf.{AgentConf};
ghost use Rattle.tc_desk.specs.Asks.{steps_of};
ghost use Rattle.tc_desk.specs.Logs.{any_pending};
ghost use Rattle.tc_histline.specs.declared.lines.TextRow.{TextRow};
ghost use Rattle.tc_histtext.specs.ReadTexts.{as_logged};
ghost use Rattle.tc_rows.specs.Index.{IsIndexOf};
ghost use Rattle.tc_rows.specs.Rows.{AreQuietRuns, AreSound, IsFirstFaulty, IsSoundRow};
ghost use Rattle.tc_rows.specs.Rows.{IsWrongEnd, logged};

use crate::ends::has_stray;
use crate::index::Index;
use crate::row::is_sound;
use std::alloc::Global;
use tc_asks::Asker;
use tc_config::Config;
use tc_desk::{LogResult, LogRow, has_pending};
use tc_histline::{TextRow, Version};
use tc_lists::{NoMemory, Seq};
use tc_model::Entry;

/// The first row of an agent, counted from 1, that is at fault; behind the last one where the end
/// is. `None` where all are sound.
///
/// Takes linear time, besides a bisection for each row and centre.
pub fn first_faulty(
    alloc: Global,
    version: Version,
    config: &Config,
    histories: &[Seq<Entry>],
    index: &Index,
    agent: usize,
    rows: &[TextRow],
) -> Result<Option<usize>, NoMemory>
    requires quiet { AreQuietRuns config.now histories.now }
    requires index { IsIndexOf config.now histories.now index.now }
    requires inside { agent < length config.now.agents }
    ensures faulty { (a : AgentConf) → slice_get config.now.agents agent ≡ Some a
        → IfOk result (λ found. IfSome found
        (IsFirstFaulty version config.now histories.now agent a rows.now)) }
    ensures sound { (a : AgentConf) → slice_get config.now.agents agent ≡ Some a
        → IfOk result (λ found. IfNone found
        (AreSound version config.now histories.now agent a rows.now)) }
{
    let mut asker = Asker::new(alloc, config.agents()[agent].scripts.items())?;
    let mut log = Vec::with_capacity(alloc, rows.len())?;
    for row in rows {
        let sound = is_next_sound(
            alloc, version, config, histories, index, agent, &mut asker, &log, rows,
        )?;
        if !sound {
            return Ok(Some(log.len() + 1));
        }
        log.push(log_row(alloc, row)?)?;
    }
    if is_wrong_end(alloc, config, histories, index, agent, &mut asker, &log)? {
        return Ok(Some(rows.len() + 1));
    }
    Ok(None)
}

// Whether the row behind those of the log is sound.
fn is_next_sound(
    alloc: Global,
    version: Version,
    config: &Config,
    histories: &[Seq<Entry>],
    index: &Index,
    agent: usize,
    asker: &mut Asker,
    log: &[LogRow],
    rows: &[TextRow],
) -> Result<bool, NoMemory>
    requires quiet { AreQuietRuns config.now histories.now }
    requires index { IsIndexOf config.now histories.now index.now }
    requires inside { agent < length config.now.agents }
    requires within { length log.now < length rows.now }
    requires log { log.now ≡ logged (take (length log.now) rows.now) }
    requires settled { any_pending log.now ≡ false }
    requires taken { (a : AgentConf) → slice_get config.now.agents agent ≡ Some a
        → HasTakenIn a.scripts log.now asker.old }
    ensures sound { (a : AgentConf) (row : TextRow) → slice_get config.now.agents agent ≡ Some a
        → slice_get rows.now (length log.now) ≡ Some row
        → IfOk result (λ y. IsTrue y
        ↔ IsSoundRow version config.now histories.now agent a rows.now (length log.now) row) }
    ensures taken { (a : AgentConf) → slice_get config.now.agents agent ≡ Some a
        → HasTakenIn a.scripts log.now asker.new }
{
    let place = log.len();
    let scripts = config.agents()[agent].scripts.items();
    let Some(next) = asker.next_ask(alloc, scripts, log)? else {
        return Ok(false);
    };
    let last = place + 1 == rows.len();
    let row = &rows[place];
    is_sound(
        alloc, version, config, histories, index, agent, next, place, last, row,
    )
}

// Whether the end behind the rows of the log is wrong, each of which has an item.
fn is_wrong_end(
    alloc: Global,
    config: &Config,
    histories: &[Seq<Entry>],
    index: &Index,
    agent: usize,
    asker: &mut Asker,
    log: &[LogRow],
) -> Result<bool, NoMemory>
    requires quiet { AreQuietRuns config.now histories.now }
    requires index { IsIndexOf config.now histories.now index.now }
    requires inside { agent < length config.now.agents }
    requires items { (a : AgentConf) → slice_get config.now.agents agent ≡ Some a
        → length log.now ≤ length (steps_of a.scripts) }
    requires taken { (a : AgentConf) → slice_get config.now.agents agent ≡ Some a
        → HasTakenIn a.scripts log.now asker.old }
    ensures { (a : AgentConf) (rows : List TextRow) → slice_get config.now.agents agent ≡ Some a
        → log.now ≡ logged rows
        → IfOk result (λ y. IsTrue y ↔ IsWrongEnd histories.now agent a rows) }
{
    let _agents = config.agents();
    if has_stray(index, histories, agent as u32, log.len()) {
        return Ok(true);
    }
    if has_pending(log) {
        return Ok(false);
    }
    let scripts = config.agents()[agent].scripts.items();
    Ok(asker.next_ask(alloc, scripts, log)?.is_some())
}

// The row as a log has it.
fn log_row(alloc: Global, row: &TextRow) -> Result<LogRow, NoMemory>
    ensures { IfOk result (λ r. r ≡ as_logged row.now) }
{
    Ok(LogRow {
        number: row.number,
        centre: row.centre.copy(alloc)?,
        ask: None,
        result: copy_result(alloc, &row.result)?,
    })
}

// An equal result.
fn copy_result(alloc: Global, became: &LogResult) -> Result<LogResult, NoMemory>
    ensures { IfOk result (λ copy. copy ≡ became.now) }
{
    match became {
        LogResult::Replied(reply) => Ok(LogResult::Replied(reply.copy(alloc)?)),
        LogResult::Pending => Ok(LogResult::Pending),
        LogResult::Refused(why) => Ok(LogResult::Refused(*why)),
        LogResult::Polled(None) => Ok(LogResult::Polled(None)),
        LogResult::Polled(Some(reply)) => Ok(LogResult::Polled(Some(reply.copy(alloc)?))),
    }
}

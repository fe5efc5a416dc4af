//! An agent's rows as a service leaves them, one after another, and the entries that have none.
ghost use Rattle.std.specs.Prelude.{◌≡◌, ◌↔◌, ◌<◌, ◌+◌, IfNone, IfSome, IsTrue, Contains};
ghost use Rattle.std.specs.Prelude.{List, Some, length, map, slice_get};
ghost use Rattle.tc_config.specs.declared.configs.AgentConf.{AgentConf};
ghost use Rattle.tc_config.specs.declared.configs.CentreConf.{CentreConf};
ghost use Rattle.tc_histline.specs.declared.lines.TextRow.{TextRow};
ghost use Rattle.tc_rows.specs.Beside.{IsCentreOf, IsLastAt};
ghost use Rattle.tc_rows.specs.Index.{IsIndexOf};
ghost use Rattle.tc_rows.specs.Rows.{AreQuietRuns, logged};
ghost use Rattle.tc_rows.specs.ServedRows.{AreServedRows, IsFirstUnserved, IsServedRow};

use crate::agreeing::agrees;
use crate::entries::have_rows;
use crate::index::Index;
use crate::row::is_served;
use crate::same::same_name;
use tc_config::{CentreConf, Config};
use tc_desk::{LogResult, Refusal};
use tc_histline::{TextRow, Version};
use tc_lists::Seq;
use tc_model::Entry;
use tc_term::Name;

/// The first row of an agent, counted from 1, that a service can't have left there, by the
/// histories; the one behind the last where an entry has no row. `None` where it can have left all.
///
/// Takes linear time, besides a bisection for each row and entry. No memory is taken.
pub fn first_unserved(
    version: Version,
    config: &Config,
    histories: &[Seq<Entry>],
    index: &Index,
    agent: usize,
    rows: &[TextRow],
) -> Option<usize>
    requires quiet { AreQuietRuns config.now histories.now }
    requires index { IsIndexOf config.now histories.now index.now }
    requires inside { agent < length config.now.agents }
    ensures unserved { (a : AgentConf) → slice_get config.now.agents agent ≡ Some a
        → IfSome result (IsFirstUnserved version config.now histories.now agent a rows.now) }
    ensures served { (a : AgentConf) → slice_get config.now.agents agent ≡ Some a
        → IfNone result (AreServedRows version config.now histories.now agent a rows.now) }
{
    let mut last = None;
    for (place, row) in rows.iter().enumerate() {
        if !may_stand(
            version, config, histories, index, agent, rows, last, place, row,
        ) {
            return Some(place + 1);
        }
        last = last_with(last, place, &row.result);
    }
    let _agents = config.agents();
    if have_rows(config, histories, index, agent as u32, rows) {
        None
    } else {
        Some(rows.len() + 1)
    }
}

// The last row that was served, once one at this place came to this.
fn last_with(last: Option<usize>, place: usize, became: &LogResult) -> Option<usize>
    ensures { (rows : List TextRow) (row : TextRow) → slice_get rows place ≡ Some row
        → row.result ≡ became.now → IsLastAt rows place last → IsLastAt rows (place + 1) result }
{
    if is_served(became) { Some(place) } else { last }
}

// Whether the row at this place may stand there. The last row before it that was served is known.
fn may_stand(
    version: Version,
    config: &Config,
    histories: &[Seq<Entry>],
    index: &Index,
    agent: usize,
    rows: &[TextRow],
    last: Option<usize>,
    place: usize,
    row: &TextRow,
) -> bool
    requires quiet { AreQuietRuns config.now histories.now }
    requires index { IsIndexOf config.now histories.now index.now }
    requires inside { agent < length config.now.agents }
    requires there { place < length rows.now }
    requires last { IsLastAt rows.now place last }
    ensures { (a : AgentConf) → slice_get config.now.agents agent ≡ Some a
        → (IsTrue result
        ↔ IsServedRow version config.now histories.now agent a rows.now place row.now) }
{
    if row.number != place as u64 + 1 {
        return false;
    }
    match centre_of(config.centres(), &row.centre) {
        Some(centre) => {
            !is_of_unknown(&row.result)
                && agrees(
                    version,
                    config,
                    &index.centres[centre],
                    histories[centre].items(),
                    agent,
                    centre as u32,
                    rows,
                    last,
                    place,
                    row,
                )
        }
        None => is_of_unknown(&row.result),
    }
}

// The place of the centre of this name.
fn centre_of(centres: &[CentreConf], name: &Name) -> Option<usize>
    ensures some { IfSome result (IsCentreOf centres.now name.now) }
    ensures none { IfNone result
        (Contains (map (λ (s : CentreConf). s.name) centres.now) name.now → ⊥) }
{
    for place in 0..centres.len() {
        let centre = &centres[place];
        if same_name(&centre.name, name) {
            return Some(place);
        }
    }
    None
}

// Whether the row was refused since it names no centre.
fn is_of_unknown(became: &LogResult) -> bool
    ensures { IsTrue result ↔ (became.now ≡ LogResult.Refused Refusal.UnknownCentre) }
{
    match became {
        LogResult::Refused(why) => *why == Refusal::UnknownCentre,
        LogResult::Replied(_) | LogResult::Pending | LogResult::Polled(_) => false,
    }
}

//! Whether what an agent made has its row.
ghost use Rattle.std.specs.Prelude.{◌≡◌, ◌↔◌, ◌<◌, All, IsTrue, Some, length, slice_get};
ghost use Rattle.tc_config.specs.Configurations.{centre_names};
ghost use Rattle.tc_desk.specs.Agreeing.{HasRow, HaveRows, IsMadeBy};
ghost use Rattle.tc_model.specs.Calls.{calls_of, id_of};
ghost use Rattle.tc_model.specs.declared.entries.Entry.{Entry};
ghost use Rattle.tc_rows.specs.Made.{AreAllMade, lists_of};
ghost use Rattle.tc_rows.specs.Rows.{logged};
ghost use Rattle.tc_rows.specs.Sound.{HasMade};

use crate::index::Index;
use crate::made::{Made, Makers, made_by};
use crate::row::is_served;
use crate::same::{same_name, same_told};
use tc_config::Config;
use tc_desk::LogResult;
use tc_histline::TextRow;
use tc_lists::Seq;
use tc_model::{Entry, Reply};
use tc_term::Name;

/// Whether whatever the agent has made in the histories has its row.
pub(crate) fn have_rows(
    config: &Config,
    histories: &[Seq<Entry>],
    index: &Index,
    agent: u32,
    rows: &[TextRow],
) -> bool
    requires made { HasMade histories.now index.now }
    requires whole { length histories.now ≡ length config.now.centres }
    ensures { IsTrue result
        ↔ HaveRows (centre_names config.now) histories.now agent (logged rows.now) }
{
    let centres = config.centres();
    for (place, history) in histories.iter().enumerate() {
        let makers = &index.centres[place].makers;
        let centre = &centres[place];
        if !have_rows_of(makers, history.items(), agent, &centre.name, rows) {
            return false;
        }
    }
    true
}

// Whether what it made in the history of the centre of this name has.
fn have_rows_of(
    makers: &Makers,
    history: &[Entry],
    agent: u32,
    centre: &Name,
    rows: &[TextRow],
) -> bool
    requires { AreAllMade (lists_of makers.now.items) history.now }
    ensures { IsTrue result
        ↔ All (HasRow (logged rows.now) centre.now) (calls_of agent history.now) }
{
    let own = made_by(makers, agent);
    for made in own {
        if !has_row_at(history, made, centre, rows) {
            return false;
        }
    }
    true
}

// Whether the one at this place has.
fn has_row_at(history: &[Entry], made: &Made, centre: &Name, rows: &[TextRow]) -> bool
    requires { made.now.place < length history.now }
    ensures { (e : Entry) → slice_get history.now made.now.place ≡ Some e
        → (IsTrue result ↔ HasRow (logged rows.now) centre.now e) }
{
    has_row(&history[made.place], centre, rows)
}

// Whether the entry has its row: the one of its number, which is of this centre, and came to it.
fn has_row(entry: &Entry, centre: &Name, rows: &[TextRow]) -> bool
    ensures { IsTrue result ↔ HasRow (logged rows.now) centre.now entry.now }
{
    let number = number_of(entry);
    if number == 0 || number > rows.len() as u64 {
        return false;
    }
    let place = number as usize - 1;
    let row = &rows[place];
    same_name(&row.centre, centre) && is_made_by(entry, &row.result)
}

// The number of an entry's id.
fn number_of(entry: &Entry) -> u64
    ensures { result ≡ (id_of entry.now).number }
{
    match entry {
        Entry::Called { id, .. } | Entry::Gave { id, .. } | Entry::Looked { id, .. } => id.number,
    }
}

// Whether a row that came to this made the entry.
fn is_made_by(entry: &Entry, became: &LogResult) -> bool
    ensures { IsTrue result ↔ IsMadeBy entry.now became.now }
{
    match entry {
        Entry::Called { .. } => is_served(became),
        Entry::Looked { reply, .. } => has_told(became, reply),
        Entry::Gave { .. } => false,
    }
}

// Whether a poll was told this.
fn has_told(became: &LogResult, reply: &Option<Reply>) -> bool
    ensures { IsTrue result ↔ (became.now ≡ LogResult.Polled reply.now) }
{
    match became {
        LogResult::Polled(told) => same_told(told, reply),
        LogResult::Replied(_) | LogResult::Pending | LogResult::Refused(_) => false,
    }
}

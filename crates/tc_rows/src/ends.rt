//! Entries that have no row.
ghost use Rattle.std.specs.Prelude.{◌≡◌, ◌↔◌, ◌⊎◌, ◌<◌, IsTrue};
ghost use Rattle.tc_rows.specs.Made.{AreAllMade, lists_of};
ghost use Rattle.tc_rows.specs.Sound.{HasMade, HasStray, HasStrayIn, HasStrayMade};

use crate::index::Index;
use crate::made::{Made, Makers, made_by};
use tc_lists::Seq;
use tc_model::Entry;

/// Whether the agent has made an entry in some history that is numbered 0, or beyond so many rows.
pub(crate) fn has_stray(index: &Index, histories: &[Seq<Entry>], agent: u32, rows: usize) -> bool
    requires { HasMade histories.now index.now }
    ensures { IsTrue result ↔ HasStray histories.now agent rows }
{
    for (place, history) in histories.iter().enumerate() {
        if has_stray_in(&index.centres[place].makers, history.items(), agent, rows) {
            return true;
        }
    }
    false
}

// Whether it has made one in this history.
fn has_stray_in(makers: &Makers, history: &[Entry], agent: u32, rows: usize) -> bool
    requires { AreAllMade (lists_of makers.now.items) history.now }
    ensures { IsTrue result ↔ HasStrayIn history.now agent rows }
{
    has_stray_made(made_by(makers, agent), rows)
}

// Whether one of the entries is such.
fn has_stray_made(made: &[Made], rows: usize) -> bool
    ensures { IsTrue result ↔ HasStrayMade made.now rows }
{
    for one in made {
        if is_stray(*one, rows) {
            return true;
        }
    }
    false
}

// Whether the entry is numbered 0, or beyond so many rows.
fn is_stray(made: Made, rows: usize) -> bool
    ensures { IsTrue result ↔ ((made.number ≡ 0) ⊎ (rows < made.number)) }
{
    made.number == 0 || made.number > rows as u64
}

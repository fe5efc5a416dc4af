//! Bringing back and giving up the rows that were taken while a mark stood.
ghost use Rattle.std.specs.Prelude.{◌≡◌, ◌+◌, ◌≤◌, [], length, map, filter, take, vec_capacity, All};
ghost use Rattle.tc_bag.specs.Slots.{InOrder, IsLogged, is_there, revived};

use crate::held::Held;

/// Brings back the rows that were taken after so many.
pub(crate) fn unwind(rows: &mut Held, log: &mut Vec<u64>, count: usize)
    requires order { InOrder rows.old }
    requires logged { All (IsLogged log.old.items) rows.old }
    ensures rows { rows.new ≡ map (revived count) rows.old }
    ensures log { log.new.items ≡ take count log.old.items }
    ensures room { vec_capacity log.new ≡ vec_capacity log.old }
    ensures fits { length log.new.items + length (filter is_there rows.new)
        ≤ length log.old.items + length (filter is_there rows.old) }
{
    while log.len() > count {
        let last = log.len() - 1;
        let age = log[last];
        log.truncate(last);
        rows.revive(age, count);
    }
}

/// Removes the rows that were taken.
pub(crate) fn discard(rows: &mut Held, log: &mut Vec<u64>)
    requires order { InOrder rows.old }
    requires logged { All (IsLogged log.old.items) rows.old }
    ensures rows { rows.new ≡ filter is_there rows.old }
    ensures log { log.new.items ≡ [] }
    ensures room { vec_capacity log.new ≡ vec_capacity log.old }
{
    while let Some(age) = log.pop() {
        rows.discard(age);
    }
}

//! Lists that grow at their end.
ghost use Rattle.std.specs.Prelude.{◌≡◌, ◌++◌, ◌∷◌, [], OnOk};

use std::alloc::Global;
use std::mem;
use tc_lists::{NoMemory, Seq};

/// Appends an item.
pub fn push<T: Drop>(list: &mut Vec<T>, item: T) -> Result<(), NoMemory>
    ensures { OnOk result (list.new.items ≡ list.old.items ++ item ∷ []) }
{
    list.push(item)?;
    Ok(())
}

/// Appends an item. Where memory runs out, the list is lost.
pub fn append<T: Drop>(alloc: Global, list: &mut Seq<T>, item: T) -> Result<(), NoMemory>
    ensures { OnOk result (list.new ≡ list.old ++ item ∷ []) }
{
    let mut items = mem::replace(list, Seq::empty(alloc)).into_vec();
    items.push(item)?;
    *list = Seq::new(items);
    Ok(())
}

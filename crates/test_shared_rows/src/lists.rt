//! Lists that grow.
ghost use Rattle.std.specs.Prelude.{◌≡◌, ◌++◌, ◌∷◌, [], OnOk};

use tc_lists::NoMemory;

/// Appends an element.
pub fn append<T: Drop>(list: &mut Vec<T>, element: T) -> Result<(), NoMemory>
    ensures { OnOk result (list.new.items ≡ list.old.items ++ element ∷ []) }
{
    list.push(element)?;
    Ok(())
}

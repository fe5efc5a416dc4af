//! The elements of lists.
use std::alloc::Global;
use tc_lists::NoMemory;
use tc_term::Term;

/// The elements of a list, in order: those before its last tail.
pub fn elements<'t>(alloc: Global, list: &'t Term) -> Result<Vec<&'t Term>, NoMemory> {
    let mut found = Vec::new(alloc);
    let mut rest = list;
    while let Some((head, tail)) = rest.as_cell() {
        found.push(head)?;
        rest = tail;
    }
    Ok(found)
}

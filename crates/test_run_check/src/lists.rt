//! Lists of terms and of whatever else.
use std::alloc::Global;
use tc_lists::NoMemory;
use tc_term::Term;

/// The element at this place, which is taken out.
pub fn removed<T>(list: &mut Vec<T>, place: usize) -> Option<T> {
    if place < list.len() {
        Some(list.remove(place))
    } else {
        None
    }
}

/// Copies of all these terms.
pub fn copies(alloc: Global, terms: &[Term]) -> Result<Vec<Term>, NoMemory> {
    let mut copies = Vec::new(alloc);
    for term in terms {
        copies.push(term.copy(alloc)?)?;
    }
    Ok(copies)
}

/// The tuple at this place, taken or copied.
pub fn chosen(
    alloc: Global,
    tuples: &mut Vec<Term>,
    place: usize,
    takes: bool,
) -> Result<Option<Term>, NoMemory> {
    if takes {
        return Ok(removed(tuples, place));
    }
    match tuples.get(place) {
        Some(tuple) => Ok(Some(tuple.copy(alloc)?)),
        None => Ok(None),
    }
}

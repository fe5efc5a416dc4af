//! The answers of rows.
use crate::centre::Centre;
use crate::entries::entries;
use crate::rows::Row;
use std::alloc::Global;
use tc_bag::Bag;
use tc_lists::NoMemory;
use tc_print::print_term;

/// Prints which entries of the row may come next, each behind those before it that may, and the
/// tuples that are left.
pub fn print_row(alloc: Global, row: &Row<'_>, into: &mut Vec<u8>) -> anyhow::Result<()> {
    let mut centre = Centre::of(alloc, row)?;
    for next in &entries(alloc, &row.entries)? {
        let may = centre.goes_on(alloc, next)?;
        into.extend_from_slice(if may { b"yes " } else { b"no " })?;
    }
    print_tuples(alloc, centre.tuples(), into)?;
    into.extend_from_slice(b": ")?;
    into.extend_from_slice(row.name)?;
    into.push(b'\n')?;
    Ok(())
}

// The tuples of a bag in brackets, oldest first.
fn print_tuples(alloc: Global, bag: &Bag, into: &mut Vec<u8>) -> Result<(), NoMemory> {
    into.push(b'[')?;
    for place in 0..bag.len() {
        if place > 0 {
            into.push(b',')?;
        }
        if let Some(tuple) = bag.nth(place) {
            print_term(alloc, tuple.term(), into)?;
        }
    }
    into.push(b']')?;
    Ok(())
}

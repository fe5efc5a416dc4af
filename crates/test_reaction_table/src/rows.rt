//! The parts of rows.
ghost use Rattle.std.specs.Prelude.{◌≡◌, IfOk, length};

use anyhow::anyhow;
use std::alloc::Global;
use tc_bag::Bag;
use tc_lists::NoMemory;
use tc_term::{Ground, Term};

/// The terms as tuples.
pub fn tuples_of(alloc: Global, terms: &[Term]) -> anyhow::Result<Vec<Ground>> {
    let mut tuples = Vec::with_capacity(alloc, terms.len())?;
    for term in terms {
        let tuple = Ground::of(term.copy(alloc)?).map_err(|_| anyhow!("a row has no tuple"))?;
        tuples.push(tuple)?;
    }
    Ok(tuples)
}

/// A bag of the tuples.
pub fn bag_of(alloc: Global, tuples: &[Ground]) -> Result<Bag, NoMemory>
    ensures { IfOk result (λ bag. bag.next ≡ length tuples.now) }
{
    let mut bag = Bag::new(alloc);
    for tuple in tuples {
        bag.add(tuple.copy(alloc)?)?;
    }
    Ok(bag)
}

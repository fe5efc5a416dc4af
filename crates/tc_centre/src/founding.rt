//! What a centre begins with.
ghost use Rattle.std.specs.Prelude.{◌≡◌, ◌≤◌, [], length, IfOk};
ghost use Rattle.tc_bag.specs.Stock.{tuples_of};
ghost use Rattle.tc_model.specs.declared.limits.TheConstants.{MOST_TUPLES};

use std::alloc::Global;
use std::snapshot::Snapshot;
use tc_bag::Bag;
use tc_lists::NoMemory;
use tc_model::Clauses;
use tc_term::{Ground, Name};

/// What a centre began with. The tuples and the clauses are for contracts alone: the bag has those
/// that there are now, and so has the specification.
#[derive(Drop)]
pub struct Founding {
    pub name: Name,
    pub agents: Vec<Name>,
    pub budget: u32,
    pub tuples: Snapshot<Vec<Ground>>,
    pub clauses: Snapshot<Clauses>,
}

/// The bag of these tuples, in order.
pub fn fill(alloc: Global, tuples: Vec<Ground>) -> Result<Bag, NoMemory>
    requires { length tuples.items ≤ MOST_TUPLES }
    ensures tuples { IfOk result (λ bag. tuples_of bag.now ≡ tuples.items) }
    ensures next { IfOk result (λ bag. bag.next ≡ length tuples.items) }
    ensures unmarked { IfOk result (λ bag. bag.saved ≡ []) }
{
    let mut bag = Bag::new(alloc);
    for tuple in tuples {
        if bag.put(tuple).is_err() {
            return Err(NoMemory);
        }
    }
    Ok(bag)
}

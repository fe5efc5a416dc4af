//! What a history has led to: tuples, clauses and requests that wait; and what is known of them
//! since no request could be answered.
ghost use Rattle.std.specs.Prelude.{◌≡◌, ◌↔◌, ◌≤◌, ◌<◌, [], length, IfOk, IsTrue, OnOk};
ghost use Rattle.tc_bag.specs.Stock.{tuples_of};
ghost use Rattle.tc_model.specs.State.{IsQuiescent, opening};
ghost use Rattle.tc_audit.specs.Beginnings.{origin_in};
ghost use Rattle.tc_audit.specs.Reached.{IsRested, IsSound, state_of};

use crate::beginning::Beginning;
use std::alloc::Global;
use std::sync::ledger::{Blank, Ledger};
use tc_bag::Bag;
use tc_lists::NoMemory;
use tc_pending::{Known, Pending};
use tc_spec::Spec;
use tc_steps::Steps;
use tc_term::Ground;
use tc_unify::Store;

/// The clauses, the tuples and the requests that wait, and what is known of these two. The bag has
/// one mark, where no request could be answered. The store is scratch: what it holds counts for
/// nothing.
#[derive(Drop)]
pub(crate) struct Reached {
    pub(crate) spec: Spec,
    pub(crate) store: Store,
    pub(crate) bag: Bag,
    pub(crate) pending: Pending,
    pub(crate) known: Known,
}

/// What the centre begins with.
pub(crate) fn begin(alloc: Global, beginning: &Beginning) -> Result<Reached, NoMemory>
    ensures state { IfOk result (λ r. state_of r ≡ opening (origin_in beginning.now)) }
    ensures sound { IfOk result IsSound }
{
    let spec = Spec::of(alloc, beginning.clauses.copy(alloc)?)?;
    let mut bag = fill(alloc, beginning.tuples)?;
    bag.mark()?;
    Ok(Reached {
        spec,
        store: Store::new(alloc, 0)?,
        known: Known {
            requests: 0,
            age: bag.next_age(),
        },
        bag,
        pending: Pending::new(alloc),
    })
}

// The bag of these tuples, in order.
fn fill(alloc: Global, tuples: &[Ground]) -> Result<Bag, NoMemory>
    ensures tuples { IfOk result (λ bag. tuples_of bag.now ≡ tuples.now) }
    ensures unmarked { IfOk result (λ bag. bag.saved ≡ []) }
{
    let mut bag = Bag::new(alloc);
    for tuple in tuples {
        bag.add(tuple.copy(alloc)?)?;
    }
    Ok(bag)
}

/// Whether no request can be answered.
pub(crate) fn is_quiet<L: Ledger>(reached: &Reached, blank: Blank) -> bool
    requires name { blank.name ≡ L.name }
    requires parts { blank.parts ≡ L.parts }
    requires some { 0 < blank.parts }
    requires sound { IsSound reached.now }
    ensures { IsTrue result ↔ IsQuiescent (state_of reached.now) }
{
    let mut steps = Steps::<L>::none(blank);
    match reached
        .pending
        .next_answerable(&reached.bag, reached.known, &mut steps)
    {
        Some(_) => false,
        None => true,
    }
}

/// Takes note that no request can be answered: all that is there is known.
pub(crate) fn rest(reached: &mut Reached) -> Result<(), NoMemory>
    requires sound { IsSound reached.old }
    requires quiet { IsQuiescent (state_of reached.old) }
    ensures rested { OnOk result (IsRested reached.new) }
    ensures state { OnOk result (state_of reached.new ≡ state_of reached.old) }
{
    reached.bag.keep();
    reached.bag.mark()?;
    // A mark of the requests, though it is given up at once, files those that are new.
    reached.pending.mark()?;
    reached.pending.keep();
    reached.known = Known {
        requests: reached.pending.list().len(),
        age: reached.bag.next_age(),
    };
    Ok(())
}

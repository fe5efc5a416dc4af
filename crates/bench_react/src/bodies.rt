//! Three bodies, each done again and again over the same tuples.
ghost use Rattle.std.specs.Prelude.{◌≡◌, ◌<◌, ◌≤◌, ◌+◌, IfOk};

use crate::scenes::{bag, context, put, tuple};
use crate::tally::Tally;
use anyhow::anyhow;
use std::alloc::Global;
use std::marker::Brand;
use std::sync::ledger::{Blank, Ledger};
use tc_bag::Bag;
use tc_body::execute;
use tc_lists::NoMemory;
use tc_model::{Context, Event, Reaction};
use tc_spec::read_spec;
use tc_steps::Steps;
use tc_unify::Store;

/// Which body is done.
#[derive(Clone, Copy)]
pub enum Body {
    /// It counts a number up: takes a tuple, adds one, puts another.
    Counter,
    /// It has ten goals, of each kind some, and fires.
    Fires,
    /// The same, but its tenth goal fails.
    Fails,
}

impl Body {
    /// The word that stands for the body in the table.
    pub fn name(self) -> &'static str {
        match self {
            Body::Counter => "counter",
            Body::Fires => "fires",
            Body::Fails => "fails",
        }
    }

    // Its reaction.
    fn clause(self) -> &'static str {
        match self {
            Body::Counter => "reaction(out(add(D)),(in_r(count(N)),M is N + 1,out_r(count(M)))).",
            Body::Fires => {
                "reaction(out(add(D)),(success,current_agent(A),rd_r(limit(L)),in_r(by(A,N)),\
                M is N + D,M < L,no_r(closed),B = A,T = by(B,M),out_r(T)))."
            }
            Body::Fails => {
                "reaction(out(add(D)),(success,current_agent(A),rd_r(limit(L)),in_r(by(A,N)),\
                M is N + D,M < L,no_r(closed),B = A,T = by(B,M),in_r(T)))."
            }
        }
    }
}

/// Does a body so many times, one after another.
pub fn run(alloc: Global, body: Body, count: u32) -> anyhow::Result<Tally> {
    let clauses = read_spec(alloc, body.clause().as_bytes())?;
    let [reaction] = clauses.items() else {
        return Err(anyhow!("a body is of one clause"));
    };
    let event = put(tuple(alloc, "add(2)")?);
    let context = context(alloc)?;
    let mut bag = bag(alloc, &["limit(1000000000000)", "count(0)", "by(ann,0)"])?;
    let blank = Blank::new(1);
    let tally = again::<Brand>(alloc, reaction, &event, &context, &mut bag, count, blank)?;
    Ok(tally)
}

// Does the body of a reaction so many times.
fn again<L: Ledger>(
    alloc: Global,
    reaction: &Reaction,
    event: &Event,
    context: &Context,
    bag: &mut Bag,
    count: u32,
    blank: Blank,
) -> Result<Tally, NoMemory>
    requires next { bag.old.next ≤ 3 }
    requires name { blank.name ≡ L.name }
    requires parts { blank.parts ≡ L.parts }
    requires some { 0 < blank.parts }
    ensures { IfOk result (λ tally. tally.fired + tally.failed ≡ count) }
{
    let mut store = Store::new(alloc, 0)?;
    let mut steps = Steps::<L>::none(blank);
    let mut tally = Tally {
        fired: 0,
        failed: 0,
    };
    for _ in 0..count {
        let (item, _) = execute(
            alloc, &mut store, reaction, 1, 1, event, context, bag, &mut steps,
        )?;
        tally.count(&item);
    }
    Ok(tally)
}

//! A centre that goes on by what is recorded, as far as that may be.
use crate::entries::Recorded;
use crate::rows::Row;
use anyhow::anyhow;
use std::alloc::Global;
use tc_bag::Bag;
use tc_model::{CallId, Context, Entry, Op, Outcome, Request, Wants};
use tc_read::{read_clause, read_term};
use tc_replay::{Regime, is_given, is_served};
use tc_spec::{Spec, read_spec};
use tc_term::{Ground, Name, Pattern, Term};
use tc_unify::Store;

/// The most tuples that may have been put, and the most items of an entry.
const MOST: usize = 1 << 20;

/// The clauses, the tuples and the requests that were made, also those that have their answer.
#[derive(Drop)]
pub struct Centre {
    spec: Spec,
    context: Context,
    budget: u32,
    bag: Bag,
    requests: Vec<Request>,
}

impl Centre {
    /// The centre with which a row begins.
    pub fn of(alloc: Global, row: &Row<'_>) -> anyhow::Result<Centre> {
        let Term::Int(budget) = read_term(alloc, row.budget)?.into_term() else {
            return Err(anyhow!("a row has no budget"));
        };
        Ok(Centre {
            spec: Spec::of(alloc, read_spec(alloc, row.clauses)?)?,
            context: Context::new(Name::new(alloc, b"a")?, Name::new(alloc, b"c")?),
            budget: u32::try_from(budget)?,
            bag: bag_of(alloc, row.tuples)?,
            requests: Vec::new(alloc),
        })
    }

    /// The tuples.
    pub fn tuples(&self) -> &Bag {
        &self.bag
    }

    /// Whether the entry may come next. Then the centre is as after it, else as before.
    pub fn goes_on(&mut self, alloc: Global, next: &Recorded) -> anyhow::Result<bool> {
        self.bag.mark()?;
        if self.may_come(alloc, next)? {
            self.bag.keep();
            self.note(alloc, &next.entry)?;
            return Ok(true);
        }
        self.bag.undo();
        Ok(false)
    }

    // The same, where the bag may be any after `false`, and nothing else is as after it.
    fn may_come(&mut self, alloc: Global, next: &Recorded) -> anyhow::Result<bool> {
        if self.bag.next_age() > MOST as u64 || next.items.len() > MOST {
            return Err(anyhow!("a row is too long"));
        }
        let mut store = Store::new(alloc, 0)?;
        let regime = Regime {
            spec: &self.spec,
            context: &self.context,
            budget: self.budget,
        };
        let bag = &mut self.bag;
        let items = &next.items;
        match &next.entry {
            Entry::Called { op, outcome, .. } => Ok(is_served(
                alloc, &mut store, &regime, op, outcome, items, bag,
            )?),
            Entry::Gave { id, outcome, .. } => {
                let request = waiting(&self.requests, *id)?;
                Ok(is_given(alloc, &mut store, &regime, request, outcome, items, bag)?)
            }
            Entry::Looked { .. } => Err(anyhow!("a row looks")),
        }
    }

    // The clauses and the requests after the entry.
    fn note(&mut self, alloc: Global, entry: &Entry) -> anyhow::Result<()> {
        match entry {
            Entry::Called {
                op: Op::SetSpec(clauses),
                ..
            } => self.spec = Spec::of(alloc, clauses.copy(alloc)?)?,
            Entry::Called {
                id,
                op,
                outcome: Outcome::Pending,
                ..
            } => self.requests.push(request_of(alloc, *id, op)?)?,
            _ => {}
        }
        Ok(())
    }
}

// The tuples of a text, with a dot behind each.
fn bag_of(alloc: Global, text: &[u8]) -> anyhow::Result<Bag> {
    let mut bag = Bag::new(alloc);
    let mut from = 0;
    while let Some((clause, behind)) = read_clause(alloc, text, from)? {
        let tuple = Ground::of(clause.into_term()).map_err(|_| anyhow!("a row has no tuple"))?;
        if bag.next_age() > MOST as u64 {
            return Err(anyhow!("a row is too long"));
        }
        bag.add(tuple)?;
        from = behind;
    }
    Ok(bag)
}

// The request of a call.
fn waiting(requests: &[Request], id: CallId) -> anyhow::Result<&Request> {
    requests
        .iter()
        .find(|request| request.id == id)
        .ok_or_else(|| anyhow!("a row answers nothing"))
}

// The request that an operation makes.
fn request_of(alloc: Global, id: CallId, op: &Op) -> anyhow::Result<Request> {
    let (wants, template) = match op {
        Op::In(template) => (Wants::Take, template),
        Op::Rd(template) => (Wants::Look, template),
        Op::No(template) => (Wants::Absence, template),
        _ => return Err(anyhow!("a row waits for nothing")),
    };
    let template = template.copy(alloc)?;
    Ok(Request {
        id,
        wants,
        template,
    })
}

//! Lists of requests that are hard to search.
ghost use Rattle.std.specs.Prelude.{◌≡◌, ◌<◌, All, IsTrue};
ghost use Rattle.tc_model.specs.State.{WantsTuple};

use crate::fault::Fault;
use crate::terms::{add, applied, of_one_code};
use std::alloc::Global;
use std::marker::Brand;
use std::sync::ledger::{Blank, Ledger};
use tc_bag::Bag;
use tc_lists::NoMemory;
use tc_model::{CallId, Request, Wants};
use tc_pending::{Known, Pending};
use tc_steps::Steps;
use tc_term::{NotPattern, Pattern, Term};

// Adds the request of the first agent for a tuple.
fn ask(pending: &mut Pending, term: Term) -> Result<(), Fault> {
    ask_for(pending, 0, term)
}

// Adds the request of an agent for a tuple.
fn ask_for(pending: &mut Pending, agent: u32, term: Term) -> Result<(), Fault> {
    match Pattern::of(term) {
        Ok(template) => Ok(pending.add(Request {
            id: CallId { agent, number: 1 },
            wants: Wants::Take,
            template,
        })?),
        Err(NotPattern::NoMemory(_)) => Err(Fault::NoMemory(NoMemory)),
        Err(_) => Err(Fault::NoTuple),
    }
}

// Whether a bag of one tuple, which is new to all requests, answers the request at this place next; none,
// where none is given.
fn is_next(
    alloc: Global,
    pending: &Pending,
    tuple: Term,
    place: Option<usize>,
) -> Result<bool, Fault> {
    let mut bag = Bag::new(alloc);
    add(&mut bag, tuple)?;
    let next = next::<Brand>(pending, &bag, Blank::new(1));
    Ok(next.map(|found| found.0) == place)
}

// What is next where all tuples are new to all requests, each of which wants a tuple.
fn next<L: Ledger>(pending: &Pending, bag: &Bag, blank: Blank) -> Option<(usize, Option<u64>)>
    requires name { blank.name ≡ L.name }
    requires parts { blank.parts ≡ L.parts }
    requires some { 0 < blank.parts }
{
    if !want_tuples(pending.list()) {
        return None;
    }
    let known = Known {
        requests: pending.list().len(),
        age: 0,
    };
    let mut steps = Steps::<L>::none(blank);
    pending.next_answerable(bag, known, &mut steps)
}

// Whether each request wants a tuple.
fn want_tuples(requests: &[Request]) -> bool
    ensures { IsTrue result → All (λ r. WantsTuple r.wants) requests.now }
{
    for request in requests {
        if !wants_tuple(request.wants) {
            return false;
        }
    }
    true
}

// Whether a tuple is wanted, and not absence.
fn wants_tuple(wants: Wants) -> bool
    ensures { IsTrue result → WantsTuple wants }
{
    match wants {
        Wants::Take | Wants::Look => true,
        Wants::Absence => false,
    }
}

/// Requests of names of one code are told apart. They are more than are gone through one by one.
pub fn names(alloc: Global) -> Result<bool, Fault> {
    let mut pending = Pending::new(alloc);
    for number in 0..64 {
        ask(&mut pending, of_one_code(alloc, number, 1)?)?;
    }
    pending.mark()?;
    let mut all = true;
    for (number, place) in [(0, 0), (31, 31), (32, 32), (63, 63)] {
        let tuple = of_one_code(alloc, number, 1)?;
        all = is_next(alloc, &pending, tuple, Some(place))? && all;
    }
    Ok(all && is_next(alloc, &pending, of_one_code(alloc, 31, 2)?, None)?)
}

/// A request that came back is found, and one that was removed is not.
pub fn returns(alloc: Global) -> Result<bool, Fault> {
    let mut pending = Pending::new(alloc);
    for n in 0..40 {
        ask(&mut pending, applied(alloc, b"p", Term::Int(n))?)?;
    }
    pending.mark()?;
    remove(&mut pending, 9);
    let removed = is_next(alloc, &pending, applied(alloc, b"p", Term::Int(9))?, None)?;
    pending.undo();
    let back = is_next(
        alloc,
        &pending,
        applied(alloc, b"p", Term::Int(9))?,
        Some(9),
    )?;
    Ok(removed && back && gone_for_good(alloc, &mut pending)?)
}

// Whether the tenth request is gone once its mark is given up, and another one for its tuple is found.
fn gone_for_good(alloc: Global, pending: &mut Pending) -> Result<bool, Fault> {
    pending.mark()?;
    remove(pending, 9);
    pending.keep();
    let removed = is_next(alloc, pending, applied(alloc, b"p", Term::Int(9))?, None)?;
    let behind = is_next(
        alloc,
        pending,
        applied(alloc, b"p", Term::Int(10))?,
        Some(9),
    )?;
    ask(pending, applied(alloc, b"p", Term::Int(9))?)?;
    let again = is_next(
        alloc,
        pending,
        applied(alloc, b"p", Term::Int(9))?,
        Some(39),
    )?;
    Ok(removed && behind && again)
}

// Removes the request at a place, where there is one.
fn remove(pending: &mut Pending, place: usize) {
    if place < pending.list().len() {
        pending.remove(place);
    }
}

// Requests for these, of the agents 0, 1, ..: for the tuple p(n), and for 0 for any.
fn requests_for(alloc: Global, numbers: &[i64]) -> Result<Pending, Fault> {
    let mut pending = Pending::new(alloc);
    let mut agent: u32 = 0;
    for number in numbers {
        let wanted = if *number == 0 {
            Term::Var(0)
        } else {
            Term::Int(*number)
        };
        ask_for(&mut pending, agent, applied(alloc, b"p", wanted)?)?;
        agent = agent.wrapping_add(1);
    }
    Ok(pending)
}

// The bag of the tuples p(n).
fn bag_of(alloc: Global, numbers: &[i64]) -> Result<Bag, Fault> {
    let mut bag = Bag::new(alloc);
    for number in numbers {
        add(&mut bag, applied(alloc, b"p", Term::Int(*number))?)?;
    }
    Ok(bag)
}

// What is next of all the requests, by all the tuples.
fn first<L: Ledger>(
    pending: &Pending,
    bag: &Bag,
    blank: Blank,
) -> Result<Option<(usize, Option<u64>)>, NoMemory>
    requires name { blank.name ≡ L.name }
    requires parts { blank.parts ≡ L.parts }
    requires some { 0 < blank.parts }
{
    let mut steps = Steps::<L>::none(blank);
    pending.oldest_answerable(bag, &mut steps)
}

// Requests for these, the tuples that are there, and which request is answered next by which tuple.
type Row<'a> = (&'a [i64], &'a [i64], Option<(usize, u64)>);

/// The oldest request that a tuple answers is next, and gets the oldest such tuple.
pub fn oldest(alloc: Global) -> Result<bool, Fault> {
    let rows: [Row; 6] = [
        (&[], &[1], None),
        (&[1], &[], None),
        (&[1, 2], &[3], None),
        (&[1, 2, 2], &[3, 2], Some((1, 1))),
        (&[0, 2], &[3, 2], Some((0, 0))),
        (&[9, 0], &[4, 5], Some((1, 0))),
    ];
    let mut all = true;
    for (wanted, there, place) in rows {
        let pending = requests_for(alloc, wanted)?;
        let found = first::<Brand>(&pending, &bag_of(alloc, there)?, Blank::new(1))?;
        all = found == place.map(|(request, age)| (request, Some(age))) && all;
    }
    Ok(all)
}

// Whether the requests are those of these agents.
fn are_of(pending: &Pending, agents: &[u32]) -> bool {
    let requests = pending.list();
    if requests.len() != agents.len() {
        return false;
    }
    for (request, agent) in requests.iter().zip(agents) {
        if request.id.agent != *agent {
            return false;
        }
    }
    true
}

/// What is removed under a mark within a mark comes back with its own mark, or with the outer one where
/// its own was given up.
pub fn removed_within(alloc: Global) -> Result<bool, Fault> {
    let mut pending = requests_for(alloc, &[1, 2, 3])?;
    pending.mark()?;
    remove(&mut pending, 1);
    let outer = are_of(&pending, &[0, 2]);
    pending.mark()?;
    remove(&mut pending, 0);
    pending.undo();
    let back = are_of(&pending, &[0, 2]);
    pending.mark()?;
    remove(&mut pending, 1);
    pending.keep();
    let kept = are_of(&pending, &[0]);
    pending.undo();
    Ok(outer && back && kept && are_of(&pending, &[0, 1, 2]))
}

// Removes the request at a place, and adds one of this agent behind the others.
fn exchange(alloc: Global, pending: &mut Pending, place: usize, agent: u32) -> Result<(), Fault> {
    remove(pending, place);
    ask_for(pending, agent, applied(alloc, b"p", Term::Int(1))?)
}

/// Requests that were removed and added under marks within marks come back in order.
pub fn exchanged_within(alloc: Global) -> Result<bool, Fault> {
    let mut pending = requests_for(alloc, &[1, 2, 3])?;
    pending.mark()?;
    exchange(alloc, &mut pending, 0, 3)?;
    exchange(alloc, &mut pending, 2, 4)?;
    let outer = are_of(&pending, &[1, 2, 4]);
    pending.mark()?;
    exchange(alloc, &mut pending, 1, 5)?;
    exchange(alloc, &mut pending, 0, 6)?;
    exchange(alloc, &mut pending, 1, 7)?;
    let inner = are_of(&pending, &[4, 6, 7]);
    pending.undo();
    let back = are_of(&pending, &[1, 2, 4]);
    pending.undo();
    Ok(outer && inner && back && are_of(&pending, &[0, 1, 2]))
}

/// A copy of a request asks for the same.
pub fn copies(alloc: Global) -> Result<bool, Fault> {
    let pending = requests_for(alloc, &[5])?;
    let [request] = pending.list() else {
        return Ok(false);
    };
    let copy = request.copy(alloc)?;
    let wanted = applied(alloc, b"p", Term::Int(5))?;
    Ok(copy.wants == Wants::Take && copy.id == request.id && *copy.template.term() == wanted)
}

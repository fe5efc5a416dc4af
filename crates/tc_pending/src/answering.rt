//! Which of the requests that wait is answered next.
ghost use Rattle.std.specs.Prelude.{◌≡◌, ◌<◌, ◌≤◌, ◌+◌, Contains, Some, length, take, drop};
ghost use Rattle.std.specs.Prelude.{IfSome, IfNone};
ghost use Rattle.tc_lists.specs.Firsts.{NoneOf};
ghost use Rattle.tc_bag.specs.Stock.{Row, begun, tuples_of};
ghost use Rattle.tc_model.specs.State.{IsAnswerable};
ghost use Rattle.tc_steps.specs.Tops.{agreeing};
ghost use Rattle.tc_pending.specs.Answers.{AsksFor, IsAnsweredBy, IsNextAnswer, IsKnown};
ghost use Rattle.tc_pending.specs.Answers.{IsFree, IsMet, IsOldestMet, IsOldestSuch, NoneOlder};
ghost use Rattle.tc_pending.specs.Costs.{requests_steps};
ghost use Rattle.tc_pending.specs.Filed.{AreLent, IsSuch};

use crate::asking::{is_free, oldest_asking, wants_tuple};
use crate::waiters::Waiters;
use std::sync::ledger::Ledger;
use tc_bag::{Bag, Key};
use tc_model::Request;
use tc_search::oldest_match_of;
use tc_steps::Steps;

/// What is known of the first `requests` requests: none that wants a tuple can be answered by one
/// of an age below `age`, and none that wants absence could be answered at the bag's first mark, or
/// where it has no mark, now.
#[derive(Debug, Clone, Copy, Drop)]
pub struct Known {
    pub requests: usize,
    pub age: u64,
}

impl Known {
    ghost use Rattle.std.specs.Prelude.{◌≡◌, ◌-◌, ◌<◌, ◌≤◌, List, Contains};
    ghost use Rattle.std.specs.Prelude.{length, remove};
    ghost use Rattle.tc_bag.specs.Stock.{Row};
    ghost use Rattle.tc_model.specs.declared.calls.Request.{Request};
    ghost use Rattle.tc_pending.specs.Answers.{IsKnown};

    /// What is known once the request at a place is gone, and perhaps tuples.
    pub fn without(self, place: usize) -> Known
        ensures known { (begun rows left : List Row) (requests : List Request)
            → ((row : Row) → Contains left row → Contains rows row)
            → place < length requests → IsKnown self begun rows requests
            → IsKnown result begun left (remove requests place) }
        ensures inside { (requests : List Request) → place < length requests
            → self.requests ≤ length requests
            → result.requests ≤ length (remove requests place) }
        ensures age { result.age ≡ self.age }
    {
        let requests = if place < self.requests {
            self.requests - 1
        } else {
            self.requests
        };
        Known {
            requests,
            age: self.age,
        }
    }
}

/// The place of the oldest of the known requests that can be answered, and what answers it: the age
/// of a tuple, which is new to it, or nothing, where it wants absence and what matched has gone.
///
/// No memory is taken.
pub(crate) fn newly_answerable<L: Ledger>(
    waiters: &Waiters,
    bag: &Bag,
    known: Known,
    steps: &mut Steps<L>,
) -> Option<(usize, Option<u64>)>
    requires lent { AreLent waiters.now }
    requires known { IsKnown known (begun bag.now) bag.now.now waiters.now.requests.now }
    requires inside { known.requests ≤ length waiters.now.requests.now }
    ensures found { IfSome result
        (λ r. IsNextAnswer bag.now.now waiters.now.requests.now r.0 r.1) }
    ensures none { IfNone result (NoneOf (IsAnswerable (tuples_of bag.now.now))
        (take known.requests waiters.now.requests.now)) }
    ensures rises { steps.old ≤ steps.new }
{
    match newly_met(waiters, bag, known, steps) {
        Some((place, age)) => match newly_free(waiters, bag, place, steps) {
            Some(other) => Some((other, None)),
            None => Some((place, Some(age))),
        },
        None => match newly_free(waiters, bag, known.requests, steps) {
            Some(place) => Some((place, None)),
            None => None,
        },
    }
}

// The place of the oldest of the known requests that wants a tuple and can be answered, and the age
// of the oldest tuple that answers it.
fn newly_met<L: Ledger>(
    waiters: &Waiters,
    bag: &Bag,
    known: Known,
    steps: &mut Steps<L>,
) -> Option<(usize, u64)>
    requires lent { AreLent waiters.now }
    requires known { NoneOlder known.age bag.now.now
        (take known.requests waiters.now.requests.now) }
    requires inside { known.requests ≤ length waiters.now.requests.now }
    ensures found { IfSome result
        (λ r. IsOldestMet bag.now.now waiters.now.requests.now r.0 r.1) }
    ensures inside { IfSome result (λ r. r.0 < known.requests) }
    ensures none { IfNone result (NoneOf (IsMet (tuples_of bag.now.now))
        (take known.requests waiters.now.requests.now)) }
    ensures rises { steps.old ≤ steps.new }
{
    if known.requests == 0 {
        return None;
    }
    let mut next = None;
    let mut count = known.requests;
    let mut from = known.age;
    while let Some((age, tuple)) = bag.candidate(&Key::Any, from, steps) {
        if count == 0 {
            return next;
        }
        if let Some(place) = oldest_asking(waiters, count, tuple, None, steps) {
            next = Some((place, age));
            count = place;
        }
        from = age + 1;
    }
    next
}

// The place of the oldest of the first `count` requests that wants absence and can be answered,
// where none of them could be so at the bag's first mark.
//
// Only where a request ever wanted absence more is done than to ask whether one did.
#[inline(always)]
fn newly_free<L: Ledger>(
    waiters: &Waiters,
    bag: &Bag,
    count: usize,
    steps: &mut Steps<L>,
) -> Option<usize>
    requires lent { AreLent waiters.now }
    requires inside { count ≤ length waiters.now.requests.now }
    requires had { NoneOf (IsFree (tuples_of (begun bag.now)))
        (take count waiters.now.requests.now) }
    ensures found { IfSome result
        (IsOldestSuch (IsFree (tuples_of bag.now.now)) waiters.now.requests.now) }
    ensures inside { IfSome result (λ place. place < count) }
    ensures none { IfNone result (NoneOf (IsFree (tuples_of bag.now.now))
        (take count waiters.now.requests.now)) }
    ensures rises { steps.old ≤ steps.new }
{
    if waiters.absences {
        oldest_free(waiters, bag, count, steps)
    } else {
        None
    }
}

// The same, by what has gone since that mark.
fn oldest_free<L: Ledger>(
    waiters: &Waiters,
    bag: &Bag,
    count: usize,
    steps: &mut Steps<L>,
) -> Option<usize>
    requires lent { AreLent waiters.now }
    requires inside { count ≤ length waiters.now.requests.now }
    requires had { NoneOf (IsFree (tuples_of (begun bag.now)))
        (take count waiters.now.requests.now) }
    ensures found { IfSome result
        (IsOldestSuch (IsFree (tuples_of bag.now.now)) waiters.now.requests.now) }
    ensures inside { IfSome result (λ place. place < count) }
    ensures none { IfNone result (NoneOf (IsFree (tuples_of bag.now.now))
        (take count waiters.now.requests.now)) }
    ensures rises { steps.old ≤ steps.new }
{
    let gone = bag.taken();
    if count <= gone.len() {
        return first_free(waiters.requests, bag, count, steps);
    }
    let mut least = count;
    for i in 0..gone.len() {
        least = freed_by(waiters, bag, least, gone[i], steps);
    }
    if least < count { Some(least) } else { None }
}

// The same, where each of these requests is looked at.
fn first_free<L: Ledger>(
    requests: &[Request],
    bag: &Bag,
    count: usize,
    steps: &mut Steps<L>,
) -> Option<usize>
    requires inside { count ≤ length requests.now }
    ensures found { IfSome result (IsOldestSuch (IsFree (tuples_of bag.now.now)) requests.now) }
    ensures inside { IfSome result (λ place. place < count) }
    ensures none { IfNone result (NoneOf (IsFree (tuples_of bag.now.now))
        (take count requests.now)) }
    ensures rises { steps.old ≤ steps.new }
{
    for place in 0..count {
        if is_free(&requests[place], bag, steps) {
            return Some(place);
        }
    }
    None
}

// The place of the oldest of the first `count` requests that wants absence, that the tuple of this
// age matched, and that can be answered; `count` where there is none.
fn freed_by<L: Ledger>(
    waiters: &Waiters,
    bag: &Bag,
    count: usize,
    age: u64,
    steps: &mut Steps<L>,
) -> usize
    requires lent { AreLent waiters.now }
    requires inside { count ≤ length waiters.now.requests.now }
    ensures inside { result ≤ count }
    ensures free { result < count
        → IsSuch (IsFree (tuples_of bag.now.now)) waiters.now.requests.now result }
    ensures none { (row : Row) → Contains (begun bag.now) row → row.age ≡ age
        → NoneOf (AsksFor (Some (tuples_of bag.now.now)) row.tuple)
        (take result waiters.now.requests.now) }
    ensures rises { steps.old ≤ steps.new }
{
    match bag.get_begun(age) {
        Some(tuple) => match oldest_asking(waiters, count, tuple, Some(bag), steps) {
            Some(place) => place,
            None => count,
        },
        None => count,
    }
}

/// The place of the oldest request that can be answered, and what answers it, where none before
/// `place` can be answered.
///
/// No memory is taken.
pub fn answerable_from<L: Ledger>(
    requests: &[Request],
    bag: &Bag,
    place: usize,
    steps: &mut Steps<L>,
) -> Option<(usize, Option<u64>)>
    requires none { NoneOf (IsAnswerable (tuples_of bag.now.now)) (take place requests.now) }
    requires inside { place ≤ length requests.now }
    ensures found { IfSome result (λ r. IsNextAnswer bag.now.now requests.now r.0 r.1) }
    ensures none { IfNone result (NoneOf (IsAnswerable (tuples_of bag.now.now)) requests.now) }
    ensures counted { steps.new
        ≤ steps.old + requests_steps (tuples_of bag.now.now) (drop place requests.now) }
    ensures rises { steps.old ≤ steps.new }
{
    for at in place..requests.len() {
        if let Some(age) = answer_to(&requests[at], bag, steps) {
            return Some((at, age));
        }
    }
    None
}

// What answers a request: the age of the oldest tuple that matches, or nothing, where it wants
// absence and none matches.
fn answer_to<L: Ledger>(request: &Request, bag: &Bag, steps: &mut Steps<L>) -> Option<Option<u64>>
    ensures found { IfSome result
        (IsAnsweredBy bag.now.now request.now.wants request.now.template) }
    ensures none { IfNone result (IsAnswerable (tuples_of bag.now.now) request.now → ⊥) }
    ensures counted { steps.new
        ≤ steps.old + agreeing request.now.template (tuples_of bag.now.now) }
    ensures rises { steps.old ≤ steps.new }
{
    let is_tuple = wants_tuple(request.wants);
    match oldest_match_of(&request.template, bag, steps) {
        Some((age, _)) => { if is_tuple { Some(Some(age)) } else { None } }
        None => { if is_tuple { None } else { Some(None) } }
    }
}

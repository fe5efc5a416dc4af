//! The oldest of the requests that wait that asks for a tuple that has come, or that has gone.
ghost use Rattle.std.specs.Prelude.{◌≡◌, ◌↔◌, ◌<◌, ◌≤◌, false, length, take, IsTrue};
ghost use Rattle.std.specs.Prelude.{IfSome, IfNone};
ghost use Rattle.tc_lists.specs.Firsts.{NoneOf};
ghost use Rattle.tc_bag.specs.Stock.{tuples_of};
ghost use Rattle.tc_model.specs.State.{WantsTuple};
ghost use Rattle.tc_pending.specs.Answers.{AsksFor, IsFree, IsOldestSuch};
ghost use Rattle.tc_pending.specs.Codes.{request_code, codes_of};
ghost use Rattle.tc_pending.specs.Rising.{NumbersRise};
ghost use Rattle.tc_pending.specs.Filed.{AreIndexed, AreLent, IsWanted, Asks, sought, tuples_in};
ghost use Rattle.tc_pending.specs.Filed.{HasFirst, HasNone, IsSuch, NoneSuch};

use crate::codes::{code_for, code_of};
use crate::index::Index;
use crate::numbers::{count_below, place_of};
use crate::waiters::Waiters;
use std::sync::ledger::Ledger;
use tc_bag::{Bag, top_code};
use tc_model::{Request, Wants};
use tc_search::{does_match, oldest_match_of};
use tc_steps::Steps;
use tc_term::Ground;

/// A tuple that requests may ask for; where it has gone, the bag in which others are left; and the
/// codes of requests that may ask for it: for any tuple, for one of its functor, and for it alone.
#[derive(Clone, Copy)]
pub(crate) struct Wanted<'a> {
    tuple: &'a Ground,
    left: Option<&'a Bag>,
    any: u64,
    top: u64,
    whole: u64,
}

/// The place of the oldest of the first `count` requests that asks for a tuple: for one that has
/// come, or where a bag is given that others are left in, for one that has gone.
#[inline(always)]
pub(crate) fn oldest_asking<L: Ledger>(
    waiters: &Waiters,
    count: usize,
    tuple: &Ground,
    left: Option<&Bag>,
    steps: &mut Steps<L>,
) -> Option<usize>
    requires lent { AreLent waiters.now }
    requires inside { count ≤ length waiters.now.requests.now }
    ensures found { IfSome result
        (IsOldestSuch (AsksFor (tuples_in left.entry) tuple.now) waiters.now.requests.now) }
    ensures inside { IfSome result (λ place. place < count) }
    ensures none { IfNone result (NoneOf (AsksFor (tuples_in left.entry) tuple.now)
        (take count waiters.now.requests.now)) }
    ensures rises { steps.old ≤ steps.new }
{
    let wants = sought(left);
    let wanted = Wanted {
        tuple,
        left,
        any: code_for(wants, 0),
        top: code_for(wants, top_code(tuple.term())),
        whole: code_for(wants, code_of(tuple.term())),
    };
    let start = count_below(waiters.serials, waiters.filed).min(count);
    let place = looked_up(waiters, start, &wanted, steps);
    if place < start {
        return Some(place);
    }
    gone_through(waiters, start, count, &wanted, steps)
}

// What the requests want that may ask for a tuple: one, where it has come; absence, where it has
// gone and others are left.
fn sought(left: Option<&Bag>) -> Wants
    ensures { result ≡ sought (tuples_in left.entry) }
{
    match left {
        None => Wants::Take,
        Some(_) => Wants::Absence,
    }
}

// The place of the oldest of the first `count` requests that asks for a tuple, where the index has
// them; `count` where there is none.
fn looked_up<L: Ledger>(
    waiters: &Waiters,
    count: usize,
    wanted: &Wanted,
    steps: &mut Steps<L>,
) -> usize
    requires indexed { AreIndexed waiters.now count }
    requires wanted { IsWanted wanted.now }
    ensures inside { result ≤ count }
    ensures asks { result < count → IsSuch (Asks wanted.now) waiters.now.requests.now result }
    ensures none { NoneOf (Asks wanted.now) (take result waiters.now.requests.now) }
    ensures rises { steps.old ≤ steps.new }
{
    if count == 0 {
        return 0;
    }
    let any = asking_by(waiters, wanted.any, count, wanted, steps);
    let same = asking_by(waiters, wanted.top, any, wanted, steps);
    asking_by(waiters, wanted.whole, same, wanted, steps)
}

// The place of the oldest of the first `count` requests that asks for a tuple, by their codes,
// where none before `start` does.
fn gone_through<L: Ledger>(
    waiters: &Waiters,
    start: usize,
    count: usize,
    wanted: &Wanted,
    steps: &mut Steps<L>,
) -> Option<usize>
    requires codes { waiters.now.codes.now ≡ codes_of waiters.now.requests.now }
    requires inside { count ≤ length waiters.now.requests.now }
    requires start { start ≤ count }
    requires none { NoneOf (Asks wanted.now) (take start waiters.now.requests.now) }
    requires wanted { IsWanted wanted.now }
    ensures found { IfSome result (IsOldestSuch (Asks wanted.now) waiters.now.requests.now) }
    ensures inside { IfSome result (λ place. place < count) }
    ensures none { IfNone result
        (NoneOf (Asks wanted.now) (take count waiters.now.requests.now)) }
    ensures rises { steps.old ≤ steps.new }
{
    let requests = waiters.requests;
    let codes = waiters.codes;
    for place in start..count {
        if asks(&requests[place], codes[place], wanted, steps) {
            return Some(place);
        }
    }
    None
}

// Whether a request of this code asks for a tuple.
fn asks<L: Ledger>(request: &Request, code: u64, wanted: &Wanted, steps: &mut Steps<L>) -> bool
    requires code { code ≡ request_code request.now }
    requires wanted { IsWanted wanted.now }
    ensures exact { IsTrue result ↔ Asks wanted.now request.now }
    ensures rises { steps.old ≤ steps.new }
{
    if code != wanted.any && code != wanted.top && code != wanted.whole {
        return false;
    }
    is_asking(request, wanted, steps)
}

// Whether a request asks for a tuple.
fn is_asking<L: Ledger>(request: &Request, wanted: &Wanted, steps: &mut Steps<L>) -> bool
    ensures exact { IsTrue result ↔ Asks wanted.now request.now }
    ensures rises { steps.old ≤ steps.new }
{
    if !does_match(&request.template, wanted.tuple) {
        return false;
    }
    match wanted.left {
        None => wants_tuple(request.wants),
        Some(bag) => is_free(request, bag, steps),
    }
}

/// Whether a request wants absence, and no tuple matches.
pub(crate) fn is_free<L: Ledger>(request: &Request, bag: &Bag, steps: &mut Steps<L>) -> bool
    ensures exact { IsTrue result ↔ IsFree (tuples_of bag.now.now) request.now }
    ensures rises { steps.old ≤ steps.new }
{
    if wants_tuple(request.wants) {
        return false;
    }
    match oldest_match_of(&request.template, bag, steps) {
        Some(_) => false,
        None => true,
    }
}

/// Whether a tuple is wanted, and not absence.
pub(crate) fn wants_tuple(wants: Wants) -> bool
    ensures { IsTrue result ↔ WantsTuple wants }
{
    match wants {
        Wants::Take | Wants::Look => true,
        Wants::Absence => false,
    }
}

/// Whether a request wanted absence before, or this one does.
pub(crate) fn with_absence(absences: bool, request: &Request) -> bool
    ensures { result ≡ false → (absences ≡ false) × WantsTuple request.now.wants }
{
    match request.wants {
        Wants::Take | Wants::Look => absences,
        Wants::Absence => true,
    }
}

// The place of the oldest of the first `count` requests that has this code and asks for a tuple,
// where the index has them; `count` where there is none.
fn asking_by<L: Ledger>(
    waiters: &Waiters,
    code: u64,
    count: usize,
    wanted: &Wanted,
    steps: &mut Steps<L>,
) -> usize
    requires indexed { AreIndexed waiters.now count }
    ensures inside { result ≤ count }
    ensures asks { result < count → IsSuch (Asks wanted.now) waiters.now.requests.now result }
    ensures none { NoneSuch (Asks wanted.now) waiters.now.requests.now code result }
    ensures rises { steps.old ≤ steps.new }
{
    let requests = waiters.requests;
    let mut at = 0;
    while let Some(place) = next_by(
        waiters.codes,
        waiters.serials,
        waiters.index,
        code,
        at,
        count,
    ) {
        if is_asking(&requests[place], wanted, steps) {
            return place;
        }
        at = place + 1;
    }
    count
}

// The first place from `at` on of the first `count` requests that has this code, where the index
// has them.
fn next_by(
    codes: &[u64],
    serials: &[u64],
    index: &Index,
    code: u64,
    at: usize,
    count: usize,
) -> Option<usize>
    requires each { length serials.now ≡ length codes.now }
    requires rises { NumbersRise serials.now }
    requires has { HasFirst index.now codes.now serials.now count }
    requires inside { count ≤ length serials.now }
    ensures inside { IfSome result (λ place. (at ≤ place) × (place < count)) }
    ensures found { IfSome result (λ place. HasNone codes.now code at place) }
    ensures none { IfNone result (HasNone codes.now code at count) }
{
    if at >= count {
        return None;
    }
    let mut from = serials[at];
    while let Some(serial) = index.next(code, from) {
        if let Some(place) = place_of(serials, serial) {
            return if place < count { Some(place) } else { None };
        }
        from = serial.checked_add(1)?;
    }
    None
}

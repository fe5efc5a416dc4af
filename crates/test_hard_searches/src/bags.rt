//! Bags that are hard to search.
use crate::fault::Fault;
use crate::terms::{add, applied, is_first, is_oldest, key, oldest_from, wide, word};
use std::alloc::Global;
use tc_bag::{Bag, Key};
use tc_term::Term;

// The bag of so many tuples `p(1)`.
fn of_equals(alloc: Global, count: u32) -> Result<Bag, Fault> {
    let mut bag = Bag::new(alloc);
    for _ in 0..count {
        add(&mut bag, applied(alloc, b"p", Term::Int(1))?)?;
    }
    Ok(bag)
}

// Takes the oldest tuples of a key, so many where there are as many, and tells how many it took.
fn take_oldest(bag: &mut Bag, key: &Key, count: u32) -> u32 {
    let mut taken = 0u32;
    for _ in 0..count {
        let Some(age) = oldest_from(bag, key, 0) else {
            return taken;
        };
        bag.take(age);
        taken = taken.saturating_add(1);
    }
    taken
}

/// Among a million equal tuples the oldest is found, and the youngest.
pub fn a_million(alloc: Global) -> Result<bool, Fault> {
    let mut bag = of_equals(alloc, 1_000_000)?;
    let key = key(alloc, b"p")?;
    let one = Term::Int(1);
    let before = is_oldest(&bag, &key, Some(0)) && is_first(&bag, &key, &one, Some(0));
    let taken = take_oldest(&mut bag, &key, 1_000);
    let behind = is_oldest(&bag, &key, Some(1_000)) && is_first(&bag, &key, &one, Some(1_000));
    let youngest = oldest_from(&bag, &key, 999_999) == Some(999_999);
    let beyond = oldest_from(&bag, &key, 1_000_000).is_none();
    Ok(before && taken == 1_000 && behind && youngest && beyond && bag.len() == 999_000)
}

/// Tuples that were taken under a mark are passed over, come back, and are gone once the mark is given
/// up.
pub fn many_takes(alloc: Global) -> Result<bool, Fault> {
    let mut bag = of_equals(alloc, 100_000)?;
    let key = key(alloc, b"p")?;
    let by_key = comes_back(&mut bag, &key)?;
    let by_none = comes_back(&mut bag, &Key::Any)?;
    bag.mark()?;
    let taken = take_oldest(&mut bag, &key, 10_000);
    bag.keep();
    let kept = is_oldest(&bag, &Key::Any, Some(10_000)) && bag.len() == 90_000;
    Ok(by_key && by_none && taken == 10_000 && kept)
}

// Whether tuples of a key that are taken under a mark come back.
fn comes_back(bag: &mut Bag, key: &Key) -> Result<bool, Fault> {
    bag.mark()?;
    let taken = take_oldest(bag, key, 10_000);
    let passed = is_oldest(bag, key, Some(10_000));
    bag.undo();
    Ok(taken == 10_000 && passed && is_oldest(bag, key, Some(0)) && bag.len() == 100_000)
}

/// First arguments of one code are told apart: compounds of one functor, and numbers that differ in
/// their signs.
pub fn first_arguments(alloc: Global) -> Result<bool, Fault> {
    let mut bag = Bag::new(alloc);
    for n in 0..1_000 {
        add(
            &mut bag,
            applied(alloc, b"q", applied(alloc, b"p", Term::Int(n))?)?,
        )?;
    }
    for n in [7, -7] {
        add(&mut bag, applied(alloc, b"q", Term::Int(n))?)?;
    }
    let key = key(alloc, b"q")?;
    let last = applied(alloc, b"p", Term::Int(999))?;
    let there = is_first(&bag, &key, &last, Some(999))
        && is_first(&bag, &key, &Term::Int(-7), Some(1_001));
    bag.take(999);
    bag.take(1_001);
    let gone = is_first(&bag, &key, &last, None) && is_first(&bag, &key, &Term::Int(-7), None);
    Ok(there && gone && is_first(&bag, &key, &Term::Int(7), Some(1_000)))
}

/// First arguments may be as large as tuples.
pub fn large_arguments(alloc: Global) -> Result<bool, Fault> {
    let mut bag = Bag::new(alloc);
    for last in 0..100 {
        add(&mut bag, applied(alloc, b"q", wide(alloc, 9_997, last)?)?)?;
    }
    let key = key(alloc, b"q")?;
    let there = is_first(&bag, &key, &wide(alloc, 9_997, 99)?, Some(99));
    let other = is_first(&bag, &key, &wide(alloc, 9_997, 100)?, None);
    let narrower = is_first(&bag, &key, &wide(alloc, 9_996, 99)?, None);
    Ok(there && other && narrower)
}

/// Names of one code are told apart, as tuples and as first arguments.
pub fn names(alloc: Global) -> Result<bool, Fault> {
    let mut bag = Bag::new(alloc);
    let one = Term::Atom(word(alloc, false)?);
    let other = Term::Atom(word(alloc, true)?);
    add(&mut bag, one.copy(alloc)?)?;
    add(&mut bag, applied(alloc, b"q", one.copy(alloc)?)?)?;
    let alone = is_oldest(&bag, &Key::Atom(word(alloc, false)?), Some(0));
    let unlike = is_oldest(&bag, &Key::Atom(word(alloc, true)?), None);
    let key = key(alloc, b"q")?;
    let within = is_first(&bag, &key, &one, Some(1)) && is_first(&bag, &key, &other, None);
    Ok(alone && unlike && within)
}

//! The answers of rows, as comments of a table.
use std::alloc::Global;
use tc_bag::Bag;
use tc_lists::{NoMemory, append_number};
use tc_model::{BadSpec, Effect, Event, Item, SpecCause};
use tc_print::print_term;
use tc_term::{Ground, Term};

// What stands before an answer.
const BEGIN: &[u8] = b"\n    % ";

/// What comes of a body: its item, the events that it raises, and the tuples that it leaves.
pub fn print_outcome(
    alloc: Global,
    item: &Item,
    events: &[Event],
    bag: &Bag,
    into: &mut Vec<u8>,
) -> Result<(), NoMemory> {
    print_item(alloc, item, into)?;
    print_events(alloc, events, into)?;
    print_tuples(alloc, bag, into)
}

// Whether a reaction has fired, or at which goal it has failed, and its effects.
fn print_item(alloc: Global, item: &Item, into: &mut Vec<u8>) -> Result<(), NoMemory> {
    into.extend_from_slice(BEGIN)?;
    match item {
        Item::Fired { effects, .. } => {
            into.extend_from_slice(b"fired")?;
            print_effects(alloc, effects.items(), into)
        }
        Item::Failed { goal, effects, .. } => {
            into.extend_from_slice(b"failed at ")?;
            append_number(u64::from(*goal), into)?;
            print_effects(alloc, effects.items(), into)
        }
    }
}

// Effects, in order.
fn print_effects(alloc: Global, effects: &[Effect], into: &mut Vec<u8>) -> Result<(), NoMemory> {
    for effect in effects {
        let (word, tuple) = parts_of(effect);
        into.extend_from_slice(word)?;
        print_term(alloc, tuple.term(), into)?;
    }
    Ok(())
}

// The word and the tuple of an effect.
fn parts_of(effect: &Effect) -> (&'static [u8], &Ground) {
    match effect {
        Effect::Put(tuple) => (b" put ", tuple),
        Effect::Took(tuple) => (b" took ", tuple),
        Effect::Read(tuple) => (b" read ", tuple),
    }
}

// Events, in order.
fn print_events(alloc: Global, events: &[Event], into: &mut Vec<u8>) -> Result<(), NoMemory> {
    let mut between: &[u8] = b"; raises ";
    for event in events {
        into.extend_from_slice(between)?;
        print_event(alloc, event, into)?;
        between = b", ";
    }
    Ok(())
}

// An event's operation on its term.
fn print_event(alloc: Global, event: &Event, into: &mut Vec<u8>) -> Result<(), NoMemory> {
    into.extend_from_slice(event.op().name())?;
    into.extend_from_slice(b"(")?;
    print_term(alloc, event.term().term(), into)?;
    into.extend_from_slice(b")")
}

// The tuples of a bag, oldest first.
fn print_tuples(alloc: Global, bag: &Bag, into: &mut Vec<u8>) -> Result<(), NoMemory> {
    let mut between: &[u8] = b"; leaves ";
    for i in 0..bag.len() {
        let Some(tuple) = bag.nth(i) else {
            return Ok(());
        };
        into.extend_from_slice(between)?;
        print_term(alloc, tuple.term(), into)?;
        between = b", ";
    }
    Ok(())
}

/// How many clauses a text is.
pub fn print_count(count: usize, into: &mut Vec<u8>) -> Result<(), NoMemory> {
    into.extend_from_slice(BEGIN)?;
    append_number(count as u64, into)?;
    into.extend_from_slice(if count == 1 { b" clause" } else { b" clauses" })
}

/// The faulty clause of a text, and why it is faulty.
pub fn print_bad(bad: BadSpec, into: &mut Vec<u8>) -> Result<(), NoMemory> {
    into.extend_from_slice(BEGIN)?;
    into.extend_from_slice(b"clause ")?;
    append_number(u64::from(bad.clause), into)?;
    into.extend_from_slice(cause(bad.cause))
}

// The word of a cause.
fn cause(cause: SpecCause) -> &'static [u8] {
    match cause {
        SpecCause::Syntax => b": syntax",
        SpecCause::Size => b": size",
        SpecCause::Shape => b": shape",
        SpecCause::Head => b": head",
        SpecCause::Goal => b": goal",
        SpecCause::Count => b": count",
    }
}

/// Numbers of clauses.
pub fn print_numbers(numbers: &[u32], into: &mut Vec<u8>) -> Result<(), NoMemory> {
    into.extend_from_slice(BEGIN)?;
    into.extend_from_slice(b"clauses")?;
    for number in numbers {
        into.extend_from_slice(b" ")?;
        append_number(u64::from(*number), into)?;
    }
    Ok(())
}

/// The lines of a text.
pub fn print_lines(text: &[u8], into: &mut Vec<u8>) -> Result<(), NoMemory> {
    let mut begins = true;
    for byte in text {
        if begins {
            into.extend_from_slice(BEGIN)?;
        }
        begins = *byte == b'\n';
        if !begins {
            into.push(*byte)?;
        }
    }
    Ok(())
}

//! Compounds and lists from kept parts.
ghost use Rattle.std.specs.Prelude.{◌≡◌, IfOk, OnOk, [], ◌∷◌, map, reverse};
ghost use Rattle.tc_term.specs.TreeView.{tree_of};
ghost use Rattle.tc_term.specs.Grammar.{between, cell, negated, nil};
ghost use Rattle.tc_read.specs.Items.{kept_item, parts_view};
ghost use Rattle.tc_read.specs.Frames.{below, frames_of, items_of, tops, top, under};
ghost use Rattle.tc_read.specs.Kept.{Small, Whole, finished, joined, kept, whole};
ghost use Rattle.tc_read.specs.Machine.{applied, cells, turned};
ghost use Rattle.tc_read.specs.Views.{operator_view};

use crate::build::{atom, item};
use crate::frames::Stack;
use crate::measured::{Item, Measured, Parts, Several};
use crate::operators::Operator;
use std::alloc::Global;
use tc_lists::NoMemory;
use tc_term::{Args, MOST_BYTES_OF_NAMES, MOST_DEPTH, MOST_NODES, Name, Term};

/// No argument.
#[inline(always)]
fn none(alloc: Global, count: usize) -> Result<Parts, NoMemory>
    ensures { IfOk result (λ r. parts_view r ≡ Whole []) }
{
    Ok(Parts::Whole(Several {
        terms: Vec::with_capacity(alloc, count)?,
        nodes: 0,
        depth: 0,
        name_bytes: 0,
    }))
}

/// A term before these arguments.
#[inline(always)]
fn joined_term(term: Measured, several: Several) -> Result<Parts, NoMemory>
    ensures { IfOk result
        (λ r. parts_view r ≡ joined (Small (tree_of term.term))
        (Whole (reverse (map tree_of several.terms.items)))) }
{
    let nodes = several.nodes + usize::from(term.nodes);
    let depth = several.depth.max(usize::from(term.depth));
    let name_bytes = several.name_bytes + usize::from(term.name_bytes);
    if nodes >= MOST_NODES || depth >= MOST_DEPTH || name_bytes > MOST_BYTES_OF_NAMES {
        return Ok(Parts::Oversized);
    }
    let mut terms = several.terms;
    terms.push(term.term)?;
    Ok(Parts::Whole(Several {
        terms,
        nodes,
        depth,
        name_bytes,
    }))
}

/// An argument before these.
#[inline(always)]
fn join(argument: Item, parts: Parts) -> Result<Parts, NoMemory>
    ensures { IfOk result (λ r. parts_view r ≡ joined (kept_item argument) (parts_view parts)) }
{
    match argument {
        Item::Wide(place) => Ok(Parts::Wide(place)),
        Item::Large => match parts {
            Parts::Wide(place) => Ok(Parts::Wide(place)),
            Parts::Whole(_) => Ok(Parts::Oversized),
            Parts::Oversized => Ok(Parts::Oversized),
        },
        Item::Small(term) => match parts {
            Parts::Wide(place) => Ok(Parts::Wide(place)),
            Parts::Whole(several) => joined_term(term, several),
            Parts::Oversized => Ok(Parts::Oversized),
        },
    }
}

/// The compound of this name with these arguments.
#[inline(always)]
fn finish(alloc: Global, name: Name, parts: Parts) -> Result<Item, NoMemory>
    ensures { IfOk result (λ r. kept_item r ≡ finished name (parts_view parts)) }
{
    match parts {
        Parts::Wide(place) => Ok(Item::Wide(place)),
        Parts::Oversized => Ok(Item::Large),
        Parts::Whole(several) => whole(alloc, name, several),
    }
}

#[inline(always)]
fn whole(alloc: Global, name: Name, several: Several) -> Result<Item, NoMemory>
    ensures { IfOk result
        (λ r. kept_item r ≡ whole name (reverse (map tree_of several.terms.items))) }
{
    let length = name.bytes().len();
    if several.terms.len() == 0 || length > MOST_BYTES_OF_NAMES {
        return Ok(Item::Large);
    }
    let mut terms = several.terms;
    terms.reverse();
    let args = Args::new(alloc, terms)?;
    Ok(item(
        Term::Comp(name, args),
        several.nodes + 1,
        several.depth + 1,
        several.name_bytes + length,
    ))
}

/// The compound of this name with this argument.
#[inline(always)]
fn over_one(alloc: Global, name: Name, x: Measured) -> Result<Item, NoMemory>
    ensures { IfOk result
        (λ r. kept_item r ≡ kept.compound name (Small (tree_of x.term)) []) }
{
    let length = name.bytes().len();
    if length > MOST_BYTES_OF_NAMES {
        return Ok(Item::Large);
    }
    let nodes = usize::from(x.nodes) + 1;
    let depth = usize::from(x.depth) + 1;
    let name_bytes = usize::from(x.name_bytes) + length;
    let args = Args::one(alloc, x.term)?;
    Ok(item(Term::Comp(name, args), nodes, depth, name_bytes))
}

/// The compound of this name with these arguments.
#[inline(always)]
fn over_two(alloc: Global, name: Name, x: Measured, y: Measured) -> Result<Item, NoMemory>
    ensures { IfOk result
        (λ r. kept_item r ≡ kept.compound name (Small (tree_of x.term))
        (Small (tree_of y.term) ∷ [])) }
{
    let length = name.bytes().len();
    if length > MOST_BYTES_OF_NAMES {
        return Ok(Item::Large);
    }
    let nodes = usize::from(x.nodes) + usize::from(y.nodes) + 1;
    let depth = usize::from(x.depth).max(usize::from(y.depth)) + 1;
    let name_bytes = usize::from(x.name_bytes) + usize::from(y.name_bytes) + length;
    let args = Args::two(alloc, x.term, y.term)?;
    Ok(item(Term::Comp(name, args), nodes, depth, name_bytes))
}

/// A compound of one argument.
#[inline(always)]
fn single(alloc: Global, name: Name, argument: Item) -> Result<Item, NoMemory>
    ensures { IfOk result (λ r. kept_item r ≡ kept.compound name (kept_item argument) []) }
{
    match argument {
        Item::Wide(place) => Ok(Item::Wide(place)),
        Item::Large => Ok(Item::Large),
        Item::Small(x) => over_one(alloc, name, x),
    }
}

/// A compound of two arguments.
#[inline(always)]
fn pair(alloc: Global, name: Name, left: Item, right: Item) -> Result<Item, NoMemory>
    ensures { IfOk result
        (λ r. kept_item r ≡ kept.compound name (kept_item left) (kept_item right ∷ [])) }
{
    match left {
        Item::Wide(place) => Ok(Item::Wide(place)),
        Item::Large => match right {
            Item::Wide(place) => Ok(Item::Wide(place)),
            Item::Large | Item::Small(_) => Ok(Item::Large),
        },
        Item::Small(x) => match right {
            Item::Wide(place) => Ok(Item::Wide(place)),
            Item::Large => Ok(Item::Large),
            Item::Small(y) => over_two(alloc, name, x, y),
        },
    }
}

/// An operator between two terms.
pub fn between(alloc: Global, operator: Operator, left: Item, right: Item) -> Result<Item, NoMemory>
    ensures { IfOk result
        (λ r. kept_item r ≡ between kept (operator_view operator) (kept_item left)
        (kept_item right)) }
{
    pair(alloc, Name::new(alloc, operator.name)?, left, right)
}

/// A minus before a term.
pub fn negated(alloc: Global, of: Item) -> Result<Item, NoMemory>
    ensures { IfOk result (λ r. kept_item r ≡ negated kept (kept_item of)) }
{
    single(alloc, Name::new(alloc, b"-")?, of)
}

/// The empty list.
pub fn nil(alloc: Global) -> Result<Item, NoMemory>
    ensures { IfOk result (λ r. kept_item r ≡ nil kept) }
{
    Ok(atom(Name::new(alloc, b"[]")?))
}

/// A list of an element and a tail.
pub fn cell(alloc: Global, element: Item, tail: Item) -> Result<Item, NoMemory>
    ensures { IfOk result (λ r. kept_item r ≡ cell kept (kept_item element) (kept_item tail)) }
{
    pair(alloc, Name::new(alloc, b".")?, element, tail)
}

/// A list of so many last items, which are taken off, before a tail.
pub fn list(alloc: Global, count: usize, stack: &mut Stack, tail: Item) -> Result<Item, NoMemory>
    ensures list { IfOk result
        (λ r. kept_item r ≡ cells kept (tops count (items_of stack.old)) (kept_item tail)) }
    ensures items { OnOk result (items_of stack.new ≡ under count (items_of stack.old)) }
    ensures frames { frames_of stack.new ≡ frames_of stack.old }
{
    let mut whole = tail;
    let mut left = count;
    while left > 0 {
        left -= 1;
        whole = cell(alloc, stack.pop_item(), whole)?;
    }
    Ok(whole)
}

/// The compound of this name with the last item and so many before it, which are taken off.
pub fn compound(
    alloc: Global,
    name: Name,
    count: usize,
    stack: &mut Stack,
) -> Result<Item, NoMemory>
    ensures compound { IfOk result
        (λ r. kept_item r ≡ applied kept name
        (turned (tops count (below (items_of stack.old))) (top (items_of stack.old) ∷ []))) }
    ensures items { OnOk result
        (items_of stack.new ≡ under count (below (items_of stack.old))) }
    ensures frames { frames_of stack.new ≡ frames_of stack.old }
{
    if count == 0 {
        let only = stack.pop_item();
        let item = single(alloc, name, only)?;
        return Ok(item);
    }
    if count == 1 {
        let last = stack.pop_item();
        let first = stack.pop_item();
        let item = pair(alloc, name, first, last)?;
        return Ok(item);
    }
    several(alloc, name, count, stack)
}

// The same by a list of the arguments, which is needed for three or more.
fn several(alloc: Global, name: Name, count: usize, stack: &mut Stack) -> Result<Item, NoMemory>
    ensures compound { IfOk result
        (λ r. kept_item r ≡ applied kept name
        (turned (tops count (below (items_of stack.old))) (top (items_of stack.old) ∷ []))) }
    ensures items { OnOk result
        (items_of stack.new ≡ under count (below (items_of stack.old))) }
    ensures frames { frames_of stack.new ≡ frames_of stack.old }
{
    let mut parts = join(stack.pop_item(), none(alloc, count.saturating_add(1))?)?;
    let mut left = count;
    while left > 0 {
        left -= 1;
        parts = join(stack.pop_item(), parts)?;
    }
    let item = finish(alloc, name, parts)?;
    Ok(item)
}

//! What would be right in a script.
use crate::clauses::parts_of;
use crate::shapes::{name_advice, primitive_advice};
use std::alloc::Global;
use tc_lists::NoMemory;
use tc_model::{line_of, primitive_of};
use tc_places::{Finding, Span, arguments, find, first_of, found, inside, part, split};
use tc_read::{ReadFault, read_term};
use tc_term::{Pattern, Term};

/// What would be right in the list of a script, at its first item that is none.
pub fn items_advice(
    alloc: Global,
    text: &[u8],
    span: Span,
    list: &Term,
) -> Result<Finding, NoMemory> {
    if list.as_cell().is_none() {
        return found(
            alloc,
            span,
            b"a script is a list: [CENTRE ? OPERATION, ..]",
            &[],
        );
    }
    let inner = inside(text, span).unwrap_or(span);
    for item in split(alloc, text, inner)? {
        if let Some(finding) = item_advice(alloc, text, item)? {
            return Ok(finding);
        }
    }
    found(
        alloc,
        span,
        b"a script is a list: [CENTRE ? OPERATION, ..]",
        &[],
    )
}

// What would be right in an item, where it is none.
fn item_advice(alloc: Global, text: &[u8], item: Span) -> Result<Option<Finding>, NoMemory> {
    let Some(term) = term_at(alloc, text, item)? else {
        return Ok(None);
    };
    let copy = term.term().copy(alloc)?;
    if line_of(alloc, copy)?.is_some() {
        return Ok(None);
    }
    let finding = match parts_of(term.term()) {
        (b"?", [centre, op]) => ask_advice(alloc, text, item, centre, op)?,
        _ => found(
            alloc,
            item,
            b"an item says at which centre it is asked: CENTRE ? OPERATION",
            &[],
        )?,
    };
    Ok(Some(finding))
}

/// The term that a span spells, if it does.
pub fn term_at(alloc: Global, text: &[u8], span: Span) -> Result<Option<Pattern>, NoMemory> {
    match read_term(alloc, part(text, span)) {
        Ok(term) => Ok(Some(term)),
        Err(ReadFault::NoMemory) => Err(NoMemory),
        Err(_) => Ok(None),
    }
}

// What would be right in an item that has its `?`.
fn ask_advice(
    alloc: Global,
    text: &[u8],
    item: Span,
    centre: &Term,
    op: &Term,
) -> Result<Finding, NoMemory> {
    if !matches!(centre, Term::Atom(_)) {
        return name_advice(alloc, text, first_of(text, item), centre);
    }
    let behind = match find(text, item, b"?") {
        Some(sign) => Span {
            from: sign.to,
            to: item.to,
        },
        None => item,
    };
    let mark = first_of(text, behind);
    let (name, args) = parts_of(op);
    if name.is_empty() {
        return found(
            alloc,
            mark,
            b"an operation is no number and no variable: out(T), in(T) ..",
            &[],
        );
    }
    if primitive_of(name).is_none() {
        return primitive_advice(alloc, text, mark);
    }
    if args.len() > 1 {
        let whole = Span {
            from: mark.from,
            to: item.to,
        };
        return second_advice(alloc, text, whole, name);
    }
    if args.is_empty() {
        return found(alloc, mark, b"~ has an argument: @(T)", &[name, name]);
    }
    found(alloc, mark, b"~ has no argument", &[name])
}

// An operation has two arguments or more.
fn second_advice(alloc: Global, text: &[u8], span: Span, name: &[u8]) -> Result<Finding, NoMemory> {
    let args = arguments(alloc, text, span)?;
    let mark = args.get(1).copied().unwrap_or(span);
    found(
        alloc,
        mark,
        b"~ has one argument; a tuple of several parts has a name: p(X,Y)",
        &[name],
    )
}

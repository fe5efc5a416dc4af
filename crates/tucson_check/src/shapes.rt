//! What would be right where a clause has no form of a clause.
use crate::clauses::{atom, parts_of};
use crate::items::items_advice;
use std::alloc::Global;
use tc_lists::NoMemory;
use tc_model::primitive_of;
use tc_places::{
    Finding, Span, arguments, clause_words, find, first_of, form_of, found, found_two, nearest,
    part, primitive_words,
};
use tc_term::Term;

/// What would be right in a clause that is this term.
pub fn shape_advice(
    alloc: Global,
    text: &[u8],
    span: Span,
    term: &Term,
) -> Result<Finding, NoMemory> {
    let (word, args) = parts_of(term);
    if let Some(comma) = find(text, span, b",") {
        return found(
            alloc,
            comma,
            b"a full stop ends a clause: it is missing in the place of the comma",
            &[],
        );
    }
    let Some(form) = form_of(word) else {
        return word_advice(alloc, text, span);
    };
    let spans = arguments(alloc, text, span)?;
    let first = spans.first().copied().unwrap_or(span);
    match (word, args) {
        (b"script", [Term::Atom(_), list]) => {
            let second = spans.get(1).copied().unwrap_or(span);
            items_advice(alloc, text, second, list)
        }
        (b"centre", [Term::Atom(_), _]) => {
            let second = spans.get(1).copied().unwrap_or(span);
            budget_advice(alloc, second)
        }
        (b"centre" | b"role", [name]) => name_advice(alloc, text, first, name),
        (b"centre" | b"tuple" | b"spec" | b"agent" | b"script", [_, _]) => {
            names_advice(alloc, text, &spans, args)
        }
        (b"grant", [_, _, _]) => names_advice(alloc, text, &spans, args),
        _ => found_two(
            alloc,
            first_of(text, span),
            b"~ has another number of arguments: @",
            word,
            form,
        ),
    }
}

// A clause begins with another word.
fn word_advice(alloc: Global, text: &[u8], span: Span) -> Result<Finding, NoMemory> {
    let mark = first_of(text, span);
    let word = part(text, mark);
    let Some(near) = nearest(word, clause_words()) else {
        return found(
            alloc,
            mark,
            b"a clause begins with centre, tuple, spec, role, grant, agent or script",
            &[],
        );
    };
    let form = form_of(near).unwrap_or(&[]);
    found_two(alloc, mark, b"did you mean ~, as in @", near, form)
}

// The first of the names that is none, or a primitive that is none.
fn names_advice(
    alloc: Global,
    text: &[u8],
    spans: &[Span],
    args: &[Term],
) -> Result<Finding, NoMemory> {
    let mut last = Span::at(0);
    for (span, arg) in spans.iter().zip(args.iter()) {
        last = *span;
        if atom(arg).is_none() {
            return name_advice(alloc, text, *span, arg);
        }
    }
    match args {
        [.., Term::Atom(name)] if primitive_of(name.bytes()).is_none() => {
            primitive_advice(alloc, text, last)
        }
        _ => found(alloc, last, b"it is no form of a clause", &[]),
    }
}

/// What would be right where a name of a primitive is none.
pub fn primitive_advice(alloc: Global, text: &[u8], mark: Span) -> Result<Finding, NoMemory> {
    let name = part(text, mark);
    if let Some(near) = nearest(name, primitive_words()) {
        return found_two(
            alloc,
            mark,
            b"there is no operation ~; did you mean ~?",
            name,
            near,
        );
    }
    found(
        alloc,
        mark,
        b"there is no operation ~; there are out, in, rd, inp, rdp, no, nop, set_spec, get_spec",
        &[name],
    )
}

/// What would be right where a term stands in the place of a name.
pub fn name_advice(
    alloc: Global,
    text: &[u8],
    span: Span,
    term: &Term,
) -> Result<Finding, NoMemory> {
    let own = part(text, span);
    match term {
        Term::Var(_) => found(
            alloc,
            span,
            b"~ begins with a capital or `_`, so it is a variable; a name begins with a small \
              letter, or stands in quotes",
            &[own],
        ),
        Term::Int(_) => found(
            alloc,
            span,
            b"~ is a number; a name begins with a small letter",
            &[own],
        ),
        Term::Comp(..) | Term::Atom(_) => found(
            alloc,
            span,
            b"~ is no name; a name is letters, digits and `_`, or stands in quotes",
            &[own],
        ),
    }
}

// A budget is none.
fn budget_advice(alloc: Global, span: Span) -> Result<Finding, NoMemory> {
    found(alloc, span, b"the budget is a number from 1 to 10000", &[])
}

//! What would be right in a reaction.
use crate::clauses::parts_of;
use crate::items::term_at;
use std::alloc::Global;
use tc_lists::NoMemory;
use tc_model::{MOST_GOALS, MOST_TESTS, SpecCause, event_op_of};
use tc_places::{
    Finding, Span, arguments, event_words, first_of, found, found_two, goal_words, leaves,
    most_arguments, nearest, part, test_words,
};
use tc_spec::{SpecFault, read_spec};
use tc_term::{Name, Term};

/// What would be right in a reaction that is none.
pub fn reaction_advice(alloc: Global, text: &[u8], span: Span) -> Result<Finding, NoMemory> {
    let parts = arguments(alloc, text, span)?;
    match (cause_of(alloc, b"", part(text, span))?, parts.as_slice()) {
        (Some(SpecCause::Head), [head, ..]) => head_advice(alloc, text, *head),
        (Some(SpecCause::Goal), [_, body]) => body_advice(alloc, text, *body, false),
        (Some(SpecCause::Goal), [_, _, body]) => body_advice(alloc, text, *body, true),
        (Some(SpecCause::Count), [.., body]) => count_advice(alloc, text, *body),
        (Some(SpecCause::Shape), [_, guard, _])
            if part(text, first_of(text, span)) == b"reaction".as_slice() => {
            guard_advice(alloc, text, *guard)
        }
        (Some(SpecCause::Size), _) => found(
            alloc,
            span,
            b"the reaction is too big to be written as a clause of its own",
            &[],
        ),
        _ => found(
            alloc,
            first_of(text, span),
            b"a reaction is reaction(EVENT,BODY) or reaction(EVENT,GUARD,BODY)",
            &[],
        ),
    }
}

// Why the text, behind this one, is no reaction.
fn cause_of(alloc: Global, before: &[u8], body: &[u8]) -> Result<Option<SpecCause>, NoMemory> {
    let mut text = Vec::new(alloc);
    text.extend_from_slice(before)?;
    text.extend_from_slice(body)?;
    if !before.is_empty() {
        text.extend_from_slice(b"\n)")?;
    }
    text.extend_from_slice(b"\n.\n")?;
    match read_spec(alloc, &text) {
        Ok(_) => Ok(None),
        Err(SpecFault::Bad(bad)) => Ok(Some(bad.cause)),
        Err(SpecFault::NoMemory) => Err(NoMemory),
    }
}

// The head is no event.
fn head_advice(alloc: Global, text: &[u8], head: Span) -> Result<Finding, NoMemory> {
    let mark = first_of(text, head);
    let name = part(text, mark);
    if is_event(alloc, name)? {
        return found(alloc, head, b"an event has one argument: ~", &[name]);
    }
    if let Some(near) = nearest(name, event_words()) {
        return found_two(
            alloc,
            mark,
            b"there is no event ~; did you mean ~?",
            name,
            near,
        );
    }
    found(
        alloc,
        mark,
        b"there is no event ~; there are out, in, rd, inp, rdp, no, nop, out_r, in_r and rd_r",
        &[name],
    )
}

fn is_event(alloc: Global, name: &[u8]) -> Result<bool, NoMemory> {
    let name = Name::new(alloc, name)?;
    Ok(event_op_of(&name).is_some())
}

// The first test of a guard that is none.
fn guard_advice(alloc: Global, text: &[u8], guard: Span) -> Result<Finding, NoMemory> {
    let tests = leaves(alloc, text, guard)?;
    if tests.len() > MOST_TESTS {
        return found(alloc, guard, b"a guard has at most 16 tests", &[]);
    }
    for test in &tests {
        let name = part(text, *test);
        let is_whole = tests.len() == 1 || name != b"true".as_slice();
        if is_whole && test_words().iter().any(|word| *word == name) {
            continue;
        }
        return test_advice(alloc, *test, name);
    }
    found(
        alloc,
        guard,
        b"a guard is request, response, success, failure or true",
        &[],
    )
}

// A test is none.
fn test_advice(alloc: Global, mark: Span, name: &[u8]) -> Result<Finding, NoMemory> {
    let near = match name {
        b"pre" => Some(b"request".as_slice()),
        b"post" => Some(b"response".as_slice()),
        _ => nearest(name, test_words()),
    };
    if let Some(near) = near {
        return found_two(
            alloc,
            mark,
            b"~ is no test of a guard; did you mean ~?",
            name,
            near,
        );
    }
    found(
        alloc,
        mark,
        b"~ is no test of a guard; there are request, response, success and failure, and true \
          alone",
        &[name],
    )
}

// There are too many goals.
fn count_advice(alloc: Global, text: &[u8], body: Span) -> Result<Finding, NoMemory> {
    let goals = leaves(alloc, text, body)?;
    let mark = goals.get(MOST_GOALS).copied().unwrap_or(body);
    found(
        alloc,
        mark,
        b"a body has at most 64 goals, and this is one more",
        &[],
    )
}

// The first goal of a body that is none.
fn body_advice(alloc: Global, text: &[u8], body: Span, guarded: bool) -> Result<Finding, NoMemory> {
    let before: &[u8] = if guarded {
        b"reaction(out(a),true,"
    } else {
        b"reaction(out(a),"
    };
    for goal in leaves(alloc, text, body)? {
        if cause_of(alloc, before, part(text, goal))?.is_some() {
            return goal_advice(alloc, text, goal, guarded);
        }
    }
    found(alloc, body, b"a part of the body is no goal", &[])
}

// A goal is none.
fn goal_advice(alloc: Global, text: &[u8], goal: Span, guarded: bool) -> Result<Finding, NoMemory> {
    let mark = first_of(text, goal);
    let Some(term) = term_at(alloc, text, goal)? else {
        return found(alloc, goal, b"it is no goal", &[]);
    };
    let (name, args) = parts_of(term.term());
    if matches!(term.term(), Term::Var(_) | Term::Int(_)) {
        return found(alloc, goal, b"a variable or a number is no goal", &[]);
    }
    if let Some(other) = other_form(name, guarded) {
        let pattern: &[u8] = if guarded {
            b"behind a guard the goal ~ is written ~"
        } else {
            b"in a reaction without a guard the goal ~ is written ~"
        };
        return found_two(alloc, mark, pattern, name, other);
    }
    let words = goal_words(guarded);
    let is_word = words.iter().any(|word| *word == name);
    if is_word && args.len() > 1 && most_arguments(name) == 1 {
        return found(
            alloc,
            goal,
            b"~ has one argument; a tuple of several parts has a name: p(X,Y)",
            &[name],
        );
    }
    if is_word {
        return found(
            alloc,
            goal,
            b"the goal ~ has another number of arguments",
            &[name],
        );
    }
    if let Some(near) = nearest(name, words) {
        return found_two(
            alloc,
            mark,
            b"there is no goal ~; did you mean ~?",
            name,
            near,
        );
    }
    found(
        alloc,
        goal,
        b"there is no goal ~; docs/LANGUAGE.md has all goals in a table",
        &[name],
    )
}

// How the goal is written in such a clause, where it is written so in the other.
fn other_form(name: &[u8], guarded: bool) -> Option<&'static [u8]> {
    match (guarded, name) {
        (true, b"out_r") => Some(b"out"),
        (true, b"in_r") => Some(b"in"),
        (true, b"rd_r") => Some(b"rd"),
        (true, b"no_r") => Some(b"no"),
        (false, b"out") => Some(b"out_r"),
        (_, b"in" | b"inp") if !guarded => Some(b"in_r"),
        (_, b"rd" | b"rdp") if !guarded => Some(b"rd_r"),
        (_, b"no" | b"nop") if !guarded => Some(b"no_r"),
        (true, b"inp") => Some(b"in"),
        (true, b"rdp") => Some(b"rd"),
        (true, b"nop") => Some(b"no"),
        _ => None,
    }
}

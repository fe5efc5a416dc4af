//! Clauses of reactions: how they are read, and what is wrong with others.
ghost use Rattle.std.specs.Prelude.{◌<◌, IfSome};
ghost use Rattle.tc_term.specs.Tree.{depth};
ghost use Rattle.tc_term.specs.TreeView.{tree_of};

use crate::fault::Fault;
use crate::texts::{append, append_term};
use crate::values::compound;
use std::alloc::Global;
use tc_lists::NoMemory;
use tc_read::{ReadFault, read_clause};
use tc_term::{Name, Term};

// What may be an event.
const EVENTS: [&[u8]; 11] = [
    b"out", b"in", b"rd", b"inp", b"rdp", b"no", b"nop", b"out_r", b"in_r", b"rd_r", b"no_r",
];

// The goals without an argument, with one and with two.
const PLAIN: [&[u8]; 5] = [b"pre", b"post", b"success", b"failure", b"true"];

const OF_ONE: [&[u8]; 4] = [
    b"current_agent",
    b"current_tc",
    b"current_op",
    b"current_tuple",
];

// The goals on tuples, without a guard and with one.
const UNGUARDED: [&[u8]; 4] = [b"out_r", b"in_r", b"rd_r", b"no_r"];

const GUARDED: [&[u8]; 4] = [b"out", b"in", b"rd", b"no"];

// The tests of a guard.
const TESTS: [&[u8]; 4] = [b"request", b"response", b"success", b"failure"];

const OF_TWO: [&[u8]; 9] = [
    b"=", b"\\=", b"is", b"=:=", b"=\\=", b"<", b">", b"=<", b">=",
];

// How many goals a clause has at most, how many tests a guard, and how many clauses there are.
const MOST_GOALS: usize = 64;

const MOST_TESTS: usize = 16;

const MOST_CLAUSES: usize = 1000;

/// A reaction: the event's operation and term, the tests of its guard, the goals, and its text.
#[derive(Drop)]
pub struct Clause {
    pub event: Name,
    pub head: Term,
    pub tests: Vec<Term>,
    pub goals: Vec<Term>,
    text: Vec<u8>,
}

/// What a text of clauses is: clauses, or a clause of this number isn't one, for this reason.
#[derive(Drop)]
pub enum Spelled {
    Clauses(Vec<Clause>),
    Bad(usize, &'static [u8]),
}

// What stands next in a text of clauses: a clause and the place behind it, nothing, or something else.
#[derive(Drop)]
enum Next {
    Clause(Clause, usize),
    Nothing,
    Bad(&'static [u8]),
}

/// What a text of clauses is.
pub fn clauses_of(alloc: Global, text: &[u8]) -> Result<Spelled, Fault> {
    let mut clauses = Vec::new(alloc);
    let mut from = 0;
    for number in 1..=MOST_CLAUSES.saturating_add(1) {
        match next_clause(alloc, text, from)? {
            Next::Nothing => return Ok(Spelled::Clauses(clauses)),
            Next::Bad(why) => return Ok(Spelled::Bad(number, why)),
            Next::Clause(clause, behind) => {
                append(&mut clauses, clause)?;
                from = behind;
            }
        }
    }
    Ok(Spelled::Bad(MOST_CLAUSES.saturating_add(1), b"count"))
}

// What stands next in a text of clauses.
fn next_clause(alloc: Global, text: &[u8], from: usize) -> Result<Next, Fault> {
    if from > text.len() {
        return Ok(Next::Nothing);
    }
    match read_clause(alloc, text, from) {
        Ok(None) => Ok(Next::Nothing),
        Ok(Some((clause, behind))) => Ok(match clause_of(alloc, clause.term())? {
            Ok(clause) => Next::Clause(clause, behind),
            Err(why) => Next::Bad(why),
        }),
        Err(ReadFault::NoMemory) => Err(Fault::NoMemory(NoMemory)),
        Err(ReadFault::Syntax(_)) => Ok(Next::Bad(b"syntax")),
        Err(_) => Ok(Next::Bad(b"size")),
    }
}

/// The clause that a term is, or why it is none.
pub fn clause_of(alloc: Global, term: &Term) -> Result<Result<Clause, &'static [u8]>, NoMemory> {
    if let Some((head, body)) = as_two(b"reaction", term) {
        return clause_with(alloc, head, None, body);
    }
    let Some((head, guard, body)) = as_three(b"reaction", term) else {
        return Ok(Err(b"shape"));
    };
    match tests_of(alloc, guard)? {
        Some(tests) => clause_with(alloc, head, Some(tests), body),
        None => Ok(Err(b"shape")),
    }
}

// The clause of a head and a body, and of a guard, where it has three arguments.
fn clause_with(
    alloc: Global,
    head: &Term,
    guard: Option<Vec<Term>>,
    body: &Term,
) -> Result<Result<Clause, &'static [u8]>, NoMemory> {
    let Some((event, head)) = as_event(head) else {
        return Ok(Err(b"head"));
    };
    let on_tuples = if guard.is_some() { GUARDED } else { UNGUARDED };
    let mut goals = Vec::new(alloc);
    append_goals(alloc, body, &mut goals)?;
    if !goals.iter().all(|goal| is_goal(goal, &on_tuples)) {
        return Ok(Err(b"goal"));
    }
    if goals.len() > MOST_GOALS {
        return Ok(Err(b"count"));
    }
    Ok(Ok(Clause {
        event: event.copy(alloc)?,
        head: head.copy(alloc)?,
        text: text_of(alloc, event, head, guard.as_ref(), &goals)?,
        tests: guard.unwrap_or(Vec::new(alloc)),
        goals,
    }))
}

// The tests of a guard: none of `true`, else the leaves under commas.
fn tests_of(alloc: Global, guard: &Term) -> Result<Option<Vec<Term>>, NoMemory> {
    let mut tests = Vec::new(alloc);
    if is_atom(guard, b"true") {
        return Ok(Some(tests));
    }
    append_goals(alloc, guard, &mut tests)?;
    if tests.len() > MOST_TESTS {
        return Ok(None);
    }
    Ok(if tests.iter().all(is_test) {
        Some(tests)
    } else {
        None
    })
}

// Whether a term is this atom.
fn is_atom(term: &Term, name: &[u8]) -> bool {
    match term {
        Term::Atom(other) => other.bytes() == name,
        _ => false,
    }
}

// Whether a term is a test.
fn is_test(term: &Term) -> bool {
    match term {
        Term::Atom(name) => TESTS.contains(&name.bytes()),
        _ => false,
    }
}

// The arguments of a compound of this name that has two.
fn as_two<'t>(name: &[u8], term: &'t Term) -> Option<(&'t Term, &'t Term)>
    ensures first { IfSome result (λ r. depth (tree_of r.0.now) < depth (tree_of term.now)) }
    ensures rest { IfSome result (λ r. depth (tree_of r.1.now) < depth (tree_of term.now)) }
{
    match term {
        Term::Comp(other, args) if other.bytes() == name => match args.items() {
            [left, right] => Some((left, right)),
            _ => None,
        },
        _ => None,
    }
}

// The arguments of a compound of this name that has three.
fn as_three<'t>(name: &[u8], term: &'t Term) -> Option<(&'t Term, &'t Term, &'t Term)> {
    match term {
        Term::Comp(other, args) if other.bytes() == name => match args.items() {
            [first, second, third] => Some((first, second, third)),
            _ => None,
        },
        _ => None,
    }
}

// The operation and the term of an event.
fn as_event(term: &Term) -> Option<(&Name, &Term)> {
    match term {
        Term::Comp(name, args) if EVENTS.contains(&name.bytes()) => match args.items() {
            [head] => Some((name, head)),
            _ => None,
        },
        _ => None,
    }
}

// Appends the goals of a body.
fn append_goals(alloc: Global, body: &Term, into: &mut Vec<Term>) -> Result<(), NoMemory> {
    match as_two(b",", body) {
        Some((first, rest)) => {
            append_goals(alloc, first, into)?;
            append_goals(alloc, rest, into)
        }
        None => append(into, body.copy(alloc)?),
    }
}

// Whether a term is a goal, where these are the goals on tuples.
fn is_goal(term: &Term, on_tuples: &[&[u8]]) -> bool {
    match term {
        Term::Atom(name) => PLAIN.contains(&name.bytes()),
        Term::Comp(name, args) => match args.items() {
            [_] => on_tuples.contains(&name.bytes()) || OF_ONE.contains(&name.bytes()),
            [_, _] => OF_TWO.contains(&name.bytes()),
            _ => false,
        },
        Term::Var(_) | Term::Int(_) => false,
    }
}

// The text of a clause.
fn text_of(
    alloc: Global,
    event: &Name,
    head: &Term,
    guard: Option<&Vec<Term>>,
    goals: &[Term],
) -> Result<Vec<u8>, NoMemory> {
    let mut args = Vec::new(alloc);
    append(&mut args, head.copy(alloc)?)?;
    let event = compound(alloc, event.copy(alloc)?, args)?;
    let mut parts = Vec::new(alloc);
    append(&mut parts, event)?;
    if let Some(tests) = guard {
        append(&mut parts, guard_of(alloc, tests)?)?;
    }
    append(&mut parts, body_of(alloc, goals)?)?;
    let mut text = Vec::new(alloc);
    let clause = compound(alloc, Name::new(alloc, b"reaction")?, parts)?;
    append_term(alloc, &clause, &mut text)?;
    text.extend_from_slice(b".\n")?;
    Ok(text)
}

// The guard of these tests.
fn guard_of(alloc: Global, tests: &[Term]) -> Result<Term, NoMemory> {
    if tests.is_empty() {
        return Ok(Term::Atom(Name::new(alloc, b"true")?));
    }
    body_of(alloc, tests)
}

// The goals or tests with commas between, from the right.
fn body_of(alloc: Global, goals: &[Term]) -> Result<Term, NoMemory> {
    let Some((last, others)) = goals.split_last() else {
        return Ok(Term::Int(0));
    };
    let mut body = last.copy(alloc)?;
    for goal in others.iter().rev() {
        let goal = goal.copy(alloc)?;
        body = of_two(alloc, b",", goal, body)?;
    }
    Ok(body)
}

// A compound of two terms.
fn of_two(alloc: Global, name: &[u8], left: Term, right: Term) -> Result<Term, NoMemory> {
    let mut args = Vec::new(alloc);
    append(&mut args, left)?;
    append(&mut args, right)?;
    compound(alloc, Name::new(alloc, name)?, args)
}

/// The text of clauses.
pub fn text_of_clauses(alloc: Global, clauses: &[Clause]) -> Result<Vec<u8>, NoMemory> {
    let mut text = Vec::new(alloc);
    for clause in clauses {
        text.extend_from_slice(&clause.text)?;
    }
    Ok(text)
}

//! What would be right where a name isn't declared, or is declared twice.
use crate::clauses::{Walk, atom, parts_of};
use crate::sorts::{Sort, declared};
use std::alloc::Global;
use tc_config::Config;
use tc_lists::{NoMemory, append_number};
use tc_places::{
    Finding, Span, arguments, first_of, found, inside, lent, nearest, part, sentence, split,
};
use tc_term::Term;

/// How many of the names that are declared are named.
const MOST_NAMED: usize = 3;

/// What would be right in a clause that uses a name of this sort that the clauses before it don't
/// declare; `config` is what these set up.
pub fn unknown_advice(
    alloc: Global,
    text: &[u8],
    span: Span,
    term: &Term,
    config: &Config,
    sort: Sort,
) -> Result<Finding, NoMemory> {
    let names = declared(alloc, config, sort)?;
    let Some((mark, name)) = unknown_name(alloc, text, span, term, sort, &names)? else {
        return found(
            alloc,
            first_of(text, span),
            b"a name isn't declared before",
            &[],
        );
    };
    if let Some(near) = nearest(name, &names) {
        let place = declaring(alloc, text, sort, near)?.unwrap_or(Vec::new(alloc));
        return found(
            alloc,
            mark,
            b"@ is declared by @(NAME). in an earlier clause; did you mean ~ (@)?",
            &four(sort.phrase(), sort.word(), near, place.as_slice()),
        );
    }
    if let Some(place) = declaring(alloc, text, sort, name)? {
        return found(
            alloc,
            mark,
            b"@ is declared before it is used, and ~ is declared in @",
            &three(sort.phrase(), name, place.as_slice()),
        );
    }
    if names.is_empty() {
        return found(
            alloc,
            mark,
            b"@ is declared by @(NAME). in an earlier clause",
            &[sort.phrase(), sort.word()],
        );
    }
    let known = known_words(alloc, text, sort, &names)?;
    let mut finding = found(
        alloc,
        mark,
        b"@ is declared by @(NAME). in an earlier clause; so far",
        &[sort.phrase(), sort.word()],
    )?;
    finding.advice.extend_from_slice(&known)?;
    Ok(finding)
}

// Names that are lent for different times, in one list.
fn three<'n>(first: &'n [u8], second: &'n [u8], third: &'n [u8]) -> [&'n [u8]; 3] {
    [first, second, third]
}

fn four<'n>(first: &'n [u8], second: &'n [u8], third: &'n [u8], fourth: &'n [u8]) -> [&'n [u8]; 4] {
    [first, second, third, fourth]
}

// Which names are declared, the first few with their places.
fn known_words(
    alloc: Global,
    text: &[u8],
    sort: Sort,
    names: &[&[u8]],
) -> Result<Vec<u8>, NoMemory> {
    let mut words = Vec::new(alloc);
    for name in names.iter().take(MOST_NAMED) {
        let place = declaring(alloc, text, sort, name)?.unwrap_or(Vec::new(alloc));
        words.extend_from_slice(&sentence(alloc, b", ~ (@)", &[lent(name), place.as_slice()])?)?;
    }
    if names.len() > MOST_NAMED {
        words.extend_from_slice(b" and others")?;
    }
    Ok(words)
}

// The first name of a sort that a clause uses and that isn't among those, with its place.
fn unknown_name<'t>(
    alloc: Global,
    text: &[u8],
    span: Span,
    term: &'t Term,
    sort: Sort,
    names: &[&[u8]],
) -> Result<Option<(Span, &'t [u8])>, NoMemory> {
    let (word, args) = parts_of(term);
    let spans = arguments(alloc, text, span)?;
    let place = match (word, sort) {
        (b"script", Sort::Centre) => return unknown_item(alloc, text, &spans, args, names),
        (b"agent", Sort::Role) => 1,
        (b"grant", Sort::Centre) => 1,
        _ => 0,
    };
    match (spans.get(place), args.get(place)) {
        (Some(mark), Some(Term::Atom(name))) => Ok(Some((*mark, name.bytes()))),
        _ => Ok(None),
    }
}

// The first item of a script whose centre isn't among those.
fn unknown_item<'t>(
    alloc: Global,
    text: &[u8],
    spans: &[Span],
    args: &'t [Term],
    names: &[&[u8]],
) -> Result<Option<(Span, &'t [u8])>, NoMemory> {
    let ([_, span], [_, list]) = (spans, args) else {
        return Ok(None);
    };
    let inner = inside(text, *span).unwrap_or(*span);
    let mut left = list;
    for item in split(alloc, text, inner)? {
        let Some((head, tail)) = left.as_cell() else {
            break;
        };
        left = tail;
        if let (b"?", [Term::Atom(centre), _]) = parts_of(head) {
            let name = centre.bytes();
            if !names.iter().any(|other| *other == name) {
                return Ok(Some((first_of(text, item), name)));
            }
        }
    }
    Ok(None)
}

// Which clause declares the name, in words.
fn declaring(
    alloc: Global,
    text: &[u8],
    sort: Sort,
    name: &[u8],
) -> Result<Option<Vec<u8>>, NoMemory> {
    let mut walk = Walk::new(text);
    for _ in 0..text.len() {
        let Some(clause) = walk.next(alloc)? else {
            break;
        };
        let (word, args) = parts_of(clause.pattern.term());
        if word == sort.word() && is_first(args, name) {
            return Ok(Some(clause_words(alloc, clause.number, clause.first_line)?));
        }
    }
    Ok(None)
}

// Whether the first of the terms is this name.
fn is_first(args: &[Term], name: &[u8]) -> bool {
    match args {
        [first, ..] => atom(first) == Some(name),
        [] => false,
    }
}

// The words for a clause.
fn clause_words(alloc: Global, number: usize, line: usize) -> Result<Vec<u8>, NoMemory> {
    let mut words = Vec::new(alloc);
    words.extend_from_slice(b"clause ")?;
    append_number(number as u64, &mut words)?;
    words.extend_from_slice(b", line ")?;
    append_number(line as u64, &mut words)?;
    Ok(words)
}

/// What would be right in a clause that declares what an earlier one has declared.
pub fn twice_advice(
    alloc: Global,
    text: &[u8],
    span: Span,
    term: &Term,
) -> Result<Finding, NoMemory> {
    let (word, args) = parts_of(term);
    let is_grant = word == b"grant".as_slice();
    let mark = match arguments(alloc, text, span)?.first() {
        Some(first) if !is_grant => *first,
        _ => span,
    };
    let count = if is_grant { 3 } else { 1 };
    let mut walk = Walk::new(text);
    for _ in 0..text.len() {
        let Some(clause) = walk.next(alloc)? else {
            break;
        };
        let (its, others) = parts_of(clause.pattern.term());
        if its == word && are_same(args, others, count) {
            let place = clause_words(alloc, clause.number, clause.first_line)?;
            return found(
                alloc,
                mark,
                b"~ stands already in @",
                &[part(text, mark), place.as_slice()],
            );
        }
    }
    found(alloc, mark, b"~ stands already before", &[part(text, mark)])
}

// Whether the first so many terms are the same names.
fn are_same(args: &[Term], others: &[Term], count: usize) -> bool {
    let mut same: usize = 0;
    for (arg, other) in args.iter().zip(others.iter()).take(count) {
        if atom(arg).is_none() || atom(arg) != atom(other) {
            return false;
        }
        same = same.saturating_add(1);
    }
    same == count
}

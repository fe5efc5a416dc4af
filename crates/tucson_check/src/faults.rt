//! The fault of a text: its clause, its place, and what would be right.
use crate::clauses::Walk;
use crate::reactions::reaction_advice;
use crate::shapes::shape_advice;
use crate::sorts::Sort;
use crate::unknown::{twice_advice, unknown_advice};
use std::alloc::Global;
use tc_config::{ConfigCause, ConfigFault, read_config};
use tc_lists::NoMemory;
use tc_places::{
    Finding, Span, Why, argument, clause_end, clause_stop, first_of, first_variable, found,
    found_nowhere, last_end, line_ends, part, rest, stuck_advice,
};
use tc_read::{ReadFault, read_clause};
use tc_term::Term;

/// A faulty clause: its number, its bytes and lines, its cause, and what was found.
#[derive(Drop)]
pub struct Fault {
    pub clause: u32,
    pub cause: ConfigCause,
    pub span: Span,
    pub first_line: usize,
    pub last_line: usize,
    pub finding: Finding,
}

/// The fault of a text whose clause of this number is faulty for this cause.
pub fn fault_of(
    alloc: Global,
    text: &[u8],
    clause: u32,
    cause: ConfigCause,
) -> Result<Fault, NoMemory> {
    let mut walk = Walk::new(text);
    for _ in 1..clause {
        if walk.next(alloc)?.is_none() {
            break;
        }
    }
    let (from, first_line) = walk.place();
    let to = clause_end(text, from);
    let span = Span { from, to };
    let finding = finding_of(alloc, text, span, cause)?;
    Ok(Fault {
        clause,
        cause,
        span,
        first_line,
        last_line: first_line.saturating_add(line_ends(part(text, span))),
        finding,
    })
}

// What is found in a faulty clause.
fn finding_of(
    alloc: Global,
    text: &[u8],
    span: Span,
    cause: ConfigCause,
) -> Result<Finding, NoMemory> {
    if let ConfigCause::Length = cause {
        return found_nowhere(
            alloc,
            b"the text has more than 16777216 bytes, so no clause of it is looked at",
        );
    }
    match read_clause(alloc, rest(text, span.from), 0) {
        Ok(Some((clause, _))) => meaning(alloc, text, span, clause.term(), cause),
        Ok(None) => found_nowhere(alloc, b"there is no clause"),
        Err(ReadFault::Syntax(_)) => {
            let at = clause_stop(alloc, text, span.from)?;
            stuck_advice(alloc, text, span.from, &at)
        }
        Err(ReadFault::WideInt(place)) => {
            let number = first_of(text, Span::at(span.from.saturating_add(place)));
            found(
                alloc,
                number,
                b"numbers have 64 bits: from -9223372036854775808 to 9223372036854775807",
                &[],
            )
        }
        Err(ReadFault::TooMany(_)) => found(
            alloc,
            first_of(text, span),
            b"a clause has at most 256 variables",
            &[],
        ),
        Err(ReadFault::TooBig(_)) => too_big(alloc, text, span),
        Err(ReadFault::NoMemory) => Err(NoMemory),
    }
}

// A clause is too big.
fn too_big(alloc: Global, text: &[u8], span: Span) -> Result<Finding, NoMemory> {
    let at = clause_stop(alloc, text, span.from)?;
    if at.why == Why::Deep {
        return stuck_advice(alloc, text, span.from, &at);
    }
    found(
        alloc,
        first_of(text, span),
        b"a clause has at most 10000 nodes, a depth of 1000 and 65535 bytes of names; \
          some 996 items fit into one script, and an agent may have several",
        &[],
    )
}

// What is found in a clause that is a term, but means nothing where it stands.
fn meaning(
    alloc: Global,
    text: &[u8],
    whole: Span,
    term: &Term,
    cause: ConfigCause,
) -> Result<Finding, NoMemory> {
    let span = Span {
        from: whole.from,
        to: last_end(text, whole),
    };
    match cause {
        ConfigCause::Shape => shape_advice(alloc, text, span, term),
        ConfigCause::Reaction => {
            let reaction = argument(alloc, text, span, 1)?;
            reaction_advice(alloc, text, reaction)
        }
        ConfigCause::UnknownCentre => unknown(alloc, text, span, term, Sort::Centre),
        ConfigCause::UnknownRole => unknown(alloc, text, span, term, Sort::Role),
        ConfigCause::UnknownAgent => unknown(alloc, text, span, term, Sort::Agent),
        ConfigCause::Twice => twice_advice(alloc, text, span, term),
        ConfigCause::NotGround => ground_advice(alloc, text, span),
        ConfigCause::Count => {
            let mark = first_of(text, span);
            found(alloc, mark, count_words(part(text, mark)), &[])
        }
        ConfigCause::Syntax | ConfigCause::Size | ConfigCause::Length => {
            found_nowhere(alloc, b"it is no clause")
        }
    }
}

// There are too many of what clauses of this word set up.
fn count_words(word: &[u8]) -> &'static [u8] {
    match word {
        b"centre" => b"there are at most 64 centres",
        b"role" => b"there are at most 64 roles",
        b"agent" => b"there are at most 1024 agents",
        b"spec" => b"a centre has at most 1000 reactions",
        _ => b"all scripts together have at most 100000 items",
    }
}

// A name isn't declared in the clauses before.
fn unknown(
    alloc: Global,
    text: &[u8],
    span: Span,
    term: &Term,
    sort: Sort,
) -> Result<Finding, NoMemory> {
    let before = text.get(..span.from).unwrap_or(&[]);
    match read_config(alloc, before) {
        Ok(config) => unknown_advice(alloc, text, span, term, &config, sort),
        Err(ConfigFault::Bad { .. }) => found_nowhere(alloc, b"a name isn't declared before"),
        Err(ConfigFault::NoMemory) => Err(NoMemory),
    }
}

// A tuple has a variable.
fn ground_advice(alloc: Global, text: &[u8], span: Span) -> Result<Finding, NoMemory> {
    let tuple = argument(alloc, text, span, 1)?;
    let mark = first_variable(text, tuple).unwrap_or(tuple);
    found(
        alloc,
        mark,
        b"~ is a variable, and a tuple has none; an atom begins with a small letter, or stands in \
          quotes",
        &[part(text, mark)],
    )
}

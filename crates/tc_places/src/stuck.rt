//! What would be right where a text is no clause.
use crate::advice::{Finding, found, place_words};
use crate::bytes::byte_advice;
use crate::parts::first_of;
use crate::spans::{Span, line_ends, line_start, part};
use crate::syntax::{Odd, Stuck, Why};
use crate::tokens::Kind;
use crate::words::is_clause_word;
use std::alloc::Global;
use tc_lists::NoMemory;

/// What would be right where a clause that begins at `from` is stuck.
pub fn stuck_advice(
    alloc: Global,
    text: &[u8],
    from: usize,
    at: &Stuck,
) -> Result<Finding, NoMemory> {
    match at.why {
        Why::Byte => match comment_sign(text, from, at) {
            Some(mark) => comment_advice(alloc, text, mark),
            None => byte_advice(alloc, text, at.here.span),
        },
        Why::NextClause | Why::ClauseEnd | Why::TextEnd => end_advice(alloc, text, at),
        Why::Closing => closing_advice(alloc, text, at),
        Why::TwoTerms => two_terms_advice(alloc, text, from, at),
        Why::NoTerm => no_term_advice(alloc, text, from, at),
        Why::TwoOperators => found(
            alloc,
            at.here.span,
            b"~ doesn't stand behind a comparison, an `is` or a `?` as it does here: \
              a comma is missing, or brackets",
            &[part(text, at.here.span)],
        ),
        Why::Bar => found(
            alloc,
            at.here.span,
            b"`|` stands in a list alone, before its tail, as in [A|T]",
            &[],
        ),
        Why::Deep => found(
            alloc,
            at.here.span,
            b"at most 200 brackets may be open",
            &[],
        ),
        Why::Fine => found(
            alloc,
            first_of(text, Span::at(from)),
            b"it is no clause",
            &[],
        ),
    }
}

// The place behind the last token.
fn behind(at: &Stuck) -> Span {
    Span::at(at.before.span.to)
}

// The clause ends before it should, or doesn't.
fn end_advice(alloc: Global, text: &[u8], at: &Stuck) -> Result<Finding, NoMemory> {
    if let Some(open) = at.open {
        return open_advice(alloc, text, open, at);
    }
    let is_comma = at.before.kind == Kind::Comma;
    if !at.holds && !is_comma {
        return found(
            alloc,
            behind(at),
            b"a term is missing behind ~",
            &[part(text, at.before.span)],
        );
    }
    if is_comma && at.why == Why::ClauseEnd {
        return found(
            alloc,
            at.before.span,
            b"a term is missing behind the comma",
            &[],
        );
    }
    if is_comma {
        return found(
            alloc,
            at.before.span,
            b"a full stop ends a clause: it is missing in the place of the comma",
            &[],
        );
    }
    found(
        alloc,
        behind(at),
        b"a full stop ends a clause: it is missing here",
        &[],
    )
}

// A bracket is open where the clause ends, or seems to end.
fn open_advice(alloc: Global, text: &[u8], open: Span, at: &Stuck) -> Result<Finding, NoMemory> {
    if let Some(odd) = at.odd {
        return odd_advice(alloc, text, odd);
    }
    let mark = if at.why == Why::ClauseEnd {
        at.here.span
    } else {
        behind(at)
    };
    let place = place_words(alloc, text, open.from)?;
    let names = [part(text, open), place.as_slice()];
    if at.count > 1 {
        return found(
            alloc,
            mark,
            b"brackets are still open here, the innermost is the ~ of @",
            &names,
        );
    }
    found(
        alloc,
        mark,
        b"a bracket is still open here: the ~ of @",
        &names,
    )
}

// Somewhere the brackets can't be as they are meant.
fn odd_advice(alloc: Global, text: &[u8], odd: Odd) -> Result<Finding, NoMemory> {
    match odd {
        Odd::Excess(comma, name) => found(
            alloc,
            comma,
            b"the brackets don't fit: by them this comma gives ~ an argument too many",
            &[part(text, name)],
        ),
        Odd::Outside(comma) => found(
            alloc,
            comma,
            b"the brackets don't fit: by them this comma stands outside of the clause's",
            &[],
        ),
        Odd::Doubled(open) => found(
            alloc,
            open,
            b"the brackets don't fit: this one isn't closed, and none is wanted here",
            &[],
        ),
    }
}

// A bracket closes none, or one of the other kind.
fn closing_advice(alloc: Global, text: &[u8], at: &Stuck) -> Result<Finding, NoMemory> {
    if let Some(odd) = at.odd {
        return odd_advice(alloc, text, odd);
    }
    let closing = part(text, at.here.span);
    let Some(open) = at.open else {
        return found(
            alloc,
            at.here.span,
            b"no bracket is open that ~ closes",
            &[closing],
        );
    };
    let place = place_words(alloc, text, open.from)?;
    let mark = if is_next_line(text, at) {
        behind(at)
    } else {
        at.here.span
    };
    found(
        alloc,
        mark,
        b"~ doesn't close the ~ of @",
        &[closing, part(text, open), place.as_slice()],
    )
}

// A term stands behind a term.
fn two_terms_advice(
    alloc: Global,
    text: &[u8],
    from: usize,
    at: &Stuck,
) -> Result<Finding, NoMemory> {
    let (here, before) = (part(text, at.here.span), part(text, at.before.span));
    if let Some(mark) = comment_sign(text, from, at) {
        return comment_advice(alloc, text, mark);
    }
    if at.here.kind == Kind::Open && at.before.kind == Kind::Variable {
        return found(
            alloc,
            at.before.span,
            b"~ begins with a capital or `_`, so it is a variable; a name begins with a small letter",
            &[before],
        );
    }
    if at.here.kind == Kind::Open && at.before.kind == Kind::Name && !is_next_line(text, at) {
        return found(
            alloc,
            at.here.span,
            b"no blank stands between a name and the bracket of its arguments",
            &[],
        );
    }
    let mark = if is_next_line(text, at) {
        behind(at)
    } else {
        at.here.span
    };
    if at.count == 0 && is_clause_word(here) {
        return found(
            alloc,
            mark,
            b"a full stop ends a clause: it is missing between ~ and ~",
            &[before, here],
        );
    }
    if at.count == 0 {
        return found(
            alloc,
            mark,
            b"between ~ and ~ a full stop, a bracket or an operator is missing",
            &[before, here],
        );
    }
    found(
        alloc,
        mark,
        b"between ~ and ~ a comma or an operator is missing",
        &[before, here],
    )
}

// Whether a line ends before the token at which the clause is stuck.
fn is_next_line(text: &[u8], at: &Stuck) -> bool {
    let layout = Span {
        from: at.before.span.to,
        to: at.here.span.from,
    };
    line_ends(part(text, layout)) > 0
}

// A term is missing before a token.
fn no_term_advice(
    alloc: Global,
    text: &[u8],
    from: usize,
    at: &Stuck,
) -> Result<Finding, NoMemory> {
    let here = part(text, at.here.span);
    if let Some(mark) = comment_sign(text, from, at) {
        return comment_advice(alloc, text, mark);
    }
    if at.here.kind == Kind::End {
        return end_advice(
            alloc,
            text,
            &Stuck {
                why: Why::ClauseEnd,
                ..*at
            },
        );
    }
    if at.here.span.from <= from {
        return found(alloc, at.here.span, b"no clause begins with ~", &[here]);
    }
    found(
        alloc,
        at.here.span,
        b"a term is missing between ~ and ~",
        &[part(text, at.before.span), here],
    )
}

// The sign of a comment of another language, if one stands on the line up to a token.
fn comment_sign(text: &[u8], from: usize, at: &Stuck) -> Option<Span> {
    let start = line_start(text, at.here.span.from).max(from);
    let line = part(
        text,
        Span {
            from: start,
            to: at.here.span.to,
        },
    );
    let mut place = start;
    let mut last = b' ';
    for byte in line {
        if (*byte == b'/' || *byte == b'-') && *byte == last {
            return Some(Span {
                from: place.saturating_sub(1),
                to: place.saturating_add(1),
            });
        }
        last = *byte;
        place = place.saturating_add(1);
    }
    None
}

/// A comment is written in another way.
pub fn comment_advice(alloc: Global, text: &[u8], mark: Span) -> Result<Finding, NoMemory> {
    found(
        alloc,
        mark,
        b"is this a comment? `%` begins one, up to the end of the line, and not ~",
        &[part(text, mark)],
    )
}

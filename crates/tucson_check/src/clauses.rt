//! The clauses of a text, one behind another, with their places.
use std::alloc::Global;
use tc_lists::NoMemory;
use tc_places::{Span, behind_layout, line_ends, part, rest};
use tc_read::next_clause;
use tc_term::{Pattern, Term};

/// A clause with its number, from 1, its bytes up to behind its full stop, and its lines.
#[derive(Drop)]
pub struct Clause {
    pub number: usize,
    pub span: Span,
    pub first_line: usize,
    pub last_line: usize,
    pub pattern: Pattern,
}

/// A walk over the clauses of a text.
#[derive(Drop)]
pub struct Walk<'a> {
    text: &'a [u8],
    /// The place behind the last clause, and its line.
    at: usize,
    line: usize,
    /// How many clauses were read.
    count: usize,
}

impl<'a> Walk<'a> {
    /// A walk from the first clause on.
    pub fn new(text: &'a [u8]) -> Walk<'a> {
        Walk {
            text,
            at: 0,
            line: 1,
            count: 0,
        }
    }

    /// The next clause. `None` where there is none, or what stands there is none.
    pub fn next(&mut self, alloc: Global) -> Result<Option<Clause>, NoMemory> {
        let span = self.start();
        let Some((pattern, length)) = clause_at(alloc, rest(self.text, span.from))? else {
            return Ok(None);
        };
        let to = span.from.saturating_add(length);
        let first_line = self.line_behind(span);
        let inside = Span {
            from: span.from,
            to,
        };
        let last_line = first_line.saturating_add(line_ends(part(self.text, inside)));
        self.at = to;
        self.line = last_line;
        self.count = self.count.saturating_add(1);
        Ok(Some(Clause {
            number: self.count,
            span: inside,
            first_line,
            last_line,
            pattern,
        }))
    }

    /// The layout up to the next clause.
    fn start(&self) -> Span {
        Span {
            from: behind_layout(self.text, self.at),
            to: self.at,
        }
    }

    // The line of a place behind this one.
    fn line_behind(&self, start: Span) -> usize {
        let layout = Span {
            from: start.to,
            to: start.from,
        };
        self.line.saturating_add(line_ends(part(self.text, layout)))
    }

    /// Where the next clause begins, and on which line.
    pub fn place(&self) -> (usize, usize) {
        let start = self.start();
        (start.from, self.line_behind(start))
    }
}

// The clause at the front of a text, and its length.
fn clause_at(alloc: Global, text: &[u8]) -> Result<Option<(Pattern, usize)>, NoMemory> {
    match next_clause(alloc, text, 0) {
        Ok(found) => Ok(found),
        Err(Some(_)) => Ok(None),
        Err(None) => Err(NoMemory),
    }
}

/// Name and arguments of a term; of a number and of a variable none.
pub fn parts_of(term: &Term) -> (&[u8], &[Term]) {
    match term {
        Term::Atom(name) => (name.bytes(), &[]),
        Term::Comp(name, args) => (name.bytes(), args.items()),
        Term::Int(_) | Term::Var(_) => (b"", &[]),
    }
}

/// The name that a term is, if it is an atom.
pub fn atom(term: &Term) -> Option<&[u8]> {
    match term {
        Term::Atom(name) => Some(name.bytes()),
        Term::Comp(..) | Term::Int(_) | Term::Var(_) => None,
    }
}

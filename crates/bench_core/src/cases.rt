//! The cases, and what their rounds are built of.
use crate::builders::{Verb, named, one, pair, template};
use crate::fault::BenchFault;
use std::alloc::Global;
use tc_term::Term;

/// What a round is: one call, two or three. The size is of what the centre holds besides.
#[derive(Clone, Copy)]
pub enum Case {
    /// `out(p(k))` and `inp(p(k))`, behind so many entries of history.
    Pair,
    /// `out` and `inp` of a tuple of ten nodes.
    Ten,
    /// `in(w(1))`, which waits, and `out(w(1))`, beside requests for `w(k)`.
    Same,
    /// The same beside requests for `v(k)`.
    Other,
    /// `out(w(1))`, `no(w(1))`, which waits, and `inp(w(1))`, beside requests for `v(k)`.
    Gone,
    /// The same beside requests for the absence of `v(k)`, each of which is there.
    Absent,
    /// The same among these tuples `v(k)`, beside no request.
    Among,
    /// `inp(p(k,V))` and `out(p(k,k))` among tuples of that functor.
    First,
    /// `inp(p(X,Y))`, which takes the oldest, and `out(p(0,0))`, among tuples of that functor.
    Oldest,
    /// `rdp(name_K(1))` among tuples of so many names.
    Names,
    /// `out` of a tuple for which nobody waits, beside requests and ten times as many tuples of its
    /// functor.
    Unasked,
    /// `inp` that finds nothing beside the same.
    Missing,
    /// `in(count(X))` and `out(count(1))`, to which a reaction adds one.
    Counter,
    /// A philosopher's `in` and `out` of two chopsticks.
    Table,
    /// `out` that leads to so many reactions, each to the one before, and `inp` of what is left.
    Cascade,
    /// A centre that begins with so many tuples `p(i,0)`. Rounds are `rdp` that find nothing.
    Held,
    /// `out(p(i,0))`.
    Outs,
}

const TABLE: &[u8] = b"reaction(in(chops(A,B)),(pre,out_r(required(A,B)))). \
reaction(out_r(required(A,B)),(in_r(chop(A)),in_r(chop(B)),out_r(chops(A,B)))). \
reaction(in(chops(A,B)),(post,in_r(required(A,B)))). \
reaction(out(chops(A,B)),(in_r(chops(A,B)),out_r(chop(A)),out_r(chop(B)))). \
reaction(out_r(chop(A)),(rd_r(required(A,B)),in_r(chop(A)),in_r(chop(B)),out_r(chops(A,B)))). \
reaction(out_r(chop(B)),(rd_r(required(A,B)),in_r(chop(A)),in_r(chop(B)),out_r(chops(A,B)))).";

const COUNTER: &[u8] = b"reaction(out(count(X)),(in_r(count(X)),Y is X + 1,out_r(count(Y)))).";

const CASCADE: &[u8] = b"reaction(out(s(N)),(in_r(s(N)),M is N - 1,out_r(s(M)))). \
reaction(out_r(s(N)),(N > 0,in_r(s(N)),M is N - 1,out_r(s(M)))).";

impl Case {
    /// All cases.
    pub fn all() -> [Case; 17] {
        [
            Case::Pair,
            Case::Ten,
            Case::Same,
            Case::Other,
            Case::Gone,
            Case::Absent,
            Case::Among,
            Case::First,
            Case::Oldest,
            Case::Names,
            Case::Unasked,
            Case::Missing,
            Case::Counter,
            Case::Table,
            Case::Cascade,
            Case::Held,
            Case::Outs,
        ]
    }

    /// The word that stands for the case.
    pub fn name(self) -> &'static str {
        match self {
            Case::Pair => "pair",
            Case::Ten => "ten",
            Case::Same => "same",
            Case::Other => "other",
            Case::Gone => "gone",
            Case::Absent => "absent",
            Case::Among => "among",
            Case::First => "first",
            Case::Oldest => "oldest",
            Case::Names => "names",
            Case::Unasked => "unasked",
            Case::Missing => "missing",
            Case::Counter => "counter",
            Case::Table => "table",
            Case::Cascade => "cascade",
            Case::Held => "held",
            Case::Outs => "outs",
        }
    }

    /// The clauses of its centre.
    pub fn clauses(self) -> &'static [u8] {
        match self {
            Case::Counter => COUNTER,
            Case::Table => TABLE,
            Case::Cascade => CASCADE,
            _ => b"",
        }
    }

    /// How many reactions one phase of a call may have.
    pub fn budget(self) -> u32 {
        match self {
            Case::Counter | Case::Table => 100,
            Case::Cascade => 10_000,
            _ => 1,
        }
    }

    /// How many tuples its centre begins with, where it has this size.
    pub fn tuples(self, size: u32) -> u32 {
        match self {
            Case::First | Case::Oldest | Case::Names | Case::Held => size,
            Case::Absent | Case::Among => size,
            Case::Unasked | Case::Missing => size.saturating_mul(10),
            Case::Table => 3,
            Case::Counter => 1,
            Case::Pair | Case::Ten | Case::Same | Case::Other | Case::Gone => 0,
            Case::Cascade | Case::Outs => 0,
        }
    }

    /// The tuple of this place.
    pub fn tuple(self, alloc: Global, k: u32) -> Result<Term, BenchFault> {
        match self {
            Case::Names => Ok(named(alloc, k)?),
            Case::Held => Ok(pair(alloc, int(k), Term::Int(0))?),
            Case::Counter => Ok(one(alloc, b"count", Term::Int(0))?),
            Case::Table => chopstick(alloc, k),
            Case::Absent | Case::Among => self.request(alloc, k),
            _ => Ok(pair(alloc, int(k), int(k))?),
        }
    }

    /// How many requests wait, where the centre has this size.
    pub fn requests(self, size: u32) -> u32 {
        match self {
            Case::Same | Case::Other | Case::Unasked | Case::Missing => size,
            Case::Gone | Case::Absent => size,
            _ => 0,
        }
    }

    /// What its requests want.
    pub fn request_verb(self) -> Verb {
        match self {
            Case::Absent => Verb::No,
            _ => Verb::In,
        }
    }

    /// What the request of this place asks for.
    pub fn request(self, alloc: Global, k: u32) -> Result<Term, BenchFault> {
        match self {
            Case::Same => Ok(one(alloc, b"w", int(k.saturating_add(2)))?),
            Case::Other | Case::Gone | Case::Absent | Case::Among => {
                Ok(one(alloc, b"v", int(k.saturating_add(2)))?)
            }
            _ => Ok(pair(alloc, Term::Int(-1), int(k))?),
        }
    }

    /// How many rounds are made before the others.
    pub fn before(self, size: u32) -> u32 {
        match self {
            Case::Pair => size / 2,
            _ => 0,
        }
    }

    /// What a round asks first.
    pub fn first_verb(self) -> Verb {
        match self {
            Case::Pair | Case::Ten | Case::Unasked | Case::Cascade | Case::Outs => Verb::Out,
            Case::Gone | Case::Absent | Case::Among => Verb::Out,
            Case::Same | Case::Other | Case::Counter | Case::Table => Verb::In,
            Case::First | Case::Oldest | Case::Missing => Verb::Inp,
            Case::Names | Case::Held => Verb::Rdp,
        }
    }

    /// What a round asks then, if anything.
    pub fn second_verb(self) -> Option<Verb> {
        match self {
            Case::Pair | Case::Ten | Case::Cascade => Some(Verb::Inp),
            Case::Same | Case::Other | Case::First | Case::Oldest => Some(Verb::Out),
            Case::Counter | Case::Table => Some(Verb::Out),
            Case::Gone | Case::Absent | Case::Among => Some(Verb::No),
            Case::Names | Case::Unasked | Case::Missing | Case::Held | Case::Outs => None,
        }
    }

    /// What a round asks last, if anything: for what it has asked first.
    pub fn third_verb(self) -> Option<Verb> {
        match self {
            Case::Gone | Case::Absent | Case::Among => Some(Verb::Inp),
            _ => None,
        }
    }

    /// The terms of the first two, where they are the same in each round.
    pub fn texts(self) -> (&'static [u8], &'static [u8]) {
        match self {
            Case::Ten => (b"p(1,a,f(b,2),g(c),3,4)", b"p(1,X,f(Y,2),g(c),Z,4)"),
            Case::Same | Case::Other => (b"w(1)", b"w(1)"),
            Case::Gone | Case::Absent | Case::Among => (b"w(1)", b"w(1)"),
            Case::Oldest => (b"p(X,Y)", b"p(0,0)"),
            Case::Missing => (b"p(-2,X)", b"p"),
            Case::Counter => (b"count(X)", b"count(1)"),
            Case::Table => (b"chops(c1,c2)", b"chops(c1,c2)"),
            Case::Held => (b"q(1)", b"q"),
            _ => (b"s(0)", b"s(0)"),
        }
    }
}

/// The case for which a word stands.
pub fn case_of(word: &[u8]) -> Option<Case> {
    for case in Case::all() {
        if case.name().as_bytes() == word {
            return Some(case);
        }
    }
    None
}

fn int(k: u32) -> Term {
    Term::Int(i64::from(k))
}

// The tuple `chop(ck)`.
fn chopstick(alloc: Global, k: u32) -> Result<Term, BenchFault> {
    let text: &[u8] = match k {
        0 => b"chop(c1)",
        1 => b"chop(c2)",
        _ => b"chop(c3)",
    };
    Ok(template(alloc, text)?.into_term())
}

//! Canonical text of templates, read back.
//!
//! The next byte decides what stands there. Only where a whole term doesn't stand at the place may
//! its name alone, so the reader goes back once at most.
ghost use Rattle.std.specs.Prelude.{◌≡◌, ◌≤◌, [], ◌∷◌, ◌++◌, IfErr, IfNone, IfOk, IfSome, None, OnOk, codes};
ghost use Rattle.std.specs.Prelude.{length, ℕ};
ghost use Rattle.tc_lists.specs.Seen.{seen};
ghost use Rattle.tc_term.specs.Limits.{most_name_bytes};
ghost use Rattle.tc_term.specs.Text.{Alone, Behind};
ghost use Rattle.tc_term.specs.Tree.{Compound, Last, More, Tree};
ghost use Rattle.tc_term.specs.TreeView.{tree_of};
ghost use Rattle.tc_read.specs.Canonical.{IsCanonicalAt, IsLongestCanonicalAt};
ghost use Rattle.tc_read.specs.Front.{arguments, barred, before, called, canonical_at, element};
ghost use Rattle.tc_read.specs.Front.{head, is_barred, is_cell, list, name_at, named, node};
ghost use Rattle.tc_read.specs.Front.{reads, tail, without_room};
ghost use Rattle.tc_read.specs.Seen.{prepended, read_to, term_seen};
ghost use Rattle.tc_read.specs.declared.rest.Missing.TheVariants.{NoTerm};

use crate::budget::Budget;
use crate::layout::next_byte;
use crate::leaves::{Read, atom, nil, number, variable};
use crate::printed_names::{name_at, name_of, plain_word};
use crate::read::rest_from;
use crate::rest::{Missing, Rest};
use std::alloc::Global;
use tc_lists::NoMemory;
use tc_term::{Args, MOST_DEPTH, Name, NotPattern, Pattern, Term};

/// Arguments at the front, or why there are none.
type ReadArgs = Result<Args, Missing>;

/// Whether a compound of this name and these arguments is a list cell.
#[inline(always)]
fn is_cell(name: &[u8], args: &Args) -> bool
    ensures { result ≡ is_cell name.now args.now }
{
    name == b".".as_slice() && args.items().len() == 2
}

/// Whether the term is no list.
#[inline(always)]
fn is_barred(term: &Term) -> bool
    ensures { result ≡ is_barred (tree_of term.now) }
{
    match term {
        Term::Var(_) => true,
        Term::Int(_) => true,
        Term::Atom(name) => name.bytes() != b"[]".as_slice(),
        Term::Comp(name, args) => !is_cell(name.bytes(), args),
    }
}

/// A compound from its arguments on.
#[cycle(canonical)]
#[inline(always)]
fn called<'a>(alloc: Global, depth: usize, name: &[u8], rest: &mut Rest<'a>) -> Read
    ensures term { IfOk result (λ t.
        called (reads depth) name.now rest.old.budget rest.old.bytes.now
        ≡ read_to (tree_of t) rest.new) }
    ensures none { IfErr result (λ e. e ≡ NoTerm
        → called (reads depth) name.now rest.old.budget rest.old.bytes.now ≡ None) }
{
    rest.pay(name.len())?;
    let args = arguments(alloc, depth, rest)?;
    if is_cell(name, &args) {
        return Err(Missing::NoTerm);
    }
    Ok(Term::Comp(name_of(alloc, name)?, args))
}

/// Arguments, up to and with the closing bracket. No vector is made for one or two.
#[cycle(canonical)]
#[inline(always)]
fn arguments<'a>(alloc: Global, depth: usize, rest: &mut Rest<'a>) -> ReadArgs
    ensures term { IfOk result (λ t.
        arguments (reads depth Alone) rest.old.budget.room.nodes rest.old.budget rest.old.bytes.now
        ≡ read_to t rest.new) }
    ensures none { IfErr result (λ e. e ≡ NoTerm
        → arguments (reads depth Alone) rest.old.budget.room.nodes
        rest.old.budget rest.old.bytes.now ≡ None) }
{
    let most = rest.budget.room.nodes;
    if most == 0 {
        return Err(Missing::NoTerm);
    }
    let first = alone(alloc, depth, rest)?;
    match rest.next()? {
        b')' => Ok(Args::one(alloc, first)?),
        b',' => from_second(alloc, depth, most - 1, first, rest),
        _ => Err(Missing::NoTerm),
    }
}

/// Appends a term.
#[inline(always)]
fn push(terms: &mut Vec<Term>, term: Term) -> Result<(), NoMemory>
    ensures { OnOk result (terms.new.items ≡ terms.old.items ++ term ∷ []) }
{
    terms.push(term)?;
    Ok(())
}

/// These two terms, with room for as many more.
fn pair(alloc: Global, first: Term, second: Term) -> Result<Vec<Term>, NoMemory>
    ensures { IfOk result (λ terms. terms.items ≡ first ∷ second ∷ []) }
{
    let mut terms = Vec::with_capacity(alloc, 4)?;
    terms.push(first)?;
    terms.push(second)?;
    Ok(terms)
}

/// Arguments from the second on, at most so many.
#[cycle(canonical)]
#[inline(always)]
fn from_second<'a>(
    alloc: Global,
    depth: usize,
    most: usize,
    first: Term,
    rest: &mut Rest<'a>,
) -> ReadArgs
    ensures term { IfOk result (λ t.
        before (tree_of first) (arguments (reads depth Alone) most
        rest.old.budget rest.old.bytes.now)
        ≡ read_to t rest.new) }
    ensures none { IfErr result (λ e. e ≡ NoTerm
        → before (tree_of first) (arguments (reads depth Alone) most
        rest.old.budget rest.old.bytes.now) ≡ None) }
{
    if most == 0 {
        return Err(Missing::NoTerm);
    }
    let second = alone(alloc, depth, rest)?;
    match rest.next()? {
        b')' => Ok(Args::two(alloc, first, second)?),
        b',' => from_third(alloc, depth, most - 1, pair(alloc, first, second)?, rest),
        _ => Err(Missing::NoTerm),
    }
}

/// Arguments behind these, at most so many.
#[cycle(canonical)]
fn from_third<'a>(
    alloc: Global,
    depth: usize,
    most: usize,
    mut terms: Vec<Term>,
    rest: &mut Rest<'a>,
) -> ReadArgs
    ensures term { IfOk result (λ t.
        prepended terms.items (arguments (reads depth Alone) most
        rest.old.budget rest.old.bytes.now)
        ≡ read_to t rest.new) }
    ensures none { IfErr result (λ e. e ≡ NoTerm
        → prepended terms.items (arguments (reads depth Alone) most
        rest.old.budget rest.old.bytes.now) ≡ None) }
{
    for _ in 0..most {
        let term = alone(alloc, depth, rest)?;
        push(&mut terms, term)?;
        let byte = rest.next()?;
        if byte == b')' {
            return Ok(Args::new(alloc, terms)?);
        }
        if byte != b',' {
            return Err(Missing::NoTerm);
        }
    }
    Err(Missing::NoTerm)
}

/// A term behind a name: a compound where a bracket follows, else an atom.
#[cycle(canonical)]
#[inline(always)]
fn named<'a>(alloc: Global, depth: usize, name: &[u8], rest: &mut Rest<'a>) -> Read
    ensures term { IfOk result (λ t. named (reads depth) rest.old.budget name.now rest.old.bytes.now
        ≡ read_to (tree_of t) rest.new) }
    ensures none { IfErr result (λ e. e ≡ NoTerm
        → named (reads depth) rest.old.budget name.now rest.old.bytes.now ≡ None) }
{
    match next_byte(rest.bytes) {
        Some((b'(', after)) => {
            rest.bytes = after;
            called(alloc, depth, name, rest)
        }
        _ => atom(alloc, name, rest),
    }
}

/// A list cell, from its head on.
#[cycle(canonical)]
fn element<'a>(alloc: Global, depth: usize, rest: &mut Rest<'a>) -> Read
    ensures term { IfOk result (λ t. element (reads depth) rest.old.budget rest.old.bytes.now
        ≡ read_to (tree_of t) rest.new) }
    ensures none { IfErr result (λ e. e ≡ NoTerm
        → element (reads depth) rest.old.budget rest.old.bytes.now ≡ None) }
{
    rest.pay(1)?;
    let first = alone(alloc, depth, rest)?;
    let last = behind(alloc, depth, rest)?;
    Ok(cell(alloc, first, last)?)
}

/// The list of this element and this tail.
#[inline(always)]
fn cell(alloc: Global, first: Term, last: Term) -> Result<Term, NoMemory>
    ensures { IfOk result (λ r. tree_of r
        ≡ Compound (codes ".") (More (tree_of first) (Last (tree_of last)))) }
{
    let args = Args::two(alloc, first, last)?;
    Ok(Term::Comp(Name::new(alloc, b".")?, args))
}

/// A list behind its opening bracket.
#[cycle(canonical)]
fn list<'a>(alloc: Global, depth: usize, rest: &mut Rest<'a>) -> Read
    ensures term { IfOk result (λ t. list (reads depth) rest.old.budget rest.old.bytes.now
        ≡ read_to (tree_of t) rest.new) }
    ensures none { IfErr result (λ e. e ≡ NoTerm
        → list (reads depth) rest.old.budget rest.old.bytes.now ≡ None) }
{
    match next_byte(rest.bytes) {
        None => Err(Missing::NoTerm),
        Some((b']', after)) => {
            rest.bytes = after;
            nil(alloc, rest)
        }
        Some(_) => element(alloc, depth, rest),
    }
}

/// A term by itself that begins with a name in quotes; what stands behind the quote is given.
#[cycle(canonical)]
#[inline(never)]
fn in_quotes<'a>(alloc: Global, depth: usize, inside: &[u8], rest: &mut Rest<'a>) -> Read
    requires { rest.old.bytes.now ≡ 39 ∷ inside.now }
    ensures term { IfOk result (λ t. node (reads depth) rest.old.budget rest.old.bytes.now
        ≡ read_to (tree_of t) rest.new) }
    ensures none { IfErr result (λ e. e ≡ NoTerm
        → node (reads depth) rest.old.budget rest.old.bytes.now ≡ None) }
{
    match name_at(alloc, rest.bytes, rest.budget.room.name_bytes)? {
        None => Err(Missing::NoTerm),
        Some((name, after)) => {
            rest.bytes = after;
            named(alloc, depth, name.bytes(), rest)
        }
    }
}

/// A term by itself, whose arguments are of at most this depth.
#[cycle(canonical)]
fn node<'a>(alloc: Global, depth: usize, rest: &mut Rest<'a>) -> Read
    ensures term { IfOk result (λ t. node (reads depth) rest.old.budget rest.old.bytes.now
        ≡ read_to (tree_of t) rest.new) }
    ensures none { IfErr result (λ e. e ≡ NoTerm
        → node (reads depth) rest.old.budget rest.old.bytes.now ≡ None) }
{
    match next_byte(rest.bytes) {
        None => Err(Missing::NoTerm),
        Some((b'_', after)) => {
            rest.bytes = after;
            variable(rest)
        }
        Some((b'[', after)) => {
            rest.bytes = after;
            list(alloc, depth, rest)
        }
        Some((b'\'', inside)) => in_quotes(alloc, depth, inside, rest),
        Some((first, after)) => {
            let limit = rest.budget.room.name_bytes;
            if !first.is_ascii_lowercase() || limit == 0 {
                return number(rest);
            }
            let (word, behind) = plain_word(rest.bytes, first, after, limit);
            rest.bytes = behind;
            named(alloc, depth, word, rest)
        }
    }
}

/// The closing bracket of a list behind its tail.
#[cycle(canonical)]
fn closed<'a>(alloc: Global, depth: usize, rest: &mut Rest<'a>) -> Read
    ensures term { IfOk result (λ t. barred (node (reads depth) rest.old.budget rest.old.bytes.now)
        ≡ read_to (tree_of t) rest.new) }
    ensures none { IfErr result (λ e. e ≡ NoTerm
        → barred (node (reads depth) rest.old.budget rest.old.bytes.now) ≡ None) }
{
    let term = node(alloc, depth, rest)?;
    match rest.next()? {
        b']' if is_barred(&term) => Ok(term),
        _ => Err(Missing::NoTerm),
    }
}

/// A term behind an element of a list, with the closing bracket.
#[cycle(canonical)]
fn tail<'a>(alloc: Global, depth: usize, rest: &mut Rest<'a>) -> Read
    ensures term { IfOk result (λ t. tail (reads depth) rest.old.budget rest.old.bytes.now
        ≡ read_to (tree_of t) rest.new) }
    ensures none { IfErr result (λ e. e ≡ NoTerm
        → tail (reads depth) rest.old.budget rest.old.bytes.now ≡ None) }
{
    match rest.next()? {
        b']' => nil(alloc, rest),
        b',' => element(alloc, depth, rest),
        b'|' => closed(alloc, depth, rest),
        _ => Err(Missing::NoTerm),
    }
}

/// A term of at most this depth by itself.
#[cycle(canonical)]
#[inline(always)]
fn alone<'a>(alloc: Global, depth: usize, rest: &mut Rest<'a>) -> Read
    ensures term { IfOk result (λ t. reads depth Alone rest.old.budget rest.old.bytes.now
        ≡ read_to (tree_of t) rest.new) }
    ensures none { IfErr result (λ e. e ≡ NoTerm
        → reads depth Alone rest.old.budget rest.old.bytes.now ≡ None) }
{
    if depth == 0 {
        return Err(Missing::NoTerm);
    }
    node(alloc, depth - 1, rest)
}

/// A term of at most this depth behind an element of a list.
#[cycle(canonical)]
fn behind<'a>(alloc: Global, depth: usize, rest: &mut Rest<'a>) -> Read
    ensures term { IfOk result (λ t. reads depth Behind rest.old.budget rest.old.bytes.now
        ≡ read_to (tree_of t) rest.new) }
    ensures none { IfErr result (λ e. e ≡ NoTerm
        → reads depth Behind rest.old.budget rest.old.bytes.now ≡ None) }
{
    if depth == 0 {
        return Err(Missing::NoTerm);
    }
    tail(alloc, depth - 1, rest)
}

/// The name at the front as an atom.
#[inline(always)]
fn head<'a>(alloc: Global, bytes: &'a [u8]) -> Result<Option<(Term, Rest<'a>)>, NoMemory>
    ensures { IfOk result (λ r. term_seen r ≡ head (name_at most_name_bytes bytes.now)) }
{
    let budget = Budget::whole();
    let Some((name, bytes)) = name_at(alloc, bytes, budget.room.name_bytes)? else {
        return Ok(None);
    };
    let mut rest = Rest { budget, bytes };
    match atom(alloc, name.bytes(), &mut rest) {
        Ok(term) => Ok(Some((term, rest))),
        Err(Missing::NoTerm) => Ok(None),
        Err(Missing::NoMemory) => Err(NoMemory),
    }
}

/// The template at the front, as a term, with what is left behind it.
#[inline(always)]
fn at_front<'a>(alloc: Global, bytes: &'a [u8]) -> Result<Option<(Term, Rest<'a>)>, NoMemory>
    ensures { IfOk result (λ r. term_seen r ≡ canonical_at bytes.now) }
{
    let mut rest = Rest {
        budget: Budget::whole(),
        bytes,
    };
    match alone(alloc, MOST_DEPTH, &mut rest) {
        Ok(term) => Ok(Some((term, rest))),
        Err(Missing::NoTerm) => head(alloc, bytes),
        Err(Missing::NoMemory) => Err(NoMemory),
    }
}

/// The template whose canonical text stands at this place, the longest there is, and the place
/// behind it.
///
/// `None` says that none stands there. Recurses no deeper than a template may be. Takes time linear
/// in what it looks at, but for the numbering of variables (`Pattern::of`).
pub fn read_canonical(
    alloc: Global,
    text: &[u8],
    from: usize,
) -> Result<Option<(Pattern, usize)>, NoMemory>
    requires { from ≤ length text.now }
    ensures found { IfOk result
        (λ r. IfSome r (λ p. IsLongestCanonicalAt text.now from p.0 p.1)) }
    ensures none { IfOk result
        (λ r. IfNone r ((p : Tree) (behind : ℕ)
        → IsCanonicalAt text.now from p behind → ⊥)) }
{
    let Some((term, rest)) = at_front(alloc, rest_from(text, from))? else {
        return Ok(None);
    };
    match Pattern::of(term) {
        Err(NotPattern::TooBig(_)) => Ok(None),
        Err(NotPattern::TooMany(_)) => Ok(None),
        Err(NotPattern::NoMemory(_)) => Err(NoMemory),
        Ok(pattern) => Ok(Some((pattern, text.len() - rest.bytes.len()))),
    }
}

/// The same at the front: the template and what stands behind it.
///
/// What is read is known to be a template, with so many variables, and isn't walked again.
#[inline(always)]
pub fn read_template<'a>(
    alloc: Global,
    bytes: &'a [u8],
) -> Result<Option<(Pattern, &'a [u8])>, NoMemory>
    ensures { IfOk result (λ r. seen r ≡ without_room (canonical_at bytes.now)) }
{
    let Some((term, rest)) = at_front(alloc, bytes)? else {
        return Ok(None);
    };
    Ok(Some((
        Pattern::known(term, rest.budget.variables as u32),
        rest.bytes,
    )))
}

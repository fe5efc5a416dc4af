//! How many brackets the text of a term has open at once.
ghost use Rattle.std.specs.Prelude.{◌≡◌, ◌≤◌, IsTrue, max};
ghost use Rattle.tc_term.specs.Limits.{most_brackets, most_depth};
ghost use Rattle.tc_term.specs.Readable.{opened, opened_in_all};
ghost use Rattle.tc_term.specs.Text.{Alone, Behind};
ghost use Rattle.tc_term.specs.Tree.{Fits, depth, depth_of_all};
ghost use Rattle.tc_term.specs.TreeView.{tree_of};

use crate::arguments::as_two;
use tc_term::{Args, MOST_BRACKETS, Term, fits};

/// Whether a term is within the limits, and its text has no more brackets open than can be read.
///
/// No memory is taken. Recurses as deep as the term is.
pub fn is_small(t: &Term) -> bool
    ensures yes { IsTrue result
        → Fits (tree_of t.now) × (opened Alone (tree_of t.now) ≤ most_brackets) }
    ensures no { Fits (tree_of t.now) → opened Alone (tree_of t.now) ≤ most_brackets
        → IsTrue result }
{
    if !fits(t) {
        return false;
    }
    opened(t) <= MOST_BRACKETS
}

// How many brackets the text of a term by itself has open at most.
#[cycle(opened)]
fn opened(t: &Term) -> usize
    requires { depth (tree_of t.now) ≤ most_depth }
    ensures { result ≡ opened Alone (tree_of t.now) }
{
    if let Some((head, tail)) = as_two(t, b".") {
        let first = opened(head);
        let rest = opened_behind(tail);
        return larger(first, rest) + 1;
    }
    match t {
        Term::Atom(name) if name.bytes() == b"[]".as_slice() => 1,
        Term::Comp(_, args) => opened_in_all(args) + 1,
        _ => 0,
    }
}

// The same behind an element of a list, whose bracket is open already.
#[cycle(opened)]
fn opened_behind(t: &Term) -> usize
    requires { depth (tree_of t.now) ≤ most_depth }
    ensures { result ≡ opened Behind (tree_of t.now) }
{
    if let Some((head, tail)) = as_two(t, b".") {
        let first = opened(head);
        let rest = opened_behind(tail);
        return larger(first, rest);
    }
    match t {
        Term::Comp(_, args) => opened_in_all(args) + 1,
        _ => 0,
    }
}

// The same of arguments: that of the one that has most.
#[cycle(opened)]
fn opened_in_all(args: &Args) -> usize
    requires { depth_of_all args.now ≤ most_depth }
    ensures { result ≡ opened_in_all args.now }
{
    let mut most = 0;
    for arg in args.items() {
        let here = opened(arg);
        most = larger(most, here);
    }
    most
}

// The larger of two numbers.
fn larger(a: usize, b: usize) -> usize
    ensures { result ≡ max a b }
{
    if a < b { b } else { a }
}

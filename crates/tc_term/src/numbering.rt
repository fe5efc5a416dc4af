//! The variables of a term, by first appearance.
ghost use Rattle.std.specs.Prelude.{◌≡◌, ◌<◌, ◌≤◌, ◌↔◌, IsTrue, false, [], length};
ghost use Rattle.std.specs.List.{range_with_len};
ghost use Rattle.tc_term.specs.Limits.{most_variables};
ghost use Rattle.tc_term.specs.TreeView.{tree_of};
ghost use Rattle.tc_term.specs.Variables.{place_in, variables_after, with_number};

use crate::limits::MOST_VARIABLES;
use crate::terms::Term;
use std::marker::Model;

/// Variable numbers, each once, by first appearance. No memory is taken.
#[derive(Drop)]
pub(crate) struct Seen {
    numbers: [u32; MOST_VARIABLES],
    count: usize,
}

impl Model for Seen {
    ghost use Rattle.std.specs.Prelude.{List, ℕ, ◌≤◌, take};
    ghost use Rattle.tc_term.specs.Limits.{most_variables};

    ghost Value = { List ℕ };

    ghost view = { λ s. take s.count s.numbers };

    ghost invariant = { λ s. s.count ≤ most_variables };
}

impl Seen {
    pub(crate) fn new() -> Seen
        ensures { result ≡ [] }
    {
        Seen {
            numbers: [0; MOST_VARIABLES],
            count: 0,
        }
    }

    pub(crate) fn numbers(&self) -> &[u32]
        ensures numbers { result.now ≡ self.now }
        ensures few { length result.now ≤ most_variables }
    {
        &self.numbers[..self.count]
    }

    // Notes a number that wasn't seen yet, where there is room for it.
    fn add(&mut self, n: u32) -> bool
        ensures noted { IsTrue result → self.new ≡ with_number self.old n }
        ensures full { result ≡ false → most_variables < length (with_number self.old n) }
    {
        if place(self.numbers(), n) < self.count {
            return true;
        }
        if self.count == MOST_VARIABLES {
            return false;
        }
        self.numbers[self.count] = n;
        self.count += 1;
        true
    }
}

// Notes the variables of a term that weren't seen yet, where there is room for them.
pub(crate) fn note(t: &Term, seen: &mut Seen) -> bool
    ensures noted { IsTrue result → seen.new ≡ variables_after seen.old (tree_of t.now) }
    ensures full { result ≡ false → most_variables < length (variables_after seen.old (tree_of t.now)) }
{
    match t {
        Term::Var(n) => seen.add(*n),
        Term::Atom(_) | Term::Int(_) => true,
        Term::Comp(_, args) => {
            for arg in args.items() {
                if !note(arg, seen) {
                    return false;
                }
            }
            true
        }
    }
}

// Where a number stands first in a list, or the list's length.
pub(crate) fn place(numbers: &[u32], n: u32) -> usize
    ensures place { result ≡ place_in numbers.now n }
    ensures within { result ≤ length numbers.now }
{
    for (i, m) in numbers.iter().enumerate() {
        if *m == n {
            return i;
        }
    }
    numbers.len()
}

// Whether the numbers are 0, 1, .. in order.
pub(crate) fn count_up(numbers: &[u32]) -> bool
    ensures { IsTrue result ↔ numbers.now ≡ range_with_len 0 (length numbers.now) }
{
    for (i, n) in numbers.iter().enumerate() {
        if *n as usize != i {
            return false;
        }
    }
    true
}

//! Links from nodes to lower nodes that stand for the same tree, and the order in which they came.
ghost use mathlib.Core.List.{IsPrefix};
ghost use Rattle.std.specs.Prelude.{◌≡◌, ◌≢◌, ℕ, ◌+◌, ◌^◌, ◌<◌, ◌≤◌, ◌++◌, ◌∷◌, []};
ghost use Rattle.std.specs.Prelude.{length, take, drop, All, OnOk, OnErr, get_or};
ghost use Rattle.tc_unify.specs.Links.{Falls, linked, root};
ghost use Rattle.tc_unify.specs.Tables.{link_of, unlinked, rewound, HasNode, Extends};

use crate::nodes::FIRST_VARIABLE;
use tc_lists::NoMemory;

/// Where each term's node and each variable links to, itself where nothing is known of it, and the
/// nodes that were linked, in order.
#[derive(Drop)]
pub(crate) struct Links {
    pub(crate) terms: Vec<usize>,
    pub(crate) variables: Vec<usize>,
    pub(crate) trail: Vec<usize>,
}

impl Links {
    /// Where the node links to.
    fn next(&self, node: usize) -> usize
        ensures { result ≡ link_of self.now node }
    {
        if node < FIRST_VARIABLE {
            target(&self.terms, node, node)
        } else {
            target(&self.variables, node - FIRST_VARIABLE, node)
        }
    }

    /// Where the links from the node end. Takes the time of their number.
    pub(crate) fn end(&self, node: usize) -> usize
        requires { Falls (link_of self.now) }
        ensures { result ≡ root (link_of self.now) node }
    {
        let mut end = node;
        loop {
            let next = self.next(end);
            if next == end {
                return end;
            }
            end = next;
        }
    }

    // Writes a link. Nothing of it is recorded.
    fn set(&mut self, from: usize, to: usize)
        requires { HasNode self.old from }
        ensures link { (k : ℕ) → link_of self.new k ≡ linked (link_of self.old) from to k }
        ensures unlinked { link_of self.old from ≡ from → to ≢ from
            → unlinked self.new + 1 ≡ unlinked self.old }
        ensures terms { length self.new.terms.items ≡ length self.old.terms.items }
        ensures variables { length self.new.variables.items ≡ length self.old.variables.items }
        ensures trail { self.new.trail.items ≡ self.old.trail.items }
    {
        if from < FIRST_VARIABLE {
            self.terms[from] = to;
        } else {
            self.variables[from - FIRST_VARIABLE] = to;
        }
    }

    /// Takes back the newest links, so that so many are left in the trail.
    pub(crate) fn rewind(&mut self, len: usize)
        requires { All (HasNode self.old) (drop len self.old.trail.items) }
        ensures link { (k : ℕ) → link_of self.new k
            ≡ rewound (link_of self.old) (drop len self.old.trail.items) k }
        ensures trail { self.new.trail.items ≡ take len self.old.trail.items }
        ensures terms { length self.new.terms.items ≡ length self.old.terms.items }
        ensures variables { length self.new.variables.items ≡ length self.old.variables.items }
    {
        while self.trail.len() > len {
            if let Some(node) = self.trail.pop() {
                self.set(node, node);
            }
        }
    }

    /// Links a node to another, and records it.
    pub(crate) fn join(&mut self, from: usize, to: usize) -> Result<(), NoMemory>
        requires place { HasNode self.old from }
        requires free { link_of self.old from ≡ from }
        requires other { to ≢ from }
        ensures link { OnOk result
            ((k : ℕ) → link_of self.new k ≡ linked (link_of self.old) from to k) }
        ensures unlinked { OnOk result (unlinked self.new + 1 ≡ unlinked self.old) }
        ensures trail { OnOk result (self.new.trail.items ≡ self.old.trail.items ++ from ∷ []) }
        ensures extends { Extends self.old self.new }
        ensures same { OnErr result ((k : ℕ) → link_of self.new k ≡ link_of self.old k) }
        ensures same_trail { OnErr result (self.new.trail.items ≡ self.old.trail.items) }
    {
        self.trail.push(from)?;
        self.set(from, to);
        Ok(())
    }
}

/// Fills a table with links of nodes to themselves, up to this length.
///
/// The node of a place is so many on from the first.
pub(crate) fn push_own(table: &mut Vec<usize>, first: usize, len: usize) -> Result<(), NoMemory>
    requires shorter { length table.old.items ≤ len }
    requires room { first + len < 2 ^ 64 }
    ensures full { OnOk result (length table.new.items ≡ len) }
    ensures begins { IsPrefix table.old.items table.new.items }
    ensures own { (k : ℕ)
        → get_or table.new.items k (first + k) ≡ get_or table.old.items k (first + k) }
{
    while table.len() < len {
        let node = first + table.len();
        table.push(node)?;
    }
    Ok(())
}

// What a table has at a place, or what it has elsewhere.
fn target(table: &[usize], place: usize, elsewhere: usize) -> usize
    ensures { result ≡ get_or table.now place elsewhere }
{
    match table.get(place) {
        Some(next) => *next,
        None => elsewhere,
    }
}

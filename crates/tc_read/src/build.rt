//! Terms from their parts, kept while they fit.
ghost use Rattle.std.specs.Prelude.{◌≡◌};
ghost use Rattle.tc_term.specs.Tree as tree;
ghost use Rattle.tc_term.specs.TreeView.{tree_of};
ghost use Rattle.tc_read.specs.Items.{kept_item};
ghost use Rattle.tc_read.specs.Kept.{fits, kept, small_if};

use crate::measured::{Item, Measured};
use tc_term::{MOST_BYTES_OF_NAMES, MOST_DEPTH, MOST_NODES, Name, Term};

/// The term, if it fits.
#[inline(always)]
pub fn item(term: Term, nodes: usize, depth: usize, name_bytes: usize) -> Item
    requires counted { nodes ≡ tree.nodes (tree_of term) }
    requires deep { depth ≡ tree.depth (tree_of term) }
    requires named { name_bytes ≡ tree.name_bytes (tree_of term) }
    ensures { kept_item result ≡ small_if (fits (tree_of term)) (tree_of term) }
{
    if nodes <= MOST_NODES && depth <= MOST_DEPTH && name_bytes <= MOST_BYTES_OF_NAMES {
        Item::Small(Measured {
            term,
            nodes: nodes as u16,
            depth: depth as u16,
            name_bytes: name_bytes as u16,
        })
    } else {
        Item::Large
    }
}

/// A variable, by its number.
#[inline(always)]
pub fn variable(number: u32) -> Item
    ensures { kept_item result ≡ kept.variable number }
{
    item(Term::Var(number), 1, 1, 0)
}

/// An atom, which doesn't fit if its name is too long.
#[inline(always)]
pub fn atom(name: Name) -> Item
    ensures { kept_item result ≡ kept.atom name }
{
    let name_bytes = name.bytes().len();
    item(Term::Atom(name), 1, 1, name_bytes)
}

/// A whole number of this size, with a minus or without.
#[inline(always)]
pub fn integer(negative: bool, size: u64, place: usize) -> Item
    ensures { kept_item result ≡ kept.number negative size place }
{
    if size < 1 << 63 {
        let number = size as i64;
        item(Term::Int(if negative { -number } else { number }), 1, 1, 0)
    } else if negative && size == 1 << 63 {
        item(Term::Int(i64::MIN), 1, 1, 0)
    } else {
        Item::Wide(place)
    }
}

//! Terms with their sizes.
ghost use Rattle.std.specs.Prelude.{◌≡◌, ◌≤◌, map, reverse, ◌<◌};
ghost use Rattle.tc_term.specs.Limits.{most_depth, most_name_bytes, most_nodes};
ghost use Rattle.tc_term.specs.Tree as tree;
ghost use Rattle.tc_term.specs.TreeView.{tree_of};
ghost use Rattle.tc_read.specs.Kept.{all_nodes, all_depth, all_name_bytes};

use tc_term::Term;

/// A term and its sizes.
#[derive(Drop)]
pub struct Measured {
    pub term: Term,
    pub nodes: u16,
    pub depth: u16,
    pub name_bytes: u16,
    ghost counted: { nodes ≡ tree.nodes (tree_of term) },
    ghost deep: { depth ≡ tree.depth (tree_of term) },
    ghost named: { name_bytes ≡ tree.name_bytes (tree_of term) },
    ghost few: { nodes ≤ most_nodes },
    ghost flat: { depth ≤ most_depth },
    ghost short: { name_bytes ≤ most_name_bytes },
}

/// What is kept of a part of a text: a term that fits, that it doesn't fit, or the place of its
/// first integer 9223372036854775808 that no minus sign precedes.
#[derive(Drop)]
pub enum Item {
    Small(Measured),
    Large,
    Wide(usize),
}

/// Arguments and their sizes, the last argument first.
#[derive(Drop)]
pub struct Several {
    pub terms: Vec<Term>,
    pub nodes: usize,
    pub depth: usize,
    pub name_bytes: usize,
    ghost counted: { nodes ≡ all_nodes (reverse (map tree_of terms.items)) },
    ghost deep: { depth ≡ all_depth (reverse (map tree_of terms.items)) },
    ghost named: { name_bytes ≡ all_name_bytes (reverse (map tree_of terms.items)) },
    ghost few: { nodes < most_nodes },
    ghost flat: { depth < most_depth },
    ghost short: { name_bytes ≤ most_name_bytes },
}

/// What is kept of arguments, from one of them on to the last.
#[derive(Drop)]
pub enum Parts {
    Whole(Several),
    Oversized,
    Wide(usize),
}

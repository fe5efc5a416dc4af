//! What stands while equations are solved.
use crate::links::Links;
use crate::nodes::Arena;
use crate::sizes::Added;
use crate::walk::Walk;

/// The nodes of the equations' terms, their links, what each addition brought, and scratch lists:
/// the walk's, and the pairs that wait to be made equal.
#[derive(Drop)]
pub(crate) struct Solving {
    pub(crate) arena: Arena,
    pub(crate) links: Links,
    pub(crate) walk: Walk,
    pub(crate) waiting: Vec<(usize, usize)>,
    pub(crate) added: Vec<Added>,
}

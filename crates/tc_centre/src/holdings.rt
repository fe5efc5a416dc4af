//! What a centre holds between two steps of a turn.
use crate::founding::Founding;
use tc_bag::Bag;
use tc_model::Entry;
use tc_pending::Pending;
use tc_spec::Spec;
use tc_unify::Store;

/// What a centre began with, its clauses, its tuples, the requests that wait, and its history. The
/// store is scratch for the reactions: what it holds counts for nothing.
#[derive(Drop)]
pub struct Holdings {
    pub founding: Founding,
    pub spec: Spec,
    pub store: Store,
    pub bag: Bag,
    pub pending: Pending,
    pub history: Vec<Entry>,
}

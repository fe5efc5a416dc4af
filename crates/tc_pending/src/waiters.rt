//! The requests that wait, lent for a search.
use crate::index::Index;
use tc_model::Request;

/// Requests, oldest first; beside each its code and its serial number; the index of those of
/// serial numbers below `filed`; and whether one ever wanted absence.
#[derive(Clone, Copy)]
pub(crate) struct Waiters<'a> {
    pub(crate) requests: &'a [Request],
    pub(crate) codes: &'a [u64],
    pub(crate) serials: &'a [u64],
    pub(crate) index: &'a Index,
    pub(crate) filed: u64,
    pub(crate) absences: bool,
}

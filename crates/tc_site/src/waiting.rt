//! Where a desk has its pending row.

/// The place of the row in the log, and that of its centre, each from 0.
#[derive(Clone, Copy, Drop)]
pub struct WaitingAt {
    pub row: usize,
    pub centre: u32,
}

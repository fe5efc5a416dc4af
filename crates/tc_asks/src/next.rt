//! What an agent asks next.
use tc_model::Ask;

/// What is asked next, and of which centre, by its place among the centres, from 0.
#[derive(Drop)]
pub struct Next {
    pub centre: u32,
    pub ask: Ask,
}

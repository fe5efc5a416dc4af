//! What the reactions of a phase run under.
use tc_spec::Spec;
use tc_term::Name;

/// The clauses, the agent in whose name reactions run, the centre, and the most of them that may be
/// tried in a phase.
#[derive(Clone, Copy)]
pub struct Regime<'c> {
    pub spec: &'c Spec,
    pub agent: &'c Name,
    pub centre: &'c Name,
    pub budget: u32,
}

//! Gates: what every call of an agent passes before it is made.

/// What is passed before each call, by the agent's place and the call's number. A test holds up
/// agents here; no answer depends on it.
pub trait Gate {
    fn pass(&self, agent: u32, number: u64);
}

/// A gate that is open to all.
#[derive(Clone, Copy, Debug, PartialEq, Eq)]
pub struct NoGate;

impl Gate for NoGate {
    fn pass(&self, _agent: u32, _number: u64) {}
}

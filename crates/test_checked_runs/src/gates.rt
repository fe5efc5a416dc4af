//! A gate that holds an agent until another one has come so far.
use std::sync::atomic::{AtomicBool, Ordering};
use tc_desk::Gate;

/// Holds the first agent's first call until the second agent's second one has come to the gate, for
/// at most so many turns of a loop.
#[derive(Drop)]
pub struct Held {
    turns: u64,
    has_come: AtomicBool,
    has_passed: AtomicBool,
}

impl Held {
    /// A gate to which nobody has come.
    pub fn new(turns: u64) -> Held {
        Held {
            turns,
            has_come: AtomicBool::new(false),
            has_passed: AtomicBool::new(false),
        }
    }

    /// Whether the first agent was let through since the second one has come.
    pub fn has_passed(&self) -> bool {
        self.has_passed.load(Ordering::SeqCst)
    }

    // Waits until the second agent has come, or the turns are over.
    fn hold(&self) {
        for _ in 0..self.turns {
            if self.has_come.load(Ordering::SeqCst) {
                self.has_passed.store(true, Ordering::SeqCst);
                return;
            }
        }
    }
}

impl Gate for Held {
    fn pass(&self, agent: u32, number: u64) {
        match (agent, number) {
            (0, 1) => self.hold(),
            (1, 2) => self.has_come.store(true, Ordering::SeqCst),
            _ => {}
        }
    }
}

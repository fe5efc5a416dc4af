//! How far all agents of a row have come.
use std::sync::Wait;
use std::sync::atomic::{AtomicU64, Ordering};
use std::thread::yield_now;

/// How many moves of all agents have been made.
#[derive(Drop)]
pub struct Stage {
    moves: AtomicU64,
}

impl Stage {
    /// None has been made.
    pub fn new() -> Stage {
        Stage {
            moves: AtomicU64::new(0),
        }
    }

    /// One more is made.
    pub fn count(&self) {
        self.moves.fetch_add(1, Ordering::SeqCst);
    }

    /// How many have been made.
    pub fn made(&self) -> u64 {
        self.moves.load(Ordering::SeqCst)
    }

    /// Waits until so many have been made.
    pub fn reach<R: Wait>(&self, rt: &R, moves: u64) {
        for _ in rt.forever() {
            if self.made() >= moves {
                return;
            }
            yield_now();
        }
        unreachable!()
    }
}

//! One bell.

use std::sync::Wait;
use std::sync::atomic::AtomicU64;
use std::sync::atomic::Ordering::SeqCst;

/// How often a bell rang, and how many threads are about to sleep or asleep at it.
#[derive(Drop)]
pub struct Bell {
    rung: AtomicU64,
    sleepers: AtomicU64,
}

impl Bell {
    /// A bell that never rang.
    pub fn new() -> Bell {
        Bell {
            rung: AtomicU64::new(0),
            sleepers: AtomicU64::new(0),
        }
    }

    /// How often it has rung, modulo 2^64.
    pub fn rung(&self) -> u64 {
        self.rung.load(SeqCst)
    }

    /// Sleeps until it rings, unless it has rung since `rung` was read. It may return early.
    ///
    /// Only the low 32 bits are compared: after a multiple of 2^32 rings it sleeps all the same.
    pub fn sleep<R: Wait>(&self, rt: &R, rung: u64) {
        self.sleepers.fetch_add(1, SeqCst);
        self.rung.park(rt, (rung % (1 << 32)) as u32);
        self.sleepers.fetch_sub(1, SeqCst);
    }

    /// Rings: counts it, and wakes the threads at the bell.
    ///
    /// Where nobody sleeps it makes no system call.
    pub fn ring(&self) {
        self.rung.fetch_add(1, SeqCst);
        if self.sleepers.load(SeqCst) > 0 {
            self.rung.wake_all();
        }
    }

    /// Sleeps until it rings, unless `has_come` says, once the sleeper is counted, that it has come
    /// already. It may return early.
    pub fn sleep_unless<R: Wait, F: Fn() -> bool>(&self, rt: &R, has_come: F)
        requires { F.IsAlwaysCallable has_come }
    {
        let rung = self.rung();
        self.sleepers.fetch_add(1, SeqCst);
        if !has_come() {
            self.rung.park(rt, (rung % (1 << 32)) as u32);
        }
        self.sleepers.fetch_sub(1, SeqCst);
    }

    /// Rings where somebody sleeps, and else does nothing: for threads that sleep by `sleep_unless`.
    ///
    /// What `has_come` looks at has to be changed before.
    pub fn ring_sleepers(&self) {
        if self.sleepers.load(SeqCst) > 0 {
            self.rung.fetch_add(1, SeqCst);
            self.rung.wake_all();
        }
    }
}

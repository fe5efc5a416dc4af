//! Where threads sleep that have no ticket yet. Nothing here is part of the rule.
use std::sync::Wait;
use std::sync::atomic::AtomicU64;
use std::sync::atomic::Ordering::SeqCst;
use std::time::Duration;

/// Nobody sleeps at the entrance, or the one who was woken last will say so.
const QUIET: u64 = 0;
/// A thread may sleep there.
const SOUGHT: u64 = 1;

/// No thread watches.
const UNWATCHED: u64 = 0;
/// A thread watches.
const WATCHED: u64 = 1;

/// How long a thread that watches dozes. The system adds some fifty microseconds of its own.
const DOZE: u64 = 30;

#[derive(Drop)]
pub(crate) struct Entrance {
    state: AtomicU64,
    watch: AtomicU64,
}

impl Entrance {
    pub(crate) fn new() -> Entrance {
        Entrance {
            state: AtomicU64::new(QUIET),
            watch: AtomicU64::new(UNWATCHED),
        }
    }

    /// Says that a thread may sleep here: before each last look, and again after each sleep, since one
    /// `ring` wakes one thread and forgets the others.
    pub(crate) fn seek(&self) {
        self.state.store(SOUGHT, SeqCst);
    }

    /// Sleeps until the next `ring`. It may return early.
    pub(crate) fn sleep<R: Wait>(&self, rt: &R) {
        self.state.park(rt, SOUGHT as u32);
    }

    /// Takes the watch, where no other thread has it.
    pub(crate) fn watch(&self) -> bool {
        self.watch.swap(WATCHED, SeqCst) == UNWATCHED
    }

    /// Gives the watch back.
    pub(crate) fn unwatch(&self) {
        self.watch.store(UNWATCHED, SeqCst);
    }

    /// Whether a thread watches. That one will come in, or sleep here.
    pub(crate) fn is_watched(&self) -> bool {
        self.watch.load(SeqCst) == WATCHED
    }

    /// Sleeps for a moment. Only the thread that watches does that.
    pub(crate) fn doze<R: Wait>(&self, rt: &R) {
        self.watch
            .park_timeout(rt, WATCHED as u32, Duration::from_micros(DOZE));
    }

    /// Wakes one thread, if one may sleep here. Else it makes no system call.
    pub(crate) fn ring(&self) {
        if self.state.load(SeqCst) == SOUGHT && self.state.swap(QUIET, SeqCst) == SOUGHT {
            self.state.wake_one();
        }
    }
}

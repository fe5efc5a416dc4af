//! A roll.
ghost use Rattle.std.specs.Prelude.{◌<◌, ◌≤◌, IfSome};

use std::alloc::Global;
use std::sync::atomic::AtomicU64;
use std::sync::atomic::Ordering::SeqCst;
use tc_lists::NoMemory;

/// How many numbers share a word.
const BITS: usize = 64;

/// Numbers from 0 on, each of which is called or not.
///
/// Threads call and strike as they like, and nothing is claimed of who is called. What a number is
/// called for has to happen before, and who answers a call strikes the number before it looks what
/// has happened: then no call is lost.
#[derive(Drop)]
pub struct Roll {
    words: Vec<AtomicU64>,
}

impl Roll {
    /// A roll of so many numbers. All are called.
    pub fn new(alloc: Global, count: usize) -> Result<Roll, NoMemory> {
        let size = count.div_ceil(BITS);
        let mut words = Vec::with_capacity(alloc, size)?;
        for _ in 0..size {
            words.push_reserved(AtomicU64::new(u64::MAX));
        }
        Ok(Roll { words })
    }

    /// Calls a number. One that isn't on the roll is ignored.
    pub fn call(&self, number: usize) {
        if let Some(word) = self.words.get(number / BITS) {
            word.fetch_or(bit(number), SeqCst);
        }
    }

    /// Whether a number is called. One that isn't on the roll isn't.
    pub fn has(&self, number: usize) -> bool {
        match self.words.get(number / BITS) {
            Some(word) => word.load(SeqCst) & bit(number) != 0,
            None => false,
        }
    }

    /// Calls all numbers.
    pub fn call_all(&self) {
        for word in &self.words {
            word.store(u64::MAX, SeqCst);
        }
    }

    /// Strikes a number: it is no longer called. One that isn't on the roll is ignored.
    pub fn strike(&self, number: usize) {
        if let Some(word) = self.words.get(number / BITS) {
            word.fetch_and(!bit(number), SeqCst);
        }
    }

    /// The first number that is called, from `from` on and below `to`.
    ///
    /// Takes a step for each 64 numbers on the way.
    pub fn next(&self, from: usize, to: usize) -> Option<usize>
        ensures { IfSome result (λ number. (from ≤ number) × (number < to)) }
    {
        let mut start = from;
        while start < to {
            let called = self.words.get(start / BITS)?.load(SeqCst) >> (start % BITS) as u32;
            if called != 0 {
                return below(start, called.trailing_zeros() as usize, to);
            }
            let left = BITS - start % BITS;
            if to - start <= left {
                return None;
            }
            start += left;
        }
        None
    }
}

// The bit of a number in its word.
fn bit(number: usize) -> u64 {
    1 << (number % BITS) as u32
}

// The number so far behind the start, if it is below the end.
fn below(start: usize, ahead: usize, to: usize) -> Option<usize>
    requires { start < to }
    ensures { IfSome result (λ number. (start ≤ number) × (number < to)) }
{
    if ahead < to - start {
        return Some(start + ahead);
    }
    None
}

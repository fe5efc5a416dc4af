//! Many bells.
ghost use Rattle.std.specs.Prelude.{◌≡◌, ◌<◌, ◌≤◌, IfOk, IfSome, IfNone};

use crate::bell::Bell;
use std::alloc::Global;
use std::marker::Model;
use tc_lists::NoMemory;

/// Bells by number, from 0 on.
#[derive(Drop)]
pub struct Bells {
    all: Vec<Bell>,
}

impl Model for Bells {
    ghost use Rattle.std.specs.Prelude.{ℕ, vec_len};

    ghost Value = { ℕ };

    ghost view = { λ bells. vec_len bells.all };
}

impl Bells {
    /// So many bells.
    pub fn new(alloc: Global, count: usize) -> Result<Bells, NoMemory>
        ensures { IfOk result (λ bells. bells ≡ count) }
    {
        let mut all = Vec::with_capacity(alloc, count)?;
        for _ in 0..count {
            all.push_reserved(Bell::new());
        }
        Ok(Bells { all })
    }

    /// The bell of a number.
    pub fn get(&self, number: usize) -> Option<&Bell>
        ensures some { IfSome result (λ _. number < self.now) }
        ensures none { IfNone result (self.now ≤ number) }
    {
        self.all.get(number)
    }

    /// Rings each bell.
    pub fn ring_all(&self) {
        for bell in &self.all {
            bell.ring();
        }
    }
}

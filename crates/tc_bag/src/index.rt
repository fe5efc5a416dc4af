//! Ages by codes.
ghost use Rattle.std.specs.Prelude.{ℕ, ◌≢◌, ◌<◌, ◌≤◌, IsTrue, OnOk, IfSome, IfNone};
ghost use Rattle.tc_bag.specs.declared.codes.Code.{Code};
ghost use Rattle.tc_bag.specs.Ages.{Has, HasCodes};

use crate::by_block::ByBlock;
use crate::by_code::ByCode;
use crate::codes::{Code, Codes, codes_of};
use std::alloc::Global;
use tc_lists::NoMemory;
use tc_term::Ground;

/// The ages of rows by the codes of their keys, and by those of their keys and first arguments.
#[derive(Drop)]
pub(crate) struct Index {
    keys: ByBlock,
    firsts: ByCode,
}

impl Index {
    /// No age.
    pub(crate) fn new(alloc: Global) -> Index {
        Index {
            keys: ByBlock::new(alloc),
            firsts: ByCode::new(alloc),
        }
    }

    /// The least age with this code that is at least `from`.
    pub(crate) fn next(&self, code: Code, from: u64) -> Option<u64>
        ensures found { IfSome result (λ age. (from ≤ age)
            × ((a : ℕ) → from ≤ a → a < age → Has self.now code a → ⊥)) }
        ensures none { IfNone result ((a : ℕ) → from ≤ a → Has self.now code a → ⊥) }
    {
        match code {
            Code::OfKey(code) => self.keys.next(code, from),
            Code::OfFirst(code) => self.firsts.next(code, from),
        }
    }

    /// Enters a row.
    pub(crate) fn enter_row(&mut self, age: u64, codes: Codes) -> Result<(), NoMemory>
        ensures entered { OnOk result (HasCodes self.new age codes) }
        ensures kept { (c : Code) (a : ℕ) → Has self.old c a → Has self.new c a }
    {
        self.keys.enter(codes.key, age)?;
        match codes.first {
            Some(code) => self.firsts.enter(code, age),
            None => Ok(()),
        }
    }

    /// Enters a row again, and tells whether the index is whole, where it was so before.
    pub(crate) fn enter_again(&mut self, whole: bool, age: u64, codes: Codes) -> bool
        ensures entered { IsTrue result → IsTrue whole × HasCodes self.new age codes }
        ensures kept { (c : Code) (a : ℕ) → Has self.old c a → Has self.new c a }
    {
        match self.enter_row(age, codes) {
            Ok(()) => whole,
            Err(_) => false,
        }
    }

    /// Removes a row.
    pub(crate) fn leave_row(&mut self, age: u64, codes: Codes)
        ensures kept { (c : Code) (a : ℕ) → a ≢ age → Has self.old c a → Has self.new c a }
    {
        self.keys.leave(codes.key, age);
        if let Some(code) = codes.first {
            self.firsts.leave(code, age);
        }
    }

    /// Removes a row that is held no more.
    pub(crate) fn drop_row(&mut self, age: u64, tuple: Ground)
        ensures kept { (c : Code) (a : ℕ) → a ≢ age → Has self.old c a → Has self.new c a }
    {
        self.leave_row(age, codes_of(tuple.term()));
    }
}

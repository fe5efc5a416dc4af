//! What is left to be read, as it is lent from one reader to the next.
ghost use Rattle.std.specs.Prelude.{◌≡◌, ◌∷◌, [], IfOk, OnErr, OnOk, None, Some};
ghost use Rattle.tc_read.specs.Budget.{numbered, paid};

use crate::budget::Budget;
use std::alloc::AllocError;

/// Why no term is read: none stands there, or memory has run out.
#[derive(Clone, Copy, PartialEq, Eq, Debug)]
pub enum Missing {
    NoTerm,
    NoMemory,
}

impl From<AllocError> for Missing {
    ghost use Rattle.std.specs.Prelude.{◌≡◌};
    ghost use Rattle.tc_read.specs.declared.rest.Missing.TheVariants.{NoMemory};

    ghost from_gives = { λ _ e. e ≡ NoMemory };

    fn from(_: AllocError) -> Missing {
        Missing::NoMemory
    }
}

/// The bytes that are left, and what a term there may still take. Where none is read, either may be
/// anything.
#[derive(Clone, Copy)]
pub struct Rest<'a> {
    pub budget: Budget,
    pub bytes: &'a [u8],
}

impl<'a> Rest<'a> {
    /// Takes a node whose name has so many bytes.
    #[inline(always)]
    pub fn pay(&mut self, size: usize) -> Result<(), Missing>
        ensures paid { OnOk result (paid size self.old.budget ≡ Some self.new.budget) }
        ensures none { OnErr result (paid size self.old.budget ≡ None) }
        ensures bytes { self.new.bytes.now ≡ self.old.bytes.now }
    {
        match self.budget.paid(size) {
            None => Err(Missing::NoTerm),
            Some(left) => {
                self.budget = left;
                Ok(())
            }
        }
    }

    /// Takes a variable of this number.
    #[inline(always)]
    pub fn number(&mut self, number: usize) -> Result<(), Missing>
        ensures numbered { OnOk result (numbered number self.old.budget ≡ Some self.new.budget) }
        ensures none { OnErr result (numbered number self.old.budget ≡ None) }
        ensures bytes { self.new.bytes.now ≡ self.old.bytes.now }
    {
        match self.budget.numbered(number) {
            None => Err(Missing::NoTerm),
            Some(left) => {
                self.budget = left;
                Ok(())
            }
        }
    }

    /// Takes the first byte.
    #[inline(always)]
    pub fn next(&mut self) -> Result<u8, Missing>
        ensures byte { IfOk result (λ b. self.old.bytes.now ≡ b ∷ self.new.bytes.now) }
        ensures none { OnErr result (self.old.bytes.now ≡ []) }
        ensures budget { self.new.budget ≡ self.old.budget }
    {
        match self.bytes {
            [] => Err(Missing::NoTerm),
            [first, behind @ ..] => {
                self.bytes = behind;
                Ok(*first)
            }
        }
    }
}

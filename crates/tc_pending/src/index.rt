//! Serial numbers of requests by the codes of their templates.
ghost use Rattle.std.specs.Prelude.{ℕ, ◌≡◌, ◌<◌, ◌≤◌, true, IsTrue, length};
ghost use Rattle.std.specs.Prelude.{slice_index_or, OnOk, IfSome, IfNone};
ghost use Rattle.tc_pending.specs.Rising.{NumbersRise};
ghost use Rattle.tc_pending.specs.Filed.{Has, IsFiled, KeepsAll};

use crate::numbers::{count_below, number_behind, place_of};
use std::alloc::Global;
use tc_bag::Pairs;
use tc_lists::NoMemory;

// Up to so many requests their codes are gone through, which is then faster than look-ups.
const FEW: usize = 32;

/// So many remainders of codes are told apart.
pub const REMAINDERS: u64 = 8192;

/// Pairs of a code and a serial number, in order; and for each remainder of a code, once there was
/// a pair, whether one with such a code was ever entered.
#[derive(Drop)]
pub(crate) struct Index {
    pairs: Pairs,
    entered: Vec<bool>,
}

impl Index {
    /// No pair.
    pub(crate) fn new(alloc: Global) -> Index {
        Index {
            pairs: Pairs::new(alloc),
            entered: Vec::new(alloc),
        }
    }

    /// Whether there may be a pair of this code.
    pub(crate) fn may_have(&self, code: u64) -> bool
        ensures { (s : ℕ) → Has self.now code s → IsTrue result }
    {
        let place = (code % REMAINDERS) as usize;
        place < self.entered.len() && self.entered[place]
    }

    /// The least serial number of this code that is at least `from`.
    pub(crate) fn next(&self, code: u64, from: u64) -> Option<u64>
        ensures found { IfSome result (λ serial. (from ≤ serial)
            × ((s : ℕ) → from ≤ s → s < serial → Has self.now code s → ⊥)) }
        ensures none { IfNone result ((s : ℕ) → from ≤ s → Has self.now code s → ⊥) }
    {
        if !self.may_have(code) {
            return None;
        }
        self.pairs.next(code, from)
    }

    /// Removes a pair, unless its serial number is one of these.
    pub(crate) fn leave(&mut self, serials: &[u64], code: u64, serial: u64)
        requires { NumbersRise serials.now }
        ensures { KeepsAll self.old self.new serials.now }
    {
        if place_of(serials, serial).is_none() {
            self.pairs.leave(code, serial);
        }
    }

    // Enters a pair. Where it is the first, memory is taken for the remainders.
    fn enter(&mut self, code: u64, serial: u64) -> Result<(), NoMemory>
        ensures entered { OnOk result (Has self.new code serial) }
        ensures kept { (c s : ℕ) → Has self.old c s → Has self.new c s }
    {
        self.entered.resize(REMAINDERS as usize, false)?;
        self.pairs.enter(code, serial)?;
        self.entered[(code % REMAINDERS) as usize] = true;
        Ok(())
    }

    // Enters the pairs from a place on.
    fn enter_from(&mut self, codes: &[u64], serials: &[u64], start: usize) -> Result<(), NoMemory>
        requires { length serials.now ≡ length codes.now }
        ensures entered { OnOk result ((k : ℕ) → start ≤ k → k < length serials.now
            → Has self.new (slice_index_or codes.now k 0) (slice_index_or serials.now k 0)) }
        ensures kept { (c s : ℕ) → Has self.old c s → Has self.new c s }
    {
        for place in start..serials.len() {
            self.enter(codes[place], serials[place])?;
        }
        Ok(())
    }
}

/// Enters the requests that are not in the index, where they are more than a few and there is no
/// mark.
pub(crate) fn file(
    index: &mut Index,
    filed: &mut u64,
    codes: &[u64],
    serials: &[u64],
    is_marked: bool,
) -> Result<(), NoMemory>
    requires filed { IsFiled index.old filed.old codes.now serials.now }
    ensures filed { IsFiled index.new filed.new codes.now serials.now }
    ensures marked { is_marked ≡ true → (index.new ≡ index.old) × (filed.new ≡ filed.old) }
{
    let is_short = serials.len() <= FEW || serials[serials.len() - FEW - 1] < *filed;
    if is_marked || is_short {
        return Ok(());
    }
    let start = count_below(serials, *filed);
    let behind = number_behind(serials, *filed)?;
    index.enter_from(codes, serials, start)?;
    *filed = behind;
    Ok(())
}

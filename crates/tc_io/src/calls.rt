//! The calls of an object in memory, and which of them fail.
ghost use Rattle.std.specs.Prelude.{◌≡◌, IsTrue};
ghost use Rattle.tc_io.specs.Faults.{CountRises};
ghost use Rattle.tc_io.specs.Memory.{Calls, MakesCall, never_fails, no_call};

use std::marker::Model;

/// Calls that are numbered from 1, of which some fail. The numbers end at `u64::MAX`.
#[derive(Drop)]
pub(crate) struct NumberedCalls {
    failing: Vec<u64>,
    made: u64,
    failed: u64,
}

impl Model for NumberedCalls {
    ghost Value = { Calls };

    ghost view = { λ c. record { failing = c.failing.items; made = c.made; failed = c.failed } };
}

impl NumberedCalls {
    pub(crate) fn new(failing: Vec<u64>) -> NumberedCalls
        ensures { result ≡ no_call failing.items }
    {
        NumberedCalls {
            failing,
            made: 0,
            failed: 0,
        }
    }

    // Counts a call, and says whether it fails.
    pub(crate) fn next_fails(&mut self) -> bool
        ensures { MakesCall self.old self.new (IsTrue result) }
    {
        self.made = self.made.saturating_add(1);
        let fails = self.failing.contains(&self.made);
        if fails {
            self.fail();
        }
        fails
    }

    // Counts a failure of the call that was counted last.
    pub(crate) fn fail(&mut self)
        ensures failed { CountRises self.old.failed self.new.failed }
        ensures made { self.new.made ≡ self.old.made }
        ensures failing { self.new.failing ≡ self.old.failing }
    {
        self.failed = self.failed.saturating_add(1);
    }

    // Whether no call fails by its number.
    pub(crate) fn never_fail(&self) -> bool
        ensures { result ≡ never_fails self.now }
    {
        self.failing.is_empty()
    }
}

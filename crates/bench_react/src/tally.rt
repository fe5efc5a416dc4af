//! What came of bodies.
ghost use Rattle.std.specs.Prelude.{◌≡◌, ◌+◌, ◌<◌, ◌^◌};

use tc_model::Item;

/// How many bodies fired, and how many failed.
#[derive(Clone, Copy)]
pub struct Tally {
    pub fired: u32,
    pub failed: u32,
}

impl Tally {
    /// Counts one more.
    pub fn count(&mut self, item: &Item)
        requires { self.old.fired + self.old.failed + 1 < 2 ^ 32 }
        ensures { self.new.fired + self.new.failed ≡ self.old.fired + self.old.failed + 1 }
    {
        match item {
            Item::Fired { .. } => self.fired += 1,
            Item::Failed { .. } => self.failed += 1,
        }
    }
}

//! How additions were answered.
ghost use Rattle.std.specs.Prelude.{◌≡◌, ◌+◌, ◌<◌, ◌^◌};

/// How many additions were accepted, and how many were refused.
#[derive(Clone, Copy)]
pub struct Tally {
    pub accepted: u32,
    pub refused: u32,
}

impl Tally {
    /// Counts one more answer.
    pub fn count(&mut self, accepted: bool)
        requires { self.old.accepted + self.old.refused + 1 < 2 ^ 32 }
        ensures { self.new.accepted + self.new.refused
            ≡ self.old.accepted + self.old.refused + 1 }
    {
        if accepted {
            self.accepted += 1;
        } else {
            self.refused += 1;
        }
    }
}

//! What the turns work on: a number that each turn stirs, and how many turns there were.

use tc_turn::Chronicle;

/// How many turns were made, and what their work came to. It has no history.
#[derive(Drop)]
pub struct Tally {
    pub turns: u64,
    stirred: u64,
}

impl Chronicle for Tally {
    ghost use Rattle.std.specs.Prelude.{[], None};

    type Entry = u8;

    type Origin = u8;

    ghost origin = { λ _. 0 };

    ghost history = { λ _. [] };

    ghost owner = { λ _. None };

    fn entries(&self) -> u64 {
        0
    }
}

impl Tally {
    /// No turn yet.
    pub fn new() -> Tally {
        Tally {
            turns: 0,
            stirred: 1,
        }
    }

    /// One turn's work: so many rounds of stirring.
    pub fn work(&mut self, rounds: u32) {
        self.turns = self.turns.wrapping_add(1);
        self.stirred = stir(self.stirred, rounds);
    }
}

/// So many rounds of a shift register, each waiting for the one before.
fn stir(seed: u64, rounds: u32) -> u64 {
    let mut x = seed | 1;
    for _ in 0..rounds {
        x ^= x.wrapping_shl(13);
        x ^= x.wrapping_shr(7);
        x ^= x.wrapping_shl(17);
    }
    x
}

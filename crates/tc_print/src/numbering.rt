//! Numbers for variables, by first appearance.
ghost use Rattle.std.specs.Prelude.{◌≡◌, [], IfOk, OnOk};
ghost use Rattle.tc_term.specs.Variables.{place_in, with_number};

use indexmap::IndexSet;
use std::alloc::Global;
use std::marker::Model;
use tc_lists::NoMemory;

/// The variables that were seen, each once: a variable's place is its new number.
#[derive(Drop)]
pub(crate) struct Numbering {
    seen: IndexSet<u32>,
}

impl Model for Numbering {
    ghost use Rattle.std.specs.Prelude.{List, ℕ};

    ghost Value = { List ℕ };

    ghost view = { λ n. n.seen.keys };
}

impl Numbering {
    pub(crate) fn new(alloc: Global) -> Numbering
        ensures { result ≡ [] }
    {
        Numbering {
            seen: IndexSet::new(alloc),
        }
    }

    // The new number of a variable. Takes constant time, but for what a rare growth takes.
    pub(crate) fn number(&mut self, variable: u32) -> Result<usize, NoMemory>
        ensures seen { OnOk result (self.new ≡ with_number self.old variable) }
        ensures number { IfOk result (λ number. number ≡ place_in self.new variable) }
    {
        let (number, _) = self.seen.insert_full(variable)?;
        Ok(number)
    }
}

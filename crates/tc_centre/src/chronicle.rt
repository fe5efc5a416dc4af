//! The centre as a turnstile hands it on: each entry that an agent made is owned by the pass of its
//! number, and answers to requests are owned by none.
ghost use Rattle.std.specs.Prelude.{◌≡◌, ℕ, List};
ghost use Rattle.tc_model.specs.Calls.{calls_of};
ghost use Rattle.tc_model.specs.declared.entries.Entry.{Entry};
ghost use Rattle.tc_turn.specs.Owners.{entries_of};
ghost use Rattle.tc_centre.specs.Owners.{owner_of};

use crate::centre::Core;
use crate::founding::Founding;
use std::marker::Model;
use tc_model::Entry;
use tc_turn::Chronicle;

/// What a centre begins with. No value of this type is made: it stands in proofs alone.
#[derive(Drop)]
pub struct Beginning {
    founding: Founding,
}

impl Model for Beginning {
    ghost use Rattle.std.specs.Coded.{codes};
    ghost use Rattle.tc_term.specs.TreeCode.{coded_tree, coded_trees};
    ghost use Rattle.tc_model.specs.State.{Origin};
    ghost use Rattle.tc_centre.specs.Held.{origin_of};

    ghost Value = { Origin };

    ghost coded = { Prim.hlevel (codes, coded_tree, coded_trees) };

    ghost view = { λ b. origin_of b.founding };
}

impl Chronicle for Core {
    ghost use Rattle.tc_centre.specs.Owners.{owner_of};

    type Entry = Entry;

    type Origin = Beginning;

    ghost origin = { λ c. c.origin };

    ghost history = { λ c. c.history };

    ghost owner = { owner_of };

    fn entries(&self) -> u64 {
        self.history().len() as u64
    }
}

/// What an agent owns are the entries that it made. A law: the call does nothing.
pub fn agents_own_their_calls()
    ensures { (agent : ℕ) (history : List Entry)
        → entries_of owner_of agent history ≡ calls_of agent history }
{}

//! Batches of an agenda that follow one another, passed over at one step where a place lies behind
//! them.
ghost use Rattle.std.specs.Prelude.{◌≡◌, ◌≤◌, ◌+◌, ◌++◌, [], length, slice_get, Some, IsTrue};
ghost use Rattle.std.specs.Prelude.{IfSome, IfNone, OnOk};
ghost use Rattle.tc_model.specs.Triggers.{members};
ghost use Rattle.tc_model.specs.Cascades.{without};

use crate::parts::{Part, drop_spent, place_in};
use std::alloc::Global;
use std::collections::VecDeque;
use std::marker::Model;
use tc_lists::NoMemory;
use tc_model::Event;

/// The most batches of a group. A cascade has some 640,000 events at most, and so 1,250 groups.
const MOST_BATCHES: usize = 512;

/// The numbers of clauses that one event has triggered, as far as they are left.
#[derive(Drop)]
pub struct Batch {
    event: Event,
    numbers: Vec<u32>,
}

impl Part for Batch {
    ghost use Rattle.tc_replay.specs.Agendas.{members_of};

    ghost members = { members_of };

    fn count(&self) -> usize {
        self.numbers.len()
    }
}

/// Batches, and how many triggered reactions are left of them.
///
/// A batch of which nothing is left keeps its event until nothing is left of those before it either.
#[derive(Drop)]
pub struct Group {
    batches: VecDeque<Batch>,
    count: usize,
}

impl Model for Group {
    ghost use Rattle.std.specs.Prelude.{◌≡◌, List, length};
    ghost use Rattle.std.specs.List.{flat_map};
    ghost use Rattle.std.specs.Coded.{codes};
    ghost use Rattle.tc_term.specs.TreeCode.{coded_tree};
    ghost use Rattle.tc_model.specs.Triggers.{Member};

    ghost Value = { List Member };

    ghost coded = { Prim.hlevel (codes, coded_tree) };

    ghost use Rattle.tc_replay.specs.Agendas.{members_of};

    ghost view = { λ g. flat_map members_of g.batches.items };

    ghost invariant = { λ g. g.count ≡ length (flat_map members_of g.batches.items) };
}

impl Part for Group {
    ghost members = { λ ms. ms };

    fn count(&self) -> usize {
        self.count
    }
}

impl Group {
    /// No batch.
    pub fn new(alloc: Global) -> Group
        ensures { result ≡ [] }
    {
        Group {
            batches: VecDeque::new(alloc),
            count: 0,
        }
    }

    /// The one at a place, from 0: the number of its clause, and the event that triggered it.
    pub fn get(&self, place: usize) -> Option<(u32, &Event)>
        ensures some { IfSome result
            (λ m. slice_get self.now place ≡ Some (record { clause = m.0; event = m.1.now })) }
        ensures none { IfNone result (length self.now ≤ place) }
    {
        let (at, offset) = place_in(&self.batches, place)?;
        let batch = &self.batches[at];
        Some((batch.numbers[offset], &batch.event))
    }

    /// Whether one more batch, of so many numbers, is to be added here.
    pub fn has_room(&self, more: usize) -> bool
        ensures { IsTrue result → length self.now + more ≤ u64.MAX }
    {
        self.batches.len() < MOST_BATCHES && more <= usize::MAX - self.count
    }

    /// Removes the one at a place, where there is one.
    pub fn remove(&mut self, place: usize)
        ensures { self.new ≡ without place self.old }
    {
        let Some((at, offset)) = place_in(&self.batches, place) else {
            return;
        };
        let _number = self.batches[at].numbers.remove(offset);
        self.count -= 1;
        drop_spent(&mut self.batches);
    }

    /// Adds the clauses of these numbers, triggered by the event, behind the others.
    pub fn add(&mut self, event: Event, numbers: Vec<u32>) -> Result<(), NoMemory>
        requires { length self.old + length numbers.items ≤ u64.MAX }
        ensures { OnOk result (self.new ≡ self.old ++ members event numbers.items) }
    {
        let count = numbers.len();
        self.batches.push_back(Batch { event, numbers })?;
        self.count += count;
        Ok(())
    }
}

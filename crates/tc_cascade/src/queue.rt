//! The triggered reactions that are left, in batches that share their event.
ghost use Rattle.std.specs.Prelude.{◌≡◌, ◌-◌, ◌==◌, ◌++◌, ◌∷◌, [], length, take, drop, IfSome, IfNone, OnOk};
ghost use Rattle.tc_model.specs.Triggers.{members};

use std::alloc::Global;
use std::collections::VecDeque;
use std::marker::Model;
use tc_lists::NoMemory;
use tc_model::Event;

/// The numbers of clauses that one event has triggered, at least one.
#[derive(Drop)]
pub struct Batch {
    event: Event,
    numbers: Vec<u32>,
}

/// The triggered reactions that are left, the oldest first. They are given away from the first
/// batch, of which so many numbers as `place` says are gone.
#[derive(Drop)]
pub struct Queue {
    batches: VecDeque<Batch>,
    place: usize,
    len: usize,
}

impl Model for Queue {
    ghost use Rattle.std.specs.Prelude.{List};
    ghost use Rattle.std.specs.Coded.{codes};
    ghost use Rattle.tc_term.specs.TreeCode.{coded_tree};
    ghost use Rattle.tc_model.specs.Triggers.{Member};

    ghost Value = { List Member };

    ghost coded = { Prim.hlevel (codes, coded_tree) };

    ghost use Rattle.tc_cascade.specs.Batches.{triggered_in, IsQueue};

    ghost view = { λ q. triggered_in q.batches.items q.place };

    ghost invariant = { λ q. IsQueue q.batches.items q.place q.len };
}

impl Queue {
    /// No triggered reaction.
    pub fn new(alloc: Global) -> Queue
        ensures { result ≡ [] }
    {
        Queue {
            batches: VecDeque::new(alloc),
            place: 0,
            len: 0,
        }
    }

    /// Whether none is left.
    pub fn is_empty(&self) -> bool
        ensures { result ≡ (length self.now == 0) }
    {
        self.len == 0
    }

    /// The first that is left: the number of its clause, and the event that triggered it.
    pub fn first(&self) -> Option<(u32, &Event)>
        ensures some { IfSome result
            (λ m. self.now ≡ record { clause = m.0; event = m.1.now } ∷ drop 1 self.now) }
        ensures none { IfNone result (self.now ≡ []) }
    {
        let batch = self.batches.front()?;
        Some((batch.numbers[self.place], &batch.event))
    }

    /// Lets the first go.
    pub fn pass(&mut self)
        ensures { self.new ≡ drop 1 self.old }
    {
        let Some(batch) = self.batches.front() else {
            return;
        };
        let end = batch.numbers.len();
        self.len -= 1;
        self.place += 1;
        if self.place == end {
            self.batches.pop_front();
            self.place = 0;
        }
    }

    /// Adds the clauses of these numbers, triggered by the event, while fewer are left than there
    /// is room for.
    pub fn add(&mut self, event: Event, mut numbers: Vec<u32>, room: usize) -> Result<(), NoMemory>
        ensures { OnOk result
            (self.new ≡ self.old ++ take (room - length self.old) (members event numbers.items)) }
    {
        numbers.truncate(room.saturating_sub(self.len));
        if numbers.is_empty() {
            return Ok(());
        }
        let count = numbers.len();
        self.batches.push_back(Batch { event, numbers })?;
        self.len += count;
        Ok(())
    }
}

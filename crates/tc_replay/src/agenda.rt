//! The triggered reactions that are left of a cascade.
ghost use Rattle.std.specs.Prelude.{◌≡◌, ◌≤◌, ◌↔◌, ◌++◌, [], length, slice_get, Some, IsTrue};
ghost use Rattle.std.specs.Prelude.{IfSome, IfNone, OnOk};
ghost use Rattle.tc_model.specs.Triggers.{members};
ghost use Rattle.tc_model.specs.Cascades.{without};

use crate::group::Group;
use crate::parts::{drop_spent, place_in};
use std::alloc::Global;
use std::collections::VecDeque;
use std::marker::Model;
use tc_lists::NoMemory;
use tc_model::Event;

/// The triggered reactions that are left, in the order in which they were triggered.
///
/// A look at one, or its removal, takes O(1) time at the first place. Elsewhere it takes a step for
/// each group before it and each batch before it in its group: some 1,800 at most, where a cascade
/// has 640,000 events. An event may be kept after its last reaction is gone, but not after the
/// cascade, so memory stays in proportion to the items.
#[derive(Drop)]
pub struct Agenda {
    groups: VecDeque<Group>,
}

impl Model for Agenda {
    ghost use Rattle.std.specs.Prelude.{List};
    ghost use Rattle.std.specs.List.{flat_map};
    ghost use Rattle.std.specs.Coded.{codes};
    ghost use Rattle.tc_term.specs.TreeCode.{coded_tree};
    ghost use Rattle.tc_model.specs.Triggers.{Member};

    ghost Value = { List Member };

    ghost coded = { Prim.hlevel (codes, coded_tree) };

    ghost view = { λ a. flat_map (λ ms. ms) a.groups.items };
}

impl Agenda {
    /// No triggered reaction.
    pub fn new(alloc: Global) -> Agenda
        ensures { result ≡ [] }
    {
        Agenda {
            groups: VecDeque::new(alloc),
        }
    }

    /// Whether none is left.
    pub fn is_empty(&self) -> bool
        ensures { IsTrue result ↔ (self.now ≡ []) }
    {
        place_in(&self.groups, 0).is_none()
    }

    /// The one at a place, from 0: the number of its clause, and the event that triggered it.
    pub fn get(&self, place: usize) -> Option<(u32, &Event)>
        ensures some { IfSome result
            (λ m. slice_get self.now place ≡ Some (record { clause = m.0; event = m.1.now })) }
        ensures none { IfNone result (length self.now ≤ place) }
    {
        let (at, offset) = place_in(&self.groups, place)?;
        self.groups[at].get(offset)
    }

    /// Removes the one at a place, where there is one.
    pub fn remove(&mut self, place: usize)
        ensures { self.new ≡ without place self.old }
    {
        let Some((at, offset)) = place_in(&self.groups, place) else {
            return;
        };
        self.groups[at].remove(offset);
        drop_spent(&mut self.groups);
    }

    /// Adds the clauses of these numbers, triggered by the event, behind the others.
    pub fn add(&mut self, event: Event, numbers: Vec<u32>) -> Result<(), NoMemory>
        ensures { OnOk result (self.new ≡ self.old ++ members event numbers.items) }
    {
        if numbers.is_empty() {
            return Ok(());
        }
        if let Some(last) = self.groups.back_mut() {
            if last.has_room(numbers.len()) {
                return last.add(event, numbers);
            }
        }
        let mut group = Group::new(*self.groups.allocator());
        group.add(event, numbers)?;
        self.groups.push_back(group)?;
        Ok(())
    }
}

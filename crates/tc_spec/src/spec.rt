//! Clauses with an index by operation, by the code of the head and by what the guard allows.
ghost use Rattle.std.specs.Prelude.{◌≡◌, ◌<◌, ◌↔◌, IsTrue, IfOk, List, length};
ghost use Rattle.tc_model.specs.Reactions.{Rule};
ghost use Rattle.tc_spec.specs.Indexed.{AreEnough, AreOf, IsIndex};

use crate::parts::{Part, part_for, parts_of};
use crate::triggers::{numbers_of, triggered_of};
use std::alloc::Global;
use std::marker::Model;
use std::sync::ledger::Ledger;
use tc_lists::NoMemory;
use tc_model::{Clauses, Event, EventOp};
use tc_steps::Steps;
use tc_unify::Store;

// The numbers of the clauses of each operation, and of the clauses in parts by their codes; rising.
#[derive(Drop)]
pub struct Index {
    out: Vec<u32>,
    in_: Vec<u32>,
    rd: Vec<u32>,
    inp: Vec<u32>,
    rdp: Vec<u32>,
    no: Vec<u32>,
    nop: Vec<u32>,
    out_r: Vec<u32>,
    in_r: Vec<u32>,
    rd_r: Vec<u32>,
    no_r: Vec<u32>,
    parts: Vec<Part>,
}

/// The clauses of a centre, with an index by operation, by the code of the head and by the guard.
#[derive(Drop)]
pub struct Spec {
    clauses: Clauses,
    index: Index,
}

impl Model for Spec {
    ghost use Rattle.std.specs.Prelude.{List};
    ghost use Rattle.std.specs.Coded.{codes};
    ghost use Rattle.tc_term.specs.TreeCode.{coded_tree, coded_trees};
    ghost use Rattle.tc_model.specs.Reactions.{Rule};

    ghost Value = { List Rule };

    ghost coded = { Prim.hlevel (codes, coded_tree, coded_trees) };

    ghost view = { λ s. s.clauses };

    ghost use Rattle.tc_spec.specs.Indexed.{IsIndex};

    ghost invariant = { λ s. IsIndex s.clauses s.index };
}

impl Spec {
    ghost use Rattle.tc_model.specs.Triggers.{AreTriggered};
    ghost use Rattle.std.specs.Prelude.{◌≤◌, ◌+◌};
    ghost use Rattle.tc_spec.specs.Costs.{trigger_steps};
    ghost use Rattle.tc_spec.specs.Indexed.{HasOp};

    /// The clauses with their index. Takes the time of their heads, and up to 512 steps for each.
    pub fn of(alloc: Global, clauses: Clauses) -> Result<Spec, NoMemory>
        ensures { IfOk result (λ spec. spec ≡ clauses) }
    {
        let items = clauses.items();
        let index = Index {
            out: numbers_of(alloc, items, EventOp::Out)?,
            in_: numbers_of(alloc, items, EventOp::In)?,
            rd: numbers_of(alloc, items, EventOp::Rd)?,
            inp: numbers_of(alloc, items, EventOp::Inp)?,
            rdp: numbers_of(alloc, items, EventOp::Rdp)?,
            no: numbers_of(alloc, items, EventOp::No)?,
            nop: numbers_of(alloc, items, EventOp::Nop)?,
            out_r: numbers_of(alloc, items, EventOp::OutR)?,
            in_r: numbers_of(alloc, items, EventOp::InR)?,
            rd_r: numbers_of(alloc, items, EventOp::RdR)?,
            no_r: numbers_of(alloc, items, EventOp::NoR)?,
            parts: parts_of(alloc, items)?,
        };
        Ok(Spec { clauses, index })
    }

    /// The clauses.
    pub fn clauses(&self) -> &Clauses
        ensures { result.now ≡ self.now }
    {
        &self.clauses
    }

    /// Whether there is a clause of this operation. Where there is none, no event of the operation
    /// triggers anything. Takes no memory, and the same time however many clauses there are.
    pub fn has_op(&self, op: EventOp) -> bool
        ensures { IsTrue result ↔ HasOp op self.now }
    {
        !numbers_in(&self.index, op).is_empty()
    }

    /// The numbers of the clauses that the event triggers, rising. Clauses count from 1.
    ///
    /// The store is scratch: it may hold anything before, and nothing is said of it afterwards.
    /// Only clauses whose guards hold and whose heads have the operation, the name and the number
    /// of arguments of the event, or a variable, are tried, each in the time of its head and the
    /// event's term; few others are looked at. A clause whose guard doesn't hold is looked at only
    /// where the event's term is a variable.
    pub fn triggered<L: Ledger>(
        &self,
        alloc: Global,
        store: &mut Store,
        e: &Event,
        steps: &mut Steps<L>,
    ) -> Result<Vec<u32>, NoMemory>
        ensures triggered { IfOk result (λ numbers. AreTriggered self.now e.now numbers.items) }

        // After each answer:
        ensures counted { steps.new ≤ steps.old + trigger_steps self.now e.now }
        ensures rises { steps.old ≤ steps.new }
    {
        let numbers = numbers_for(&self.index, e);
        let items = self.clauses.items();
        let found = triggered_of(alloc, store, items, numbers, e, steps)?;
        Ok(found)
    }
}

// The numbers of an operation's clauses.
fn numbers_in(index: &Index, o: EventOp) -> &[u32]
    ensures { (clauses : List Rule) → IsIndex clauses index.now → AreOf o clauses result.now }
{
    match o {
        EventOp::Out => &index.out,
        EventOp::In => &index.in_,
        EventOp::Rd => &index.rd,
        EventOp::Inp => &index.inp,
        EventOp::Rdp => &index.rdp,
        EventOp::No => &index.no,
        EventOp::Nop => &index.nop,
        EventOp::OutR => &index.out_r,
        EventOp::InR => &index.in_r,
        EventOp::RdR => &index.rd_r,
        EventOp::NoR => &index.no_r,
    }
}

// The numbers of the clauses that an event may trigger.
fn numbers_for<'i>(index: &'i Index, e: &Event) -> &'i [u32]
    requires { 0 < length index.now.parts.items }
    ensures { (clauses : List Rule) → IsIndex clauses index.now
        → AreEnough clauses e.now result.now }
{
    let op = e.op();
    let term = e.term();
    let Some(part) = part_for(op, term.term(), index.parts.len()) else {
        return numbers_in(index, op);
    };
    match index.parts[part].numbers_at(e.phase(), e.sign()) {
        Some(numbers) => numbers,
        None => numbers_in(index, op),
    }
}

//! What the tuples that came say of the variables of a script.
use crate::filling::filled;
use std::alloc::Global;
use std::marker::Model;
use std::sync::ledger::{Blank, Ledger};
use tc_lists::NoMemory;
use tc_steps::Steps;
use tc_term::{Ground, Term};
use tc_unify::Store;

/// Equations of templates and the tuples that came for them, or that nothing solves these.
#[derive(Drop)]
pub(crate) struct Bindings {
    // Those that were solvable.
    store: Store,
    solvable: bool,
}

impl Model for Bindings {
    ghost use Rattle.std.specs.Prelude.{Option, Some, None, if◌then◌else◌};
    ghost use Rattle.std.specs.Coded.{codes};
    ghost use Rattle.tc_term.specs.TreeCode.{coded_tree};
    ghost use Rattle.tc_term.specs.Equations.{Equations};
    ghost use Rattle.tc_asks.specs.Bindings.{IsSolved};

    ghost Value = { Option Equations };

    ghost coded = { Prim.hlevel (codes, coded_tree) };

    ghost view = { λ b. if b.solvable then Some b.store else None };

    ghost invariant = { λ b. IsSolved b.store };
}

impl Bindings {
    ghost use Rattle.std.specs.Prelude.{◌≡◌, ◌<◌, ◌++◌, ◌∷◌, [], ℕ, List, Option};
    ghost use Rattle.std.specs.Prelude.{Some, IfOk, OnErr, OnOk};
    ghost use Rattle.tc_desk.specs.Asks.{AreValues, with_values};
    ghost use Rattle.tc_term.specs.Equations.{Equation};
    ghost use Rattle.tc_term.specs.Tree.{Tree};
    ghost use Rattle.tc_term.specs.TreeView.{tree_of};
    ghost use Rattle.tc_asks.specs.Bindings.{HasBounds, AreKnown};

    /// Nothing is said of so many variables.
    pub(crate) fn new(alloc: Global, vars: u32) -> Result<Bindings, NoMemory>
        ensures { IfOk result (AreKnown vars []) }
    {
        Ok(Bindings {
            store: Store::new(alloc, vars)?,
            solvable: true,
        })
    }

    /// The tuple came for the template.
    pub(crate) fn tell<L: Ledger>(
        &mut self,
        template: &Term,
        tuple: &Ground,
        blank: Blank,
    ) -> Result<(), NoMemory>
        requires name { blank.name ≡ L.name }
        requires parts { blank.parts ≡ L.parts }
        requires some { 0 < blank.parts }
        requires bounds { HasBounds self.old (tree_of template.now) }
        ensures told { OnOk result ((vars : ℕ) (es : List Equation) → AreKnown vars es self.old
            → AreKnown vars (es ++ (tree_of template.now, tuple.now) ∷ []) self.new) }
        ensures same { OnErr result (self.new ≡ self.old) }
    {
        if self.solvable {
            let mut steps = Steps::<L>::none(blank);
            self.solvable = self.store.equate(template, tuple.term(), &mut steps)?;
        }
        Ok(())
    }

    /// The term with each variable replaced that has a value.
    pub(crate) fn fill(&self, alloc: Global, t: &Term) -> Result<Term, NoMemory>
        requires { HasBounds self.now (tree_of t.now) }
        ensures { IfOk result (λ u. (vars : ℕ) (es : List Equation) (values : List (Option Tree))
            → AreKnown vars es self.now → AreValues vars es values
            → tree_of u ≡ with_values values (tree_of t.now)) }
    {
        if !self.solvable {
            let copy = t.copy(alloc)?;
            return Ok(copy);
        }
        let filled = filled(alloc, &self.store, t)?;
        Ok(filled)
    }

    /// Tells contracts that each variable has a value or has none, and does nothing.
    pub(crate) fn has_values(&self)
        ensures { (vars : ℕ) (es : List Equation) → AreKnown vars es self.now
            → (values : List (Option Tree)) × AreValues vars es values }
    {
        let _store = &self.store;
    }
}

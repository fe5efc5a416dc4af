//! A store whose calls' conditions are looked at before each call.
ghost use Rattle.std.specs.Prelude.{◌≡◌, ◌<◌, ◌≤◌, IsTrue};
ghost use mathlib.Core.List.{IsPrefix};
ghost use Rattle.tc_term.specs.TreeView.{tree_of};
ghost use Rattle.tc_term.specs.Variables.{raised, var_bound};

use anyhow::anyhow;
use std::alloc::Global;
use std::sync::ledger::{Blank, Ledger};
use tc_bag::{Bag, Key};
use tc_lists::NoMemory;
use tc_search::oldest_match;
use tc_steps::Steps;
use tc_term::{Ground, Term, fits};
use tc_unify::{Part, Store, StoreMark};

/// A store with its number of variables.
#[derive(Drop)]
pub struct Sample {
    store: Store,
    vars: u32,
    ghost all: { vars ≡ store.vars },
}

impl Sample {
    /// No equation, over so many variables.
    pub fn new(alloc: Global, vars: u32) -> Result<Sample, NoMemory> {
        Ok(Sample {
            store: Store::new(alloc, vars)?,
            vars,
        })
    }

    /// Whether the equation is added.
    pub fn add<L: Ledger>(&mut self, s: Part, t: Part, blank: Blank) -> anyhow::Result<bool>
        requires name { blank.name ≡ L.name }
        requires parts { blank.parts ≡ L.parts }
        requires some { 0 < blank.parts }
        ensures { IsPrefix self.old.store.pairs self.new.store.pairs }
    {
        if !is_below(s.term, s.shift, self.vars) || !is_below(t.term, t.shift, self.vars) {
            return Err(anyhow!("a variable is not the store's"));
        }
        let mut steps = Steps::<L>::none(blank);
        Ok(self.store.add(s, t, &mut steps)?)
    }

    /// The value of a term.
    pub fn value(&self, t: Part) -> anyhow::Result<Option<Ground>> {
        if !is_below(t.term, t.shift, self.vars) {
            return Err(anyhow!("a variable is not the store's"));
        }
        Ok(self.store.value(t)?)
    }

    /// The age of the oldest tuple of the bag that the template matches, whose equation is added.
    pub fn find<L: Ledger>(
        &mut self,
        alloc: Global,
        template: &Term,
        bag: &Bag,
        blank: Blank,
    ) -> anyhow::Result<Option<u64>>
        requires name { blank.name ≡ L.name }
        requires parts { blank.parts ≡ L.parts }
        requires some { 0 < blank.parts }
        ensures { IsPrefix self.old.store.pairs self.new.store.pairs }
    {
        if !fits(template) || !is_below(template, 0, self.vars) {
            return Err(anyhow!("no template of the store"));
        }
        let key = Key::of(alloc, template)?;
        let mut steps = Steps::<L>::none(blank);
        match oldest_match(&mut self.store, template, &key, bag, &mut steps)? {
            Some((age, _tuple)) => Ok(Some(age)),
            None => Ok(None),
        }
    }

    /// Stands for the equations that are there.
    pub fn mark(&self) -> StoreMark
        ensures { result ≡ self.now.store.pairs }
    {
        self.store.mark()
    }

    /// Goes back to the equations that a mark stands for.
    pub fn undo(&mut self, mark: &StoreMark)
        requires { IsPrefix mark.now self.old.store.pairs }
        ensures { self.new.store.pairs ≡ mark.now }
    {
        self.store.undo(mark);
    }

    /// Adds variables.
    pub fn grow(&mut self, n: u32) -> anyhow::Result<()>
        ensures { IsPrefix self.old.store.pairs self.new.store.pairs }
    {
        let Some(vars) = self.vars.checked_add(n) else {
            return Err(anyhow!("there are too many variables"));
        };
        self.store.grow(n)?;
        self.vars = vars;
        Ok(())
    }

    /// No equation, over so many variables.
    pub fn renew(&mut self, vars: u32) -> Result<(), NoMemory> {
        self.vars = 0;
        self.store.renew(vars)?;
        self.vars = vars;
        Ok(())
    }
}

// Whether the variables of a term, once raised, are below this number.
fn is_below(term: &Term, shift: u32, vars: u32) -> bool
    ensures { IsTrue result → var_bound (raised shift (tree_of term.now)) ≤ vars }
{
    match term {
        Term::Var(n) => (*n as usize + shift as usize) < vars as usize,
        Term::Atom(_) | Term::Int(_) => true,
        Term::Comp(_, args) => {
            for arg in args.items() {
                if !is_below(arg, shift, vars) {
                    return false;
                }
            }
            true
        }
    }
}

//! Names with their places.
ghost use Rattle.std.specs.Prelude.{◌≡◌, ◌≢◌, ◌++◌, ◌∷◌, [], AllPairs, None, OnErr, OnOk};
ghost use Rattle.tc_names.specs.Names.{place_of};

use indexmap::IndexSet;
use std::alloc::Global;
use std::marker::Model;
use tc_lists::NoMemory;
use tc_term::Name;

/// Names in order, no two of them equal. The place of one is found in constant time.
#[derive(Drop)]
pub struct Names {
    names: IndexSet<Name>,
}

impl Model for Names {
    ghost use Rattle.std.specs.Prelude.{List, ℕ};

    ghost Value = { List (List ℕ) };

    ghost view = { λ n. n.names.keys };
}

impl Names {
    /// No name.
    pub fn new(alloc: Global) -> Names
        ensures { result ≡ [] }
    {
        Names {
            names: IndexSet::new(alloc),
        }
    }

    /// The place of a name, from 0.
    pub fn place(&self, name: &Name) -> Option<usize>
        ensures { result ≡ place_of self.now name.now }
    {
        self.names.get_index_of(name)
    }

    /// Tells contracts that the names differ, and does nothing.
    pub fn differ(&self)
        ensures { AllPairs ◌≢◌ self.now }
    {
        let _count = self.names.len();
    }

    /// Appends a name that isn't there.
    pub fn add(&mut self, name: Name) -> Result<(), NoMemory>
        requires { place_of self.old name ≡ None }
        ensures added { OnOk result (self.new ≡ self.old ++ name ∷ []) }
        ensures same { OnErr result (self.new ≡ self.old) }
    {
        self.names.insert(name)?;
        Ok(())
    }
}

//! Names of atoms and compounds.
ghost use Rattle.std.specs.Prelude.{◌≡◌, ◌≤◌, IfOk, length};

use std::alloc::Global;
use std::cmp::Ordering;
use std::hash::{Hash, Hasher};
use std::marker::Model;
use tc_lists::NoMemory;

/// The most bytes of a name for which no memory is taken.
const SHORT: usize = 14;

/// A list of bytes, of any length and in any encoding. Up to 14 lie in the name itself, which takes
/// 16 bytes.
#[derive(Debug)]
pub struct Name {
    letters: Letters,
}

// By hand, so that a name that is let go is one case, whichever way its bytes lie.
impl Drop for Name {
    fn drop(self) {
        let Name { letters: _ } = self;
    }
}

// Where the bytes lie: in the first places of so many, or in memory of their own, behind one
// pointer.
#[derive(Debug, Drop)]
enum Letters {
    Short(u8, [u8; SHORT]),
    Long(Box<Vec<u8>>),
}

impl Model for Name {
    ghost use Rattle.std.specs.Prelude.{List, ℕ};

    ghost Value = { List ℕ };

    ghost use Rattle.tc_term.specs.Letters.{bytes_of, HasPlaces};

    ghost view = { λ n. bytes_of n.letters };

    ghost invariant = { λ n. HasPlaces n.letters };
}

impl Name {
    /// The name of these bytes, which are copied. Up to 14 take no memory.
    #[inline(always)]
    pub fn new(alloc: Global, bytes: &[u8]) -> Result<Name, NoMemory>
        ensures { IfOk result (λ name. name ≡ bytes.now) }
    {
        if bytes.len() <= SHORT {
            return Ok(Name::short(bytes));
        }
        Name::long(alloc, Vec::from_slice(alloc, bytes)?)
    }

    /// The name of bytes that are handed over and not copied where they are more than 14. Up to 14
    /// take no memory.
    pub fn from_vec(alloc: Global, bytes: Vec<u8>) -> Result<Name, NoMemory>
        ensures { IfOk result (λ name. name ≡ bytes.items) }
    {
        if bytes.len() <= SHORT {
            return Ok(Name::short(&bytes));
        }
        Name::long(alloc, bytes)
    }

    // The name of so few bytes.
    #[inline(always)]
    fn short(bytes: &[u8]) -> Name
        requires { length bytes.now ≤ 14 }
        ensures { result ≡ bytes.now }
    {
        let mut places = [0; SHORT];
        places[..bytes.len()].copy_from_slice(bytes);
        Name {
            letters: Letters::Short(bytes.len() as u8, places),
        }
    }

    // The name of any bytes, with memory of their own.
    fn long(alloc: Global, bytes: Vec<u8>) -> Result<Name, NoMemory>
        ensures { IfOk result (λ name. name ≡ bytes.items) }
    {
        Ok(Name {
            letters: Letters::Long(Box::new(alloc, bytes)?),
        })
    }

    /// Its bytes, of any value.
    pub fn bytes(&self) -> &[u8]
        ensures { result.now ≡ self.now }
    {
        match &self.letters {
            Letters::Short(count, places) => &places[..*count as usize],
            Letters::Long(bytes) => bytes,
        }
    }

    /// Another name of the same bytes.
    pub fn copy(&self, alloc: Global) -> Result<Name, NoMemory>
        ensures { IfOk result (λ name. name ≡ self.now) }
    {
        match &self.letters {
            Letters::Short(count, places) => Ok(Name {
                letters: Letters::Short(*count, *places),
            }),
            Letters::Long(bytes) => Name::long(alloc, Vec::from_slice(alloc, bytes)?),
        }
    }
}

impl PartialEq for Name {
    ghost use Rattle.std.specs.Cmp.Rules.{comparing};
    ghost use Rattle.std.specs.Str.{bytes_eq};
    ghost use Rattle.std.proofs.Common.{rules};

    ghost eq = { bytes_eq };

    ghost laws = { Prim.search (comparing, rules) };

    fn eq(&self, other: &Name) -> bool {
        self.bytes() == other.bytes()
    }
}

impl Eq for Name {
    ghost use Rattle.std.specs.Cmp.Rules.{comparing};
    ghost use Rattle.std.proofs.Common.{rules};

    ghost laws = { Prim.search (comparing, rules) };
}

impl Ord for Name {
    ghost use Rattle.std.specs.Cmp.Rules.{comparing};
    ghost use Rattle.std.specs.Cmp.Lexicographic.{slice_cmp};
    ghost use Rattle.std.specs.Ordering.{nat_cmp};
    ghost use Rattle.std.proofs.Common.{rules};

    ghost cmp = { slice_cmp nat_cmp };

    ghost total = { Prim.search (comparing, rules) };

    ghost matches_partial_cmp = { Prim.search (comparing, rules) };

    ghost matches_eq = { Prim.search (comparing, rules) };

    fn cmp(&self, other: &Name) -> Ordering {
        self.bytes().cmp(other.bytes())
    }
}

impl PartialOrd for Name {
    ghost use Rattle.std.specs.Cmp.{partial_order_from_own_ties};
    ghost use Rattle.std.specs.Cmp.Rules.{comparing};
    ghost use Rattle.std.specs.Cmp.Lexicographic.{slice_cmp};
    ghost use Rattle.std.specs.Ordering.{as_partial_cmp, nat_cmp};
    ghost use Rattle.std.proofs.Common.{rules};

    ghost partial_cmp = { as_partial_cmp (slice_cmp nat_cmp) };

    ghost laws = { partial_order_from_own_ties
        (Prim.search (comparing, rules)) (Prim.search (comparing, rules)) };

    fn partial_cmp(&self, other: &Name) -> Option<Ordering> {
        Some(self.cmp(other))
    }
}

impl Hash for Name {
    ghost use Rattle.std.specs.Hash as fed;
    ghost use Rattle.std.specs.Cmp.Rules.{hashing};
    ghost use Rattle.std.proofs.Common.{rules};

    ghost hash_input = { fed.slice fed.u8 };

    ghost respects_eq = { Prim.search (hashing, rules) };

    fn hash<H: Hasher>(&self, state: &mut H) {
        self.bytes().hash(state);
    }
}

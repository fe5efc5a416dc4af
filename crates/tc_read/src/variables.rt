//! The variables of a text, numbered by first appearance.
ghost use Rattle.std.specs.Prelude.{◌≡◌, ◌+◌, ◌≤◌, [], IfOk, OnOk, length, vec_len};
ghost use Rattle.std.specs.List.{position};
ghost use Rattle.std.specs.Str.{bytes_eq};
ghost use Rattle.tc_term.specs.Limits.{most_variables};
ghost use Rattle.tc_term.specs.Faults.{is_anonymous, known_after, learned, number_of};

use std::alloc::Global;
use tc_lists::NoMemory;
use tc_term::MOST_VARIABLES;

/// How many variables are told apart: one more than a template may have.
const MOST: usize = MOST_VARIABLES + 1;

/// The variables so far. A `_` alone has an empty name.
#[derive(Drop)]
pub struct Variables<'a> {
    pub known: Vec<&'a [u8]>,
    ghost few: { vec_len known ≤ most_variables + 1 },
}

/// Whether the name is a `_` alone.
fn is_anonymous(name: &[u8]) -> bool
    ensures { result ≡ is_anonymous name.now }
{
    match name {
        [b'_'] => true,
        _ => false,
    }
}

/// Whether the names are the same. They are compared from their ends on, where names that are
/// numbered differ.
#[inline(always)]
fn is_same(name: &[u8], known: &[u8]) -> bool
    ensures { result ≡ bytes_eq name.now known.now }
{
    let mut left = name.len();
    if left != known.len() {
        return false;
    }
    while left > 0 {
        left -= 1;
        if name[left] != known[left] {
            return false;
        }
    }
    true
}

impl<'a> Variables<'a> {
    ghost use Rattle.tc_read.specs.Variables.{names_view};

    /// No variables yet.
    pub fn new(alloc: Global) -> Variables<'a>
        ensures { names_view result ≡ [] }
    {
        Variables {
            known: Vec::new(alloc),
        }
    }

    /// How many variables there are, if they are at most 257.
    pub fn len(&self) -> usize
        ensures { result ≡ length (names_view self.now) }
    {
        self.known.len()
    }

    /// The number of the variable of this name, which is known from now on.
    #[tactic(auto, using(crate::proofs::Positions::position_known, crate::proofs::Positions::number_new))]
    pub fn number(&mut self, name: &'a [u8]) -> Result<u32, NoMemory>
        ensures number { IfOk result (λ n. n ≡ number_of (names_view self.old) name.now) }
        ensures known { OnOk result (names_view self.new
            ≡ known_after (names_view self.old) name.now) }
    {
        let next = self.known.len() as u32;
        if is_anonymous(name) {
            self.learn(b"")?;
            return Ok(next);
        }
        match self.place(name) {
            Some(place) => Ok(place as u32),
            None => {
                self.learn(name)?;
                Ok(next)
            }
        }
    }

    /// Where the name stands.
    fn place(&self, name: &[u8]) -> Option<usize>
        ensures { result ≡ position (λ known. bytes_eq name.now known.now) self.now.known.items }
    {
        self.known.iter().position(|known| is_same(name, known))
    }

    fn learn(&mut self, name: &'a [u8]) -> Result<(), NoMemory>
        ensures { OnOk result (names_view self.new ≡ learned (names_view self.old) name.now) }
    {
        if self.known.len() < MOST {
            self.known.push(name)?;
        }
        Ok(())
    }
}

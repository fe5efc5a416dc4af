//! Keys of terms: what a tuple that a template matches has in common with it at its top.
ghost use Rattle.std.specs.Prelude.{◌≡◌, ◌↔◌, IfOk, IsTrue};
ghost use Rattle.tc_term.specs.Tree.{Fits};
ghost use Rattle.tc_term.specs.TreeView.{tree_of};
ghost use Rattle.tc_bag.specs.Keys.{known_first, HasFirst};
ghost use Rattle.tc_bag.specs.Lent.{lent_key, lent_tree};

use std::alloc::Global;
use tc_lists::NoMemory;
use tc_term::{Ground, Name, Term};

/// What is known of a term without its arguments: nothing of a variable, that a whole number is
/// one, an atom's name, or a compound's name and number of arguments.
#[derive(Debug, Drop)]
pub enum Key {
    Any,
    Int,
    Atom(Name),
    Comp(Name, u32),
}

impl Key {
    ghost use Rattle.tc_bag.specs.Keys.{key_of, IsOfKey};

    /// The key of a term.
    #[inline(always)]
    pub fn of(alloc: Global, t: &Term) -> Result<Key, NoMemory>
        requires { Fits (tree_of t.now) }
        ensures { IfOk result (λ key. key ≡ key_of (tree_of t.now)) }
    {
        match t {
            Term::Var(_) => Ok(Key::Any),
            Term::Int(_) => Ok(Key::Int),
            Term::Atom(name) => Ok(Key::Atom(name.copy(alloc)?)),
            Term::Comp(name, args) => {
                Ok(Key::Comp(name.copy(alloc)?, args.items().len() as u32))
            }
        }
    }

    /// Whether a tuple has this key, or the key is `Any`. No memory is taken.
    pub fn agrees(&self, tuple: &Ground) -> bool
        ensures { IsTrue result ↔ IsOfKey self.now tuple.now }
    {
        self.lend().agrees(tuple)
    }

    /// The key, lent.
    pub(crate) fn lend(&self) -> Lent
        ensures { lent_key result ≡ self.now }
    {
        match self {
            Key::Any => Lent::Any,
            Key::Int => Lent::Int,
            Key::Atom(name) => Lent::Atom(name),
            Key::Comp(name, count) => Lent::Comp(name, *count),
        }
    }
}

/// A key whose name is lent.
#[derive(Clone, Copy)]
pub(crate) enum Lent<'n> {
    Any,
    Int,
    Atom(&'n Name),
    Comp(&'n Name, u32),
}

impl<'n> Lent<'n> {
    ghost use Rattle.tc_bag.specs.Keys.{key_of, IsOfKey};

    /// The key of a term.
    #[inline(always)]
    pub(crate) fn of(t: &'n Term) -> Lent<'n>
        requires { Fits (tree_of t.now) }
        ensures { lent_key result ≡ key_of (tree_of t.now) }
    {
        match t {
            Term::Var(_) => Lent::Any,
            Term::Int(_) => Lent::Int,
            Term::Atom(name) => Lent::Atom(name),
            Term::Comp(name, args) => Lent::Comp(name, args.items().len() as u32),
        }
    }

    /// Whether a tuple has this key, or the key is `Any`.
    pub(crate) fn agrees(self, tuple: &Ground) -> bool
        ensures { IsTrue result ↔ IsOfKey (lent_key self.entry) tuple.now }
    {
        match (self, tuple.term()) {
            (Lent::Any, _) => true,
            (Lent::Int, Term::Int(_)) => true,
            (Lent::Atom(name), Term::Atom(other)) => *name == *other,
            (Lent::Comp(name, count), Term::Comp(other, args)) => {
                args.items().len() == count as usize && *name == *other
            }
            _ => false,
        }
    }
}

/// The first argument of a term, where there is one and no variable stands in it.
pub fn known_first(t: &Term) -> Option<&Term>
    ensures { lent_tree result ≡ known_first (tree_of t.now) }
{
    let Term::Comp(_, args) = t else {
        return None;
    };
    let first = &args.items()[0];
    if first.is_ground() { Some(first) } else { None }
}

/// Whether a term has this first argument, where one is given.
pub(crate) fn has_first(first: Option<&Term>, t: &Term) -> bool
    ensures { IsTrue result
        ↔ HasFirst (lent_tree first.entry) (tree_of t.now) }
{
    let Some(first) = first else {
        return true;
    };
    match t {
        Term::Comp(_, args) => args.items()[0] == *first,
        _ => false,
    }
}

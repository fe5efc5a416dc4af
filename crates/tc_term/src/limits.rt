//! The limits of a term: how many nodes, how deep, and how many bytes of names.
ghost use Rattle.std.specs.Prelude.{◌≡◌, ◌+◌, ◌<◌, ◌≤◌, ◌↔◌, false, IsTrue};
ghost use Rattle.tc_term.specs.Limits.{most_depth};
ghost use Rattle.tc_term.specs.Room.{whole, IsWithin, TakesRoom};
ghost use Rattle.tc_term.specs.Tree.{Fits, HasIntegers};
ghost use Rattle.tc_term.specs.TreeView.{tree_of};

use crate::terms::Term;

/// The most variables, atoms, numbers and compounds of a term together.
pub const MOST_NODES: usize = 10_000;

/// The most nodes of a term that stand below one another.
pub const MOST_DEPTH: usize = 1_000;

/// The most bytes that all names of a term have together.
pub const MOST_BYTES_OF_NAMES: usize = 65_535;

/// The most different variables of a template.
pub const MOST_VARIABLES: usize = 256;

/// The most brackets of a text that are open at once.
pub const MOST_BRACKETS: usize = 200;

/// How many nodes and bytes of names may still come.
#[derive(Clone, Copy, Debug)]
pub struct Room {
    pub nodes: usize,
    pub name_bytes: usize,
}

impl Room {
    /// The room that a term has.
    pub fn whole() -> Room
        ensures { result ≡ whole }
    {
        Room {
            nodes: MOST_NODES,
            name_bytes: MOST_BYTES_OF_NAMES,
        }
    }

    /// Takes the room of a node with a name of so many bytes, where so many levels are left.
    ///
    /// False where there is none, and then nothing is taken.
    pub fn take(&mut self, depth: usize, name_bytes: usize) -> bool
        ensures depth { IsTrue result → 0 < depth }
        ensures nodes { IsTrue result → self.new.nodes + 1 ≡ self.old.nodes }
        ensures bytes { IsTrue result → self.new.name_bytes + name_bytes ≡ self.old.name_bytes }
        ensures full { result ≡ false
            → 0 < depth → 0 < self.old.nodes → name_bytes ≤ self.old.name_bytes → ⊥ }
        ensures same { result ≡ false → self.new ≡ self.old }
    {
        if depth == 0 || self.nodes == 0 || self.name_bytes < name_bytes {
            return false;
        }
        self.nodes -= 1;
        self.name_bytes -= name_bytes;
        true
    }
}

/// Whether a term is within the limits. No memory is taken.
///
/// Stops at the first node that is too many or too deep, so a term of any size costs no more than
/// one at the limits.
pub fn fits(t: &Term) -> bool
    ensures exact { IsTrue result ↔ Fits (tree_of t.now) }

    // Its size alone decides: each number of a term has 64 bits.
    ensures small { IsWithin (tree_of t.now) most_depth whole → IsTrue result }
{
    let mut room = Room::whole();
    take_term(t, MOST_DEPTH, &mut room)
}

// Takes the room of a term of at most this depth, where there is room for it.
fn take_term(t: &Term, depth: usize, room: &mut Room) -> bool
    ensures spent { IsTrue result → TakesRoom (tree_of t.now) depth room.old room.new }
    ensures integers { IsTrue result → HasIntegers (tree_of t.now) }
    ensures full { result ≡ false → IsWithin (tree_of t.now) depth room.old → ⊥ }
{
    match t {
        Term::Var(_) => room.take(depth, 0),
        Term::Int(n) => {
            // Read for its proof alone: a number that is read has 64 bits.
            let _number = *n;
            room.take(depth, 0)
        }
        Term::Atom(name) => room.take(depth, name.bytes().len()),
        Term::Comp(name, args) => {
            if !room.take(depth, name.bytes().len()) {
                return false;
            }
            for arg in args.items() {
                if !take_term(arg, depth - 1, room) {
                    return false;
                }
            }
            true
        }
    }
}

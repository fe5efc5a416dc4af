//! The arena of terms: nodes that name earlier nodes, and the bytes of names.
ghost use Rattle.std.specs.Prelude.{◌≡◌, ◌<◌, ◌++◌, ◌∷◌, [], List, ℕ, length};
ghost use Rattle.std.specs.Prelude.{IfOk, IfSome, IfNone, OnOk, OnErr};
ghost use Rattle.tc_term.specs.Tree.{Atomic, Number};
ghost use Rattle.tc_unify.specs.Nodes.{AtomNode, applied, IsHead, IsAtom};
ghost use Rattle.tc_unify.specs.Arena.{IsArena, IsNodeOf, IsNodeFor, IsHeadFor, Grows, shape_of, node_tree};
ghost use Rattle.tc_unify.specs.Heads.{IsHeads};
ghost use Rattle.tc_unify.specs.Values.{IsSpineOf};

use crate::names::{SHORT, SHORT_NAMES, code_of, name_of};
use std::alloc::Global;
use tc_lists::NoMemory;
use tc_term::Name;

/// The node of the first short name: of the atom without a name. All nodes in the arena are below.
///
/// A short name has no place in the arena, since its node says which it is.
pub(crate) const FIRST_NAME: usize = 1 << 63;

/// The node of the first variable. Variable n is the node n places on.
pub(crate) const FIRST_VARIABLE: usize = FIRST_NAME + SHORT_NAMES;

/// An atom by the place of its long name, a number, or the term of a node with one argument more.
#[derive(Clone, Copy)]
pub(crate) enum Node {
    Atom { from: usize, len: usize },
    Int(i64),
    Apply { head: usize, argument: usize },
}

/// Terms as nodes. The nodes that a node names are variables, short names, or stand before it.
#[derive(Drop)]
pub(crate) struct Arena {
    pub(crate) nodes: Vec<Node>,
    pub(crate) text: Vec<u8>,
    pub(crate) variables: usize,
}

/// What two nodes of terms have in common.
pub(crate) enum Heads {
    /// No trees make them equal.
    Clash,
    /// They are one atom or one number.
    Same,
    /// They are equal where their last arguments are: what stands before is one node.
    Last {
        arguments: (usize, usize),
    },
    /// They are equal where both pairs are.
    Pairs {
        arguments: (usize, usize),
        heads: (usize, usize),
    },
}

/// The node of the atom that a node begins with, and the node's arguments, the last first.
#[derive(Drop)]
pub(crate) struct Spine {
    pub(crate) atom: usize,
    pub(crate) arguments: Vec<usize>,
}

impl Arena {
    /// A node for an atom, whose name is copied where it is not short.
    #[inline(always)]
    pub(crate) fn push_atom(&mut self, name: &[u8]) -> Result<usize, NoMemory>
        requires { IsArena self.old }
        ensures pushed { IfOk result (λ node. IsHeadFor self.new node (Atomic name.now)) }
        ensures arena { IsArena self.new }
        ensures grows { Grows self.old self.new }
    {
        if name.len() <= SHORT {
            return Ok(FIRST_NAME + code_of(name));
        }
        let from = self.text.len();
        self.text.extend_from_slice(name)?;
        self.push(Node::Atom {
            from,
            len: name.len(),
        })
    }

    /// A node for a number.
    pub(crate) fn push_number(&mut self, n: i64) -> Result<usize, NoMemory>
        requires { IsArena self.old }
        ensures pushed { IfOk result (λ node. IsNodeFor self.new node (Number n)) }
        ensures arena { IsArena self.new }
        ensures grows { Grows self.old self.new }
    {
        self.push(Node::Int(n))
    }

    /// A node for the term of a node with one argument more.
    pub(crate) fn push_apply(&mut self, head: usize, argument: usize) -> Result<usize, NoMemory>
        requires arena { IsArena self.old }
        requires head { IsHead (shape_of self.old head) }
        requires inside { IsNodeOf self.old head }
        requires argument { IsNodeOf self.old argument }
        ensures pushed { IfOk result
            (λ node. IsHeadFor self.new node
            (applied (node_tree self.old head) (node_tree self.old argument))) }
        ensures arena { IsArena self.new }
        ensures grows { Grows self.old self.new }
    {
        self.push(Node::Apply { head, argument })
    }

    fn push(&mut self, node: Node) -> Result<usize, NoMemory>
        ensures place { IfOk result (λ k. k ≡ length self.old.nodes.items) }
        ensures pushed { OnOk result (self.new.nodes.items ≡ self.old.nodes.items ++ node ∷ []) }
        ensures few { length self.new.nodes.items < FIRST_NAME }
        ensures same { OnErr result (self.new.nodes.items ≡ self.old.nodes.items) }
        ensures text { self.new.text.items ≡ self.old.text.items }
        ensures variables { self.new.variables ≡ self.old.variables }
    {
        let place = self.nodes.len();
        self.nodes.push(node)?;
        Ok(place)
    }

    /// The atom and the arguments of a node that is no number. Takes the time of the arguments.
    pub(crate) fn spine(&self, alloc: Global, node: usize) -> Result<Spine, NoMemory>
        requires arena { IsArena self.now }
        requires node { IsNodeOf self.now node }
        requires head { IsHead (shape_of self.now node) }
        ensures { IfOk result (λ spine. IsSpineOf self.now node spine) }
    {
        let mut arguments = Vec::new(alloc);
        let mut atom = node;
        while atom < FIRST_NAME {
            let Node::Apply { head, argument } = self.nodes[atom] else {
                break;
            };
            arguments.push(argument)?;
            atom = head;
        }
        Ok(Spine { atom, arguments })
    }

    /// The name of an atom's node. None where it has more than so many bytes, and then none is
    /// copied.
    pub(crate) fn atom_name(
        &self,
        alloc: Global,
        atom: usize,
        most: usize,
    ) -> Result<Option<Name>, NoMemory>
        requires arena { IsArena self.now }
        requires node { IsNodeOf self.now atom }
        requires atom { IsAtom (shape_of self.now atom) }
        ensures name { IfOk result
            (λ found. IfSome found (λ name. shape_of self.now atom ≡ AtomNode name)) }
        ensures longer { IfOk result (λ found. IfNone found
            ((name : List ℕ)
            × (shape_of self.now atom ≡ AtomNode name) × (most < length name))) }
    {
        if atom >= FIRST_NAME {
            let name = Name::from_vec(alloc, name_of(alloc, atom - FIRST_NAME)?)?;
            return Ok(Some(name));
        }
        let Node::Atom { from, len } = self.nodes[atom] else {
            unreachable!();
        };
        if len > most {
            return Ok(None);
        }
        Ok(Some(Name::new(alloc, &self.text[from..from + len])?))
    }

    /// What two nodes of terms have in common.
    pub(crate) fn heads(&self, a: usize, b: usize) -> Heads
        requires arena { IsArena self.now }
        requires left { a < length self.now.nodes.items }
        requires right { b < length self.now.nodes.items }
        ensures { IsHeads self.now a b result }
    {
        match (self.nodes[a], self.nodes[b]) {
            (
                Node::Atom { from, len },
                Node::Atom {
                    from: start,
                    len: size,
                },
            ) => {
                if self.text[from..from + len] == self.text[start..start + size] {
                    Heads::Same
                } else {
                    Heads::Clash
                }
            }
            (Node::Int(m), Node::Int(n)) => { if m == n { Heads::Same } else { Heads::Clash } }
            (
                Node::Apply { head, argument },
                Node::Apply {
                    head: other,
                    argument: last,
                },
            ) => {
                if head == other {
                    Heads::Last {
                        arguments: (argument, last),
                    }
                } else {
                    Heads::Pairs {
                        arguments: (argument, last),
                        heads: (head, other),
                    }
                }
            }
            (Node::Atom { .. }, Node::Int(_)) => Heads::Clash,
            (Node::Atom { .. }, Node::Apply { .. }) => Heads::Clash,
            (Node::Int(_), Node::Atom { .. }) => Heads::Clash,
            (Node::Int(_), Node::Apply { .. }) => Heads::Clash,
            (Node::Apply { .. }, Node::Atom { .. }) => Heads::Clash,
            (Node::Apply { .. }, Node::Int(_)) => Heads::Clash,
        }
    }
}

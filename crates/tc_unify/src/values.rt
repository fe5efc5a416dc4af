//! Values of nodes and terms: what every solution makes of them, where it is within the limits.
ghost use Rattle.std.specs.Prelude.{◌≡◌, ◌≤◌, ◌<◌, IfOk, IsTrue};
ghost use Rattle.tc_term.specs.Limits.{most_depth};
ghost use Rattle.tc_term.specs.Room.{whole, IsWithin};
ghost use Rattle.tc_term.specs.Tree.{Atomic, is_ground, IsTuple};
ghost use Rattle.tc_term.specs.TreeView.{tree_of};
ghost use Rattle.tc_term.specs.Variables.{raised, var_bound};
ghost use Rattle.tc_unify.specs.Nodes.{applied_over};
ghost use Rattle.tc_unify.specs.Arena.{IsNodeOf};
ghost use Rattle.tc_unify.specs.Values.{AreSolved, IsValue, of_node, of_term};

use crate::links::Links;
use crate::nodes::{Arena, FIRST_NAME, FIRST_VARIABLE, Node};
use std::alloc::Global;
use tc_lists::NoMemory;
use tc_term::{Args, Ground, Name, Room, Term};

/// The value of a term with raised variables, within so many levels and the room, which it takes.
///
/// Stops where there is no room, so it recurses no deeper and builds no larger tree.
pub(crate) fn part_value(
    alloc: Global,
    arena: &Arena,
    links: &Links,
    term: &Term,
    shift: u32,
    depth: usize,
    room: &mut Room,
) -> Result<Option<Term>, NoMemory>
    requires solved { AreSolved arena.now links.now }
    requires variables { var_bound (raised shift (tree_of term.now)) ≤ arena.now.variables }
    ensures { IfOk result
        (λ found. IsValue arena.now links.now (of_term shift term.now)
        depth room.old room.new found) }
{
    match term {
        Term::Var(n) => {
            let node = FIRST_VARIABLE + *n as usize + shift as usize;
            node_value(alloc, arena, links, node, depth, room)
        }
        Term::Int(n) => {
            if room.take(depth, 0) {
                Ok(Some(Term::Int(*n)))
            } else {
                Ok(None)
            }
        }
        Term::Atom(name) => {
            if room.take(depth, name.bytes().len()) {
                Ok(Some(Term::Atom(name.copy(alloc)?)))
            } else {
                Ok(None)
            }
        }
        Term::Comp(name, args) => {
            if !room.take(depth, name.bytes().len()) {
                return Ok(None);
            }
            let mut values = Vec::new(alloc);
            for arg in args.items() {
                match part_value(alloc, arena, links, arg, shift, depth - 1, room)? {
                    Some(value) => values.push(value)?,
                    None => return Ok(None),
                }
            }
            let name = name.copy(alloc)?;
            let whole = with_arguments(alloc, name, values)?;
            Ok(Some(whole))
        }
    }
}

// The value of a node, within so many levels and the room, which it takes.
#[inline(always)]
fn node_value(
    alloc: Global,
    arena: &Arena,
    links: &Links,
    node: usize,
    depth: usize,
    room: &mut Room,
) -> Result<Option<Term>, NoMemory>
    requires solved { AreSolved arena.now links.now }
    requires node { IsNodeOf arena.now node }
    ensures { IfOk result
        (λ found. IsValue arena.now links.now (of_node arena.now node)
        depth room.old room.new found) }
{
    let end = links.end(node);
    if end >= FIRST_VARIABLE {
        return Ok(None);
    }
    if end < FIRST_NAME {
        if let Node::Int(n) = arena.nodes[end] {
            if !room.take(depth, 0) {
                return Ok(None);
            }
            return Ok(Some(Term::Int(n)));
        }
    }
    let mut spine = arena.spine(alloc, end)?;
    let Some(name) = arena.atom_name(alloc, spine.atom, room.name_bytes)? else {
        return Ok(None);
    };
    if !room.take(depth, name.bytes().len()) {
        return Ok(None);
    }
    let mut values = Vec::new(alloc);
    while let Some(argument) = spine.arguments.pop() {
        match node_value(alloc, arena, links, argument, depth - 1, room)? {
            Some(value) => values.push(value)?,
            None => return Ok(None),
        }
    }
    let whole = with_arguments(alloc, name, values)?;
    Ok(Some(whole))
}

// The atom of this name, or the compound with these arguments.
#[inline(always)]
fn with_arguments(alloc: Global, name: Name, arguments: Vec<Term>) -> Result<Term, NoMemory>
    ensures { IfOk result
        (λ t. tree_of t ≡ applied_over tree_of (Atomic name) arguments.items) }
{
    if arguments.is_empty() {
        Ok(Term::Atom(name))
    } else {
        let args = Args::new(alloc, arguments)?;
        Ok(Term::Comp(name, args))
    }
}

/// The tuple of a ground term of such a size.
#[inline(always)]
pub(crate) fn tuple_of(term: Term) -> Ground
    requires ground { IsTrue (is_ground (tree_of term)) }
    requires small { IsWithin (tree_of term) most_depth whole }
    ensures term { result ≡ tree_of term }
    ensures tuple { IsTuple (tree_of term) }
{
    match Ground::of(term) {
        Ok(tuple) => tuple,
        Err(_) => unreachable!(),
    }
}

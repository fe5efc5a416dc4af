//! Making two nodes equal: links between their nodes, or the finding that nothing makes them equal.
ghost use Rattle.std.specs.Prelude.{◌≡◌, ◌≤◌, ◌++◌, ◌∷◌, [], false, IfOk, OnOk, IsTrue};
ghost use Rattle.tc_unify.specs.Tables.{Extends};
ghost use Rattle.tc_unify.specs.Arena.{AreNodesOf};
ghost use Rattle.tc_unify.specs.Meeting.{IsLinked, Leads, Fails, work};

use crate::links::Links;
use crate::nodes::{Arena, FIRST_NAME, FIRST_VARIABLE, Heads};
use tc_lists::NoMemory;

/// Whether all the pairs can be made equal, which links their nodes.
///
/// Takes the time of the pairs that are met and of the links that are followed.
pub(crate) fn unify(
    arena: &Arena,
    links: &mut Links,
    waiting: &mut Vec<(usize, usize)>,
) -> Result<bool, NoMemory>
    requires linked { IsLinked arena.now links.old }
    requires nodes { AreNodesOf arena.now waiting.old.items }
    ensures met { IfOk result
        (λ met. IsTrue met → Leads arena.now links.old waiting.old.items links.new []) }
    ensures failed { IfOk result
        (λ met. met ≡ false → Fails arena.now links.old waiting.old.items) }
    ensures linked { IsLinked arena.now links.new }
    ensures extends { Extends links.old links.new }
{
    while let Some(pair) = waiting.pop() {
        if !meet(arena, links, waiting, pair)? {
            return Ok(false);
        }
    }
    Ok(true)
}

// Meets one pair: it links the roots of its nodes, and leaves the pairs that this asks for.
fn meet(
    arena: &Arena,
    links: &mut Links,
    waiting: &mut Vec<(usize, usize)>,
    pair: (usize, usize),
) -> Result<bool, NoMemory>
    requires linked { IsLinked arena.now links.old }
    requires nodes { AreNodesOf arena.now (waiting.old.items ++ pair ∷ []) }
    ensures met { IfOk result
        (λ met. IsTrue met
        → Leads arena.now links.old (waiting.old.items ++ pair ∷ [])
        links.new waiting.new.items) }
    ensures failed { IfOk result
        (λ met. met ≡ false → Fails arena.now links.old (waiting.old.items ++ pair ∷ [])) }
    ensures nodes { OnOk result (AreNodesOf arena.now waiting.new.items) }
    ensures work { OnOk result
        (work links.new waiting.new.items ≤ work links.old waiting.old.items) }
    ensures linked { IsLinked arena.now links.new }
    ensures extends { Extends links.old links.new }
{
    let left = links.end(pair.0);
    let right = links.end(pair.1);
    let from = left.max(right);
    let to = left.min(right);
    if from == to {
        return Ok(true);
    }
    if from >= FIRST_VARIABLE {
        links.join(from, to)?;
        return Ok(true);
    }
    if from >= FIRST_NAME {
        return Ok(false);
    }
    match arena.heads(from, to) {
        Heads::Clash => Ok(false),
        Heads::Same => {
            links.join(from, to)?;
            Ok(true)
        }
        Heads::Last { arguments } => {
            waiting.push(arguments)?;
            links.join(from, to)?;
            Ok(true)
        }
        Heads::Pairs { arguments, heads } => {
            waiting.push(arguments)?;
            waiting.push(heads)?;
            links.join(from, to)?;
            Ok(true)
        }
    }
}

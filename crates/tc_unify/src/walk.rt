//! The occurs check: a walk over the nodes below those that were linked, with a list of its own.
ghost use Rattle.std.specs.Prelude.{◌≡◌, ℕ, ◌<◌, ◌≤◌, ◌⊎◌, ◌∷◌, ◌++◌, [], false, drop};
ghost use Rattle.std.specs.Prelude.{length, get_or, set, IfOk, OnOk, IsTrue, All};
ghost use Rattle.tc_unify.specs.Arena.{shape_of, IsNodeOf};
ghost use Rattle.tc_unify.specs.Links.{IsFiniteVariable};
ghost use Rattle.tc_unify.specs.Tables.{link_of};
ghost use Rattle.tc_unify.specs.Meeting.{IsLinked};
ghost use Rattle.tc_unify.specs.Walks.{HasNoTrees};
ghost use Rattle.tc_unify.specs.WalkMarks.{IsUnmarked, IsMarked, IsStarted, IsEndless};
ghost use Rattle.tc_unify.specs.WalkMarks.{IsListed, Knows, KeepsBelow, steps_of, walk_work};

use crate::links::Links;
use crate::nodes::{Arena, FIRST_NAME, FIRST_VARIABLE, Node};
use tc_lists::NoMemory;

/// What a walk knows of a node: nothing, that it was entered and not left, or that it is finite.
#[derive(Clone, Copy)]
pub(crate) enum Mark {
    Unseen,
    Open,
    Finite,
}

/// What is still to be done, the last first.
#[derive(Clone, Copy)]
pub(crate) enum Step {
    Enter(usize),
    Leave(usize),
}

/// The marks of nodes, which are `Unseen` between walks, and the scratch lists of a walk.
#[derive(Drop)]
pub(crate) struct Walk {
    pub(crate) marks: Vec<Mark>,
    pub(crate) steps: Vec<Step>,
    pub(crate) seen: Vec<usize>,
}

/// Whether the variables that were linked from this place of the trail on stand for finite trees.
///
/// Takes the time of the nodes below them, each counted once, and of the links that are followed.
pub(crate) fn are_finite(
    arena: &Arena,
    links: &Links,
    walk: &mut Walk,
    from: usize,
) -> Result<bool, NoMemory>
    requires linked { IsLinked arena.now links.now }
    requires unmarked { IsUnmarked walk.old }
    requires place { from ≤ length links.now.trail.items }
    ensures finite { IfOk result
        (λ finite. IsTrue finite
        → All (IsFiniteVariable (shape_of arena.now) (link_of links.now))
        (drop from links.now.trail.items)) }
    ensures endless { IfOk result
        (λ finite. finite ≡ false → HasNoTrees (shape_of arena.now) (link_of links.now)) }
    ensures unmarked { IsUnmarked walk.new }
{
    let finite = walk_below(arena, links, walk, &links.trail[from..]);
    unmark(walk);
    finite
}

// Takes back the marks of the nodes that were seen.
fn unmark(walk: &mut Walk)
    requires { IsMarked walk.old }
    ensures { IsUnmarked walk.new }
{
    take_back(&mut walk.marks, &walk.seen);
    walk.seen.clear();
    walk.steps.clear();
}

// Takes back the marks of these nodes.
fn take_back(marks: &mut Vec<Mark>, seen: &[usize])
    requires listed { (k : ℕ)
        → (get_or marks.old.items k Mark.Unseen ≡ Mark.Unseen) ⊎ IsListed seen.now k }
    requires within { All (λ k. k < length marks.old.items) seen.now }
    ensures unseen { All (λ m. m ≡ Mark.Unseen) marks.new.items }
    ensures size { length marks.new.items ≡ length marks.old.items }
{
    for node in seen {
        marks[*node] = Mark::Unseen;
    }
}

// Walks over the nodes below the variables among some nodes.
//
// Marks are filled only where there is something to walk over.
fn walk_below(
    arena: &Arena,
    links: &Links,
    walk: &mut Walk,
    nodes: &[usize],
) -> Result<bool, NoMemory>
    requires linked { IsLinked arena.now links.now }
    requires unmarked { IsUnmarked walk.old }
    requires nodes { All (IsNodeOf arena.now) nodes.now }
    ensures finite { IfOk result
        (λ finite. IsTrue finite
        → All (IsFiniteVariable (shape_of arena.now) (link_of links.now)) nodes.now) }
    ensures endless { IfOk result
        (λ finite. finite ≡ false → HasNoTrees (shape_of arena.now) (link_of links.now)) }
    ensures marked { IsMarked walk.new }
{
    push_bound(arena, links, &mut walk.steps, nodes)?;
    if walk.steps.is_empty() {
        return Ok(true);
    }
    push_unseen(&mut walk.marks, arena.nodes.len())?;
    while let Some(step) = walk.steps.pop() {
        match step {
            Step::Enter(node) => {
                if !enter(arena, links, walk, node)? {
                    return Ok(false);
                }
            }
            Step::Leave(node) => {
                walk.marks[node] = Mark::Finite;
            }
        }
    }
    Ok(true)
}

// Puts what is to be entered: the variables among some nodes that stand for a term with arguments.
fn push_bound(
    arena: &Arena,
    links: &Links,
    steps: &mut Vec<Step>,
    nodes: &[usize],
) -> Result<(), NoMemory>
    requires linked { IsLinked arena.now links.now }
    requires none { steps.old.items ≡ [] }
    requires nodes { All (IsNodeOf arena.now) nodes.now }
    ensures { OnOk result (IsStarted arena.now links.now nodes.now steps.new.items) }
{
    for node in nodes {
        if is_bound(arena, links, *node) {
            steps.push(Step::Enter(*node))?;
        }
    }
    Ok(())
}

// Whether a node is a variable that stands for a term with arguments.
fn is_bound(arena: &Arena, links: &Links, node: usize) -> bool
    requires linked { IsLinked arena.now links.now }
    requires node { IsNodeOf arena.now node }
    ensures { result ≡ false → IsFiniteVariable (shape_of arena.now) (link_of links.now) node }
{
    if node < FIRST_VARIABLE {
        return false;
    }
    let end = links.end(node);
    if end >= FIRST_NAME {
        return false;
    }
    match arena.nodes[end] {
        Node::Apply { .. } => true,
        _ => false,
    }
}

// Fills the marks of nodes that were not seen, up to this length.
fn push_unseen(marks: &mut Vec<Mark>, len: usize) -> Result<(), NoMemory>
    requires { All (λ m. m ≡ Mark.Unseen) marks.old.items }
    ensures full { OnOk result (len ≤ length marks.new.items) }
    ensures unseen { All (λ m. m ≡ Mark.Unseen) marks.new.items }
{
    while marks.len() < len {
        marks.push(Mark::Unseen)?;
    }
    Ok(())
}

// Enters a node, unless it is known to be finite. False where it stands below itself.
fn enter(arena: &Arena, links: &Links, walk: &mut Walk, node: usize) -> Result<bool, NoMemory>
    requires linked { IsLinked arena.now links.now }
    requires marked { IsMarked walk.old }
    requires known { Knows arena.now links.now walk.old }
    requires room { length arena.now.nodes.items ≤ length walk.old.marks.items }
    requires node { IsNodeOf arena.now node }
    ensures keeps { IfOk result
        (λ entered. IsTrue entered
        → KeepsBelow arena.now links.now
        (Step.Enter node ∷ steps_of walk.old) (steps_of walk.new)) }
    ensures endless { IfOk result
        (λ entered. entered ≡ false
        → IsEndless arena.now links.now (Step.Enter node ∷ steps_of walk.old)) }
    ensures known { OnOk result (Knows arena.now links.now walk.new) }
    ensures work { OnOk result (walk_work walk.new ≤ walk_work walk.old) }
    ensures room { length walk.new.marks.items ≡ length walk.old.marks.items }
    ensures marked { IsMarked walk.new }
{
    let root = links.end(node);
    if root >= FIRST_NAME {
        return Ok(true);
    }
    let Node::Apply { head, argument } = arena.nodes[root] else {
        return Ok(true);
    };
    match walk.marks[root] {
        Mark::Finite => Ok(true),
        Mark::Open => Ok(false),
        Mark::Unseen => {
            push_below(walk, root, head, argument)?;
            Ok(true)
        }
    }
}

// Marks a node as open, and puts what is to be done below it.
fn push_below(walk: &mut Walk, node: usize, head: usize, argument: usize) -> Result<(), NoMemory>
    requires { node < length walk.old.marks.items }
    ensures marks { OnOk result (walk.new.marks.items ≡ set walk.old.marks.items node Mark.Open) }
    ensures steps { OnOk result
        (walk.new.steps.items
        ≡ walk.old.steps.items
        ++ (Step.Leave node ∷ Step.Enter argument ∷ Step.Enter head ∷ [])) }
    ensures seen { OnOk result (walk.new.seen.items ≡ walk.old.seen.items ++ node ∷ []) }
    ensures room { length walk.new.marks.items ≡ length walk.old.marks.items }
    ensures marked { IsMarked walk.old → IsMarked walk.new }
{
    walk.seen.push(node)?;
    walk.steps.push(Step::Leave(node))?;
    walk.steps.push(Step::Enter(argument))?;
    walk.steps.push(Step::Enter(head))?;
    walk.marks[node] = Mark::Open;
    Ok(())
}

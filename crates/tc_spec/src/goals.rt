//! Goals by their names and how many arguments they have.
ghost use Rattle.std.specs.Prelude.{◌≡◌, ◌≢◌, IfNone, IfOk, IfSome};
ghost use Rattle.tc_term.specs.TreeView.{tree_of};
ghost use Rattle.tc_term.specs.Tree.{Atomic};
ghost use Rattle.tc_model.specs.Reactions.{goal_op_name, goal_term, of_one, of_two};
ghost use Rattle.tc_spec.specs.Goals.{IsGoalOf, one_name, two_name};

use std::alloc::Global;
use tc_lists::NoMemory;
use tc_model::{EventOp, Form, Goal};
use tc_term::{Cmp, Term};

/// The goal whose term this is in a clause of this form, if there is one.
pub fn goal_of(alloc: Global, form: Form, t: &Term) -> Result<Option<Goal>, NoMemory>
    ensures { IfOk result (λ found. IsGoalOf form (tree_of t.now) found) }
{
    match t {
        Term::Atom(name) => Ok(goal_of_none(form, name.bytes())),
        Term::Comp(name, args) => match args.items() {
            [x] => goal_of_one(alloc, form, name.bytes(), x),
            [x, y] => goal_of_two(alloc, form, name.bytes(), x, y),
            _ => Ok(None),
        },
        _ => Ok(None),
    }
}

// The goal of this name without an argument.
fn goal_of_none(form: Form, name: &[u8]) -> Option<Goal>
    ensures { IsGoalOf form (Atomic name.now) result }
{
    if name == b"pre".as_slice() {
        Some(Goal::Pre)
    } else if name == b"post".as_slice() {
        Some(Goal::Post)
    } else if name == b"success".as_slice() {
        Some(Goal::Success)
    } else if name == b"failure".as_slice() {
        Some(Goal::Failure)
    } else if name == b"true".as_slice() {
        Some(Goal::True)
    } else {
        None
    }
}

// The goal of this name with one argument.
fn goal_of_one(alloc: Global, form: Form, name: &[u8], x: &Term) -> Result<Option<Goal>, NoMemory>
    ensures { IfOk result (λ found. IsGoalOf form (of_one name.now (tree_of x.now)) found) }
{
    let kind = one_of(form, name);
    let Some(kind) = kind else {
        return Ok(None);
    };
    let x = x.copy(alloc)?;
    Ok(Some(with_one(form, kind, x)))
}

// The goal of this name with two arguments.
fn goal_of_two(
    alloc: Global,
    form: Form,
    name: &[u8],
    x: &Term,
    y: &Term,
) -> Result<Option<Goal>, NoMemory>
    ensures { IfOk result
        (λ found. IsGoalOf form (of_two name.now (tree_of x.now) (tree_of y.now)) found) }
{
    let kind = two_of(name);
    let Some(kind) = kind else {
        return Ok(None);
    };
    let x = x.copy(alloc)?;
    let y = y.copy(alloc)?;
    Ok(Some(with_two(form, kind, x, y)))
}

/// A goal of one argument.
#[derive(Clone, Copy)]
pub enum One {
    OutR,
    InR,
    RdR,
    NoR,
    Agent,
    Centre,
    Operation,
    Tuple,
}

/// A goal of two arguments.
#[derive(Clone, Copy)]
pub enum Two {
    Equal,
    Differ,
    Is,
    Compare(Cmp),
}

// The goal of one argument with this name.
fn one_of(form: Form, name: &[u8]) -> Option<One>
    ensures some { IfSome result (λ kind. one_name form kind ≡ name.now) }
    ensures none { IfNone result ((kind : One) → one_name form kind ≢ name.now) }
{
    if name == goal_op_name(form, EventOp::OutR) {
        Some(One::OutR)
    } else if name == goal_op_name(form, EventOp::InR) {
        Some(One::InR)
    } else if name == goal_op_name(form, EventOp::RdR) {
        Some(One::RdR)
    } else if name == goal_op_name(form, EventOp::NoR) {
        Some(One::NoR)
    } else if name == b"current_agent".as_slice() {
        Some(One::Agent)
    } else if name == b"current_tc".as_slice() {
        Some(One::Centre)
    } else if name == b"current_op".as_slice() {
        Some(One::Operation)
    } else if name == b"current_tuple".as_slice() {
        Some(One::Tuple)
    } else {
        None
    }
}

/// The name of a goal that works on tuples, in a clause of this form.
pub fn goal_op_name(form: Form, op: EventOp) -> &'static [u8]
    ensures { result.now ≡ goal_op_name form op }
{
    match form {
        Form::Two => op.name(),
        Form::Three => match op {
            EventOp::OutR => b"out",
            EventOp::InR => b"in",
            EventOp::RdR => b"rd",
            EventOp::NoR => b"no",
            EventOp::Out
            | EventOp::In
            | EventOp::Rd
            | EventOp::Inp
            | EventOp::Rdp
            | EventOp::No
            | EventOp::Nop => op.name(),
        },
    }
}

// The goal of two arguments with this name.
fn two_of(name: &[u8]) -> Option<Two>
    ensures some { IfSome result (λ kind. two_name kind ≡ name.now) }
    ensures none { IfNone result ((kind : Two) → two_name kind ≢ name.now) }
{
    if name == b"=".as_slice() {
        Some(Two::Equal)
    } else if name == b"\\=".as_slice() {
        Some(Two::Differ)
    } else if name == b"is".as_slice() {
        Some(Two::Is)
    } else if name == b"=:=".as_slice() {
        Some(Two::Compare(Cmp::Eq))
    } else if name == b"=\\=".as_slice() {
        Some(Two::Compare(Cmp::Ne))
    } else if name == b"<".as_slice() {
        Some(Two::Compare(Cmp::Lt))
    } else if name == b">".as_slice() {
        Some(Two::Compare(Cmp::Gt))
    } else if name == b"=<".as_slice() {
        Some(Two::Compare(Cmp::Le))
    } else if name == b">=".as_slice() {
        Some(Two::Compare(Cmp::Ge))
    } else {
        None
    }
}

// The goal of this kind and this argument.
fn with_one(form: Form, kind: One, x: Term) -> Goal
    ensures { goal_term form result ≡ of_one (one_name form kind) (tree_of x) }
{
    match kind {
        One::OutR => Goal::OutR(x),
        One::InR => Goal::InR(x),
        One::RdR => Goal::RdR(x),
        One::NoR => Goal::NoR(x),
        One::Agent => Goal::Agent(x),
        One::Centre => Goal::Centre(x),
        One::Operation => Goal::Operation(x),
        One::Tuple => Goal::Tuple(x),
    }
}

// The goal of this kind and these arguments.
fn with_two(form: Form, kind: Two, x: Term, y: Term) -> Goal
    ensures { goal_term form result ≡ of_two (two_name kind) (tree_of x) (tree_of y) }
{
    match kind {
        Two::Equal => Goal::Equal(x, y),
        Two::Differ => Goal::Differ(x, y),
        Two::Is => Goal::Is(x, y),
        Two::Compare(cmp) => Goal::Compare(cmp, x, y),
    }
}

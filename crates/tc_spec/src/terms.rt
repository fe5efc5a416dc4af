//! Reactions as the terms that they are written as.
ghost use Rattle.std.specs.Prelude.{◌≡◌, IfOk, map};
ghost use Rattle.tc_term.specs.TreeView.{tree_of};
ghost use Rattle.tc_model.specs.Events.{op_name};
ghost use Rattle.tc_model.specs.Reactions.{clause_of_form, clause_term, cmp_name, goal_term};
ghost use Rattle.tc_model.specs.Reactions.{guard_term, of_one, of_three, of_two, test_term};
ghost use Rattle.tc_spec.specs.Written.{nested};

use crate::goals::goal_op_name;
use std::alloc::Global;
use tc_lists::NoMemory;
use tc_model::{EventOp, Form, Goal, GuardTest, Reaction};
use tc_term::{Args, Cmp, Name, Term};

/// The clause that a reaction is written as.
pub fn clause_of(alloc: Global, r: &Reaction) -> Result<Term, NoMemory>
    ensures { IfOk result (λ t. tree_of t ≡ clause_term r.now) }
{
    let form = r.form();
    let terms = terms_of(alloc, form, r.goals())?;
    let clause = clause_of_terms(alloc, form, r.op(), r.head(), r.guard(), terms)?;
    Ok(clause)
}

/// The clause of a form, of a head and a guard, and of these terms as its body, with commas
/// between.
pub fn clause_of_terms(
    alloc: Global,
    form: Form,
    op: EventOp,
    head: &Term,
    guard: &[GuardTest],
    terms: Vec<Term>,
) -> Result<Term, NoMemory>
    ensures { IfOk result (λ t. tree_of t
        ≡ clause_of_form form (of_one (op_name op) (tree_of head.now)) (guard_term guard.now)
        (nested (map tree_of terms.items))) }
{
    let term = head.copy(alloc)?;
    let head = one(alloc, op.name(), term)?;
    let body = nest(alloc, terms)?;
    match form {
        Form::Two => two(alloc, b"reaction", head, body),
        Form::Three => {
            let guard = guard_of(alloc, guard)?;
            three(alloc, b"reaction", head, guard, body)
        }
    }
}

// The term that a guard is written as.
fn guard_of(alloc: Global, guard: &[GuardTest]) -> Result<Term, NoMemory>
    ensures { IfOk result (λ t. tree_of t ≡ guard_term guard.now) }
{
    if guard.is_empty() {
        return atom(alloc, b"true");
    }
    let terms = terms_of_tests(alloc, guard)?;
    let nested = nest(alloc, terms)?;
    Ok(nested)
}

// The terms that tests are written as.
fn terms_of_tests(alloc: Global, tests: &[GuardTest]) -> Result<Vec<Term>, NoMemory>
    ensures { IfOk result (λ terms. map tree_of terms.items ≡ map test_term tests.now) }
{
    let mut terms = Vec::with_capacity(alloc, tests.len())?;
    for test in tests {
        let term = atom(alloc, test.name())?;
        terms.push(term)?;
    }
    Ok(terms)
}

// The terms that goals are written as in a clause of this form.
fn terms_of(alloc: Global, form: Form, goals: &[Goal]) -> Result<Vec<Term>, NoMemory>
    ensures { IfOk result (λ terms. map tree_of terms.items ≡ map (goal_term form) goals.now) }
{
    let mut terms = Vec::with_capacity(alloc, goals.len())?;
    for goal in goals {
        let term = term_of(alloc, form, goal)?;
        terms.push(term)?;
    }
    Ok(terms)
}

// The terms with commas between, nested to the right.
fn nest(alloc: Global, mut terms: Vec<Term>) -> Result<Term, NoMemory>
    ensures { IfOk result (λ t. tree_of t ≡ nested (map tree_of terms.items)) }
{
    let Some(mut body) = terms.pop() else {
        return Ok(Term::Atom(Name::new(alloc, b"")?));
    };
    while let Some(term) = terms.pop() {
        body = two(alloc, b",", term, body)?;
    }
    Ok(body)
}

// The term that a goal is written as in a clause of this form.
fn term_of(alloc: Global, form: Form, goal: &Goal) -> Result<Term, NoMemory>
    ensures { IfOk result (λ t. tree_of t ≡ goal_term form goal.now) }
{
    match goal {
        Goal::OutR(t) => one(alloc, goal_op_name(form, EventOp::OutR), t.copy(alloc)?),
        Goal::InR(t) => one(alloc, goal_op_name(form, EventOp::InR), t.copy(alloc)?),
        Goal::RdR(t) => one(alloc, goal_op_name(form, EventOp::RdR), t.copy(alloc)?),
        Goal::NoR(t) => one(alloc, goal_op_name(form, EventOp::NoR), t.copy(alloc)?),
        Goal::Pre => atom(alloc, b"pre"),
        Goal::Post => atom(alloc, b"post"),
        Goal::Success => atom(alloc, b"success"),
        Goal::Failure => atom(alloc, b"failure"),
        Goal::True => atom(alloc, b"true"),
        Goal::Agent(t) => one(alloc, b"current_agent", t.copy(alloc)?),
        Goal::Centre(t) => one(alloc, b"current_tc", t.copy(alloc)?),
        Goal::Operation(t) => one(alloc, b"current_op", t.copy(alloc)?),
        Goal::Tuple(t) => one(alloc, b"current_tuple", t.copy(alloc)?),
        Goal::Equal(s, t) => two(alloc, b"=", s.copy(alloc)?, t.copy(alloc)?),
        Goal::Differ(s, t) => two(alloc, b"\\=", s.copy(alloc)?, t.copy(alloc)?),
        Goal::Is(s, t) => two(alloc, b"is", s.copy(alloc)?, t.copy(alloc)?),
        Goal::Compare(cmp, s, t) => two(alloc, symbol(*cmp), s.copy(alloc)?, t.copy(alloc)?),
    }
}

// The symbol of a comparison.
fn symbol(cmp: Cmp) -> &'static [u8]
    ensures { result.now ≡ cmp_name cmp }
{
    match cmp {
        Cmp::Eq => b"=:=",
        Cmp::Ne => b"=\\=",
        Cmp::Lt => b"<",
        Cmp::Gt => b">",
        Cmp::Le => b"=<",
        Cmp::Ge => b">=",
    }
}

ghost use Rattle.tc_term.specs.Tree.{Atomic};

// An atom.
fn atom(alloc: Global, name: &[u8]) -> Result<Term, NoMemory>
    ensures { IfOk result (λ t. tree_of t ≡ Atomic name.now) }
{
    let name = Name::new(alloc, name)?;
    Ok(Term::Atom(name))
}

// A compound of one argument.
fn one(alloc: Global, name: &[u8], s: Term) -> Result<Term, NoMemory>
    ensures { IfOk result (λ t. tree_of t ≡ of_one name.now (tree_of s)) }
{
    let name = Name::new(alloc, name)?;
    let args = Args::one(alloc, s)?;
    Ok(Term::Comp(name, args))
}

// A compound of two arguments.
fn two(alloc: Global, name: &[u8], s: Term, u: Term) -> Result<Term, NoMemory>
    ensures { IfOk result (λ t. tree_of t ≡ of_two name.now (tree_of s) (tree_of u)) }
{
    let name = Name::new(alloc, name)?;
    let args = Args::two(alloc, s, u)?;
    Ok(Term::Comp(name, args))
}

// A compound of three arguments.
fn three(alloc: Global, name: &[u8], s: Term, t: Term, u: Term) -> Result<Term, NoMemory>
    ensures { IfOk result
        (λ x. tree_of x ≡ of_three name.now (tree_of s) (tree_of t) (tree_of u)) }
{
    let name = Name::new(alloc, name)?;
    let mut args = Vec::with_capacity(alloc, 3)?;
    args.push(s)?;
    args.push(t)?;
    args.push(u)?;
    let args = Args::new(alloc, args)?;
    Ok(Term::Comp(name, args))
}

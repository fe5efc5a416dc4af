//! Guards: terms as tests, and whether tests hold.
ghost use Rattle.std.specs.Prelude.{◌≡◌, ◌↔◌, ◌++◌, [], All, IfNone, IfOk, IfSome, IsTrue};
ghost use Rattle.std.specs.Prelude.{List, false, map};
ghost use Rattle.tc_term.specs.TreeView.{tree_of};
ghost use Rattle.tc_model.specs.Events.{Occurrence};
ghost use Rattle.tc_model.specs.Reactions.{test_term};
ghost use Rattle.tc_model.specs.Triggers.{Holds};
ghost use Rattle.tc_model.specs.declared.reactions.GuardTest.{GuardTest};
ghost use Rattle.tc_spec.specs.Guards.{Allows, Forbids, IsTestTerm};
ghost use Rattle.tc_spec.specs.Written.{IsGuardOf, leaves};

use crate::arguments::as_two;
use std::alloc::Global;
use tc_lists::NoMemory;
use tc_model::{GuardTest, MOST_TESTS, Phase, Sign, test_of};
use tc_term::Term;

/// The tests of a guard, if the term is one. Recurses as deep as the term is.
pub fn tests_of(alloc: Global, t: &Term) -> Result<Option<Vec<GuardTest>>, NoMemory>
    ensures tests { IfOk result
        (λ found. IfSome found (λ tests. IsGuardOf (tree_of t.now) tests.items)) }
    ensures none { IfOk result (λ found. IfNone found
        ((tests : List GuardTest) → IsGuardOf (tree_of t.now) tests → ⊥)) }
{
    let mut tests = Vec::new(alloc);
    if is_true(t) {
        return Ok(Some(tests));
    }
    let all = push_tests(t, &mut tests)?;
    if !all {
        return Ok(None);
    }
    if tests.len() > MOST_TESTS {
        return Ok(None);
    }
    Ok(Some(tests))
}

// Whether the term is `true`.
fn is_true(t: &Term) -> bool
    ensures { IsTrue result ↔ IsGuardOf (tree_of t.now) [] }
{
    match t {
        Term::Atom(name) => name.bytes() == b"true".as_slice(),
        _ => false,
    }
}

// Appends the tests of the leaves under commas, left to right, up to the first that is no test, and
// says whether all are.
fn push_tests(t: &Term, into: &mut Vec<GuardTest>) -> Result<bool, NoMemory>
    ensures all { IfOk result (λ all. IsTrue all → map test_term into.new.items
        ≡ map test_term into.old.items ++ leaves (tree_of t.now)) }
    ensures other { IfOk result
        (λ all. all ≡ false → All IsTestTerm (leaves (tree_of t.now)) → ⊥) }
{
    if let Some((left, right)) = as_two(t, b",") {
        let first = push_tests(left, into)?;
        if !first {
            return Ok(false);
        }
        return push_tests(right, into);
    }
    let Some(test) = test_in(t) else {
        return Ok(false);
    };
    into.push(test)?;
    Ok(true)
}

// The test that the term is, if it is one.
fn test_in(t: &Term) -> Option<GuardTest>
    ensures some { IfSome result (λ test. test_term test ≡ tree_of t.now) }
    ensures none { IfNone result ((test : GuardTest) → test_term test ≡ tree_of t.now → ⊥) }
{
    match t {
        Term::Atom(name) => test_of(name.bytes()),
        _ => None,
    }
}

/// Whether all tests hold of the events of this phase and sign. Takes no memory.
pub fn allows(tests: &[GuardTest], phase: Phase, sign: Sign) -> bool
    ensures yes { IsTrue result → Allows phase sign tests.now }
    ensures no { result ≡ false → Forbids phase sign tests.now }
{
    for i in 0..tests.len() {
        if !holds(tests[i], phase, sign) {
            return false;
        }
    }
    true
}

// Whether a test holds of the events of this phase and sign.
fn holds(test: GuardTest, phase: Phase, sign: Sign) -> bool
    ensures { (e : Occurrence) → e.phase ≡ phase → e.sign ≡ sign
        → (IsTrue result ↔ Holds e test) }
{
    match test {
        GuardTest::Request => phase == Phase::Pre,
        GuardTest::Response => phase == Phase::Post,
        GuardTest::Success => sign == Sign::Success,
        GuardTest::Failure => sign == Sign::Failure,
    }
}

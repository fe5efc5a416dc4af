//! The words that clauses begin with, and the arguments behind them.
ghost use Rattle.std.specs.Prelude.{◌≡◌, ◌≢◌, ◌<◌, ◌≤◌, ℕ, pos, IfNone, IfSome, length};
ghost use Rattle.tc_term.specs.Few.{AreMany, few_terms};
ghost use Rattle.tc_term.specs.Tree.{Number};
ghost use Rattle.tc_term.specs.TreeView.{tree_of, trees_of};
ghost use Rattle.tc_model.specs.declared.limits.TheConstants.{MOST_BUDGET};
ghost use Rattle.tc_config.specs.Words.{AreArguments, word_name};
ghost use Rattle.tc_config.specs.declared.words.Word.{Word};

use tc_model::MOST_BUDGET;
use tc_term::{Few, Term};

/// What a clause is about.
#[derive(Clone, Copy)]
pub enum Word {
    Centre,
    Tuple,
    Spec,
    Role,
    Grant,
    Agent,
    Script,
}

/// The arguments of a compound, where they are few.
#[derive(Drop)]
pub enum Arguments {
    One(Term),
    Two(Term, Term),
    Three(Term, Term, Term),
    Many,
}

/// The word of these bytes, if it is one.
pub fn word_of(name: &[u8]) -> Option<Word>
    ensures some { IfSome result (λ word. word_name word ≡ name.now) }
    ensures none { IfNone result ((word : Word) → word_name word ≢ name.now) }
{
    if name == b"centre".as_slice() {
        Some(Word::Centre)
    } else if name == b"tuple".as_slice() {
        Some(Word::Tuple)
    } else if name == b"spec".as_slice() {
        Some(Word::Spec)
    } else if name == b"role".as_slice() {
        Some(Word::Role)
    } else if name == b"grant".as_slice() {
        Some(Word::Grant)
    } else if name == b"agent".as_slice() {
        Some(Word::Agent)
    } else if name == b"script".as_slice() {
        Some(Word::Script)
    } else {
        None
    }
}

/// The arguments, each by itself where they are few.
pub fn arguments_of(args: Few) -> Arguments
    requires { AreMany args }
    ensures { AreArguments (trees_of (few_terms args)) result }
{
    match args {
        Few::One(a) => Arguments::One(a),
        Few::Two(a, b) => Arguments::Two(a, b),
        Few::Many(terms) => three_of(terms),
    }
}

// Three arguments, moved out of their list, or more.
fn three_of(mut terms: Vec<Term>) -> Arguments
    requires { 2 < length terms.items }
    ensures { AreArguments (trees_of terms.items) result }
{
    if terms.len() > 3 {
        return Arguments::Many;
    }
    match (terms.pop(), terms.pop(), terms.pop()) {
        (Some(c), Some(b), Some(a)) => Arguments::Three(a, b, c),
        _ => unreachable!(),
    }
}

/// The budget that the term is, if it is one: a number from 1 to 10,000.
pub fn budget_of(t: &Term) -> Option<u32>
    ensures some { IfSome result (λ b. tree_of t.now ≡ Number (pos b)) }
    ensures range { IfSome result (λ b. (1 ≤ b) × (b ≤ MOST_BUDGET)) }
    ensures none { IfNone result
        ((b : ℕ) → 1 ≤ b → b ≤ MOST_BUDGET → tree_of t.now ≡ Number (pos b) → ⊥) }
{
    match t {
        Term::Int(n) if 1 <= *n && *n <= MOST_BUDGET as i64 => Some(*n as u32),
        Term::Int(_) | Term::Var(_) | Term::Atom(_) | Term::Comp(..) => None,
    }
}

//! The numbers to which tuples evaluate, and how numbers compare.
ghost use Rattle.std.specs.Prelude.{◌≡◌};
ghost use Rattle.tc_term.specs.Arithmetic.{evaluated, holds, value_on_one, value_on_two};
ghost use Rattle.tc_term.specs.TreeView.{tree_of};

use crate::operators::{difference, modulo, opposite, product, quotient, sum};
use tc_term::{Cmp, Ground, Term};

/// The number to which a tuple evaluates.
///
/// `None` where it has another part than numbers and operators, divides by zero, or has a part that
/// is no number of 64 bits. Recurses as deep as the tuple is.
pub fn eval(t: &Ground) -> Option<i64>
    ensures { result ≡ evaluated t.now }
{
    evaluate(t.term())
}

/// Whether a comparison holds.
pub fn compare(op: Cmp, a: i64, b: i64) -> bool
    ensures { result ≡ holds op a b }
{
    match op {
        Cmp::Eq => a == b,
        Cmp::Ne => a != b,
        Cmp::Lt => a < b,
        Cmp::Gt => a > b,
        Cmp::Le => a <= b,
        Cmp::Ge => a >= b,
    }
}

// The number to which a term evaluates.
#[tactic(auto, using(crate::proofs::Arities::many))]
fn evaluate(t: &Term) -> Option<i64>
    ensures { result ≡ evaluated (tree_of t.now) }
{
    match t {
        Term::Int(n) => Some(*n),
        Term::Comp(name, args) => {
            let terms = args.items();
            if terms.len() == 1 {
                let x = evaluate(&terms[0])?;
                apply_one(name.bytes(), x)
            } else if terms.len() == 2 {
                let x = evaluate(&terms[0])?;
                let y = evaluate(&terms[1])?;
                apply_two(name.bytes(), x, y)
            } else {
                None
            }
        }
        Term::Var(_) | Term::Atom(_) => None,
    }
}

// What an operator makes of one number.
fn apply_one(name: &[u8], x: i64) -> Option<i64>
    ensures { result ≡ value_on_one name.now x }
{
    if name == b"-".as_slice() {
        opposite(x)
    } else {
        None
    }
}

// What an operator makes of two numbers.
fn apply_two(name: &[u8], x: i64, y: i64) -> Option<i64>
    ensures { result ≡ value_on_two name.now x y }
{
    if name == b"+".as_slice() {
        sum(x, y)
    } else if name == b"-".as_slice() {
        difference(x, y)
    } else if name == b"*".as_slice() {
        product(x, y)
    } else if y == 0 {
        None
    } else if name == b"//".as_slice() {
        quotient(x, y)
    } else if name == b"mod".as_slice() {
        Some(modulo(x, y))
    } else {
        None
    }
}

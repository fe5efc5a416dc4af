//! Equations of terms that have variables on both sides.
use crate::values::{Values, filled};
use std::alloc::Global;
use tc_lists::NoMemory;
use tc_term::Term;

// How many variables a clause has at most. Those of an event stand behind them.
const MOST_VARIABLES: u32 = 256;

// Where two terms differ first, read from the left.
enum Difference<'t> {
    Nowhere,
    // At a variable of one, where the other has this.
    Variable(u32, &'t Term),
    Beyond,
}

/// Makes two terms equal by what their variables stand for, if that can be done.
pub fn equate(
    alloc: Global,
    left: &Term,
    right: &Term,
    values: &mut Values,
) -> Result<bool, NoMemory> {
    // Each turn but the last gives a further variable its value.
    for _ in 0..=MOST_VARIABLES.saturating_mul(2) {
        let ours = filled(alloc, left, values)?;
        let theirs = filled(alloc, right, values)?;
        if let Some(is_equal) = go_nearer(alloc, &ours, &theirs, values)? {
            return Ok(is_equal);
        }
    }
    Ok(false)
}

// Whether the terms are equal, or can't be made so; or else a further variable has its value then.
fn go_nearer(
    alloc: Global,
    left: &Term,
    right: &Term,
    values: &mut Values,
) -> Result<Option<bool>, NoMemory> {
    match first_difference(left, right) {
        Difference::Nowhere => Ok(Some(true)),
        Difference::Beyond => Ok(Some(false)),
        Difference::Variable(variable, other) => {
            if has_variable(other, variable) {
                return Ok(Some(false));
            }
            values.bind(alloc, variable, other)?;
            Ok(None)
        }
    }
}

// Where two terms differ first.
fn first_difference<'t>(left: &'t Term, right: &'t Term) -> Difference<'t> {
    match (left, right) {
        (Term::Var(ours), Term::Var(theirs)) if ours == theirs => Difference::Nowhere,
        (Term::Var(variable), _) => Difference::Variable(*variable, right),
        (_, Term::Var(variable)) => Difference::Variable(*variable, left),
        (Term::Atom(ours), Term::Atom(theirs)) if ours == theirs => Difference::Nowhere,
        (Term::Int(ours), Term::Int(theirs)) if ours == theirs => Difference::Nowhere,
        (Term::Comp(our, ours), Term::Comp(their, theirs)) => {
            if our != their || ours.items().len() != theirs.items().len() {
                return Difference::Beyond;
            }
            for (mine, yours) in ours.items().iter().zip(theirs.items()) {
                match first_difference(mine, yours) {
                    Difference::Nowhere => {}
                    found => return found,
                }
            }
            Difference::Nowhere
        }
        _ => Difference::Beyond,
    }
}

// Whether a variable stands in a term.
fn has_variable(term: &Term, variable: u32) -> bool {
    match term {
        Term::Var(other) => *other == variable,
        Term::Atom(_) | Term::Int(_) => false,
        Term::Comp(_, args) => {
            for arg in args.items() {
                if has_variable(arg, variable) {
                    return true;
                }
            }
            false
        }
    }
}

/// The term with other variables than those that any clause has.
pub fn apart(alloc: Global, term: &Term) -> Result<Term, NoMemory> {
    let mut others = Values::none(alloc);
    if !term.is_ground() {
        for variable in 0..MOST_VARIABLES {
            others.put(
                alloc,
                variable,
                &Term::Var(variable.saturating_add(MOST_VARIABLES)),
            )?;
        }
    }
    filled(alloc, term, &others)
}

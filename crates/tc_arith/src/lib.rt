//! Arithmetic on tuples, within the whole numbers of 64 bits.
//!
//! What a term evaluates to is defined beside terms; here it is computed. No memory is taken.
//!
//! ```rattle
//! let args = Args::two(alloc, Term::Int(-7), Term::Int(2))?;
//! let term = Term::Comp(Name::new(alloc, b"mod")?, args);
//! let tuple = Ground::of(term)?; // -7 mod 2
//! assert!(rt; eval(&tuple) == Some(1));
//! assert!(rt; compare(Cmp::Le, 1, 1));
//! ```
#![tactic(auto)]

mod evaluation;
mod laws;
mod operators;

pub use evaluation::{compare, eval};
pub use laws::{
    least_number_has_no_opposite, nothing_comes_of_overflow, remainder_has_sign_of_divisor,
};
pub use operators::{difference, modulo, opposite, product, quotient, sum};

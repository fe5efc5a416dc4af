//! Terms: ground terms that are tuples, and templates that match them.
//!
//! A term is plain data in contracts: a tree of variables, atoms, whole numbers and compounds. What
//! its text is, and what equations say of its variables, is defined here too. Nothing here knows of
//! operations or tuple centres.
//!
//! A term isn't changed once it is made, so its copies share their arguments: a copy takes a step on
//! a count and no memory.
//!
//! ```rattle
//! let args = Args::two(alloc, Term::Int(1), Term::Var(7))?;
//! let term = Term::Comp(Name::new(alloc, b"p")?, args);
//! let template = Pattern::of(term)?; // p(1,_0)
//! assert!(rt; template.vars() == 1);
//! let tuple = Ground::of(template.into_term());
//! assert!(rt; matches!(tuple, Err(NotTuple::NotGround(_))));
//! ```
#![tactic(auto)]

mod bytes;
mod comparison;
mod laws;
mod limits;
mod name;
mod numbering;
mod template;
mod terms;
mod tuple;

pub use bytes::{is_name, is_variable_start, is_word};
pub use comparison::Cmp;
pub use laws::{
    fewer_equations_have_more_solutions, good_terms_are_not_refused,
    ground_template_matches_itself, limits_of_terms, renumbering_keeps_matches,
    template_keeps_its_numbers, tuple_is_a_template, value_is_a_tuple, value_is_unique,
};
pub use limits::{
    MOST_BRACKETS, MOST_BYTES_OF_NAMES, MOST_DEPTH, MOST_NODES, MOST_VARIABLES, Room, fits,
};
pub use name::Name;
pub use tc_lists::NoMemory;
pub use template::{NotPattern, Pattern};
pub use terms::{Args, Few, Term};
pub use tuple::{Ground, NotTuple};

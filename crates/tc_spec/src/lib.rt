//! Specifications: terms as reactions, clauses as text, and which clauses an event triggers.
//!
//! An event triggers a clause of its operation whose guard holds of it, and whose head can be made
//! equal to the event's term, their variables kept apart. Nothing here knows of tuples, or of what
//! a body does.
//!
//! ```
//! let mut clauses = Clauses::new(alloc);
//! clauses.push(reaction_of(alloc, &template)?)?; // reaction(out(p(X)),(in_r(p(X)),out_r(q(X))))
//! let spec = Spec::of(alloc, clauses)?;
//! let mut store = Store::new(alloc, 0)?;
//! if spec.has_op(event.op()) {
//!     let numbers = spec.triggered(alloc, &mut store, &event, &mut steps)?; // from 1, rising
//! }
//! let mut text = Vec::new(alloc);
//! print_spec(alloc, spec.clauses(), &mut text)?;
//! ```
//!
//! | Module | Holds |
//! |---|---|
//! | `reading` | `reaction_of`: from a term to a reaction |
//! | `heads`, `arguments` | its head: the operation and the term |
//! | `guards` | its guard: the tests, and whether they hold |
//! | `bodies`, `leaves`, `goals` | its body: the leaves under commas as goals |
//! | `terms`, `brackets` | the clause that it is written as, and whether its text is read back |
//! | `texts`, `printing` | `read_spec` and `print_spec`: clauses from a text and as one |
//! | `spec` | `Spec`: clauses with an index |
//! | `codes`, `parts` | the index by codes of heads and by guards |
//! | `triggers` | which clauses an event triggers |
//! | `faults`, `laws` | why a term or a text is refused; laws for callers to cite |
#![tactic(auto)]

mod arguments;
mod bodies;
mod brackets;
mod codes;
mod faults;
mod goals;
mod guards;
mod heads;
mod laws;
mod leaves;
mod parts;
mod printing;
mod reading;
mod spec;
mod terms;
mod texts;
mod triggers;

pub use faults::{ReactionFault, SpecFault};
pub use laws::{
    a_term_is_a_reaction_or_has_one_cause, a_text_is_clauses_or_has_one_fault,
    clauses_of_a_text_are_unique, printed_clauses_are_read_back,
};
pub use printing::print_spec;
pub use reading::reaction_of;
pub use spec::Spec;
pub use tc_lists::NoMemory;
pub use texts::read_spec;

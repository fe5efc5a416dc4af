//! What roles may do at centres.
//!
//! Grants stand in order, and each may stand more than once: the first that says so permits. Roles
//! and centres are numbers here. Nothing here knows of their names.
//!
//! ```
//! let mut roles = Roles::new(alloc);
//! roles.add(Grant { role: 0, centre: 2, primitive: Primitive::Out })?;
//! assert!(rt; roles.permits(0, 2, Primitive::Out) == Some(1)); // the first grant
//! assert!(rt; roles.permits(0, 2, Primitive::In).is_none());
//! ```
#![tactic(auto)]

mod grants;
mod laws;
mod places;
mod roles;
mod warden;

pub use grants::{Grant, MOST_GRANTS};
pub use laws::{limits_are_these, numbers_are_of_grants};
pub use roles::Roles;
pub use tc_lists::NoMemory;

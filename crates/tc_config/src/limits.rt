//! The limits of a configuration.

/// The most bytes of its text.
pub const MOST_BYTES: usize = 16_777_216;

/// The most centres.
pub const MOST_CENTRES: usize = 64;

/// The most roles.
pub const MOST_ROLES: usize = 64;

/// The most agents.
pub const MOST_AGENTS: usize = 1_024;

/// The most items of all scripts together.
pub const MOST_ITEMS: usize = 100_000;

/// The budget of a centre for which the text gives none.
pub const USUAL_BUDGET: u32 = 1_000;

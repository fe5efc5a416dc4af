//! The limits of a centre.

/// The most bytes of an agent's or a centre's name.
pub const MOST_NAME_BYTES: usize = 65_535;

/// The most reactions to one phase of a call.
pub const MOST_BUDGET: u32 = 10_000;

/// The most tuples that a centre begins with.
pub const MOST_TUPLES: usize = 16_777_216;

/// The most clauses of a centre.
pub const MOST_CLAUSES: usize = 1_000;

/// The most goals of a reaction.
pub const MOST_GOALS: usize = 64;

/// The most tests of a guard.
pub const MOST_TESTS: usize = 16;

/// The most that a history weighs: each entry 1, and 1 for each of its reactions.
pub const MOST_WEIGHT: u64 = 4_000_000;

//! The limits of a call.

/// How many workers there are where the words don't tell.
pub const USUAL_WORKERS: usize = 4;

/// The most workers that words may tell.
pub const MOST_WORKERS: u64 = 64;

/// The most agents of a workload.
pub const MOST_AGENTS: u64 = 1_000;

/// The greatest start of a workload's generator.
pub const MOST_START: u64 = 18_446_744_073_709_551_615;

/// The greatest port.
pub const MOST_PORT: u64 = 65_535;

/// The most bytes of a configuration, a line that parts, and a text.
pub const MOST_INPUT: usize = 268_435_456;

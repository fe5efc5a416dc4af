//! The numbers of the workload.

/// How many centres there are; a word names one by its low two bits.
pub const CENTRES: u32 = 4;

/// How many scripts an agent has, each of which puts one tuple at the centre of a word.
pub const SCRIPTS: u32 = 6;

/// The stream of the generator.
pub const STREAM: u64 = 54;

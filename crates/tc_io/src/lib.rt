//! Bytes in and out: what is read from and what is written to, with every fault counted.
//!
//! A failure is told by a count that has risen, so that nothing else can be taken for one.
//! Nothing here knows what the bytes mean.
//!
//! ```
//! let mut source = MemSource::new(bytes, 4, Vec::new(alloc));
//! let text = read_all(alloc, &mut source, 8192)?;
//! let mut sink = MemSink::new(alloc, 4, Vec::new(alloc));
//! write_all(&mut sink, &text)?;
//! ```
#![tactic(auto)]

mod calls;
mod doors;
mod links;
mod memory;
mod outside;
mod pieces;
mod sinks;
mod sources;
mod sure;
mod whole;

pub use doors::{MemDoor, MemLink};
pub use links::{Door, Link, Stir};
pub use memory::{MemSink, MemSource};
pub use outside::{StdSink, StdSource};
pub use pieces::write_kept;
pub use sinks::{Sink, SinkFault};
pub use sources::{Failed, Source};
pub use sure::{SureSink, SureSource};
pub use whole::{InputFault, read_all, write_all};

/// Memory has run out.
pub use tc_lists::NoMemory;

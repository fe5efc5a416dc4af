//! The rows of logs, one line each.
use std::alloc::Global;
use tc_desk::LogRow;
use tc_histtext::{Version, print_row};
use tc_lists::NoMemory;

/// Appends the rows of a log.
pub fn append_log(alloc: Global, log: &[LogRow], into: &mut Vec<u8>) -> Result<(), NoMemory> {
    for row in log {
        print_row(alloc, Version::One, row, into)?;
    }
    Ok(())
}

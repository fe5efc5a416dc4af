//! The rows of a table: configurations, each behind a line with its name.
use std::alloc::Global;
use tc_lists::NoMemory;
use test_run_check::{append, append_all};

/// A configuration and its name.
#[derive(Drop)]
pub struct Row<'t> {
    pub name: &'t [u8],
    pub configuration: Vec<u8>,
}

/// The rows of a table, in order. What stands before the first is no row.
pub fn rows(alloc: Global, table: &[u8]) -> Result<Vec<Row<'_>>, NoMemory> {
    let mut rows: Vec<Row<'_>> = Vec::new(alloc);
    for line in table
        .strip_suffix(b"\n")
        .unwrap_or(table)
        .split(|byte| *byte == b'\n')
    {
        if let Some(name) = line.strip_prefix(b"%% ") {
            let configuration = Vec::new(alloc);
            append(
                &mut rows,
                Row {
                    name,
                    configuration,
                },
            )?;
        } else if let Some(row) = rows.last_mut() {
            append_all(&[line, b"\n"], &mut row.configuration)?;
        }
    }
    Ok(rows)
}

//! The rows of a table.
use std::alloc::Global;

/// What a centre begins with, and entries that may come next or not.
#[derive(Drop)]
pub struct Row<'t> {
    pub name: &'t [u8],
    pub budget: &'t [u8],
    pub clauses: &'t [u8],
    pub tuples: &'t [u8],
    pub entries: Vec<u8>,
}

/// The rows of a table, in order.
pub fn rows(alloc: Global, table: &[u8]) -> anyhow::Result<Vec<Row<'_>>> {
    let mut rows: Vec<Row<'_>> = Vec::new(alloc);
    for line in table
        .strip_suffix(b"\n")
        .unwrap_or(table)
        .split(|byte| *byte == b'\n')
    {
        if let Some(name) = line.strip_prefix(b"%% ") {
            rows.push(Row {
                name,
                budget: b"1000",
                clauses: b"",
                tuples: b"",
                entries: Vec::new(alloc),
            })?;
        } else if let Some(row) = rows.last_mut() {
            row.add_line(line)?;
        }
    }
    Ok(rows)
}

impl<'t> Row<'t> {
    // Takes in a line, which is one of the entries or tells what there is before them.
    fn add_line(&mut self, line: &'t [u8]) -> anyhow::Result<()> {
        if let Some(budget) = line.strip_prefix(b"%budget ") {
            self.budget = budget;
        } else if let Some(clauses) = line.strip_prefix(b"%clauses ") {
            self.clauses = clauses;
        } else if let Some(tuples) = line.strip_prefix(b"%tuples ") {
            self.tuples = tuples;
        } else {
            self.entries.extend_from_slice(line)?;
            self.entries.push(b'\n')?;
        }
        Ok(())
    }
}

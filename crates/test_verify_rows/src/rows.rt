//! The rows of a table: inputs, each of a configuration and a text.
use std::alloc::Global;
use tc_config::refused_text;
use tc_lists::NoMemory;
use tc_verify::{Judgement, Question, judge};

/// An input with its name.
#[derive(Drop)]
pub struct Row<'t> {
    name: &'t [u8],
    input: Vec<u8>,
}

/// The rows of a table, in order.
pub fn rows(alloc: Global, table: &[u8]) -> Result<Vec<Row<'_>>, NoMemory> {
    let mut rows: Vec<Row<'_>> = Vec::new(alloc);
    for line in table
        .strip_suffix(b"\n")
        .unwrap_or(table)
        .split(|byte| *byte == b'\n')
    {
        if let Some(name) = line.strip_prefix(b"== ") {
            rows.push(Row {
                name,
                input: Vec::new(alloc),
            })?;
        } else if let Some(row) = rows.last_mut() {
            row.add_line(line)?;
        }
    }
    Ok(rows)
}

impl Row<'_> {
    // Takes in a line of the input.
    fn add_line(&mut self, line: &[u8]) -> Result<(), NoMemory> {
        if let Some(last) = line.strip_prefix(b"%end ") {
            return self.input.extend_from_slice(last);
        }
        self.input.extend_from_slice(line)?;
        self.input.push(b'\n')?;
        Ok(())
    }
}

/// Prints the verdict on the row's input as the text of a run, and that on it as one of a service.
pub fn print_row(alloc: Global, row: &Row<'_>, into: &mut Vec<u8>) -> Result<(), NoMemory> {
    into.extend_from_slice(row.name)?;
    into.extend_from_slice(b": ")?;
    print_verdict(alloc, Question::Run, &row.input, into)?;
    into.extend_from_slice(b"; of a service: ")?;
    print_verdict(alloc, Question::Service, &row.input, into)?;
    into.push(b'\n')?;
    Ok(())
}

// Prints what an input comes to, without the end of its line.
fn print_verdict(
    alloc: Global,
    question: Question,
    input: &[u8],
    into: &mut Vec<u8>,
) -> Result<(), NoMemory> {
    match judge(alloc, question, input)? {
        Judgement::Judged(_, line) => print_line(line.items(), into),
        Judgement::Refused { clause, cause } => {
            print_line(&refused_text(alloc, clause, cause)?, into)
        }
    }
}

// Prints a line without its end.
fn print_line(line: &[u8], into: &mut Vec<u8>) -> Result<(), NoMemory> {
    into.extend_from_slice(line.strip_suffix(b"\n").unwrap_or(line))
}

//! The rows of a table, with their answers.
use crate::answers::BEGIN;
use crate::bags::{agree, answer_bag, match_alone};
use crate::equations::answer_equations;
use crate::names::{print_bytes, print_name_of, print_order, print_quoted_of};
use crate::numbers::{print_comparisons, print_value};
use crate::readings::{print_canonical, print_clauses, print_reading, print_unquoted};
use crate::terms::{print_built, print_fit, print_template, print_tuple};
use anyhow::anyhow;
use std::alloc::Global;
use tc_read::read_clause;
use tc_term::Term;
use test_texts::parts;

/// The table, with the answer of each row behind it.
pub fn answered(alloc: Global, table: &[u8]) -> anyhow::Result<Vec<u8>> {
    let mut into = Vec::new(alloc);
    let mut from = 0;
    while let Some((row, behind)) = read_clause(alloc, table, from)? {
        into.extend_from_slice(&table[from..behind])?;
        into.extend_from_slice(BEGIN)?;
        answer_row(alloc, row.term(), &mut into)?;
        from = behind;
    }
    into.extend_from_slice(&table[from..])?;
    Ok(into)
}

// Appends the answers of a row.
fn answer_row(alloc: Global, row: &Term, into: &mut Vec<u8>) -> anyhow::Result<()> {
    match parts(row) {
        (b"equations", args) => answer_equations(alloc, args, into),
        (b"bag", args) => answer_bag(alloc, args, into),
        (name, args) => {
            into.extend_from_slice(b" ")?;
            answer(alloc, name, args, into)
        }
    }
}

// Appends the answer of a row.
fn answer(alloc: Global, name: &[u8], args: &[Term], into: &mut Vec<u8>) -> anyhow::Result<()> {
    match name {
        b"read" => print_reading(alloc, args, into),
        b"clauses" => print_clauses(alloc, args, into),
        b"canonical" => print_canonical(alloc, args, into),
        b"unquoted" => print_unquoted(alloc, args, into),
        b"name" => print_name_of(alloc, args, into),
        b"quoted" => print_quoted_of(alloc, args, into),
        b"bytes" => print_bytes(alloc, args, into),
        b"order" => print_order(args, into),
        _ => answer_term(alloc, name, args, into),
    }
}

// Appends the answer of a row of one term or two.
fn answer_term(
    alloc: Global,
    name: &[u8],
    args: &[Term],
    into: &mut Vec<u8>,
) -> anyhow::Result<()> {
    match (name, args) {
        (b"print", [term]) => print_built(alloc, term, into),
        (b"fits", [term]) => print_fit(alloc, term, into),
        (b"tuple", [term]) => print_tuple(alloc, term, into),
        (b"template", [term]) => print_template(alloc, term, into),
        (b"matches", [template, tuple]) => match_alone(alloc, template, tuple, into),
        (b"agrees", [template, tuple]) => agree(alloc, template, tuple, into),
        (b"eval", [term]) => print_value(alloc, term, into),
        (b"compare", [Term::Int(left), Term::Int(right)]) => print_comparisons(*left, *right, into),
        _ => Err(anyhow!("no row has this form")),
    }
}

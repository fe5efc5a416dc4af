//! Calculations.
use crate::answers::{append_term, append_truth};
use crate::terms::tuple_of;
use std::alloc::Global;
use tc_arith::{compare, eval};
use tc_term::{Cmp, Term};

/// The number that a tuple is worth.
pub fn print_value(alloc: Global, term: &Term, into: &mut Vec<u8>) -> anyhow::Result<()> {
    match eval(&tuple_of(alloc, term)?) {
        Some(number) => append_term(alloc, &Term::Int(number), into)?,
        None => into.extend_from_slice(b"none")?,
    }
    Ok(())
}

/// Which comparisons of two numbers hold.
pub fn print_comparisons(left: i64, right: i64, into: &mut Vec<u8>) -> anyhow::Result<()> {
    let rows: [(&[u8], Cmp); 6] = [
        (b"=:= ", Cmp::Eq),
        (b", =\\= ", Cmp::Ne),
        (b", < ", Cmp::Lt),
        (b", > ", Cmp::Gt),
        (b", =< ", Cmp::Le),
        (b", >= ", Cmp::Ge),
    ];
    for (word, op) in rows {
        into.extend_from_slice(word)?;
        append_truth(compare(op, left, right), into)?;
    }
    Ok(())
}

//! What a turn of a centre costs, in some cases.
//!
//! With no argument it makes a few rounds of each case, and prints how many entries came of them and
//! how many tuples were told. With the words CASE SIZE ROUNDS it makes so many rounds of a case of this
//! size, and prints the nanoseconds of processor time that its calls took together, without building
//! them.
#![tactic(auto)]

mod builders;
mod cases;
mod desk;
mod fault;
mod rounds;

use anyhow::anyhow;
use cases::{Case, case_of};
use rounds::{Report, make_rounds};
use std::env;
use std::time::Duration;

// The size and the rounds of a case where nothing is measured.
const FEW: u32 = 10;

fn main(rt: HostRuntime) -> anyhow::Result<()> {
    let mut words = env::args(&rt)?.skip(1);
    let Some(name) = words.next() else {
        return count_all(&rt);
    };
    let case = case_of(name.as_bytes()).ok_or_else(|| anyhow!("no such case"))?;
    let size = number(words.next())?;
    let count = number(words.next())?;
    let report = make_rounds(&rt, case, size, count)?;
    println!(rt; "{} {size} {count} {}", case.name(), nanos(&report.time))?;
    Ok(())
}

// Makes a few rounds of each case, and prints what came of them.
fn count_all(rt: &HostRuntime) -> anyhow::Result<()> {
    for case in Case::all() {
        let report = make_rounds(rt, case, FEW, FEW)?;
        print_report(rt, case, &report)?;
    }
    Ok(())
}

fn print_report(rt: &HostRuntime, case: Case, report: &Report) -> anyhow::Result<()> {
    println!(rt;
        "{}: {} entries, {} tuples told, weight {}",
        case.name(),
        report.entries,
        report.told,
        report.weight
    )?;
    Ok(())
}

fn number(word: Option<String>) -> anyhow::Result<u32> {
    let word = word.ok_or_else(|| anyhow!("a number is missing"))?;
    word.as_str()
        .parse::<u32>()
        .map_err(|_| anyhow!("this is no number"))
}

fn nanos(time: &Duration) -> u64 {
    time.as_secs()
        .saturating_mul(1_000_000_000)
        .saturating_add(u64::from(time.subsec_nanos()))
}

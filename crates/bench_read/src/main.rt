//! Reads a text from standard input clause by clause, and prints how many clauses and nodes it has.
//!
//! With the argument `measure` it counts the clauses alone, and prints the processor time of that,
//! from the first byte on.
#![tactic(auto)]

mod count;

use count::{count_clauses, count_nodes};
use std::env;
use std::time::{CpuClock, Duration};
use tc_io::{StdSource, read_all};

/// The most bytes that a text may have.
const MOST_BYTES: usize = 128 << 20;

fn main(rt: HostRuntime) -> anyhow::Result<()> {
    let measured = env::args(&rt)?
        .skip(1)
        .any(|word| word.as_str() == "measure");
    let start = rt.process_cpu_time()?;
    let text = read_all(rt.alloc(), &mut StdSource::new(rt.stdin()), MOST_BYTES)?;
    let clauses = count_clauses(rt.alloc(), &text)?;
    let time = rt.process_cpu_time()?.saturating_sub(start);
    if measured {
        println!(rt; "{clauses} clauses")?;
        println!(rt; "{} microseconds", micros(&time))?;
    } else {
        let nodes = count_nodes(rt.alloc(), &text)?;
        println!(rt; "{clauses} clauses, {nodes} nodes")?;
    }
    Ok(())
}

fn micros(time: &Duration) -> u64 {
    time.as_secs()
        .saturating_mul(1_000_000)
        .saturating_add(u64::from(time.subsec_micros()))
}

//! How long one body of a reaction takes, in three cases, and how long it takes to find the clause
//! that an event triggers, among few and among many that differ by their heads or their guards.
//!
//! With no argument it does each a few times, and prints how many bodies fired and failed, and how
//! many clauses were triggered. With the argument `measure` it prints the nanoseconds of processor
//! time that one takes.
#![tactic(auto)]

mod bodies;
mod scenes;
mod tally;
mod triggers;

use bodies::Body;
use std::env;
use std::time::{CpuClock, Duration};
use tally::Tally;
use triggers::{Kind, find};

const FEW: u32 = 10;

const BODIES: u32 = 1_000_000;

const SEARCHES: u32 = 3_000_000;

fn main(rt: HostRuntime) -> anyhow::Result<()> {
    let measured = env::args(&rt)?
        .skip(1)
        .any(|word| word.as_str() == "measure");
    for body in [Body::Counter, Body::Fires, Body::Fails] {
        let count = if measured { BODIES } else { FEW };
        let start = rt.process_cpu_time()?;
        let tally = bodies::run(rt.alloc(), body, count)?;
        let time = rt.process_cpu_time()?.saturating_sub(start);
        if measured {
            println!(rt; "{} {}", body.name(), of_one(count, &time))?;
        } else {
            print_tally(&rt, body, &tally)?;
        }
    }
    for kind in [Kind::Named, Kind::Guarded] {
        for clauses in [10, 1_000] {
            measure_search(&rt, measured, kind, clauses)?;
        }
    }
    Ok(())
}

fn measure_search(
    rt: &HostRuntime,
    measured: bool,
    kind: Kind,
    clauses: u32,
) -> anyhow::Result<()> {
    let name = kind.name();
    let count = if measured { SEARCHES } else { FEW };
    let start = rt.process_cpu_time()?;
    let found = find(rt.alloc(), kind, clauses, count)?;
    let time = rt.process_cpu_time()?.saturating_sub(start);
    if measured {
        println!(rt; "{name}-{clauses} {}", of_one(count, &time))?;
    } else {
        println!(rt; "{name}-{clauses}: {found} triggered")?;
    }
    Ok(())
}

fn print_tally<R: Print>(rt: &R, body: Body, tally: &Tally) -> anyhow::Result<()> {
    println!(rt;
        "{}: {} fired, {} failed",
        body.name(),
        tally.fired,
        tally.failed
    )?;
    Ok(())
}

/// The nanoseconds of one.
fn of_one(count: u32, time: &Duration) -> u64 {
    let nanos = time
        .as_secs()
        .saturating_mul(1_000_000_000)
        .saturating_add(u64::from(time.subsec_nanos()));
    nanos / u64::from(count.max(1))
}

//! How many equations a second a store takes or refuses, in four cases.
//!
//! With no argument it makes a few additions of each case and prints how many were accepted and
//! refused. With the argument `measure` it prints how many of each were made in a second of
//! processor time.
#![tactic(auto)]

mod cases;
mod chains;
mod tally;

use cases::Case;
use std::env;
use std::time::{CpuClock, Duration};
use tally::Tally;

const FEW: u32 = 10;

fn main(rt: HostRuntime) -> anyhow::Result<()> {
    let measured = env::args(&rt)?
        .skip(1)
        .any(|word| word.as_str() == "measure");
    for case in [Case::Fresh, Case::Reused, Case::Chains, Case::Clash] {
        let additions = if measured { case.additions() } else { FEW };
        let start = rt.process_cpu_time()?;
        let tally = cases::additions(rt.alloc(), case, additions)?;
        let time = rt.process_cpu_time()?.saturating_sub(start);
        if measured {
            println!(rt; "{} {}", case.name(), a_second(additions, &time))?;
        } else {
            print_tally(&rt, case, &tally)?;
        }
    }
    Ok(())
}

fn print_tally<R: Print>(rt: &R, case: Case, tally: &Tally) -> anyhow::Result<()> {
    println!(rt;
        "{}: {} accepted, {} refused",
        case.name(),
        tally.accepted,
        tally.refused
    )?;
    Ok(())
}

fn a_second(additions: u32, time: &Duration) -> u64 {
    let nanos = time
        .as_secs()
        .saturating_mul(1_000_000_000)
        .saturating_add(u64::from(time.subsec_nanos()));
    u64::from(additions).saturating_mul(1_000_000_000) / nanos.max(1)
}

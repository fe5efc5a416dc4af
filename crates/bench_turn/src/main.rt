//! Turns at the turnstile and turns under std's `Mutex`, side by side: how many a second, and at what
//! processor time.
//!
//! With no argument it makes a few turns and prints their number. With the argument `measure` it
//! prints the table.
#![tactic(auto)]

mod measure;
mod table;
mod tally;

use measure::Load;
use std::env;

fn main(rt: HostRuntime) -> anyhow::Result<()> {
    if env::args(&rt)?
        .skip(1)
        .any(|word| word.as_str() == "measure")
    {
        return table::print(&rt, rt.alloc());
    }
    let load = Load {
        threads: 4,
        turns: 100,
        rounds: 10,
    };
    let at_turnstile = measure::at_turnstile(&rt, rt.alloc(), &load)?;
    let under_mutex = measure::under_mutex(&rt, rt.alloc(), &load)?;
    println!(rt;
        "{} turns at the turnstile, {} under the mutex",
        at_turnstile.turns, under_mutex.turns
    )?;
    Ok(())
}
